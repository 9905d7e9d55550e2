//! Runs of the flat machine, under choices that come one after the other.
ghost use Rattle.std.specs.Prelude.{◌≡◌, IfOk, OnOk, length};
ghost use Rattle.tso_terms.specs.Runs.{run_from, CoresExist};
ghost use Rattle.flat_machine.specs.State.{state_of_snapshot};

use crate::acting::{act, has_stalled};
use crate::ending::has_ended;
use crate::snapshot::Snapshot;
use scheduler::Choices;
use tso_laws::stalls_change_nothing;
use tso_terms::{NoMemory, Test};

/// Makes the choices one after the other, until the test has ended or none is left, and answers whether it has.
///
/// Errors: out of memory only.
pub fn drive<C: Choices>(
    state: &mut Snapshot,
    test: &Test,
    depth: u8,
    choices: &mut C,
) -> Result<bool, NoMemory>
    requires cores { length state.old.cores.items ≡ length test.now.programs }
    requires chosen { CoresExist (length test.now.programs) (C.coming choices.old) }
    ensures ended { IfOk result (λ b. b ≡ (run_from test.now depth (state_of_snapshot state.old) (C.coming choices.old)).ended) }
    ensures state { OnOk result (state_of_snapshot state.new ≡ (run_from test.now depth (state_of_snapshot state.old) (C.coming choices.old)).state) }
    ensures cores { OnOk result (length state.new.cores.items ≡ length test.now.programs) }
    ensures words { OnOk result (length state.new.memory.items ≡ length state.old.memory.items) }
{
    stalls_change_nothing();
    let mut ended = has_ended(test, state);
    while !ended {
        let Some(choice) = choices.next() else {
            return Ok(false);
        };
        let outcome = act(state, test, depth, choice)?;
        if !has_stalled(outcome) {
            ended = has_ended(test, state);
        }
    }
    Ok(true)
}
