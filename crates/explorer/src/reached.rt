//! The state that a choice leads to, with the choices after it that need not wait, without what is dead there, and with cores
//! that are alike in one order. A choice that stalls leads nowhere new.
ghost use Rattle.std.specs.Prelude.{◌≡◌, ◌<◌, IfOk, OnOk, true, false, length};
ghost use Rattle.tso_terms.specs.FlatMachine.{after_choice, chosen};
ghost use Rattle.flat_machine.specs.State.{state_of_snapshot};
ghost use Rattle.explorer.specs.inner.Planned.{IsPlan};
ghost use Rattle.explorer.specs.inner.Settled.{IsReachedByChoice};

use crate::arranging::arrange;
use crate::eager::run_ahead;
use crate::forgetting::forget;
use crate::plan::Plan;
use flat_machine::{Snapshot, act, has_stalled, is_idle, overwrite};
use tso_laws::stalls_change_nothing;
use tso_terms::{Choice, NoMemory};

/// A state that was reached from another one, and the choices that lead there. A search has one of
/// these and reaches each state in it, so that a state that is there already takes no memory.
#[derive(Drop)]
pub struct Reached {
    pub state: Snapshot,
    pub choices: Vec<Choice>,
    /// Which cores were exchanged after the choices, one pair after the other.
    pub exchanges: Vec<(u8, u8)>,
}

/// Makes a choice in a snapshot, and what choices need not wait after it, forgets what is dead then,
/// and puts cores that are alike into one order. Answers whether the choice took effect; where it stalled, what was reached says nothing.
///
/// Errors: out of memory only.
pub fn reach(
    reached: &mut Reached,
    snapshot: &Snapshot,
    plan: &Plan,
    choice: Choice,
) -> Result<bool, NoMemory>
    requires plan { IsPlan plan.now }
    requires cores { length snapshot.now.cores.items ≡ length plan.now.test.now.programs }
    requires room { length reached.old.state.cores.items ≡ length plan.now.test.now.programs }
    requires chosen { chosen choice < length plan.now.test.now.programs }
    ensures stalled { IfOk result (λ made. made ≡ false
        → after_choice plan.now.test.now plan.now.depth (state_of_snapshot snapshot.now) choice ≡ state_of_snapshot snapshot.now) }
    ensures reached { IfOk result (λ made. made ≡ true → IsReachedByChoice plan.now.depth plan.now.test.now plan.now.hidden.now plan.now.alike.items
        (state_of_snapshot snapshot.now) choice reached.new.choices.items reached.new.exchanges.items (state_of_snapshot reached.new.state)) }
    ensures room { OnOk result (length reached.new.state.cores.items ≡ length plan.now.test.now.programs) }
{
    stalls_change_nothing();
    if is_idle(snapshot, plan.test, choice) {
        return Ok(false);
    }
    overwrite(&mut reached.state, snapshot)?;
    let outcome = act(&mut reached.state, plan.test, plan.depth, choice)?;
    if has_stalled(outcome) {
        return Ok(false);
    }
    reached.choices.clear();
    reached.choices.push(choice)?;
    run_ahead(&mut reached.state, plan, &mut reached.choices)?;
    forget(&mut reached.state, plan);
    reached.exchanges.clear();
    arrange(&mut reached.state, &plan.alike, &mut reached.exchanges)?;
    Ok(true)
}
