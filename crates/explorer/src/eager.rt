//! Choices that need not wait: nothing that another core has still to do can meet them. They are made at once, which keeps
//! the number of states small; one that could be met would lose final states.
ghost use Rattle.std.specs.Prelude.{◌≡◌, ◌<◌, true, length, IfSome, OnOk};
ghost use Rattle.tso_terms.specs.FlatMachine.{chosen};
ghost use Rattle.tso_terms.specs.declared.choice.Choice.{Choice};
ghost use Rattle.tso_laws.specs.Eager.{OthersAvoid, IsEager, IsEagerBy};
ghost use Rattle.flat_machine.specs.State.{state_of_snapshot};
ghost use Rattle.explorer.specs.inner.Settled.{IsSettled};
ghost use Rattle.explorer.specs.inner.Planned.{IsPlan};

use crate::meeting::Meeting;
use crate::plan::Plan;
use crate::situation::Situation;
use crate::stubborn::{NOTHING, others_are_held_back};
use flat_machine::{Snapshot, act};
use tso_laws::eager_choices_take_effect;
use tso_terms::{Action, Choice, Core, Entry, NoMemory};

/// Maximum number of choices that a test takes: for each core two for each instruction.
const MOST_CHOICES: usize = 512;

/// Whether what the other cores have still to do keeps away from the location. Of their choices none is picked, so nothing
/// else holds them back.
fn others_avoid(at: &Situation, core: Core, meeting: Meeting) -> bool
    ensures { result ≡ true → OthersAvoid meeting.loads meeting.loc.0 at.now.test.now (state_of_snapshot at.now.state.now) core.0 }
{
    others_are_held_back(at, &NOTHING, core, meeting)
}

/// Whether the core may make its next action at once.
fn is_eager_step(at: &Situation, core: Core) -> bool
    requires { core.0 < length at.now.test.now.programs }
    ensures { result ≡ true → IsEager at.now.depth at.now.test.now (state_of_snapshot at.now.state.now) (Choice.Step core) }
{
    let Some(action) = at.next_action(core) else {
        return false;
    };
    let pending = at.pending(core);
    match action {
        Action::Store(..) => pending.len() < usize::from(at.depth),
        Action::Load(_, loc) => others_avoid(at, core, Meeting { loc, loads: false }),
        Action::Move(..) => true,
        Action::Fence => pending.is_empty(),
        Action::Lock(loc, _, _) => {
            pending.is_empty() && others_avoid(at, core, Meeting { loc, loads: true })
        }
    }
}

/// A choice that need not wait, if there is one.
fn eager_choice(state: &Snapshot, plan: &Plan) -> Option<Choice>
    requires cores { length state.now.cores.items ≡ length plan.now.test.now.programs }
    requires plan { IsPlan plan.now }
    ensures eager { IfSome result (λ c. IsEager plan.now.depth plan.now.test.now (state_of_snapshot state.now) c) }
    ensures core { IfSome result (λ c. chosen c < length plan.now.test.now.programs) }
{
    let at = Situation {
        state,
        test: plan.test,
        depth: plan.depth,
        coming: &plan.coming,
    };
    for core in 0..plan.test.cores() {
        if is_eager_step(&at, Core(core)) {
            return Some(Choice::Step(Core(core)));
        }
        if plan.depth == 0 {
            continue;
        }
        if let Some((oldest, _later)) = at.pending(Core(core)).split_first() {
            let meeting = Meeting {
                loc: oldest.loc,
                loads: true,
            };
            if others_avoid(&at, Core(core), meeting) {
                return Some(Choice::Drain(Core(core)));
            }
        }
    }
    None
}

/// Makes choices that need not wait, one after the other, and appends them.
///
/// Errors: out of memory only; choices may have been made then.
pub fn run_ahead(
    state: &mut Snapshot,
    plan: &Plan,
    choices: &mut Vec<Choice>,
) -> Result<(), NoMemory>
    requires cores { length state.old.cores.items ≡ length plan.now.test.now.programs }
    requires plan { IsPlan plan.now }
    ensures settled { OnOk result (IsSettled plan.now.depth plan.now.test.now
        (state_of_snapshot state.old) (state_of_snapshot state.new) choices.old.items choices.new.items) }
    ensures cores { OnOk result (length state.new.cores.items ≡ length plan.now.test.now.programs) }
{
    eager_choices_take_effect();
    for _made in 0..MOST_CHOICES {
        match eager_choice(state, plan) {
            None => break,
            Some(choice) => {
                act(state, plan.test, plan.depth, choice)?;
                choices.push(choice)?;
            }
        }
    }
    Ok(())
}
