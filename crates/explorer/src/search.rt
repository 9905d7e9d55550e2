//! The search for all states that choices lead to. One list is queue and visited set at once; each of its states is gone
//! through, and where there are more than may be kept the search says so and ends there.
ghost use Rattle.std.specs.Prelude.{◌≡◌, ℕ, ◌<◌, ◌≤◌, true, OnOk, map, length, slice_get, Some};
ghost use Rattle.tso_terms.specs.FlatMachine.{chosen, start};
ghost use Rattle.tso_laws.specs.Closed.{IsCovered, IsExpandedEnough, ArePartlyClosed};
ghost use Rattle.flat_machine.specs.State.{state_of_snapshot};
ghost use Rattle.explorer.specs.inner.Settled.{Grows, IsCurrent, IsVisited, IsInOrder};
ghost use Rattle.explorer.specs.inner.Planned.{IsPlan};
ghost use Rattle.explorer.specs.inner.Packed.{state_of_packed};
ghost use Rattle.explorer.specs.declared.packed.Packed.{Packed};

use crate::found::{Found, keep};
use crate::picking::pick;
use crate::plan::Plan;
use crate::reached::reach;
use crate::stubborn::is_marked;
use crate::unpacking::unpack;
use crate::watching::{NOTHING_TOLD, Watcher, tell};
use std::alloc::Global;
use tso_terms::{Choice, Core, NoMemory};

/// Makes a choice in one of the states, if it is picked, and what choices need not wait after it. Where that is a state that
/// isn't there yet, it is added.
///
/// Errors: out of memory only.
fn visit_if(
    alloc: Global,
    found: &mut Found,
    plan: &Plan,
    from: usize,
    choice: Choice,
    is_picked: bool,
) -> Result<(), NoMemory>
    requires plan { IsPlan plan.now }
    requires current { IsCurrent found.old.states.keys from found.old.current }
    requires found { IsInOrder plan.now found.old }
    requires chosen { chosen choice < length plan.now.test.now.programs }
    ensures grows { OnOk result (Grows found.old.states.keys found.new.states.keys) }
    ensures found { OnOk result (IsInOrder plan.now found.new) }
    ensures current { OnOk result (found.new.current ≡ found.old.current) }
    ensures visited { OnOk result
        (is_picked ≡ true
        → IsVisited plan.now.depth plan.now.test.now plan.now.hidden.now plan.now.alike.items found.new.states.keys
        (state_of_snapshot found.old.current) choice) }
{
    if !is_picked {
        return Ok(());
    }
    if reach(&mut found.reached, &found.current, plan, choice)? {
        keep(alloc, found, from)?;
    }
    Ok(())
}

/// Makes the choices of a stubborn set in one of the states, or every choice where no such set is found.
///
/// Errors: out of memory only.
pub fn expand(alloc: Global, found: &mut Found, plan: &Plan, from: usize) -> Result<(), NoMemory>
    requires plan { IsPlan plan.now }
    requires from { from < length found.old.states.keys }
    requires found { IsInOrder plan.now found.old }
    ensures grows { OnOk result (Grows found.old.states.keys found.new.states.keys) }
    ensures found { OnOk result (IsInOrder plan.now found.new) }
    ensures expanded { OnOk result ((s : Packed) → slice_get found.old.states.keys from ≡ Some s
        → IsExpandedEnough plan.now.depth plan.now.test.now plan.now.hidden.now plan.now.alike.items
        (map state_of_packed found.new.states.keys) (state_of_packed s)) }
{
    unpack(&found.states[from], &mut found.current)?;
    let picked = pick(&found.current, plan);
    for core in 0..plan.test.cores() {
        let its_step = Choice::Step(Core(core));
        visit_if(
            alloc,
            found,
            plan,
            from,
            its_step,
            is_marked(&picked.steps, core),
        )?;
        let its_drain = Choice::Drain(Core(core));
        visit_if(
            alloc,
            found,
            plan,
            from,
            its_drain,
            is_marked(&picked.drains, core),
        )?;
    }
    Ok(())
}

/// How far a search came.
#[derive(Clone, Copy)]
pub enum Extent {
    /// To its end: each of the states that it keeps was gone through.
    Whole,
    /// To its limit: it kept more states than it was to keep.
    Cut,
}

/// Expands each state in turn, those that are added on the way too, as long as no more than `limit` are kept. Where
/// they are more, it ends there. The watcher is told of it.
///
/// Errors: out of memory only.
pub fn expand_all<W: Watcher>(
    alloc: Global,
    plan: &Plan,
    found: &mut Found,
    limit: usize,
    watcher: &mut W,
) -> Result<(), NoMemory>
    requires plan { IsPlan plan.now }
    requires found { IsInOrder plan.now found.old }
    requires covered { IsCovered plan.now.depth plan.now.test.now plan.now.hidden.now plan.now.alike.items
        (map state_of_packed found.old.states.keys) (start plan.now.test.now) }
    ensures found { OnOk result (IsInOrder plan.now found.new) }
    ensures closed { OnOk result (length found.new.states.keys ≤ limit
        → ArePartlyClosed plan.now.depth plan.now.test.now plan.now.hidden.now plan.now.alike.items (map state_of_packed found.new.states.keys)) }
{
    let mut told = NOTHING_TOLD;
    for at in 0..limit {
        if at >= found.states.len() || found.states.len() > limit {
            break;
        }
        tell(
            plan,
            &found.states,
            &mut found.reached.state,
            &mut told,
            watcher,
        )?;
        expand(alloc, found, plan, at)?;
    }
    Ok(())
}
