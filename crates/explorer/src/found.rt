//! What a search has found: states, packed, each once, in the order in which they were found, and how each was reached.
ghost use Rattle.std.specs.Prelude.{◌≡◌, IfOk, OnOk, map};
ghost use Rattle.tso_terms.specs.FlatMachine.{start};
ghost use Rattle.tso_laws.specs.Closed.{IsAmongStates, IsCovered};
ghost use Rattle.flat_machine.specs.State.{state_of_snapshot};
ghost use Rattle.explorer.specs.inner.Settled.{Grows, LeadOn, IsInOrder};
ghost use Rattle.explorer.specs.inner.Packed.{state_of_packed};
ghost use Rattle.explorer.specs.inner.Planned.{IsPlan};
ghost use Rattle.explorer.specs.declared.plan.Plan.{Plan};

use crate::eager::run_ahead;
use crate::forgetting::forget;
use crate::link::{Link, turns_of};
use crate::packed::Packed;
use crate::packing::pack;
use crate::plan::Plan;
use crate::reached::Reached;
use flat_machine::{Snapshot, start};
use indexmap::IndexSet;
use std::alloc::Global;
use tso_terms::NoMemory;

/// What a search has found: each state once, and how each was reached.
pub struct Found {
    pub states: IndexSet<Packed>,
    pub links: Vec<Link>,
    /// The state that is gone through, unpacked.
    pub current: Snapshot,
    /// Room to pack a state in, so that one that is there already takes no memory.
    pub room: Packed,
    /// What was reached last from the state that is gone through: room for it, likewise.
    pub reached: Reached,
}

// Said by hand, so that who lets it go makes one call, and not one for each part.
impl Drop for Found {
    fn drop(self) {
        let Found {
            states: _states,
            links: _links,
            current: _current,
            room: _room,
            reached: _reached,
        } = self;
    }
}

/// Keeps what was reached from the state of this number, or from the beginning of the test where there is no state yet. One
/// that is there already is left out.
///
/// Errors: out of memory only.
pub fn keep(alloc: Global, found: &mut Found, from: usize) -> Result<(), NoMemory>
    ensures grows { OnOk result (Grows found.old.states.keys found.new.states.keys) }
    ensures among { OnOk result (IsAmongStates (map state_of_packed found.new.states.keys) (state_of_snapshot found.old.reached.state)) }
    ensures found { OnOk result ((plan : Plan) → IsInOrder plan found.old
        → LeadOn plan.depth plan.test.now plan.hidden.now found.old.states.keys from found.old.reached.choices.items found.old.reached.exchanges.items
        (state_of_snapshot found.old.reached.state)
        → IsInOrder plan found.new) }
    ensures current { OnOk result (found.new.current ≡ found.old.current) }
{
    pack(&found.reached.state, &mut found.room)?;
    if found.states.contains(&found.room) {
        return Ok(());
    }
    // With no room to spare: as many are kept as there are states.
    let bytes = Vec::from_slice(alloc, &found.room.bytes)?;
    found.states.insert(Packed { bytes })?;
    let turns = turns_of(alloc, &found.reached.choices, &found.reached.exchanges)?;
    found.links.push(Link { from, turns })?;
    Ok(())
}

/// What a search begins with: the state alone to which the choices that need not wait lead from the first state of the test, without
/// what is dead there, and how it was reached.
///
/// Errors: out of memory only.
pub fn begin(alloc: Global, plan: &Plan) -> Result<Found, NoMemory>
    requires { IsPlan plan.now }
    ensures found { IfOk result (IsInOrder plan.now) }
    ensures covered { IfOk result (λ f. IsCovered plan.now.depth plan.now.test.now plan.now.hidden.now plan.now.alike.items
        (map state_of_packed f.states.keys) (start plan.now.test.now)) }
{
    let current = start(alloc, plan.test)?;
    let mut state = start(alloc, plan.test)?;
    let mut choices = Vec::new(alloc);
    run_ahead(&mut state, plan, &mut choices)?;
    forget(&mut state, plan);
    let mut found = Found {
        states: IndexSet::new(alloc),
        links: Vec::new(alloc),
        current,
        room: Packed {
            bytes: Vec::new(alloc),
        },
        reached: Reached {
            state,
            choices,
            exchanges: Vec::new(alloc),
        },
    };
    keep(alloc, &mut found, 0)?;
    Ok(found)
}
