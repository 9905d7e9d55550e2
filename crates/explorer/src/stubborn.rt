//! Stubborn sets: choices of which one can be made first, whatever else is still to do. In a state a search makes those of
//! one such set alone. A set that is called stubborn and isn't would lose final states.
ghost use Rattle.std.specs.Prelude.{◌≡◌, ◌≢◌, ◌<◌, ◌≤◌, ℕ, [], true, false, length, slice_index_or, IfSome};
ghost use Rattle.tso_terms.specs.FlatMachine.{program_of, core_of};
ghost use Rattle.tso_laws.specs.Stubborn.{has_step, has_drain, has_choice, IsHeldBack, OthersAreHeldBack, IsApartBy, IsApartStep, IsApartDrain, IsStubborn};
ghost use Rattle.flat_machine.specs.State.{state_of_snapshot};
ghost use Rattle.explorer.specs.inner.Picked.{set_of, ArePicksApart};

use crate::meeting::{Meeting, has_none_pending, has_pending};
use crate::situation::Situation;
use tso_terms::{Action, Core, Entry, Loc};

/// Some of the choices in a state: of which cores the step, and of which the drain.
#[derive(Clone, Copy)]
pub struct Picked {
    pub steps: [bool; 8],
    pub drains: [bool; 8],
}

/// No choice.
pub const NOTHING: Picked = Picked {
    steps: [false; 8],
    drains: [false; 8],
};

/// Whether the core of this number is marked.
pub fn is_marked(marks: &[bool], core: u8) -> bool
    ensures { result ≡ slice_index_or marks.now core false }
{
    match marks.get(usize::from(core)) {
        Some(mark) => *mark,
        None => false,
    }
}

/// Whether the core meets the location not at all, or only after one of its choices that are picked.
fn is_held_back(at: &Situation, picked: &Picked, core: Core, meeting: Meeting) -> bool
    requires { core.0 < length at.now.test.now.programs }
    ensures { result ≡ true
        → IsHeldBack at.now.depth meeting.loads meeting.loc.0 (program_of at.now.test.now core.0)
        (core_of (state_of_snapshot at.now.state.now) core.0)
        (has_step (set_of picked.now) core.0) (has_drain (set_of picked.now) core.0) }
{
    let processor = at.processor(core);
    if has_none_pending(processor, meeting.loc) {
        return is_marked(&picked.steps, core.0) || at.has_none_coming(core, meeting);
    }
    at.depth > 0 && is_marked(&picked.drains, core.0) && has_pending(processor, meeting.loc)
}

/// Whether that is so of every other core.
pub fn others_are_held_back(at: &Situation, picked: &Picked, core: Core, meeting: Meeting) -> bool
    ensures { result ≡ true
        → OthersAreHeldBack at.now.depth meeting.loads meeting.loc.0 at.now.test.now (set_of picked.now) (state_of_snapshot at.now.state.now) core.0 }
{
    for other in 0..at.test.cores() {
        if other != core.0 && !is_held_back(at, picked, Core(other), meeting) {
            return false;
        }
    }
    true
}

/// Whether the core has nothing pending, and nothing that isn't picked meets a write of it to the location.
fn is_apart_write(at: &Situation, picked: &Picked, core: Core, loc: Loc) -> bool
    requires { core.0 < length at.now.test.now.programs }
    ensures { result ≡ true → ((core_of (state_of_snapshot at.now.state.now) core.0).pending ≡ [])
        × OthersAreHeldBack at.now.depth true loc.0 at.now.test.now (set_of picked.now) (state_of_snapshot at.now.state.now) core.0 }
{
    if !at.pending(core).is_empty() {
        return false;
    }
    others_are_held_back(at, picked, core, Meeting { loc, loads: true })
}

/// Whether the core's step, if it is picked, is so: nothing that isn't picked meets its next action, or that waits for the core's
/// drain, which is picked.
fn is_step_fine(at: &Situation, picked: &Picked, core: Core) -> bool
    ensures { result ≡ true
        → has_step (set_of picked.now) core.0 ≡ true
        → IsApartStep at.now.depth at.now.test.now (set_of picked.now) (state_of_snapshot at.now.state.now) core.0 }
{
    if !is_marked(&picked.steps, core.0) {
        return true;
    }
    if core.0 >= at.test.cores() {
        return false;
    }
    let drain = is_marked(&picked.drains, core.0);
    match at.next_action(core) {
        None | Some(Action::Move(..)) => false,
        Some(Action::Store(loc, _)) if at.depth == 0 => is_apart_write(at, picked, core, loc),
        Some(Action::Store(..)) => drain && at.pending(core).len() >= usize::from(at.depth),
        Some(Action::Load(_, loc)) => {
            others_are_held_back(at, picked, core, Meeting { loc, loads: false })
        }
        Some(Action::Fence) => drain,
        Some(Action::Lock(loc, _, _)) => drain || is_apart_write(at, picked, core, loc),
    }
}

/// Whether the core's drain, if it is picked, is so.
fn is_drain_fine(at: &Situation, picked: &Picked, core: Core) -> bool
    ensures { result ≡ true
        → has_drain (set_of picked.now) core.0 ≡ true
        → IsApartDrain at.now.depth at.now.test.now (set_of picked.now) (state_of_snapshot at.now.state.now) core.0 }
{
    if !is_marked(&picked.drains, core.0) {
        return true;
    }
    if at.depth == 0 || core.0 >= at.test.cores() {
        return false;
    }
    let Some((oldest, _later)) = at.pending(core).split_first() else {
        return false;
    };
    let meeting = Meeting {
        loc: oldest.loc,
        loads: true,
    };
    others_are_held_back(at, picked, core, meeting)
}

/// Whether the picked choices are a stubborn set: each is as those of one are, and there is one.
pub fn is_stubborn(at: &Situation, picked: &Picked) -> bool
    ensures { result ≡ true → IsStubborn at.now.depth at.now.test.now (set_of picked.now) (state_of_snapshot at.now.state.now) }
{
    let mut has_one = false;
    for core in 0..8u8 {
        if !is_step_fine(at, picked, Core(core)) || !is_drain_fine(at, picked, Core(core)) {
            return false;
        }
        if is_marked(&picked.steps, core) || is_marked(&picked.drains, core) {
            has_one = true;
        }
    }
    has_one
}
