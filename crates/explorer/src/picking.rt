//! Which choices a search makes in a state: those of the smallest stubborn set that it finds, where it begins with each choice
//! in turn and adds what the choices of the set need. That the set is stubborn is tested afterwards: how it was found loses no
//! final state.
ghost use Rattle.std.specs.Prelude.{◌≡◌, ◌<◌, ◌⊎◌, length};
ghost use Rattle.tso_laws.specs.Stubborn.{IsStubborn};
ghost use Rattle.flat_machine.specs.State.{state_of_snapshot};
ghost use Rattle.explorer.specs.inner.Picked.{set_of, HasEvery};
ghost use Rattle.explorer.specs.inner.Planned.{IsPlan};

use crate::meeting::{Meeting, has_none_pending};
use crate::plan::Plan;
use crate::situation::Situation;
use crate::stubborn::{NOTHING, Picked, is_stubborn};
use flat_machine::Snapshot;
use tso_terms::{Action, Core};

/// Every choice. No stubborn set has them all, for some are of cores that aren't there.
const EVERY: u16 = 0xFFFF;

/// What each choice needs in a set that it is in. A set of choices is a word: of each core the step is at an even bit, and the
/// drain is at the next one.
#[derive(Clone, Copy)]
struct Needs {
    /// For each core what its step needs.
    steps: [u16; 8],
    /// For each core what its drain needs.
    drains: [u16; 8],
    /// The choices that don't stall.
    open: u16,
}

/// The set of a core's step alone.
fn step_bit(core: u8) -> u16 {
    1u16 << (core % 8 * 2)
}

/// The set of a core's drain alone.
fn drain_bit(core: u8) -> u16 {
    2u16 << (core % 8 * 2)
}

/// Of each other core the choice that comes before all of its accesses that meet one: its drain while it has a store to the
/// location pending, else its step if an instruction to come makes such an access.
fn all_to_meet(at: &Situation, core: Core, meeting: Meeting) -> u16 {
    let mut set = 0u16;
    for other in 0..at.test.cores() {
        if other == core.0 {
            continue;
        }
        let processor = at.processor(Core(other));
        if !has_none_pending(processor, meeting.loc) {
            set |= drain_bit(other);
        } else if !at.has_none_coming(Core(other), meeting) {
            set |= step_bit(other);
        }
    }
    set
}

/// What each choice needs. A step that stalls needs the core's drain: where no choice is left that need not wait, a fence has
/// something pending before it, and a store that isn't made at once finds the buffer full.
fn needs_of(at: &Situation) -> Needs {
    let mut needs = Needs {
        steps: [EVERY; 8],
        drains: [EVERY; 8],
        open: 0,
    };
    for core in 0..8u8 {
        if core < at.test.cores() {
            let pending = at.pending(Core(core));
            let step = match at.next_action(Core(core)) {
                None => EVERY,
                Some(Action::Load(_, loc)) => {
                    all_to_meet(at, Core(core), Meeting { loc, loads: false })
                }
                Some(Action::Store(loc, _) | Action::Lock(loc, _, _)) if pending.is_empty() => {
                    all_to_meet(at, Core(core), Meeting { loc, loads: true })
                }
                Some(_) => drain_bit(core),
            };
            needs.steps[usize::from(core)] = step;
            if step != EVERY && step != drain_bit(core) {
                needs.open |= step_bit(core);
            }
            if let Some((oldest, _later)) = pending.split_first() {
                let loc = oldest.loc;
                needs.drains[usize::from(core)] = all_to_meet(
                    at,
                    Core(core),
                    Meeting { loc, loads: true },
                );
                needs.open |= drain_bit(core);
            }
        }
    }
    needs
}

/// The smallest set: each is begun with one choice, and has what its choices need, and what these need, and so on. Of the fewest
/// choices that don't stall; of equal ones the first.
fn smallest(needs: &Needs) -> u16 {
    let mut best = EVERY;
    for at in 0..16u8 {
        let mut set = 1u16 << at;
        if needs.open & set == 0 {
            continue;
        }
        for _round in 0..16 {
            let before = set;
            for core in 0..8u8 {
                if before & step_bit(core) != 0 {
                    set |= needs.steps[usize::from(core)];
                }
                if before & drain_bit(core) != 0 {
                    set |= needs.drains[usize::from(core)];
                }
            }
            if set == before {
                break;
            }
        }
        if (set & needs.open).count_ones() < (best & needs.open).count_ones() {
            best = set;
        }
    }
    best
}

/// A stubborn set of choices that has fewer than all of those that don't stall, if one is found, and else every choice.
pub fn pick(state: &Snapshot, plan: &Plan) -> Picked
    requires cores { length state.now.cores.items ≡ length plan.now.test.now.programs }
    requires plan { IsPlan plan.now }
    ensures { IsStubborn plan.now.depth plan.now.test.now (set_of result) (state_of_snapshot state.now)
        ⊎ HasEvery (set_of result) (length plan.now.test.now.programs) }
{
    plan.test.know_limits();
    let at = Situation {
        state,
        test: plan.test,
        depth: plan.depth,
        coming: &plan.coming,
    };
    let set = smallest(&needs_of(&at));
    let mut picked = NOTHING;
    for core in 0..8u8 {
        picked.steps[usize::from(core)] = set & step_bit(core) != 0;
        picked.drains[usize::from(core)] = set & drain_bit(core) != 0;
    }
    if set != EVERY && is_stubborn(&at, &picked) {
        return picked;
    }
    Picked {
        steps: [true; 8],
        drains: [true; 8],
    }
}
