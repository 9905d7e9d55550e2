//! The order of an execution, from a branch on which nothing is left to ask.

use crate::lists::{List, NONE};
use crate::rows::{Rows, bit};
use crate::setting::{Event, Setting};
use crate::state::{Group, State};
use tso_terms::{Entry, Execution, NoMemory};

/// The load part of the locked instruction whose store part this is, else the event itself.
fn first_part(event: Event, a: usize) -> usize {
    if event.writes & event.is_locked {
        a.wrapping_sub(1)
    } else {
        a
    }
}

/// Whether an event of the same program that stands before this one is still to come, and one of the two is a fence.
fn waits_at_fence(setting: &Setting<'_>, left: &Rows, a: usize) -> bool {
    let event = setting.events.at(a);
    for b in (setting.locations..a).rev() {
        let earlier = setting.events.at(b);
        if earlier.core != event.core {
            return false;
        }
        if left.has(0, b) & (event.is_fence | earlier.is_fence) {
            return true;
        }
    }
    false
}

/// Whether this event waits for one that is still to come, other than the load part of its own instruction.
fn is_waiting(setting: &Setting<'_>, state: &State, left: &Rows, a: usize) -> bool {
    let first = first_part(setting.events.at(a), a);
    let before = Group::BeforeGlobally.row(setting, a);
    for k in 0..left.width {
        let mut some = state.rows.word(before, k) & left.word(0, k);
        if first / 64 == k {
            some &= !bit(first);
        }
        if some != 0 {
            return true;
        }
    }
    waits_at_fence(setting, left, a)
}

/// Whether all parts of the instruction of this event, which is its last part, may stand next.
fn may_be_next(setting: &Setting<'_>, state: &State, left: &Rows, a: usize) -> bool {
    let first = first_part(setting.events.at(a), a);
    !is_waiting(setting, state, left, first) && !is_waiting(setting, state, left, a)
}

/// An event with its value; a fence has 0, and so has one whose value isn't told.
fn valued(setting: &Setting<'_>, state: &State, a: usize) -> Entry {
    let event = setting.events.at(a);
    let value = if event.is_fence || state.values.count(a) != 1 {
        0
    } else {
        state.values.value(a, 0)
    };
    Entry {
        value,
        ..event.entry
    }
}

/// Takes all that may stand next, each load part with its store part. A load part is taken with its store part alone.
fn place_round(setting: &Setting<'_>, state: &State, left: &mut Rows, order: &mut List<Entry>) {
    for a in setting.locations..setting.size {
        let event = setting.events.at(a);
        let is_load_part = event.reads & event.is_locked;
        if is_load_part | !left.has(0, a) || !may_be_next(setting, state, left, a) {
            continue;
        }
        for placed in first_part(event, a)..a.wrapping_add(1) {
            left.remove(0, placed);
            order.push(valued(setting, state, placed));
        }
    }
}

/// The order of an execution, from a branch on which nothing is left to ask. Where there is none, what could be placed.
///
/// Errors: out of memory only.
pub fn make_order(setting: &Setting<'_>, state: &State) -> Result<Execution, NoMemory> {
    let mut left = Rows::new(setting.alloc, 1, setting.size);
    let mut order = List::new(setting.alloc, 0, setting.events.at(NONE).entry);
    for a in setting.locations..setting.size {
        left.add(0, a);
    }
    for _round in 0..setting.size {
        let before = order.len();
        place_round(setting, state, &mut left, &mut order);
        if order.len() == before {
            break;
        }
    }
    order.is_refused |= left.words.is_refused;
    Ok(Execution {
        order: order.into_items()?,
    })
}
