//! The least that reads return and writes write, where all that writes to a location do is to set numbers and to add them, and all of these
//! together fit into a word: whoever adds 2 leaves at least 2.

use crate::facts::Fact;
use crate::lists::NONE;
use crate::makings::Term;
use crate::setting::{GROWING, Setting};
use crate::state::{Group, State};

/// The least that can be, and of how many others, one after the other, this was found.
#[derive(Clone, Copy)]
pub struct Least {
    pub value: u32,
    pub depth: usize,
}

/// Where nothing is known.
pub const NOTHING: Least = Least { value: 0, depth: 0 };

/// The least that a read can return.
fn least_read(state: &State, r: usize) -> Least {
    if state.values.is_any(r) {
        state.leasts.at(r)
    } else {
        let value = state.values.least(r);
        Least { value, depth: 0 }
    }
}

/// The least that a write can write; the first word, where it is the initial write.
fn least_written(setting: &Setting<'_>, state: &State, w: usize) -> Least {
    if (w >= setting.locations) & !setting.sets.has(GROWING, setting.events.at(w).location) {
        return NOTHING;
    }
    if let Term::Number(value) = setting.terms.at(w) {
        return Least { value, depth: 0 };
    }
    let found = least_read(state, w.wrapping_sub(1));
    Least {
        value: found.value.saturating_add(setting.addends.at(w)),
        ..found
    }
}

/// Whether a write, or the initial one, can't write as little as this.
pub fn is_more(setting: &Setting<'_>, state: &State, w: usize, value: u32) -> bool {
    value < least_written(setting, state, w).value
}

/// Whether facts say that a read returns less than this source can write.
pub fn returns_less(setting: &Setting<'_>, state: &State, r: usize, s: usize) -> bool {
    for fact in &state.facts.items {
        if let Fact::Returns(read, value, true) = *fact {
            if (read == r) && is_more(setting, state, s, value) {
                return true;
            }
        }
    }
    false
}

/// The least of all that a read can read from.
fn least_from(setting: &Setting<'_>, state: &State, r: usize) -> Least {
    let row = Group::Sources.row(setting, r);
    let mut value = u32::MAX;
    let mut depth = 0usize;
    let mut s = state.rows.next(row, 0);
    for _source in 0..setting.size {
        if (s == NONE) | (value == 0) {
            break;
        }
        let least = least_written(setting, state, s);
        value = value.min(least.value);
        depth = depth.max(least.depth);
        s = state.rows.next(row, s.wrapping_add(1));
    }
    Least { value, depth }
}

/// Whether the store part of a locked instruction adds a number to what this load part returns, where nothing wraps.
fn is_added_to(setting: &Setting<'_>, r: usize) -> bool {
    let read = setting.events.at(r);
    let w = r.wrapping_add(1);
    read.is_locked
        && setting.sets.has(GROWING, read.location)
        && !matches!(setting.terms.at(w), Term::Number(_))
}

/// Notes the least that a load part can return which can return any value: whether that is more than was known. It is found of no more
/// others than there are locked instructions: where load parts read from each other in a ring, it would rise without end.
pub fn raise_least(setting: &Setting<'_>, state: &mut State, r: usize) -> bool {
    if !state.values.is_any(r) || !is_added_to(setting, r) {
        return false;
    }
    let found = least_from(setting, state, r);
    let depth = found.depth.wrapping_add(1);
    if (found.value <= state.leasts.at(r).value) | (depth > setting.size / 2) {
        return false;
    }
    state.leasts.put(r, Least { depth, ..found });
    true
}
