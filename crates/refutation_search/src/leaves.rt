//! Why a branch is closed at once.

use crate::edges::{Acyclic, find_cycle};
use crate::lists::{List, NONE};
use crate::setting::{LOCKED, Setting};
use crate::state::{Group, State};
use crate::truths::is_false;

/// Why a branch is closed at once.
#[derive(Clone, Copy)]
pub enum Leaf {
    /// The read has no source.
    NoSource(usize),
    /// The read has no value.
    NoValue(usize),
    /// Nothing can read this source of the location.
    NoReader(usize, usize),
    /// No write to the location can be the last.
    NoLast(usize),
    /// What is asked, or a part of it, is false.
    False,
    /// A write comes between the two parts of a locked instruction.
    Between(usize, usize),
    /// A cycle: where it begins in the list of the events of all cycles, and how long it is.
    Cycle(Acyclic, usize, usize),
    /// The facts of a lemma are met.
    ByLemma(usize),
    /// None: the branch isn't closed at once.
    Nothing,
}

/// Whether both leaves are printed alike.
pub fn same_leaf(events: &List<usize>, a: Leaf, b: Leaf) -> bool {
    match (a, b) {
        (Leaf::NoSource(r), Leaf::NoSource(q)) => r == q,
        (Leaf::NoValue(r), Leaf::NoValue(q)) => r == q,
        (Leaf::NoReader(x, s), Leaf::NoReader(y, t)) => (x == y) & (s == t),
        (Leaf::NoLast(x), Leaf::NoLast(y)) => x == y,
        (Leaf::False, Leaf::False) => true,
        (Leaf::Between(r, v), Leaf::Between(q, w)) => (r == q) & (v == w),
        (Leaf::ByLemma(i), Leaf::ByLemma(j)) => i == j,
        (Leaf::Cycle(_, start, length), Leaf::Cycle(_, other, count)) => {
            if length != count {
                return false;
            }
            for i in 0..length {
                if events.at(start.wrapping_add(i)) != events.at(other.wrapping_add(i)) {
                    return false;
                }
            }
            true
        }
        _ => false,
    }
}

/// Whether a branch has this leaf, where it is one that names a read or a location.
fn has_leaf(setting: &Setting<'_>, state: &State, leaf: Leaf) -> bool {
    match leaf {
        Leaf::NoSource(r) => state.count_sources(setting, r) == 0,
        Leaf::NoValue(r) => state.values.counts.at(r) == 0,
        Leaf::NoReader(x, s) => has_no_reader(setting, state, x, s),
        Leaf::NoLast(x) => state.lasts.next(x, 0) == NONE,
        Leaf::False => is_false(state),
        _ => false,
    }
}

/// Whether no load part can read from this source of the location, and it isn't the last write.
pub fn has_no_reader(setting: &Setting<'_>, state: &State, x: usize, s: usize) -> bool {
    if state.lasts.has(x, s) {
        return false;
    }
    let mut r = setting.load_parts_of.next(x, 0);
    for _read in 0..setting.size {
        if r == NONE {
            break;
        }
        if state.has(setting, Group::Sources, r, s) {
            return false;
        }
        r = setting.load_parts_of.next(x, r.wrapping_add(1));
    }
    true
}

/// A source of a location, to which locked instructions alone write, that nothing can read.
fn find_unread(setting: &Setting<'_>, state: &State) -> Leaf {
    for x in 0..setting.locations {
        if !setting.sets.has(LOCKED, x) {
            continue;
        }
        for s in 0..setting.size {
            let is_source = (s == x) | setting.writes_to.has(x, s);
            if is_source && has_no_reader(setting, state, x, s) {
                return Leaf::NoReader(x, s);
            }
        }
    }
    Leaf::Nothing
}

fn find_read(setting: &Setting<'_>, state: &State) -> Leaf {
    for r in setting.locations..setting.size {
        if setting.events.at(r).reads {
            if state.count_sources(setting, r) == 0 {
                return Leaf::NoSource(r);
            }
            if state.values.counts.at(r) == 0 {
                return Leaf::NoValue(r);
            }
        }
    }
    Leaf::Nothing
}

fn find_location(setting: &Setting<'_>, state: &State) -> Leaf {
    for x in 0..setting.locations {
        let is_written = setting.writes_to.next(x, 0) != NONE;
        if is_written && state.lasts.next(x, 0) == NONE {
            return Leaf::NoLast(x);
        }
    }
    find_unread(setting, state)
}

/// A write that is known to come between the two parts of a locked instruction.
fn find_between(setting: &Setting<'_>, state: &State) -> Leaf {
    for r in setting.locations..setting.size {
        let read = setting.events.at(r);
        if !(read.reads & read.is_locked) || state.count_sources(setting, r) == 0 {
            continue;
        }
        for v in setting.locations..setting.size {
            if (setting.events.at(v).core != read.core)
                && state.has(setting, Group::FromReads, r, v)
                && state.has(setting, Group::Earlier, r.wrapping_add(1), v)
            {
                return Leaf::Between(r, v);
            }
        }
    }
    Leaf::Nothing
}

fn or(leaf: Leaf, other: Leaf) -> Leaf {
    if matches!(leaf, Leaf::Nothing) {
        other
    } else {
        leaf
    }
}

/// Why a branch is closed at once: as the leaf before, where that is one of its reasons too.
pub fn find_leaf(
    setting: &Setting<'_>,
    state: &State,
    before: Leaf,
    events: &mut List<usize>,
) -> Leaf {
    if !state.is_closed {
        return Leaf::Nothing;
    }
    if has_leaf(setting, state, before) {
        return before;
    }
    // A read without a source leaves its register without a value too: the read tells more.
    let leaf = find_read(setting, state);
    if !matches!(leaf, Leaf::Nothing) {
        return leaf;
    }
    if is_false(state) {
        return Leaf::False;
    }
    let leaf = or(find_location(setting, state), find_between(setting, state));
    if !matches!(leaf, Leaf::Nothing) {
        return leaf;
    }
    find_cycle(setting, state, events)
}
