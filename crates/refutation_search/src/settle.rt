//! What follows from the facts of a branch: round by round, until nothing changes.

use crate::counting::count_values;
use crate::facts::Fact;
use crate::leasts::{raise_least, returns_less};
use crate::lists::NONE;
use crate::makings::find_term;
use crate::rows::bit;
use crate::sets::add_value;
use crate::setting::{LOCKED, NAMED, Setting};
use crate::state::{
    Group, LOCATIONS, READS, State, TOLD, add_globally, add_on_location, add_order, remove_source,
};
use crate::truths::{find_truths, is_false, may_be_left};

/// The set in which new values are gathered, as many after the events' own.
pub const NEW: usize = 0;

/// Where a set for new values stands.
pub fn spare(setting: &Setting<'_>, number: usize) -> usize {
    setting.size.wrapping_add(number)
}

/// Whether the facts leave it possible that the read returns this.
fn may_return(state: &State, r: usize, value: u32) -> bool {
    for fact in &state.facts.items {
        if let Fact::Returns(read, told, truth) = *fact {
            if (read == r) & ((told == value) != truth) {
                return false;
            }
        }
    }
    true
}

fn can_return(setting: &Setting<'_>, state: &State, r: usize, s: usize) -> bool {
    if state.values.is_any(s) {
        return !returns_less(setting, state, r, s);
    }
    for i in 0..state.values.count(s) {
        if may_return(state, r, state.values.value(s, i)) {
            return true;
        }
    }
    false
}

/// Takes from a read the sources from which it can't return what facts say.
fn limit_sources(setting: &Setting<'_>, state: &mut State, r: usize) {
    let row = Group::Sources.row(setting, r);
    let mut s = state.rows.next(row, 0);
    for _source in 0..setting.size {
        if s == NONE {
            break;
        }
        if !can_return(setting, state, r, s) {
            remove_source(setting, state, r, s);
        }
        s = state.rows.next(row, s.wrapping_add(1));
    }
}

/// Gathers what a read can return from its sources.
fn gather(setting: &Setting<'_>, state: &mut State, r: usize) {
    let new = spare(setting, NEW);
    let row = Group::Sources.row(setting, r);
    state.values.counts.put(new, 0);
    let mut s = state.rows.next(row, 0);
    for _source in 0..setting.size {
        if s == NONE {
            break;
        }
        if state.values.is_any(s) {
            state.values.put_any(new);
        }
        if state.values.is_any(new) {
            break;
        }
        for i in 0..state.values.count(s) {
            let value = state.values.value(s, i);
            add_value(&mut state.values, new, value);
        }
        s = state.rows.next(row, s.wrapping_add(1));
    }
}

/// Leaves of the new values those that facts say.
fn keep_told(setting: &Setting<'_>, state: &mut State, r: usize) {
    let new = spare(setting, NEW);
    if state.values.is_any(new) {
        for i in 0..state.facts.len() {
            if let Fact::Returns(read, value, true) = state.facts.at(i) {
                if read == r {
                    state.values.counts.put(new, 0);
                    add_value(&mut state.values, new, value);
                    break;
                }
            }
        }
    }
    if state.values.is_any(new) {
        return;
    }
    let count = state.values.count(new);
    state.values.counts.put(new, 0);
    for i in 0..count {
        let value = state.values.value(new, i);
        if may_return(state, r, value) {
            add_value(&mut state.values, new, value);
        }
    }
}

/// Puts the new values in place of those of an event, if they are others.
fn take_new(setting: &Setting<'_>, state: &mut State, a: usize) -> bool {
    let new = spare(setting, NEW);
    if state.values.counts.at(new) == state.values.counts.at(a) {
        return false;
    }
    let count = state.values.counts.at(new);
    state.values.counts.put(a, count);
    for i in 0..state.values.count(new) {
        let value = state.values.value(new, i);
        state.values.put(a, i, value);
    }
    true
}

/// Finds what a write can write.
fn find_written(setting: &Setting<'_>, state: &mut State, w: usize) {
    let new = spare(setting, NEW);
    let found = find_term(setting, state, setting.terms.at(w));
    state.values.counts.put(new, 0);
    if state.values.is_any(found) {
        state.values.put_any(new);
        return;
    }
    for i in 0..state.values.count(found) {
        let value = state.values.value(found, i);
        add_value(&mut state.values, new, value);
    }
}

/// Has the readers of a write looked at, whose values are others now.
fn tell_readers(setting: &Setting<'_>, state: &mut State, w: usize) {
    let x = setting.events.at(w).location;
    if setting.sets.has(NAMED, x) {
        state.sets.add(LOCATIONS, x);
    }
    let mut r = setting.readers_of.next(x, 0);
    for _read in 0..setting.size {
        if r == NONE {
            break;
        }
        if state.has(setting, Group::Sources, r, w) {
            state.sets.add(READS, r);
        }
        r = setting.readers_of.next(x, r.wrapping_add(1));
    }
}

/// Has all looked at that hangs on what a read returns.
fn tell_users(setting: &Setting<'_>, state: &mut State, r: usize) {
    let mut w = setting.users_of.next(r, 0);
    for _write in 0..setting.size {
        if w == NONE {
            break;
        }
        find_written(setting, state, w);
        if take_new(setting, state, w) {
            tell_readers(setting, state, w);
        }
        w = setting.users_of.next(r, w.wrapping_add(1));
    }
}

/// A read has this one source: its edges, and that no other load part of a locked instruction has it.
fn take_source(setting: &Setting<'_>, state: &mut State, r: usize, s: usize) {
    let read = setting.events.at(r);
    if s >= setting.locations {
        add_on_location(setting, state, s, r);
        if setting.is_sequential | (setting.events.at(s).core != read.core) {
            add_globally(setting, state, s, r);
        }
    }
    if !read.is_locked {
        return;
    }
    let mut q = setting.load_parts_of.next(read.location, 0);
    for _read in 0..setting.size {
        if q == NONE {
            break;
        }
        if q != r {
            remove_source(setting, state, q, s);
        }
        q = setting.load_parts_of.next(read.location, q.wrapping_add(1));
    }
}

/// Notes the edges to what comes after all that a read can read from.
fn add_from_reads(setting: &Setting<'_>, state: &mut State, r: usize) {
    let row = Group::FromReads.row(setting, r);
    let sources = Group::Sources.row(setting, r);
    for k in 0..state.rows.width {
        let mut all = u64::MAX;
        let mut s = state.rows.next(sources, 0);
        for _source in 0..setting.size {
            if (s == NONE) | (all == 0) {
                break;
            }
            all &= state.rows.word(Group::Later.row(setting, s), k);
            s = state.rows.next(sources, s.wrapping_add(1));
        }
        let new = all & !state.rows.word(row, k);
        if new == 0 {
            continue;
        }
        state.rows.put_word(row, k, all);
        for i in 0..64usize {
            if (new >> i) & 1 == 1 {
                let v = k.wrapping_mul(64).wrapping_add(i);
                add_on_location(setting, state, r, v);
                add_globally(setting, state, r, v);
            }
        }
    }
}

fn settle_read(setting: &Setting<'_>, state: &mut State, r: usize) {
    let is_told = state.sets.has(TOLD, r);
    if is_told {
        limit_sources(setting, state, r);
        state.sets.remove(READS, r);
    }
    gather(setting, state, r);
    count_values(setting, state, r);
    if is_told {
        keep_told(setting, state, r);
    }
    if take_new(setting, state, r) {
        tell_users(setting, state, r);
    }
    if raise_least(setting, state, r) {
        tell_readers(setting, state, r.wrapping_add(1));
    }
    let count = state.count_sources(setting, r);
    state.is_closed |= (count == 0) | (state.values.counts.at(r) == 0);
    if count == 1 {
        let s = state.first_source(setting, r);
        take_source(setting, state, r, s);
    }
    if count > 0 {
        add_from_reads(setting, state, r);
    }
}

fn settle_location(setting: &Setting<'_>, state: &mut State, x: usize) {
    if setting.writes_to.next(x, 0) == NONE {
        return;
    }
    if setting.sets.has(NAMED, x) {
        let mut w = state.lasts.next(x, 0);
        for _write in 0..setting.size {
            if w == NONE {
                break;
            }
            if !may_be_left(setting, state, x, w) {
                state.lasts.remove(x, w);
            }
            w = state.lasts.next(x, w.wrapping_add(1));
        }
    }
    let count = state.lasts.count(x);
    state.is_closed |= count == 0;
    if count != 1 {
        return;
    }
    let last = state.lasts.next(x, 0);
    for w in setting.locations..setting.size {
        if setting.writes_to.has(x, w) & (w != last) {
            add_order(setting, state, w, last);
        }
    }
}

/// Whether a write of another core is known to come between the two parts of a locked instruction.
fn is_parted(setting: &Setting<'_>, state: &State, r: usize) -> bool {
    let core = setting.events.at(r).core;
    let from = Group::FromReads.row(setting, r);
    let earlier = Group::Earlier.row(setting, r.wrapping_add(1));
    for k in 0..state.rows.width {
        let between = state.rows.word(from, k) & state.rows.word(earlier, k);
        if between & !setting.events_of.word(core, k) != 0 {
            return true;
        }
    }
    false
}

/// Whether a write is known to come between the two parts of any locked instruction.
fn some_parted(setting: &Setting<'_>, state: &State) -> bool {
    for x in 0..setting.locations {
        let mut r = setting.load_parts_of.next(x, 0);
        for _read in 0..setting.size {
            if r == NONE {
                break;
            }
            if is_parted(setting, state, r) {
                return true;
            }
            r = setting.load_parts_of.next(x, r.wrapping_add(1));
        }
    }
    false
}

/// Whether a source of a location, to which locked instructions alone write, can't be read by any load part, nor be the last write.
fn is_unread(setting: &Setting<'_>, state: &State, x: usize) -> bool {
    for k in 0..state.rows.width {
        let mut wanted = setting.writes_to.word(x, k) & !state.lasts.word(x, k);
        if x / 64 == k {
            wanted |= bit(x);
        }
        let mut r = setting.load_parts_of.next(x, 0);
        for _read in 0..setting.size {
            if r == NONE {
                break;
            }
            wanted &= !state.rows.word(Group::Sources.row(setting, r), k);
            r = setting.load_parts_of.next(x, r.wrapping_add(1));
        }
        if wanted != 0 {
            return true;
        }
    }
    false
}

fn some_unread(setting: &Setting<'_>, state: &State) -> bool {
    for x in 0..setting.locations {
        if setting.sets.has(LOCKED, x) && is_unread(setting, state, x) {
            return true;
        }
    }
    false
}

/// Finds all that follows from the facts of a branch, or that it is closed.
pub fn settle(setting: &Setting<'_>, state: &mut State) {
    for _round in 0..u64::MAX {
        if state.is_closed & !state.is_thorough {
            return;
        }
        let r = state.sets.next(READS, 0);
        if r != NONE {
            state.sets.remove(READS, r);
            settle_read(setting, state, r);
            continue;
        }
        let x = state.sets.next(LOCATIONS, 0);
        if x == NONE {
            break;
        }
        state.sets.remove(LOCATIONS, x);
        settle_location(setting, state, x);
    }
    find_truths(setting, state);
    state.is_closed |= is_false(state)
        || some_parted(setting, state)
        || some_unread(setting, state);
}
