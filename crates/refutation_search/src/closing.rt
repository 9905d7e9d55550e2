//! Answers whose branches edges close at once, as they are told already: no branch has to be tried for these.

use crate::lists::NONE;
use crate::rows::{Rows, bit};
use crate::setting::Setting;
use crate::state::{Group, NOT_LAST, State};

/// Adds to a row the writes that are known to come before one of those that come before this read, or its store part.
fn add_overwritten(setting: &Setting<'_>, state: &State, r: usize, closed: &mut Rows) {
    let read = setting.events.at(r);
    let on_location = Group::BeforeOnLocation.row(setting, r);
    let globally = Group::BeforeGlobally.row(setting, r);
    for k in 0..closed.width {
        let mut earlier = state.rows.word(on_location, k) | state.rows.word(globally, k);
        if read.is_locked {
            earlier |= state
                .rows
                .word(Group::Earlier.row(setting, r.wrapping_add(1)), k);
        }
        earlier &= setting.writes_to.word(read.location, k);
        for i in 0..64usize {
            if (earlier >> i) & 1 == 1 {
                let w = k.wrapping_mul(64).wrapping_add(i);
                closed.join(0, &state.rows, Group::Earlier.row(setting, w));
                if setting.writes_to.has(read.location, w) {
                    closed.add(0, read.location);
                }
            }
        }
    }
}

/// Notes the sources from which a read can't read, since it comes before them, or since they are overwritten before it.
fn close_sources(setting: &Setting<'_>, state: &mut State, r: usize, closed: &mut Rows) {
    closed.clear(0);
    add_overwritten(setting, state, r, closed);
    let own = setting.events.at(r).core;
    for k in 0..closed.width {
        let later = state.rows.word(Group::AfterOnLocation.row(setting, r), k)
            | state.rows.word(Group::AfterGlobally.row(setting, r), k)
                & !setting.events_of.word(own, k);
        let row = Group::ClosedSources.row(setting, r);
        let sources = state.rows.word(Group::Sources.row(setting, r), k);
        let noted = state.rows.word(row, k);
        let all = closed.word(0, k) | later;
        state.rows.put_word(row, k, noted | sources & all);
    }
}

/// Notes that none of these writes of a word of a row comes after this one.
fn close_each_later(setting: &Setting<'_>, state: &mut State, s: usize, k: usize, some: u64) {
    let row = Group::ClosedOrders.row(setting, s);
    let noted = state.rows.word(row, k);
    state.rows.put_word(row, k, noted | some);
}

/// Notes that none of these writes of a word of a row comes before this one.
fn close_each_earlier(setting: &Setting<'_>, state: &mut State, w: usize, k: usize, some: u64) {
    for i in 0..64usize {
        if (some >> i) & 1 == 1 {
            let v = k.wrapping_mul(64).wrapping_add(i);
            state.rows.add(Group::ClosedOrders.row(setting, v), w);
        }
    }
}

/// Notes which orders of writes are closed since a read reads from this write: what comes before the read, or its store part, comes
/// before the write too, and what comes after the write comes after the store part.
fn close_orders(setting: &Setting<'_>, state: &mut State, r: usize, s: usize) {
    let read = setting.events.at(r);
    let own = r.wrapping_add(1);
    for k in 0..state.rows.width {
        let writes = setting.writes_to.word(read.location, k) & !word_of(s, k);
        let mut earlier = state.rows.word(Group::BeforeOnLocation.row(setting, r), k)
            | state.rows.word(Group::BeforeGlobally.row(setting, r), k);
        if read.is_locked {
            earlier |= state.rows.word(Group::Earlier.row(setting, own), k);
            let later = state.rows.word(Group::Later.row(setting, s), k);
            let others = writes & !word_of(own, k) & !setting.events_of.word(read.core, k);
            close_each_earlier(setting, state, own, k, later & others);
        }
        if s >= setting.locations {
            close_each_later(setting, state, s, k, earlier & writes);
        }
    }
}

/// The bit of a number in a word of a row, and 0 where it stands in another one.
fn word_of(a: usize, k: usize) -> u64 {
    if a / 64 == k { bit(a) } else { 0 }
}

/// Notes the writes that can't be the last one to their location, since another one comes after them.
fn close_lasts(setting: &Setting<'_>, state: &mut State, x: usize) {
    let mut w = state.lasts.next(x, 0);
    for _write in 0..setting.size {
        if w == NONE {
            break;
        }
        for k in 0..state.lasts.width {
            let later = state.rows.word(Group::AfterOnLocation.row(setting, w), k)
                | state.rows.word(Group::AfterGlobally.row(setting, w), k);
            if later & setting.writes_to.word(x, k) != 0 {
                state.sets.add(NOT_LAST, w);
            }
        }
        w = state.lasts.next(x, w.wrapping_add(1));
    }
}

/// Notes the answers whose branches edges close at once.
pub fn note_closed(setting: &Setting<'_>, state: &mut State, closed: &mut Rows) {
    for r in setting.locations..setting.size {
        if !setting.events.at(r).reads {
            continue;
        }
        if state.count_sources(setting, r) == 1 {
            let s = state.first_source(setting, r);
            close_orders(setting, state, r, s);
        } else {
            close_sources(setting, state, r, closed);
        }
    }
    for x in 0..setting.locations {
        if state.lasts.count(x) > 1 {
            close_lasts(setting, state, x);
        }
    }
}
