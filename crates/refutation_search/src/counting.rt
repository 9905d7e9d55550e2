//! Counters: locations to which locked additions and subtractions of numbers alone write. Their words add up.

use crate::lists::NONE;
use crate::sets::{MOST, add_value};
use crate::setting::{COUNTERS, Setting};
use crate::settle::{NEW, spare};
use crate::state::{Group, State};

/// The set of sums.
const SUMS: usize = 1;
/// The set of the sums before an addition.
const BEFORE: usize = 2;
/// How many spare sets there are.
pub const SPARES: usize = 6;

/// How additions come before one of them: surely, perhaps, or not.
#[derive(Clone, Copy)]
enum Comes {
    Surely,
    Perhaps,
    Not,
}

fn how_it_comes(setting: &Setting<'_>, state: &State, w: usize, own: usize) -> Comes {
    if (w == own) || state.has(setting, Group::Later, own, w) {
        Comes::Not
    } else if state.has(setting, Group::Later, w, own) {
        Comes::Surely
    } else {
        Comes::Perhaps
    }
}

/// The sums where all additions add one number: they go by how many come before.
fn count_equal(setting: &Setting<'_>, state: &mut State, x: usize, own: usize, addend: u32) {
    let sums = spare(setting, SUMS);
    let mut word = setting.first_word(x);
    let mut perhaps = 0usize;
    for w in setting.locations..setting.size {
        if setting.writes_to.has(x, w) {
            match how_it_comes(setting, state, w, own) {
                Comes::Surely => word = word.wrapping_add(addend),
                Comes::Perhaps => perhaps = perhaps.wrapping_add(1),
                Comes::Not => {}
            }
        }
    }
    state.values.counts.put(sums, 0);
    for _addition in 0..perhaps.wrapping_add(1).min(MOST.wrapping_add(1)) {
        add_value(&mut state.values, sums, word);
        word = word.wrapping_add(addend);
    }
}

/// Adds a number to all sums, or to all but those where it isn't added.
fn add_number(setting: &Setting<'_>, state: &mut State, addend: u32, is_sure: bool) {
    let sums = spare(setting, SUMS);
    let before = spare(setting, BEFORE);
    let count = state.values.count(sums);
    for i in 0..count {
        let value = state.values.value(sums, i);
        state.values.put(before, i, value);
    }
    if is_sure {
        state.values.counts.put(sums, 0);
    }
    for i in 0..count {
        let value = state.values.value(before, i).wrapping_add(addend);
        add_value(&mut state.values, sums, value);
    }
}

fn count_each(setting: &Setting<'_>, state: &mut State, x: usize, own: usize) {
    let sums = spare(setting, SUMS);
    state.values.counts.put(sums, 0);
    add_value(&mut state.values, sums, setting.first_word(x));
    for w in setting.locations..setting.size {
        if state.values.is_any(sums) {
            return;
        }
        if setting.writes_to.has(x, w) {
            let addend = setting.addends.at(w);
            match how_it_comes(setting, state, w, own) {
                Comes::Surely => add_number(setting, state, addend, true),
                Comes::Perhaps => add_number(setting, state, addend, false),
                Comes::Not => {}
            }
        }
    }
}

/// The number that all additions to a location add, if it is one.
fn common_addend(setting: &Setting<'_>, x: usize) -> Option<u32> {
    let addend = setting.addends.at(setting.writes_to.next(x, 0));
    for w in setting.locations..setting.size {
        if setting.writes_to.has(x, w) & (setting.addends.at(w) != addend) {
            return None;
        }
    }
    Some(addend)
}

/// Leaves of the new values of a read, which is the load part of an addition to a counter, those to which additions add up.
pub fn count_values(setting: &Setting<'_>, state: &mut State, r: usize) {
    let read = setting.events.at(r);
    if !read.is_locked || !setting.sets.has(COUNTERS, read.location) {
        return;
    }
    let own = r.wrapping_add(1);
    match common_addend(setting, read.location) {
        Some(addend) => count_equal(setting, state, read.location, own, addend),
        None => count_each(setting, state, read.location, own),
    }
    let (new, sums) = (spare(setting, NEW), spare(setting, SUMS));
    state.values.keep_common(new, sums);
}

/// The last word of a counter.
pub fn counted(setting: &Setting<'_>, x: usize) -> u32 {
    let mut word = setting.first_word(x);
    let mut w = setting.writes_to.next(x, 0);
    for _write in 0..setting.size {
        if w == NONE {
            break;
        }
        word = word.wrapping_add(setting.addends.at(w));
        w = setting.writes_to.next(x, w.wrapping_add(1));
    }
    word
}
