//! The branch with which each search begins: what the program alone tells, what the claim gives, and what follows.

use crate::lists::NONE;
use crate::makings::Term;
use crate::sets::add_value;
use crate::setting::Setting;
use crate::settle::settle;
use crate::state::{
    Group, LOCATIONS, READS, State, add_all, add_globally, add_on_location, add_order, empty_state,
};
use std::alloc::Global;

/// Takes from a read a write of its own core that comes later, or else what that overwrites: the last source of its own core.
fn take_own(state: &mut State, row: usize, r: usize, w: usize, last: usize) -> usize {
    if w > r {
        state.rows.remove(row, w);
        last
    } else {
        state.rows.remove(row, last);
        w
    }
}

/// What a read can read from by program order: not a later write of its core, nor what an earlier one has overwritten.
fn add_sources(setting: &Setting<'_>, state: &mut State, r: usize) {
    let event = setting.events.at(r);
    let x = event.location;
    let row = Group::Sources.row(setting, r);
    state.rows.join(row, &setting.writes_to, x);
    state.rows.add(row, x);
    let mut last = x;
    let mut w = setting.events_of.next(event.core, setting.locations);
    for _event in setting.locations..setting.size {
        if w == NONE {
            break;
        }
        if setting.writes_to.has(x, w) {
            last = take_own(state, row, r, w, last);
        }
        w = setting.events_of.next(event.core, w.wrapping_add(1));
    }
    state.sets.add(READS, r);
}

/// Notes what each event can read or write by the program alone.
fn add_values(setting: &Setting<'_>, state: &mut State) {
    for a in 0..setting.size {
        let reads = setting.events.at(a).reads;
        if reads {
            add_sources(setting, state, a);
        }
        match setting.terms.at(a) {
            Term::Number(value) if !reads => add_value(&mut state.values, a, value),
            _ => state.values.put_any(a),
        }
    }
}

/// Notes which writes can be the last ones, and which come after the initial one.
fn add_writes(setting: &Setting<'_>, state: &mut State) {
    for x in 0..setting.locations {
        state.lasts.join(x, &setting.writes_to, x);
        let later = Group::Later.row(setting, x);
        state.rows.join(later, &setting.writes_to, x);
        state.sets.add(LOCATIONS, x);
    }
}

/// Notes the edges on one location from an event that the program alone tells.
fn add_program_on_location(setting: &Setting<'_>, state: &mut State, a: usize) {
    let writes = setting.events.at(a).writes;
    let mut b = setting.program.next(a, a);
    for _event in a..setting.size {
        if b == NONE {
            break;
        }
        add_on_location(setting, state, a, b);
        if writes & setting.events.at(b).writes {
            add_order(setting, state, a, b);
        }
        b = setting.program.next(a, b.wrapping_add(1));
    }
}

/// Notes the global edges from an event that the program alone tells.
fn add_program_globally(setting: &Setting<'_>, state: &mut State, a: usize) {
    let row = setting.size.wrapping_add(a);
    let mut b = setting.program.next(row, a);
    for _event in a..setting.size {
        if b == NONE {
            break;
        }
        add_globally(setting, state, a, b);
        b = setting.program.next(row, b.wrapping_add(1));
    }
}

/// Notes the edges that the program alone tells.
fn add_program(setting: &Setting<'_>, state: &mut State) {
    for a in (setting.locations..setting.size).rev() {
        add_program_on_location(setting, state, a);
        add_program_globally(setting, state, a);
    }
}

/// The branch of what the program alone tells, of what the claim gives, and of all that follows from both.
pub fn first_state(alloc: Global, setting: &Setting<'_>) -> State {
    let mut state = empty_state(alloc, setting);
    add_values(setting, &mut state);
    add_writes(setting, &mut state);
    add_program(setting, &mut state);
    add_all(setting, &mut state, &setting.given);
    settle(setting, &mut state);
    state
}
