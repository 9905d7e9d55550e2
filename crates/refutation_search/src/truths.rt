//! What parts of what is asked can be at the end, as far as the facts of a branch tell.

use crate::counting::counted;
use crate::facts::Fact;
use crate::leasts::is_more;
use crate::lists::NONE;
use crate::makings::{Term, find_term};
use crate::parts::PartKind;
use crate::sets::add_value;
use crate::setting::{COUNTERS, Setting};
use crate::settle::{NEW, spare};
use crate::state::State;

/// What a part can be.
#[derive(Clone, Copy)]
pub struct Truth {
    pub can_be_true: bool,
    pub can_be_false: bool,
}

impl Truth {
    /// Whether it can be so, or can not be so.
    pub fn can_be(self, truth: bool) -> bool {
        if truth {
            self.can_be_true
        } else {
            self.can_be_false
        }
    }
}

/// What stands where there is no part.
pub const OPEN: Truth = Truth {
    can_be_true: true,
    can_be_false: true,
};

/// What a fact says of the last word of a location.
fn told_word(setting: &Setting<'_>, fact: Fact, x: usize) -> Option<(u32, bool)> {
    if let Fact::Holds(part, truth) = fact {
        if let PartKind::Word(location, value) = setting.parts.at(part).kind {
            if location == x {
                return Some((value, truth));
            }
        }
    }
    None
}

/// Whether the facts leave it possible that the location has this word at the end.
fn may_be_word(setting: &Setting<'_>, state: &State, x: usize, word: u32) -> bool {
    for fact in &state.facts.items {
        if let Some((value, truth)) = told_word(setting, *fact, x) {
            if (value == word) != truth {
                return false;
            }
        }
    }
    true
}

/// Whether facts say that the location has less at the end than this write can write.
fn is_less_left(setting: &Setting<'_>, state: &State, x: usize, w: usize) -> bool {
    for fact in &state.facts.items {
        if let Some((value, true)) = told_word(setting, *fact, x) {
            if is_more(setting, state, w, value) {
                return true;
            }
        }
    }
    false
}

/// Whether the facts leave it possible that the location has at the end what this write writes.
pub fn may_be_left(setting: &Setting<'_>, state: &State, x: usize, w: usize) -> bool {
    if state.values.is_any(w) {
        return !is_less_left(setting, state, x, w);
    }
    for i in 0..state.values.count(w) {
        if may_be_word(setting, state, x, state.values.value(w, i)) {
            return true;
        }
    }
    false
}

/// Finds what the last write to a location can leave there.
fn find_last_words(setting: &Setting<'_>, state: &mut State, x: usize) {
    let new = spare(setting, NEW);
    state.values.counts.put(new, 0);
    if setting.sets.has(COUNTERS, x) {
        add_value(&mut state.values, new, counted(setting, x));
        return;
    }
    if setting.writes_to.next(x, 0) == NONE {
        add_value(&mut state.values, new, setting.first_word(x));
        return;
    }
    let mut w = state.lasts.next(x, 0);
    for _write in 0..setting.size {
        if w == NONE {
            break;
        }
        if state.values.is_any(w) {
            state.values.put_any(new);
        }
        if state.values.is_any(new) {
            break;
        }
        for i in 0..state.values.count(w) {
            let value = state.values.value(w, i);
            add_value(&mut state.values, new, value);
        }
        w = state.lasts.next(x, w.wrapping_add(1));
    }
}

/// Finds what a location can have at the end.
fn find_words(setting: &Setting<'_>, state: &mut State, x: usize) {
    let new = spare(setting, NEW);
    find_last_words(setting, state, x);
    for i in 0..state.facts.len() {
        if !state.values.is_any(new) {
            break;
        }
        if let Some((value, true)) = told_word(setting, state.facts.at(i), x) {
            state.values.counts.put(new, 0);
            add_value(&mut state.values, new, value);
        }
    }
    let count = state.values.count(new);
    if state.values.is_any(new) {
        return;
    }
    state.values.counts.put(new, 0);
    for i in 0..count {
        let word = state.values.value(new, i);
        if may_be_word(setting, state, x, word) {
            add_value(&mut state.values, new, word);
        }
    }
}

fn truth_of_register(setting: &Setting<'_>, state: &mut State, term: Term, value: u32) -> Truth {
    let set = find_term(setting, state, term);
    Truth {
        can_be_true: state.values.can_be(set, value, true),
        can_be_false: state.values.can_be(set, value, false),
    }
}

fn truth_of(setting: &Setting<'_>, state: &mut State, i: usize) -> Truth {
    let part = setting.parts.at(i);
    let first = state.truths.at(i.wrapping_add(1));
    let second = state.truths.at(part.second);
    match part.kind {
        PartKind::Truth(value) => Truth {
            can_be_true: value,
            can_be_false: !value,
        },
        PartKind::Register(term, value) => truth_of_register(setting, state, term, value),
        PartKind::Word(x, value) => {
            find_words(setting, state, x);
            let new = spare(setting, NEW);
            Truth {
                can_be_true: state.values.can_be(new, value, true),
                can_be_false: state.values.can_be(new, value, false),
            }
        }
        PartKind::Not => Truth {
            can_be_true: first.can_be_false,
            can_be_false: first.can_be_true,
        },
        PartKind::Both => Truth {
            can_be_true: first.can_be_true & second.can_be_true,
            can_be_false: first.can_be_false | second.can_be_false,
        },
        PartKind::Either => Truth {
            can_be_true: first.can_be_true | second.can_be_true,
            can_be_false: first.can_be_false & second.can_be_false,
        },
    }
}

/// Finds what each part of what is asked can be.
pub fn find_truths(setting: &Setting<'_>, state: &mut State) {
    for i in (0..setting.parts.len()).rev() {
        let truth = truth_of(setting, state, i);
        state.truths.put(i, truth);
    }
}

/// Whether a part of what is asked, which a fact gives, can't be so.
pub fn is_false(state: &State) -> bool {
    for fact in &state.facts.items {
        if let Fact::Holds(part, truth) = *fact {
            if !state.truths.at(part).can_be(truth) {
                return true;
            }
        }
    }
    false
}
