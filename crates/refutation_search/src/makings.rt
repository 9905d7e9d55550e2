//! What instructions make of numbers and of what reads return, and which values that can be.

use crate::counting::SPARES;
use crate::sets::add_value;
use crate::setting::Setting;
use crate::settle::spare;
use crate::state::State;
use reading_tables::expressions::{Held, Making as Told};
use reading_tables::tables::Problem;
use tso_terms::Operator;

/// A value, as the program tells it.
#[derive(Clone, Copy)]
pub enum Term {
    Number(u32),
    /// What a read returns.
    Returned(usize),
    /// What an instruction makes, by its number.
    Made(usize),
}

/// What an instruction makes of these parts: by an operator; else of a word, EAX and a new value where it compares, of 0 and a word where
/// it negates.
#[derive(Clone, Copy)]
pub struct Making {
    pub operator: Option<Operator>,
    pub parts: [Term; 3],
    pub compares: bool,
    /// The first making on which it may hang.
    pub first: usize,
}

impl Making {
    /// What it makes of these numbers.
    pub fn of(&self, parts: [u32; 3]) -> u32 {
        let [word, other, new] = parts;
        match self.operator {
            Some(operator) => operator.apply(word, other),
            None if self.compares && word == other => new,
            None => word,
        }
    }
}

/// What stands where there is no making.
pub const NO_MAKING: Making = Making {
    operator: None,
    parts: [Term::Number(0); 3],
    compares: false,
    first: 0,
};

/// What a register holds, or a write writes.
pub fn term_of(setting: &Setting<'_>, held: Held) -> Term {
    match held {
        Held::Number(number) => Term::Number(number),
        Held::Returned(read) => Term::Returned(setting.number_of(&read)),
        Held::Made(number) => Term::Made(number),
    }
}

fn making_of(setting: &Setting<'_>, told: Told) -> Making {
    match told {
        Told::Combined(operator, left, right) => Making {
            operator: Some(operator),
            parts: [
                term_of(setting, left),
                term_of(setting, right),
                Term::Number(0),
            ],
            ..NO_MAKING
        },
        Told::Negated(inner) => Making {
            operator: Some(Operator::Subtract),
            parts: [Term::Number(0), term_of(setting, inner), Term::Number(0)],
            ..NO_MAKING
        },
        Told::Exchanged(word, eax, new) => Making {
            parts: [
                term_of(setting, word),
                term_of(setting, eax),
                term_of(setting, new),
            ],
            compares: true,
            ..NO_MAKING
        },
    }
}

/// Notes what instructions make.
pub fn add_makings(setting: &mut Setting<'_>, problem: &Problem<'_>) {
    for told in &problem.expressions.makings {
        let number = setting.makings.len();
        let making = making_of(setting, *told);
        let mut first = number;
        for part in making.parts {
            if let Term::Made(other) = part {
                first = first.min(setting.makings.at(other).first);
            }
        }
        setting.makings.push(Making { first, ..making });
    }
}

/// The set of what an instruction can make.
fn made(setting: &Setting<'_>, number: usize) -> usize {
    spare(setting, SPARES.wrapping_add(number))
}

/// The set of what a term can be: the one with this number is filled, where the term is a number.
fn set_of(setting: &Setting<'_>, state: &mut State, term: Term, number: usize) -> usize {
    match term {
        Term::Number(value) => {
            let set = spare(setting, number);
            state.values.counts.put(set, 0);
            add_value(&mut state.values, set, value);
            set
        }
        Term::Returned(r) => r,
        Term::Made(number) => made(setting, number),
    }
}

/// What an operator makes of two sets.
fn combine(state: &mut State, operator: Operator, left: usize, right: usize, set: usize) {
    if state.values.is_any(left) || state.values.is_any(right) {
        state.values.put_any(set);
        return;
    }
    for i in 0..state.values.count(left) {
        for k in 0..state.values.count(right) {
            let value = operator.apply(state.values.value(left, i), state.values.value(right, k));
            add_value(&mut state.values, set, value);
        }
        if state.values.is_any(set) {
            return;
        }
    }
}

/// What a compare and exchange makes of a set of words.
fn exchange(state: &mut State, words: usize, eax: usize, new: usize, set: usize) {
    if state.values.is_any(words) {
        state.values.put_any(set);
        return;
    }
    for i in 0..state.values.count(words) {
        let word = state.values.value(words, i);
        if state.values.can_be(eax, word, true) {
            if state.values.is_any(new) {
                state.values.put_any(set);
            }
            for k in 0..state.values.count(new) {
                let value = state.values.value(new, k);
                add_value(&mut state.values, set, value);
            }
        }
        if state.values.can_be(eax, word, false) {
            add_value(&mut state.values, set, word);
        }
        if state.values.is_any(set) {
            return;
        }
    }
}

/// The sets that stand for the three parts of a making, where they are numbers.
const LEFT: usize = 3;

const RIGHT: usize = 4;

const NEXT: usize = 5;

fn find_making(setting: &Setting<'_>, state: &mut State, number: usize) {
    let making = setting.makings.at(number);
    let left = set_of(setting, state, making.parts[0], LEFT);
    let right = set_of(setting, state, making.parts[1], RIGHT);
    let set = made(setting, number);
    state.values.counts.put(set, 0);
    if let Some(operator) = making.operator {
        combine(state, operator, left, right, set);
    } else if making.compares {
        let new = set_of(setting, state, making.parts[2], NEXT);
        exchange(state, left, right, new, set);
    }
}

/// The set of what a term can be, found anew where instructions make it.
pub fn find_term(setting: &Setting<'_>, state: &mut State, term: Term) -> usize {
    if let Term::Made(number) = term {
        for k in setting.makings.at(number).first..number.wrapping_add(1) {
            find_making(setting, state, k);
        }
    }
    set_of(setting, state, term, LEFT)
}
