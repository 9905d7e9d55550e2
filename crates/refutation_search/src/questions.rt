//! The answers to a question that a branch leaves possible.

use crate::facts::{Fact, Question, opposite};
use crate::lists::{List, NONE};
use crate::parts::add_cases;
use crate::setting::Setting;
use crate::state::{Group, NOT_LAST, State};

fn add_sources(setting: &Setting<'_>, state: &State, r: usize, answers: &mut List<Fact>) {
    let row = Group::Sources.row(setting, r);
    let mut s = state.rows.next(row, 0);
    for _source in 0..setting.size {
        if s == NONE {
            break;
        }
        answers.push(Fact::From(r, s, true));
        s = state.rows.next(row, s.wrapping_add(1));
    }
}

fn add_readers(setting: &Setting<'_>, state: &State, x: usize, s: usize, answers: &mut List<Fact>) {
    let mut r = setting.load_parts_of.next(x, 0);
    for _read in 0..setting.size {
        if r == NONE {
            break;
        }
        if state.has(setting, Group::Sources, r, s) {
            answers.push(Fact::From(r, s, true));
        }
        r = setting.load_parts_of.next(x, r.wrapping_add(1));
    }
    if state.lasts.has(x, s) {
        answers.push(Fact::Last(s, true));
    }
}

fn add_lasts(setting: &Setting<'_>, state: &State, x: usize, answers: &mut List<Fact>) {
    let mut w = state.lasts.next(x, 0);
    for _write in 0..setting.size {
        if w == NONE {
            break;
        }
        answers.push(Fact::Last(w, true));
        w = state.lasts.next(x, w.wrapping_add(1));
    }
}

/// Adds the answers that are possible, in the order of the definition's but for those of `ReadsValue`.
pub fn add_answers(
    setting: &Setting<'_>,
    state: &State,
    question: Question,
    answers: &mut List<Fact>,
) {
    match question {
        Question::ReadsFrom(r) => add_sources(setting, state, r, answers),
        Question::ReadsValue(r) => {
            for i in 0..state.values.count(r) {
                answers.push(Fact::Returns(r, state.values.value(r, i), true));
            }
        }
        Question::ComesFirst(a, b) => {
            answers.push(Fact::Before(a, b));
            answers.push(Fact::Before(b, a));
        }
        Question::IsReadBy(x, s) => add_readers(setting, state, x, s, answers),
        Question::ComesLast(x) => add_lasts(setting, state, x, answers),
        Question::HasCase(part, truth) => add_cases(setting, answers, part, truth),
        Question::IsSo(fact) => {
            answers.push(fact);
            answers.push(opposite(fact));
        }
        Question::Nothing => {}
    }
}

/// Notes that the branch of an answer is closed.
pub fn close_answer(setting: &Setting<'_>, state: &mut State, answer: Fact) {
    match answer {
        Fact::From(r, s, true) => state.rows.add(Group::ClosedSources.row(setting, r), s),
        Fact::Before(a, b) => state.rows.add(Group::ClosedOrders.row(setting, a), b),
        Fact::Last(w, true) => state.sets.add(NOT_LAST, w),
        _ => {}
    }
}

/// Whether the branch of an answer is noted as closed.
pub fn is_noted(setting: &Setting<'_>, state: &State, answer: Fact) -> bool {
    match answer {
        Fact::From(r, s, true) => state.has(setting, Group::ClosedSources, r, s),
        Fact::Before(a, b) => {
            state.has(setting, Group::ClosedOrders, a, b)
                || state.has(setting, Group::AfterOnLocation, b, a)
                || state.has(setting, Group::AfterGlobally, b, a)
        }
        Fact::Last(w, true) => state.sets.has(NOT_LAST, w),
        _ => false,
    }
}
