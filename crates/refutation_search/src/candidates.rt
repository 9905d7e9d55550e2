//! The questions that may be asked on a branch.

use crate::facts::{Fact, NO_FACT, Question};
use crate::lemmas::is_known;
use crate::lists::{List, NONE};
use crate::looking::Look;
use crate::parts::{PartKind, add_cases};
use crate::questions::{add_answers, is_noted};
use crate::setting::{COUNTERS, LOCKED, Setting};
use crate::state::{Group, State};
use std::alloc::Global;

/// How many answers of a question aren't noted as closed.
fn count_open(setting: &Setting<'_>, look: &mut Look, state: &State, question: Question) -> usize {
    look.answers.cut(0);
    add_answers(setting, state, question, &mut look.answers);
    let mut open = 0usize;
    for i in 0..look.answers.len() {
        if !is_noted(setting, state, look.answers.at(i)) {
            open = open.wrapping_add(1);
        }
    }
    open
}

/// Whether one of the answers at hand is known.
fn is_settled(setting: &Setting<'_>, look: &Look, state: &State) -> bool {
    for i in 0..look.answers.len() {
        if is_known(setting, state, look.answers.at(i)) {
            return true;
        }
    }
    false
}

/// The questions that may be asked on a branch, each with how many of its answers aren't noted as closed.
#[derive(Drop)]
pub struct Candidates {
    pub questions: List<Question>,
    pub widths: List<usize>,
}

impl Candidates {
    /// None.
    pub fn none(alloc: Global) -> Candidates {
        Candidates {
            questions: List::new(alloc, 0, Question::Nothing),
            widths: List::new(alloc, 0, NONE),
        }
    }

    /// Whether memory was refused.
    pub fn is_refused(&self) -> bool {
        self.questions.is_refused | self.widths.is_refused
    }

    /// Takes all away.
    pub fn clear(&mut self) {
        self.questions.cut(0);
        self.widths.cut(0);
    }

    fn add(&mut self, setting: &Setting<'_>, look: &mut Look, state: &State, question: Question) {
        let width = count_open(setting, look, state, question);
        if !is_settled(setting, look, state) {
            self.questions.push(question);
            self.widths.push(width);
        }
    }
}

/// Whether a case was chosen on this branch already: its facts are there.
fn is_decided(setting: &Setting<'_>, state: &State, part: usize, truth: bool) -> bool {
    let mut cases = List::new(setting.alloc, 0, NO_FACT);
    add_cases(setting, &mut cases, part, truth);
    for i in 0..cases.len() {
        if let Fact::Given(case, value) = cases.at(i) {
            if !state.truths.at(case).can_be(!value) {
                return true;
            }
        }
    }
    cases.len() < 2
}

fn add_case_questions(
    setting: &Setting<'_>,
    look: &mut Look,
    state: &State,
    candidates: &mut Candidates,
) {
    for i in 0..state.facts.len() {
        if let Fact::Holds(part, truth) = state.facts.at(i) {
            let is_compound = matches!(
                setting.parts.at(part).kind,
                PartKind::Both | PartKind::Either | PartKind::Not
            );
            if is_compound && !is_decided(setting, state, part, truth) {
                candidates.add(setting, look, state, Question::HasCase(part, truth));
            }
        }
    }
}

fn add_read_questions(
    setting: &Setting<'_>,
    look: &mut Look,
    state: &State,
    candidates: &mut Candidates,
) {
    for r in setting.locations..setting.size {
        if setting.events.at(r).reads {
            candidates.add(setting, look, state, Question::ReadsFrom(r));
        }
    }
    for x in 0..setting.locations {
        if setting.sets.has(LOCKED, x) {
            candidates.add(setting, look, state, Question::IsReadBy(x, x));
            for w in setting.locations..setting.size {
                if setting.writes_to.has(x, w) {
                    candidates.add(setting, look, state, Question::IsReadBy(x, w));
                }
            }
        }
    }
    for x in 0..setting.locations {
        if setting.writes_to.next(x, 0) != NONE {
            candidates.add(setting, look, state, Question::ComesLast(x));
        }
    }
}

/// Whether a read reads from the first of two writes, and isn't known to be before the second.
fn some_reader_gains(setting: &Setting<'_>, state: &State, a: usize, b: usize) -> bool {
    let x = setting.events.at(a).location;
    let mut r = setting.readers_of.next(x, 0);
    for _read in 0..setting.size {
        if r == NONE {
            break;
        }
        let is_before = state.has(setting, Group::AfterOnLocation, r, b)
            && state.has(setting, Group::AfterGlobally, r, b);
        if !is_before && state.has(setting, Group::Sources, r, a) {
            return true;
        }
        r = setting.readers_of.next(x, r.wrapping_add(1));
    }
    false
}

/// Whether it would tell more that one write comes before another one, which follows from other edges.
pub fn tells_more(setting: &Setting<'_>, state: &State, a: usize, b: usize) -> bool {
    let write = setting.events.at(b);
    let read = b.wrapping_sub(1);
    let may_part = write.is_locked
        && (setting.events.at(a).core != write.core)
        && state.has(setting, Group::FromReads, read, a);
    may_part
        || state.lasts.has(write.location, a)
        || setting.sets.has(COUNTERS, write.location)
        || !state.has(setting, Group::AfterGlobally, a, b)
        || some_reader_gains(setting, state, a, b)
}

/// Adds the questions of two writes whose order follows from other edges, where it would tell more.
pub fn add_implied_orders(
    setting: &Setting<'_>,
    look: &mut Look,
    state: &State,
    candidates: &mut Candidates,
) {
    for a in setting.locations..setting.size {
        let x = setting.events.at(a);
        if !x.writes {
            continue;
        }
        for b in setting.locations..setting.size {
            if setting.writes_to.has(x.location, b)
                && !state.has(setting, Group::Later, a, b)
                && state.has(setting, Group::AfterOnLocation, a, b)
                && tells_more(setting, state, a, b)
            {
                candidates.add(setting, look, state, Question::ComesFirst(a, b));
            }
        }
    }
}

fn add_order_questions(
    setting: &Setting<'_>,
    look: &mut Look,
    state: &State,
    candidates: &mut Candidates,
) {
    for a in setting.locations..setting.size {
        let x = setting.events.at(a);
        if !x.writes {
            continue;
        }
        for b in a.wrapping_add(1)..setting.size {
            let is_told = state.has(setting, Group::AfterOnLocation, a, b)
                || state.has(setting, Group::AfterOnLocation, b, a);
            if setting.writes_to.has(x.location, b) && !is_told {
                candidates.add(setting, look, state, Question::ComesFirst(a, b));
            }
        }
    }
}

fn add_value_questions(
    setting: &Setting<'_>,
    look: &mut Look,
    state: &State,
    candidates: &mut Candidates,
) {
    for r in setting.locations..setting.size {
        let count = state.values.count(r);
        if setting.events.at(r).reads && count > 1 && count < state.count_sources(setting, r) {
            candidates.add(setting, look, state, Question::ReadsValue(r));
        }
    }
}

/// Gathers the questions that may be asked on a branch.
pub fn add_candidates(
    setting: &Setting<'_>,
    look: &mut Look,
    state: &State,
    candidates: &mut Candidates,
) {
    candidates.clear();
    add_case_questions(setting, look, state, candidates);
    add_read_questions(setting, look, state, candidates);
    add_order_questions(setting, look, state, candidates);
    add_value_questions(setting, look, state, candidates);
}
