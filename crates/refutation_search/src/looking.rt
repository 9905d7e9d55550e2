//! One look ahead at each answer of questions, and by it the question to be asked.

use crate::candidates::{Candidates, add_candidates, add_implied_orders};
use crate::closing::note_closed;
use crate::facts::{Fact, NO_FACT, Question, same_question};
use crate::hanging::hanging_read;
use crate::lemmas::Lemmas;
use crate::lists::{List, NONE};
use crate::questions::{add_answers, close_answer, is_noted};
use crate::rows::Rows;
use crate::setting::Setting;
use crate::settle::settle;
use crate::state::{Group, State, add_fact};
use std::alloc::Global;

/// A question, and what a look at its answers told.
#[derive(Clone, Copy)]
pub struct Offer {
    pub question: Question,
    /// How many branches stay open; `NONE` where there is no question.
    pub open: usize,
    /// How much the branches tell that stay open: the least of them, and all.
    pub gain: usize,
}

/// No question.
pub const NO_OFFER: Offer = Offer {
    question: Question::Nothing,
    open: NONE,
    gain: 0,
};

/// What looks need: a branch that is tried, and answers; and how many looks may still be made.
#[derive(Drop)]
pub struct Look {
    pub trial: State,
    pub answers: List<Fact>,
    pub best: Offer,
    /// How many looks may still be made for this question.
    pub left: usize,
    /// How many looks were made in all.
    pub made: usize,
    /// How much each event was met in lemmas of late.
    pub heat: List<usize>,
    /// By what number questions that are nearly as good change places.
    pub twist: usize,
    /// Whether nothing is asked but what those reads read from on which it hangs whether what is told of others is so.
    pub goes_back: bool,
    /// A row for sources that are closed.
    closed: Rows,
    /// The last questions that turned out to have no open answer, the last one first.
    recent: List<Question>,
}

impl Look {
    /// What looks need.
    pub fn new(alloc: Global, size: usize, trial: State) -> Look {
        Look {
            trial,
            answers: List::new(alloc, 0, NO_FACT),
            best: NO_OFFER,
            left: 0,
            made: 0,
            heat: List::new(alloc, size, 0),
            twist: 0,
            goes_back: false,
            closed: Rows::new(alloc, 1, size),
            recent: List::new(alloc, MOST_RECENT, Question::Nothing),
        }
    }

    /// Whether memory was refused.
    pub fn is_refused(&self) -> bool {
        self.trial.is_refused()
            | self.answers.is_refused
            | self.heat.is_refused
            | self.closed.words.is_refused
            | self.recent.is_refused
    }

    /// Tries a branch with one more fact: whether it is closed.
    pub fn is_closed(
        &mut self,
        setting: &Setting<'_>,
        lemmas: &Lemmas,
        state: &State,
        fact: Fact,
    ) -> bool {
        self.trial.copy_from(state);
        add_fact(setting, &mut self.trial, fact);
        settle(setting, &mut self.trial);
        self.made = self.made.wrapping_add(1);
        self.left = self.left.saturating_sub(1);
        self.trial.is_closed || lemmas.find(setting, &self.trial, NONE) != NONE
    }
}

/// Sixteen times the logarithm to base 2 of a number, nearly; 0 for none.
fn logarithm(number: usize) -> usize {
    if number < 2 {
        return 0;
    }
    let whole = (63 - number.leading_zeros()) as usize;
    let rest = (number << 4) >> (whole % 64);
    whole.wrapping_mul(16).wrapping_add(rest & 15)
}

/// The weight of a read that can return any value.
const ANY_VALUE: usize = 128;

/// How much is still open on a branch: sources and values of reads, and orders of writes.
fn weigh(setting: &Setting<'_>, state: &State) -> usize {
    let mut weight = 0usize;
    for a in setting.locations..setting.size {
        let event = setting.events.at(a);
        if event.reads {
            let values = if state.values.is_any(a) {
                ANY_VALUE
            } else {
                logarithm(state.values.count(a))
            };
            weight = weight
                .wrapping_add(logarithm(state.count_sources(setting, a)))
                .wrapping_add(values);
        }
        if event.writes {
            let ordered = state.rows.count(Group::Later.row(setting, a));
            let all = setting.writes_to.count(event.location);
            weight = weight.wrapping_add(all.wrapping_sub(ordered));
        }
    }
    weight
}

/// How much an open branch tells more, of so many, by how much one has to tell to be worth as many.
fn mean_gain(gains: usize, open: usize) -> usize {
    let scaled = gains.saturating_mul(1_024);
    scaled / open.max(1) / logarithm(open).max(1)
}

/// Looks at all answers of a question: how many stay open, and how much they tell. The others are noted.
fn look_ahead(
    setting: &Setting<'_>,
    lemmas: &Lemmas,
    look: &mut Look,
    state: &mut State,
    question: Question,
) -> (usize, usize) {
    look.answers.cut(0);
    add_answers(setting, state, question, &mut look.answers);
    let whole = weigh(setting, state);
    let mut open = 0usize;
    let mut gains = 0usize;
    for i in 0..look.answers.len() {
        let answer = look.answers.at(i);
        if is_noted(setting, state, answer) {
            continue;
        }
        if look.is_closed(setting, lemmas, state, answer) {
            close_answer(setting, state, answer);
        } else {
            open = open.wrapping_add(1);
            let gain = whole.saturating_sub(weigh(setting, &look.trial));
            gains = gains.saturating_add(gain);
        }
    }
    (open, mean_gain(gains, open))
}

/// The event of a question.
fn event_of(question: Question) -> usize {
    match question {
        Question::ReadsFrom(r) | Question::ReadsValue(r) => r,
        Question::ComesFirst(_, b) => b,
        Question::IsReadBy(_, s) => s,
        Question::ComesLast(x) => x,
        Question::HasCase(..) | Question::IsSo(_) | Question::Nothing => NONE,
    }
}

/// How much a question tells, with what was met of late and the twist.
fn worth(look: &Look, question: Question, gain: usize) -> usize {
    let a = event_of(question);
    let turn = a.wrapping_mul(look.twist).wrapping_mul(7) % 16;
    let part = look
        .heat
        .at(a)
        .min(HOTTEST)
        .wrapping_add(32)
        .wrapping_add(turn);
    gain.saturating_mul(part)
}

/// How much an event can have been met.
const HOTTEST: usize = 64;

/// Notes that an event was met in a lemma.
pub fn warm(look: &mut Look, a: usize) {
    let heat = look.heat.at(a);
    look.heat.put(a, heat.saturating_add(16));
}

/// Has all that was met count for less.
pub fn cool(look: &mut Look) {
    for a in 0..look.heat.len() {
        let heat = look.heat.at(a);
        look.heat.put(a, heat.wrapping_sub(heat / 8));
    }
}

/// Looks at all answers of a question, and keeps it if it is the best so far.
fn look_at(
    setting: &Setting<'_>,
    lemmas: &Lemmas,
    look: &mut Look,
    state: &mut State,
    question: Question,
) {
    let (open, told) = look_ahead(setting, lemmas, look, state, question);
    let gain = worth(look, question, told);
    let is_better = if open < 2 {
        open < look.best.open
    } else {
        (look.best.open > 1) & ((look.best.open == NONE) | (gain > look.best.gain))
    };
    if is_better {
        look.best = Offer {
            question,
            open,
            gain,
        };
    }
}

/// How many questions are looked at first, since they had no open answer of late.
const MOST_RECENT: usize = 8;

/// Notes that a question had no open answer.
fn note_recent(look: &mut Look, question: Question) {
    let mut moved = question;
    for i in 0..look.recent.len() {
        let other = look.recent.at(i);
        look.recent.put(i, moved);
        moved = other;
        if same_question(other, question) {
            return;
        }
    }
}

/// Whether it is one of these questions.
fn is_candidate(candidates: &Candidates, question: Question) -> bool {
    for other in &candidates.questions.items {
        if same_question(*other, question) {
            return true;
        }
    }
    false
}

/// Looks at the questions that had no open answer of late.
fn look_at_recent(
    setting: &Setting<'_>,
    lemmas: &Lemmas,
    look: &mut Look,
    state: &mut State,
    candidates: &Candidates,
) {
    for i in 0..look.recent.len() {
        let question = look.recent.at(i);
        if is_candidate(candidates, question) {
            look_at(setting, lemmas, look, state, question);
        }
        if look.best.open == 0 {
            return;
        }
    }
}

/// Questions with so many answers and more are looked at last.
const WIDEST: usize = 64;

/// The question of what the read reads from on which most hangs.
fn offer_back(setting: &Setting<'_>, state: &State) -> Offer {
    let r = hanging_read(setting, state);
    if r == NONE {
        return NO_OFFER;
    }
    Offer {
        question: Question::ReadsFrom(r),
        open: state.count_sources(setting, r),
        gain: 0,
    }
}

/// The question to be asked on a branch: that with the fewest open branches, as far as looks go.
pub fn choose(
    setting: &Setting<'_>,
    lemmas: &Lemmas,
    look: &mut Look,
    state: &mut State,
    candidates: &mut Candidates,
) -> Offer {
    if look.goes_back {
        return offer_back(setting, state);
    }
    note_closed(setting, state, &mut look.closed);
    add_candidates(setting, look, state, candidates);
    look.best = NO_OFFER;
    look_at_recent(setting, lemmas, look, state, candidates);
    if look.best.open > 1 {
        look_at_all(setting, lemmas, look, state, candidates);
    }
    if look.best.open == NONE {
        candidates.clear();
        add_implied_orders(setting, look, state, candidates);
        look_at_all(setting, lemmas, look, state, candidates);
    }
    if look.best.open == 0 {
        note_recent(look, look.best.question);
    }
    look.best
}

/// Looks at the questions, those first that have the fewest answers, until one is closed, or enough looks were made.
fn look_at_all(
    setting: &Setting<'_>,
    lemmas: &Lemmas,
    look: &mut Look,
    state: &mut State,
    candidates: &Candidates,
) {
    for width in 0..WIDEST.wrapping_add(1) {
        for i in 0..candidates.questions.len() {
            if candidates.widths.at(i).min(WIDEST) == width {
                look_at(setting, lemmas, look, state, candidates.questions.at(i));
            }
            let is_late = (look.left == 0) & (look.best.open != NONE);
            if (look.best.open == 0) | is_late {
                return;
            }
        }
        if look.best.open < 2 {
            return;
        }
    }
}
