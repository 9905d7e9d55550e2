//! The search: depth first, a question on each branch, and back to where an answer was needed.

use crate::candidates::Candidates;
use crate::cores::{Cores, find_core};
use crate::facts::{Fact, NO_FACT, Question};
use crate::lemmas::{Lemma, Lemmas};
use crate::lists::{List, NONE};
use crate::looking::{Look, choose, cool, warm};
use crate::questions::{add_answers, is_noted};
use crate::setting::Setting;
use crate::state::{State, empty_state};
use crate::trees::{Trees, Twig};
use std::alloc::Global;

/// A question on the branch in hand.
#[derive(Clone, Copy)]
pub struct Frame {
    pub question: Question,
    pub node: usize,
    /// Its answers that are open: where they begin among those of all frames, and the next one.
    pub start: usize,
    pub next: usize,
    /// The answer on whose branch the search is.
    pub answer: Fact,
}

const NO_FRAME: Frame = Frame {
    question: Question::Nothing,
    node: NONE,
    start: 0,
    next: 0,
    answer: NO_FACT,
};

/// How a search ended.
#[derive(Clone, Copy)]
pub enum Find {
    /// This node closes what the claim gives; `NONE` where that is closed at once.
    Refuted(usize),
    /// A branch has no question left, and each read has one source on it.
    Open,
    /// It took too many cases, or too many questions were asked on a branch.
    Late,
}

/// How many looks may be made for one question, where events are few.
const MOST_LOOKS: usize = 400;

/// How much work looks may be for one question, and in all, where each one costs the square of the number of events.
const MOST_WORK: usize = 4_000_000;

const WHOLE_WORK: usize = 200_000_000;

/// How many questions a branch has at most.
pub const DEEPEST: usize = 192;

/// A search.
#[derive(Drop)]
pub struct Hunt {
    pub root: State,
    /// The branch at each depth.
    pub levels: Vec<State>,
    pub frames: List<Frame>,
    pub answers: List<Fact>,
    pub cores: Cores,
    pub look: Look,
    pub candidates: Candidates,
    pub trees: Trees,
    pub lemmas: Lemmas,
    pub cases: usize,
    /// How many looks may be made for one question, and in all.
    pub most_looks: usize,
    pub looks: usize,
    /// Whether memory for a branch was refused.
    pub is_short: bool,
}

/// A search that has nothing yet but the branch with which it begins, and may look at so many cases.
pub fn make_hunt(alloc: Global, setting: &Setting<'_>, root: State, limit: usize) -> Hunt {
    Hunt {
        levels: Vec::new(alloc),
        frames: List::new(alloc, 0, NO_FRAME),
        answers: List::new(alloc, 0, NO_FACT),
        cores: Cores::new(alloc, DEEPEST),
        look: Look::new(alloc, setting.size, empty_state(alloc, setting)),
        candidates: Candidates::none(alloc),
        trees: Trees::none(alloc),
        lemmas: Lemmas::none(alloc),
        cases: 0,
        most_looks: setting.affordable(MOST_WORK, 2).min(MOST_LOOKS),
        looks: setting
            .affordable(WHOLE_WORK, 2)
            .min(limit.saturating_mul(MOST_LOOKS)),
        is_short: false,
        root,
    }
}

impl Hunt {
    /// Whether memory was refused.
    pub fn is_refused(&self) -> bool {
        self.root.is_refused()
            | self.frames.is_refused
            | self.answers.is_refused
            | self.cores.is_refused()
            | self.look.is_refused()
            | self.candidates.is_refused()
            | self.trees.is_refused()
            | self.lemmas.is_refused()
            | self.is_short
    }
}

/// Makes the branch of a depth the one that was tried.
pub fn keep_level(
    setting: &Setting<'_>,
    levels: &mut Vec<State>,
    depth: usize,
    state: &State,
) -> bool {
    if depth == levels.len() {
        if levels.push(empty_state(setting.alloc, setting)).is_err() {
            return false;
        }
    }
    match levels.get_mut(depth) {
        Some(level) => {
            level.copy_from(state);
            true
        }
        None => false,
    }
}

/// Gathers the answers to a question that aren't known to be closed.
fn gather_open(
    setting: &Setting<'_>,
    look: &mut Look,
    state: &State,
    question: Question,
    answers: &mut List<Fact>,
) {
    look.answers.cut(0);
    add_answers(setting, state, question, &mut look.answers);
    for i in 0..look.answers.len() {
        let answer = look.answers.at(i);
        if !is_noted(setting, state, answer) {
            answers.push(answer);
        }
    }
}

/// Asks a question on the deepest branch: whether there is one.
fn ask(setting: &Setting<'_>, hunt: &mut Hunt) -> bool {
    let depth = hunt.frames.len();
    let Some(state) = hunt.levels.get_mut(depth) else {
        return false;
    };
    let look = &mut hunt.look;
    look.left = hunt.most_looks;
    let offer = choose(setting, &hunt.lemmas, look, state, &mut hunt.candidates);
    if offer.open == NONE {
        return false;
    }
    let start = hunt.answers.len();
    gather_open(setting, look, state, offer.question, &mut hunt.answers);
    hunt.frames.push(Frame {
        question: offer.question,
        node: hunt.trees.add_question(offer.question),
        start,
        next: start,
        answer: NO_FACT,
    });
    hunt.cores.clear(depth);
    true
}

/// Goes on to the next open answer of the last question: whether there was one, and its branch isn't closed at once.
fn descend(setting: &Setting<'_>, hunt: &mut Hunt) -> bool {
    let depth = hunt.frames.len();
    let top = depth.wrapping_sub(1);
    let frame = hunt.frames.at(top);
    for next in frame.next..hunt.answers.len() {
        let answer = hunt.answers.at(next);
        let Some(state) = hunt.levels.get(top) else {
            return false;
        };
        let is_closed = hunt.look.is_closed(setting, &hunt.lemmas, state, answer);
        if !is_closed {
            hunt.frames.put(
                top,
                Frame {
                    next: next.wrapping_add(1),
                    answer,
                    ..frame
                },
            );
            let is_kept = keep_level(setting, &mut hunt.levels, depth, &hunt.look.trial);
            hunt.is_short |= !is_kept;
            return is_kept;
        }
    }
    hunt.frames.put(
        top,
        Frame {
            next: hunt.answers.len(),
            ..frame
        },
    );
    false
}

fn warm_fact(look: &mut Look, fact: Fact) {
    match fact {
        Fact::From(r, s, _) | Fact::Before(r, s) => {
            warm(look, r);
            warm(look, s);
        }
        Fact::Last(a, _) | Fact::Returns(a, _, _) => warm(look, a),
        Fact::Holds(..) | Fact::Given(..) => {}
    }
}

/// Notes as a lemma that a node closes the branch of these facts of the last question's.
fn note_lemma(hunt: &mut Hunt, node: usize, depth: usize) {
    let start = hunt.lemmas.facts.len();
    let Some(state) = hunt.levels.get(depth) else {
        return;
    };
    for i in (hunt.root.facts.len()..state.facts.len()).rev() {
        if hunt.cores.has(depth, i) {
            hunt.lemmas.facts.push(state.facts.at(i));
        }
    }
    let count = hunt.lemmas.facts.len().wrapping_sub(start);
    cool(&mut hunt.look);
    for i in start..hunt.lemmas.facts.len() {
        warm_fact(&mut hunt.look, hunt.lemmas.facts.at(i));
    }
    let lemma = hunt.lemmas.lemmas.len();
    hunt.lemmas.lemmas.push(Lemma { start, count, node });
    let twig = hunt.trees.twigs.at(node);
    hunt.trees.twigs.put(node, Twig { lemma, ..twig });
}

/// Goes back from a question that is closed to the last one of whose answer it made use. The node that closes what the claim gives, if it
/// made use of none.
fn go_back(hunt: &mut Hunt, node: usize) -> Option<usize> {
    let depth = hunt.frames.len().wrapping_sub(1);
    for back in 0..DEEPEST {
        let top = hunt.frames.len();
        if (top == 0) | (back > depth) {
            return Some(node);
        }
        let frame = hunt.frames.pop();
        hunt.answers.cut(frame.start);
        let above = top.wrapping_sub(1);
        if above == 0 {
            return Some(node);
        }
        let asked = hunt.frames.at(above.wrapping_sub(1));
        let (from, to) = facts_between(hunt, above);
        if hunt.cores.has_any(depth, from, to) {
            hunt.trees.add_link(asked.node, asked.answer, node);
            hunt.cores.join(above.wrapping_sub(1), depth, from);
            return None;
        }
    }
    None
}

/// Where the facts begin and end that the branch of a depth has more than the one above.
fn facts_between(hunt: &Hunt, depth: usize) -> (usize, usize) {
    let from = match hunt.levels.get(depth.wrapping_sub(1)) {
        Some(state) => state.facts.len(),
        None => 0,
    };
    let to = match hunt.levels.get(depth) {
        Some(state) => state.facts.len(),
        None => 0,
    };
    (from, to)
}

/// Closes the last question, all of whose open answers are closed: what its part used is found, and noted. The node that closes what the
/// claim gives, if it is that. Where an answer turned out to be open, it is to be looked at.
fn close(setting: &Setting<'_>, hunt: &mut Hunt) -> Option<usize> {
    let depth = hunt.frames.len().wrapping_sub(1);
    let frame = hunt.frames.at(depth);
    let open = find_core(setting, hunt, depth, frame);
    if let Some(answer) = open {
        hunt.answers.push(answer);
        hunt.cases = hunt.cases.wrapping_add(1);
        return None;
    }
    if !hunt.look.goes_back {
        note_lemma(hunt, frame.node, depth);
    }
    go_back(hunt, frame.node)
}

/// Whether each read has one source on a branch.
fn is_full(setting: &Setting<'_>, state: &State) -> bool {
    for r in setting.locations..setting.size {
        if setting.events.at(r).reads && state.count_sources(setting, r) != 1 {
            return false;
        }
    }
    true
}

/// What is found on a branch of which no question was chosen.
fn find_open(setting: &Setting<'_>, hunt: &Hunt) -> Find {
    match hunt.levels.get(hunt.frames.len()) {
        Some(state) if is_full(setting, state) => Find::Open,
        _ => Find::Late,
    }
}

/// Searches, for so many cases.
pub fn hunt_for(setting: &Setting<'_>, hunt: &mut Hunt, limit: usize) -> Find {
    if hunt.root.is_closed {
        return Find::Refuted(NONE);
    }
    hunt.frames.cut(0);
    hunt.answers.cut(0);
    if !keep_level(setting, &mut hunt.levels, 0, &hunt.root) {
        return Find::Late;
    }
    let mut is_new = true;
    let last = hunt.cases.saturating_add(limit);
    for _step in 0..u64::MAX {
        if (hunt.cases > last) | (hunt.look.made > hunt.looks) | hunt.is_short {
            return Find::Late;
        }
        if hunt.frames.len() >= DEEPEST {
            return Find::Late;
        }
        if is_new {
            hunt.cases = hunt.cases.wrapping_add(1);
            if !ask(setting, hunt) {
                return find_open(setting, hunt);
            }
        }
        is_new = descend(setting, hunt);
        if !is_new {
            if let Some(node) = close(setting, hunt) {
                return Find::Refuted(node);
            }
        }
    }
    Find::Late
}
