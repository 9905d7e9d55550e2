//! What a closed branch used: of its facts those without which it wouldn't be closed.

use crate::facts::{Fact, NO_FACT, Question};
use crate::hunt::{Frame, Hunt};
use crate::lemmas::Lemmas;
use crate::lists::{List, NONE};
use crate::looking::Look;
use crate::questions::add_answers;
use crate::rows::Rows;
use crate::setting::Setting;
use crate::settle::settle;
use crate::state::{State, add_all, add_fact};
use std::alloc::Global;

/// How many facts a branch has at most of which it is told whether they are used.
const MOST_FACTS: usize = 2_047;

/// Sets of facts of the branch in hand, a row for the question at each depth.
#[derive(Drop)]
pub struct Cores {
    pub rows: Rows,
    /// The facts of a set.
    chosen: List<Fact>,
    answers: List<Fact>,
}

impl Cores {
    /// So many empty sets.
    pub fn new(alloc: Global, count: usize) -> Cores {
        Cores {
            rows: Rows::new(alloc, count, MOST_FACTS),
            chosen: List::new(alloc, 0, NO_FACT),
            answers: List::new(alloc, 0, NO_FACT),
        }
    }

    /// Whether memory was refused.
    pub fn is_refused(&self) -> bool {
        self.rows.words.is_refused | self.chosen.is_refused | self.answers.is_refused
    }

    /// Makes a set empty.
    pub fn clear(&mut self, depth: usize) {
        self.rows.clear(depth);
    }

    /// Whether a set has a fact.
    pub fn has(&self, depth: usize, i: usize) -> bool {
        self.rows.has(depth, i)
    }

    /// Whether a set has one of these facts.
    pub fn has_any(&self, depth: usize, from: usize, to: usize) -> bool {
        self.rows.next(depth, from) < to
    }

    /// Adds to a set the facts of another one before this one.
    pub fn join(&mut self, depth: usize, other: usize, limit: usize) {
        for i in 0..limit {
            if self.rows.has(other, i) {
                self.rows.add(depth, i);
            }
        }
    }
}

/// Makes the branch that is tried that of a set of facts.
fn try_facts(
    setting: &Setting<'_>,
    cores: &mut Cores,
    look: &mut Look,
    root: &State,
    facts: &List<Fact>,
    set: usize,
) {
    cores.chosen.cut(0);
    for i in (root.facts.len()..facts.len()).rev() {
        if cores.rows.has(set, i) {
            cores.chosen.push(facts.at(i));
        }
    }
    look.trial.copy_from(root);
    add_all(setting, &mut look.trial, &cores.chosen);
}

/// What a core is found in: the branch without answers, the branch in hand, and lemmas.
#[derive(Clone, Copy)]
struct Ground<'a> {
    root: &'a State,
    facts: &'a List<Fact>,
    lemmas: &'a Lemmas,
}

/// Whether the branch that is tried is closed.
fn is_closed(setting: &Setting<'_>, look: &mut Look, lemmas: &Lemmas) -> bool {
    settle(setting, &mut look.trial);
    look.trial.is_closed || lemmas.find(setting, &look.trial, NONE) != NONE
}

/// Adds to the branch that is tried one of the other facts after another, the first one first: the fact by which it is closed, and
/// `NONE` where none closes it.
fn find_closing(
    setting: &Setting<'_>,
    cores: &Cores,
    look: &mut Look,
    ground: Ground<'_>,
    depth: usize,
) -> usize {
    for i in ground.root.facts.len()..ground.facts.len() {
        if cores.rows.has(depth, i) {
            continue;
        }
        add_fact(setting, &mut look.trial, ground.facts.at(i));
        if is_closed(setting, look, ground.lemmas) {
            return i;
        }
    }
    NONE
}

/// Adds to a question's set the facts that close the branch of an answer; false where all don't. Each time the fact is added without
/// which the set and the facts before it don't close the branch.
fn add_used(
    setting: &Setting<'_>,
    cores: &mut Cores,
    look: &mut Look,
    ground: Ground<'_>,
    depth: usize,
    answer: Fact,
) -> bool {
    for _fact in 0..MOST_FACTS {
        try_facts(setting, cores, look, ground.root, ground.facts, depth);
        add_fact(setting, &mut look.trial, answer);
        look.made = look.made.wrapping_add(1);
        if is_closed(setting, look, ground.lemmas) {
            return true;
        }
        let closing = find_closing(setting, cores, look, ground, depth);
        if closing == NONE {
            return false;
        }
        cores.rows.add(depth, closing);
    }
    false
}

/// Adds to a question's set what it needs to be asked: the fact of which it asks a case, all where it asks for values.
fn add_needed(cores: &mut Cores, facts: &List<Fact>, depth: usize, question: Question) {
    for i in 0..facts.len() {
        let is_needed = match (question, facts.at(i)) {
            (Question::HasCase(part, truth), Fact::Holds(other, value)) => {
                (part == other) & (truth == value)
            }
            (Question::ReadsValue(_), _) => true,
            _ => false,
        };
        if is_needed {
            cores.rows.add(depth, i);
        }
    }
}

/// Gathers the answers that a question can have where its part alone is given.
fn gather_answers(
    setting: &Setting<'_>,
    cores: &mut Cores,
    state: &State,
    root: &State,
    question: Question,
) {
    cores.answers.cut(0);
    if matches!(question, Question::ReadsValue(_)) {
        add_answers(setting, state, question, &mut cores.answers);
    } else {
        add_answers(setting, root, question, &mut cores.answers);
    }
}

/// Finds what the part of a question used, all of whose open answers have their nodes. Or an answer that isn't closed.
pub fn find_core(
    setting: &Setting<'_>,
    hunt: &mut Hunt,
    depth: usize,
    frame: Frame,
) -> Option<Fact> {
    let Some(state) = hunt.levels.get(depth) else {
        return None;
    };
    let cores = &mut hunt.cores;
    add_needed(cores, &state.facts, depth, frame.question);
    gather_answers(setting, cores, state, &hunt.root, frame.question);
    let ground = Ground {
        root: &hunt.root,
        facts: &state.facts,
        lemmas: &hunt.lemmas,
    };
    for i in 0..cores.answers.len() {
        let answer = cores.answers.at(i);
        if hunt.trees.node_for(frame.node, answer) == NONE
            && !add_used(setting, cores, &mut hunt.look, ground, depth, answer)
        {
            return Some(answer);
        }
    }
    None
}
