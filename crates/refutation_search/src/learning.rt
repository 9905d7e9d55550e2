//! Lemmas that are learnt: where a branch is closed, the facts that close it, but one alone of those that followed from the last choice.

use crate::facts::{Fact, NO_FACT, Question, opposite};
use crate::hunt::Hunt;
use crate::learner::{Because, FOUND, Learner, MOST_STEPS, PASSED, WANTED};
use crate::lemmas::Lemma;
use crate::lists::NONE;
use crate::setting::Setting;
use crate::trees::Twig;
use crate::using::{Closed, find_used};

/// Adds the steps that were found to those of which a lemma is made. Those that hold without a choice have lemmas of their own.
fn take_found(setting: &Setting<'_>, learner: &mut Learner, steps: usize) {
    for i in 0..steps {
        if learner.sets.has(FOUND, i) {
            let is_free = learner.steps.at(i).level == 0;
            learner.sets.add(if is_free { PASSED } else { WANTED }, i);
            learner.warm(setting, learner.fact(i));
        }
    }
}

/// How many facts a lemma has at most that closes at once, and how many lemmas are noted in all.
const MOST_FACTS: usize = 8;

const MOST_LEMMAS: usize = 16_384;

/// Notes as a lemma that what was found is closed at once, so that it need not be found again.
fn note_found(hunt: &mut Hunt, learner: &Learner, closed: Closed) {
    let is_told = matches!(closed.because, Because::Told);
    let count = learner.sets.count(FOUND);
    if !is_told | (count > MOST_FACTS) | (hunt.lemmas.lemmas.len() >= MOST_LEMMAS) {
        return;
    }
    let start = hunt.lemmas.facts.len();
    hunt.lemmas.facts.push(closed.more);
    for i in (0..closed.steps).rev() {
        if learner.sets.has(FOUND, i) {
            hunt.lemmas.facts.push(learner.fact(i));
        }
    }
    let lemma = hunt.lemmas.lemmas.len();
    let node = add_node(hunt, closed.more, NONE, NONE);
    let twig = hunt.trees.twigs.at(node);
    hunt.trees.twigs.put(node, Twig { lemma, ..twig });
    hunt.lemmas.lemmas.push(Lemma {
        start,
        count: count.wrapping_add(1),
        node,
    });
}

/// Takes the last step of which a lemma is made, and puts in its place those from which it follows, as long as it isn't the only one of
/// its level: false where they aren't found.
fn trace_back(setting: &Setting<'_>, hunt: &mut Hunt, learner: &mut Learner) -> bool {
    for _step in 0..MOST_STEPS {
        let top = learner.last_before(WANTED, learner.steps.len());
        if top == NONE {
            return true;
        }
        let below = learner.last_before(WANTED, top);
        let step = learner.steps.at(top);
        if (below == NONE) | (learner.steps.at(below).level != step.level) {
            return true;
        }
        let closed = Closed {
            steps: top,
            more: opposite(learner.fact(top)),
            because: step.because,
        };
        if !find_used(setting, hunt, learner, closed) {
            return false;
        }
        note_found(hunt, learner, closed);
        learner.sets.remove(WANTED, top);
        learner.sets.add(PASSED, top);
        take_found(setting, learner, top);
    }
    false
}

/// The node that closes a branch for this reason, and `NONE` where it is closed at once.
fn closing_node(hunt: &Hunt, because: Because) -> usize {
    match because {
        Because::Lemma(number) => hunt.lemmas.lemmas.at(number).node,
        _ => NONE,
    }
}

/// Adds a question of whether a fact is so, with the nodes that close its branches.
fn add_node(hunt: &mut Hunt, fact: Fact, so: usize, opposed: usize) -> usize {
    let node = hunt.trees.add_question(Question::IsSo(fact));
    if so != NONE {
        hunt.trees.add_link(node, fact, so);
    }
    if opposed != NONE {
        hunt.trees.add_link(node, opposite(fact), opposed);
    }
    node
}

/// Adds the part of a lemma: each step that follows from its facts, and at the end what closes it.
fn add_part(hunt: &mut Hunt, learner: &Learner, because: Because, first: Fact) -> usize {
    let end = closing_node(hunt, because);
    let mut node = end;
    for i in (0..learner.steps.len()).rev() {
        if learner.sets.has(PASSED, i) {
            let opposed = closing_node(hunt, learner.steps.at(i).because);
            node = add_node(hunt, learner.fact(i), node, opposed);
        }
    }
    if node == end {
        node = add_node(hunt, first, end, NONE);
    }
    node
}

/// Notes a lemma whose facts were added to the list of all since a place.
fn note(hunt: &mut Hunt, learner: &mut Learner, start: usize, because: Because) -> usize {
    let count = hunt.lemmas.facts.len().wrapping_sub(start);
    let first = hunt.lemmas.facts.at(start);
    let node = add_part(hunt, learner, because, first);
    let lemma = hunt.lemmas.lemmas.len();
    hunt.lemmas.lemmas.push(Lemma { start, count, node });
    let twig = hunt.trees.twigs.at(node);
    hunt.trees.twigs.put(node, Twig { lemma, ..twig });
    lemma
}

/// The lemma that a fact's opposite can't be, where nothing is chosen; none where it can't be shown.
pub fn learn_alone(
    setting: &Setting<'_>,
    hunt: &mut Hunt,
    learner: &mut Learner,
    fact: Fact,
    because: Because,
) -> Option<usize> {
    let closed = Closed {
        steps: learner.steps.len(),
        more: opposite(fact),
        because,
    };
    learner.sets.clear(WANTED);
    learner.sets.clear(PASSED);
    if !find_used(setting, hunt, learner, closed) {
        return None;
    }
    take_found(setting, learner, closed.steps);
    let start = hunt.lemmas.facts.len();
    hunt.lemmas.facts.push(opposite(fact));
    Some(note(hunt, learner, start, because))
}

/// What is learnt from a branch that is closed.
#[derive(Clone, Copy)]
pub enum Learnt {
    /// A lemma, the fact by which it is avoided, and the level at which that follows.
    Lemma(usize, Fact, usize),
    /// What the claim gives is closed by this node.
    Refuted(usize),
    /// Nothing: it wasn't found out why.
    Nothing,
}

/// What is learnt where the branch in hand is closed.
pub fn learn(
    setting: &Setting<'_>,
    hunt: &mut Hunt,
    learner: &mut Learner,
    because: Because,
) -> Learnt {
    let steps = learner.steps.len();
    let more = NO_FACT;
    learner.sets.clear(WANTED);
    learner.sets.clear(PASSED);
    let closed = Closed {
        steps,
        more,
        because,
    };
    if !find_used(setting, hunt, learner, closed) {
        return Learnt::Nothing;
    }
    take_found(setting, learner, steps);
    if !trace_back(setting, hunt, learner) {
        return Learnt::Nothing;
    }
    learner.cool();
    let top = learner.last_before(WANTED, steps);
    if top == NONE {
        let first = hunt.root.facts.at(0);
        return Learnt::Refuted(add_part(hunt, learner, because, first));
    }
    let start = hunt.lemmas.facts.len();
    for i in (0..steps).rev() {
        if learner.sets.has(WANTED, i) {
            hunt.lemmas.facts.push(learner.fact(i));
        }
    }
    let below = learner.last_before(WANTED, top);
    let level = if below == NONE {
        0
    } else {
        learner.steps.at(below).level
    };
    let avoided = opposite(learner.fact(top));
    Learnt::Lemma(note(hunt, learner, start, because), avoided, level)
}
