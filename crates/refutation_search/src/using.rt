//! Which facts of a branch close it, or the branch of one more fact: those without which it wouldn't be closed.

use crate::facts::{Fact, NO_FACT, same_fact};
use crate::hunt::Hunt;
use crate::learner::{Because, FOUND, Learner, MOST_STEPS};
use crate::setting::Setting;
use crate::settle::settle;
use crate::state::{State, add_fact};

/// What is closed: so many steps of the branch in hand, and one more fact; and why.
#[derive(Clone, Copy)]
pub struct Closed {
    pub steps: usize,
    pub more: Fact,
    pub because: Because,
}

/// The deepest branch that was kept, of those that have no more than so many steps.
fn kept_branch<'a>(
    levels: &'a [State],
    root: &'a State,
    learner: &Learner,
    steps: usize,
) -> &'a State {
    let level = learner.steps.at(steps.wrapping_sub(1)).level;
    match levels.get(level.wrapping_sub(1)) {
        Some(state) if (level > 0) & (steps > 0) => state,
        _ => root,
    }
}

/// Makes the branch that is tried that of so many steps, of those that were found, and of one more fact.
fn try_steps(
    setting: &Setting<'_>,
    hunt: &mut Hunt,
    learner: &Learner,
    closed: Closed,
    steps: usize,
) {
    let kept = kept_branch(&hunt.levels, &hunt.root, learner, steps);
    let begin = kept.facts.len().wrapping_sub(learner.given);
    let trial = &mut hunt.look.trial;
    trial.copy_from(kept);
    if !same_fact(closed.more, NO_FACT) {
        add_fact(setting, trial, closed.more);
    }
    for i in begin..closed.steps {
        if (i < steps) || learner.sets.has(FOUND, i) {
            add_fact(setting, trial, learner.fact(i));
        }
    }
}

/// Whether so many steps, those that were found, and one more fact are closed for this reason.
fn are_closed(
    setting: &Setting<'_>,
    hunt: &mut Hunt,
    learner: &Learner,
    closed: Closed,
    steps: usize,
) -> bool {
    try_steps(setting, hunt, learner, closed, steps);
    settle(setting, &mut hunt.look.trial);
    hunt.look.made = hunt.look.made.wrapping_add(1);
    if hunt.look.trial.is_closed {
        return true;
    }
    match closed.because {
        Because::Lemma(number) => hunt.lemmas.applies(setting, &hunt.look.trial, number),
        _ => false,
    }
}

/// Whether a lemma has this fact.
fn has_fact(hunt: &Hunt, number: usize, fact: Fact) -> bool {
    let lemma = hunt.lemmas.lemmas.at(number);
    for i in 0..lemma.count {
        if same_fact(hunt.lemmas.facts.at(lemma.start.wrapping_add(i)), fact) {
            return true;
        }
    }
    false
}

/// Begins with the steps that are facts of the lemma.
fn find_first(hunt: &Hunt, learner: &mut Learner, closed: Closed) {
    learner.sets.clear(FOUND);
    let Because::Lemma(number) = closed.because else {
        return;
    };
    for i in 0..closed.steps {
        if has_fact(hunt, number, learner.fact(i)) {
            learner.sets.add(FOUND, i);
        }
    }
}

/// With how many steps it is closed first, where it is with so many.
fn fewest(
    setting: &Setting<'_>,
    hunt: &mut Hunt,
    learner: &Learner,
    closed: Closed,
    most: usize,
) -> usize {
    let mut low = 0usize;
    let mut high = most;
    for _half in 0..64usize {
        if low >= high {
            break;
        }
        let middle = low.wrapping_add(high.wrapping_sub(low) / 2);
        if are_closed(setting, hunt, learner, closed, middle) {
            high = middle;
        } else {
            low = middle.wrapping_add(1);
        }
    }
    low
}

/// Finds the steps that close it; false where all don't, or no looks are left.
pub fn find_used(
    setting: &Setting<'_>,
    hunt: &mut Hunt,
    learner: &mut Learner,
    closed: Closed,
) -> bool {
    find_first(hunt, learner, closed);
    if are_closed(setting, hunt, learner, closed, 0) {
        return true;
    }
    if !are_closed(setting, hunt, learner, closed, closed.steps) {
        return false;
    }
    let mut most = closed.steps;
    for _step in 0..MOST_STEPS {
        if hunt.look.made > hunt.looks {
            return false;
        }
        let last = fewest(setting, hunt, learner, closed, most).wrapping_sub(1);
        learner.sets.add(FOUND, last);
        most = last;
        if (most == 0) || are_closed(setting, hunt, learner, closed, 0) {
            return true;
        }
    }
    false
}
