//! The search that learns: facts are chosen, what follows is added, and from each branch that is closed a lemma is learnt.

use crate::facts::{Fact, NO_FACT, same_fact};
use crate::following::follow;
use crate::hunt::{DEEPEST, Find, Hunt, keep_level};
use crate::learner::{Because, Learner};
use crate::learning::{Learnt, learn};
use crate::lists::NONE;
use crate::questions::is_noted;
use crate::setting::Setting;
use crate::state::Group;

/// How many branches are closed before the search begins anew, at least.
const FIRST_PAUSE: usize = 32;

/// The choice that is the best so far.
#[derive(Clone, Copy)]
struct Choice {
    fact: Fact,
    worth: usize,
}

fn better(best: Choice, fact: Fact, worth: usize) -> Choice {
    if same_fact(best.fact, NO_FACT) | (worth > best.worth) {
        Choice { fact, worth }
    } else {
        best
    }
}

/// The best choice of what a read reads from.
fn choose_source(setting: &Setting<'_>, learner: &Learner, r: usize, best: Choice) -> Choice {
    let row = Group::Sources.row(setting, r);
    let count = learner.now.rows.count(row);
    let mut best = best;
    if count < 2 {
        return best;
    }
    let mut s = learner.now.rows.next(row, 0);
    for _source in 0..setting.size {
        if s == NONE {
            break;
        }
        let fact = Fact::From(r, s, true);
        let heat = learner.heat_of(setting, fact);
        let few = 255usize.saturating_sub(count);
        best = better(best, fact, heat.saturating_mul(256).saturating_add(few));
        s = learner.now.rows.next(row, s.wrapping_add(1));
    }
    best
}

/// The best choice of which writes come after this one.
fn choose_order(setting: &Setting<'_>, learner: &Learner, a: usize, best: Choice) -> Choice {
    let x = setting.events.at(a).location;
    let mut best = best;
    let mut b = setting.writes_to.next(x, a.wrapping_add(1));
    for _write in 0..setting.size {
        if b == NONE {
            break;
        }
        let fact = Fact::Before(a, b);
        let is_told = learner.now.has(setting, Group::Later, a, b)
            || learner.now.has(setting, Group::Later, b, a)
            || is_noted(setting, &learner.now, fact)
            || is_noted(setting, &learner.now, Fact::Before(b, a));
        if !is_told {
            let heat = learner.heat_of(setting, fact);
            best = better(best, fact, heat.saturating_mul(256));
        }
        b = setting.writes_to.next(x, b.wrapping_add(1));
    }
    best
}

/// The fact that is chosen next; `NO_FACT` where all is told.
fn choose(setting: &Setting<'_>, learner: &Learner) -> Fact {
    let mut best = Choice {
        fact: NO_FACT,
        worth: 0,
    };
    for a in setting.locations..setting.size {
        let event = setting.events.at(a);
        if event.reads {
            best = choose_source(setting, learner, a, best);
        }
        if event.writes {
            best = choose_order(setting, learner, a, best);
        }
    }
    best.fact
}

/// Goes one choice deeper: whether there is one.
fn descend(setting: &Setting<'_>, hunt: &mut Hunt, learner: &mut Learner) -> bool {
    let fact = choose(setting, learner);
    if same_fact(fact, NO_FACT) {
        return false;
    }
    let is_kept = keep_level(setting, &mut hunt.levels, learner.level, &learner.now);
    hunt.is_short |= !is_kept;
    learner.level = learner.level.wrapping_add(1);
    learner.add(setting, fact, Because::Chosen);
    is_kept
}

/// Goes back to the branch of a level above.
fn go_back(hunt: &Hunt, learner: &mut Learner, level: usize) {
    if level < learner.level {
        if let Some(state) = hunt.levels.get(level) {
            learner.go_back(state, level);
        }
    }
}

/// The n-th pause of the reluctant doubling sequence: 1, 1, 2, 1, 1, 2, 4, ..
fn pause(number: usize) -> usize {
    let mut n = number;
    let mut size = 1usize;
    for _power in 0..64usize {
        if size > n {
            break;
        }
        size = size.wrapping_mul(2).wrapping_add(1);
    }
    for _power in 0..64usize {
        if size == n.wrapping_add(1) {
            break;
        }
        size /= 2;
        if n >= size {
            n = n.wrapping_sub(size);
        }
    }
    FIRST_PAUSE.wrapping_mul(size.wrapping_add(1) / 2)
}

/// Searches, until so many looks were made in all.
pub fn search_learning(setting: &Setting<'_>, hunt: &mut Hunt, learner: &mut Learner) -> Find {
    let mut pauses = 0usize;
    let mut left = FIRST_PAUSE;
    for _step in 0..u64::MAX {
        let is_late = (hunt.look.made > hunt.looks) | (learner.level >= DEEPEST);
        if is_late | hunt.is_short | learner.is_refused() {
            return Find::Late;
        }
        let Some(because) = follow(setting, hunt, learner) else {
            if left == 0 {
                pauses = pauses.wrapping_add(1);
                left = pause(pauses);
                go_back(hunt, learner, 0);
            } else if !descend(setting, hunt, learner) {
                return Find::Open;
            }
            continue;
        };
        hunt.cases = hunt.cases.wrapping_add(1);
        left = left.saturating_sub(1);
        match learn(setting, hunt, learner, because) {
            Learnt::Refuted(node) => return Find::Refuted(node),
            Learnt::Nothing => return Find::Late,
            Learnt::Lemma(lemma, fact, level) => {
                go_back(hunt, learner, level);
                learner.add(setting, fact, Because::Lemma(lemma));
            }
        }
    }
    Find::Late
}
