//! What follows on a branch: facts whose opposites edges close at once, and those by which a lemma is avoided.

use crate::candidates::tells_more;
use crate::closing::note_closed;
use crate::facts::{Fact, opposite};
use crate::hunt::Hunt;
use crate::learner::{Because, Learner, MOST_STEPS, Watch};
use crate::learning::learn_alone;
use crate::lemmas::is_known;
use crate::lists::NONE;
use crate::questions::is_noted;
use crate::setting::Setting;
use crate::settle::settle;
use crate::state::{Group, NOT_LAST};

/// Whether it is a lemma of one fact.
fn is_alone(hunt: &Hunt, because: Because) -> bool {
    match because {
        Because::Lemma(number) => hunt.lemmas.lemmas.at(number).count == 1,
        Because::Chosen | Because::Told => false,
    }
}

/// Adds a fact that follows, as long as looks are left. Where nothing is chosen, it has a lemma of its own.
fn add(
    setting: &Setting<'_>,
    hunt: &mut Hunt,
    learner: &mut Learner,
    fact: Fact,
    because: Because,
) {
    if (learner.steps.len() >= MOST_STEPS) | (hunt.look.made > hunt.looks) {
        return;
    }
    if (learner.level > 0) | is_alone(hunt, because) {
        learner.add(setting, fact, because);
    } else if let Some(lemma) = learn_alone(setting, hunt, learner, fact, because) {
        learner.add(setting, fact, Because::Lemma(lemma));
    }
}

/// Adds that a read doesn't read from sources whose branches edges close.
fn add_sources(setting: &Setting<'_>, hunt: &mut Hunt, learner: &mut Learner, r: usize) {
    let row = Group::Sources.row(setting, r);
    let mut s = learner.now.rows.next(row, 0);
    for _source in 0..setting.size {
        if s == NONE {
            break;
        }
        if learner.now.has(setting, Group::ClosedSources, r, s) {
            add(
                setting,
                hunt,
                learner,
                Fact::From(r, s, false),
                Because::Told,
            );
        }
        s = learner.now.rows.next(row, s.wrapping_add(1));
    }
}

/// Adds which writes come before this one, where edges close the branch of the other order, and it would tell more.
fn add_orders(setting: &Setting<'_>, hunt: &mut Hunt, learner: &mut Learner, b: usize) {
    let x = setting.events.at(b).location;
    let mut a = setting.writes_to.next(x, 0);
    for _write in 0..setting.size {
        if a == NONE {
            break;
        }
        if (a != b)
            && !learner.now.has(setting, Group::Later, a, b)
            && is_noted(setting, &learner.now, Fact::Before(b, a))
            && tells_more(setting, &learner.now, a, b)
        {
            add(setting, hunt, learner, Fact::Before(a, b), Because::Told);
        }
        a = setting.writes_to.next(x, a.wrapping_add(1));
    }
}

/// Adds that a write isn't the last one, where edges close the branch in which it is.
fn add_last(setting: &Setting<'_>, hunt: &mut Hunt, learner: &mut Learner, w: usize) {
    let x = setting.events.at(w).location;
    if learner.now.lasts.has(x, w) && learner.now.sets.has(NOT_LAST, w) {
        add(setting, hunt, learner, Fact::Last(w, false), Because::Told);
    }
}

/// Adds what edges tell.
fn add_told(setting: &Setting<'_>, hunt: &mut Hunt, learner: &mut Learner) {
    note_closed(setting, &mut learner.now, &mut learner.closed);
    for a in setting.locations..setting.size {
        let event = setting.events.at(a);
        if event.reads {
            add_sources(setting, hunt, learner, a);
        }
        if event.writes {
            add_orders(setting, hunt, learner, a);
            add_last(setting, hunt, learner, a);
        }
    }
}

/// What is open of a lemma.
enum Open {
    /// Two facts, by their places.
    Two(Watch),
    /// One.
    One(Fact),
    /// None: all are met.
    None,
}

/// What is open of a lemma on the branch in hand.
fn open_of(setting: &Setting<'_>, hunt: &Hunt, learner: &Learner, number: usize) -> Open {
    let lemma = hunt.lemmas.lemmas.at(number);
    let mut first = NONE;
    for i in 0..lemma.count {
        let fact = hunt.lemmas.facts.at(lemma.start.wrapping_add(i));
        if is_known(setting, &learner.now, fact) {
            continue;
        }
        if first != NONE {
            return Open::Two(Watch { first, second: i });
        }
        first = i;
    }
    if first == NONE {
        return Open::None;
    }
    Open::One(hunt.lemmas.facts.at(lemma.start.wrapping_add(first)))
}

/// Whether the two facts of a lemma that weren't met of late still aren't.
fn is_open(setting: &Setting<'_>, hunt: &Hunt, learner: &Learner, number: usize) -> bool {
    let start = hunt.lemmas.lemmas.at(number).start;
    let watch = learner.watches.at(number);
    let first = hunt.lemmas.facts.at(start.wrapping_add(watch.first));
    let second = hunt.lemmas.facts.at(start.wrapping_add(watch.second));
    (watch.second < hunt.lemmas.lemmas.at(number).count)
        && !is_known(setting, &learner.now, first)
        && !is_known(setting, &learner.now, second)
}

/// Adds what follows by lemmas of which one fact is open: a lemma all of whose facts are met, if there is one.
fn add_by_lemmas(setting: &Setting<'_>, hunt: &mut Hunt, learner: &mut Learner) -> Option<usize> {
    for number in (0..hunt.lemmas.lemmas.len()).rev() {
        if is_open(setting, hunt, learner, number) {
            continue;
        }
        match open_of(setting, hunt, learner, number) {
            Open::Two(watch) => learner.watches.put(number, watch),
            Open::One(fact) => {
                let avoided = opposite(fact);
                if !is_known(setting, &learner.now, avoided) {
                    add(setting, hunt, learner, avoided, Because::Lemma(number));
                }
            }
            Open::None => return Some(number),
        }
    }
    None
}

/// Adds what follows on the branch in hand, until nothing more does: why it is closed, if it is.
pub fn follow(setting: &Setting<'_>, hunt: &mut Hunt, learner: &mut Learner) -> Option<Because> {
    for _round in 0..MOST_STEPS {
        settle(setting, &mut learner.now);
        let lemmas = hunt.lemmas.lemmas.len();
        hunt.look.made = hunt.look.made.wrapping_add(1).wrapping_add(lemmas / 512);
        if learner.now.is_closed {
            return Some(Because::Told);
        }
        for _lemma in learner.watches.len()..hunt.lemmas.lemmas.len() {
            learner.watches.push(Watch {
                first: 0,
                second: 1,
            });
        }
        let count = learner.steps.len();
        if let Some(lemma) = add_by_lemmas(setting, hunt, learner) {
            return Some(Because::Lemma(lemma));
        }
        if learner.steps.len() == count {
            add_told(setting, hunt, learner);
        }
        if learner.steps.len() == count {
            return None;
        }
    }
    None
}
