//! Facts that were found closed together: each with the node that shows it.

use crate::facts::{Fact, NO_FACT};
use crate::lists::{List, NONE};
use crate::setting::Setting;
use crate::state::{Group, State};
use std::alloc::Global;

/// Facts that no branch meets together.
#[derive(Clone, Copy)]
pub struct Lemma {
    /// Where its facts begin among those of all, and how many they are.
    pub start: usize,
    pub count: usize,
    pub node: usize,
}

/// What stands where there is no lemma.
pub const NO_LEMMA: Lemma = Lemma {
    start: 0,
    count: 0,
    node: NONE,
};

/// How many lemmas are looked at: the last ones.
const MOST_LOOKED_AT: usize = 256;

/// All lemmas, in the order in which they were found: each uses only those before it.
#[derive(Drop)]
pub struct Lemmas {
    pub facts: List<Fact>,
    pub lemmas: List<Lemma>,
}

impl Lemmas {
    /// No lemmas.
    pub fn none(alloc: Global) -> Lemmas {
        Lemmas {
            facts: List::new(alloc, 0, NO_FACT),
            lemmas: List::new(alloc, 0, NO_LEMMA),
        }
    }

    /// Whether memory was refused.
    pub fn is_refused(&self) -> bool {
        self.facts.is_refused | self.lemmas.is_refused
    }

    /// Whether all facts of a lemma are known.
    pub fn applies(&self, setting: &Setting<'_>, state: &State, number: usize) -> bool {
        let lemma = self.lemmas.at(number);
        for i in 0..lemma.count {
            let fact = self.facts.at(lemma.start.wrapping_add(i));
            if !is_known(setting, state, fact) {
                return false;
            }
        }
        true
    }

    /// The last lemma before this one whose facts are all known, and `NONE` where there is none.
    pub fn find(&self, setting: &Setting<'_>, state: &State, limit: usize) -> usize {
        let count = limit.min(self.lemmas.len());
        for back in 0..count.min(MOST_LOOKED_AT) {
            let number = count.wrapping_sub(back).wrapping_sub(1);
            if self.applies(setting, state, number) {
                return number;
            }
        }
        NONE
    }
}

/// Whether a fact is met, whatever is still open.
pub fn is_known(setting: &Setting<'_>, state: &State, fact: Fact) -> bool {
    match fact {
        Fact::From(r, s, true) => {
            state.has(setting, Group::Sources, r, s) && state.count_sources(setting, r) == 1
        }
        Fact::From(r, s, false) => !state.has(setting, Group::Sources, r, s),
        Fact::Before(w, v) => state.has(setting, Group::Later, w, v),
        Fact::Last(w, true) => {
            let x = setting.events.at(w).location;
            state.lasts.has(x, w) && state.lasts.count(x) == 1
        }
        Fact::Last(w, false) => !state.lasts.has(setting.events.at(w).location, w),
        Fact::Returns(r, value, truth) => !state.values.can_be(r, value, !truth),
        Fact::Holds(part, truth) => !state.truths.at(part).can_be(!truth),
        Fact::Given(..) => false,
    }
}
