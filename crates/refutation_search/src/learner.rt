//! What a search that learns keeps: the branch in hand, why each of its facts is there, and which events are met in lemmas.

use crate::facts::{Fact, NO_FACT};
use crate::lists::{List, NONE};
use crate::rows::Rows;
use crate::setting::Setting;
use crate::state::{State, add_fact, empty_state};
use std::alloc::Global;

/// How many facts a branch has at most besides those that are given.
pub const MOST_STEPS: usize = 2_047;

/// Why a fact is on a branch, or why the branch is closed.
#[derive(Clone, Copy)]
pub enum Because {
    /// It was chosen.
    Chosen,
    /// What the other facts tell closes the branch of its opposite at once, or the branch itself.
    Told,
    /// The facts of this lemma are met.
    Lemma(usize),
}

/// A fact of the branch in hand: why it is there, and how many facts were chosen by then.
#[derive(Clone, Copy)]
pub struct Step {
    pub because: Because,
    pub level: usize,
}

const NO_STEP: Step = Step {
    because: Because::Chosen,
    level: 0,
};

/// The set of steps of which a lemma is made.
pub const WANTED: usize = 0;
/// The set of steps that follow from them.
pub const PASSED: usize = 1;
/// The set of steps that close a branch.
pub const FOUND: usize = 2;

/// Which two facts of a lemma weren't met when it was last looked at.
#[derive(Clone, Copy)]
pub struct Watch {
    pub first: usize,
    pub second: usize,
}

const NO_WATCH: Watch = Watch {
    first: 0,
    second: 1,
};

/// How much an event that is met in a lemma counts at first, and at most.
const FIRST_GROWTH: usize = 1 << 8;

const MOST_HEAT: usize = 1 << 40;

/// What a search that learns keeps.
#[derive(Drop)]
pub struct Learner {
    pub now: State,
    /// Why each fact is there that isn't given.
    pub steps: List<Step>,
    /// How many facts are given.
    pub given: usize,
    /// How many facts are chosen.
    pub level: usize,
    /// Sets of steps, a row for each of those that are named above.
    pub sets: Rows,
    /// Two facts of each lemma.
    pub watches: List<Watch>,
    pub chosen: List<Fact>,
    /// A row for sources that are closed.
    pub closed: Rows,
    /// How much each pair of events was met in lemmas of late, and how much it counts now.
    heat: List<usize>,
    growth: usize,
}

impl Learner {
    /// A branch on which nothing is but what is given.
    pub fn new(alloc: Global, setting: &Setting<'_>, root: &State) -> Learner {
        let mut now = empty_state(alloc, setting);
        now.copy_from(root);
        Learner {
            given: now.facts.len(),
            now,
            steps: List::new(alloc, 0, NO_STEP),
            level: 0,
            sets: Rows::new(alloc, 3, MOST_STEPS),
            watches: List::new(alloc, 0, NO_WATCH),
            chosen: List::new(alloc, 0, NO_FACT),
            closed: Rows::new(alloc, 1, setting.size),
            heat: List::new(alloc, setting.size.wrapping_mul(setting.size), 0),
            growth: FIRST_GROWTH,
        }
    }

    /// Whether memory was refused.
    pub fn is_refused(&self) -> bool {
        self.now.is_refused()
            | self.steps.is_refused
            | self.sets.words.is_refused
            | self.watches.is_refused
            | self.chosen.is_refused
            | self.closed.words.is_refused
            | self.heat.is_refused
    }

    /// The fact of a step.
    pub fn fact(&self, i: usize) -> Fact {
        self.now.facts.at(self.given.wrapping_add(i))
    }

    /// Adds a fact to the branch in hand.
    pub fn add(&mut self, setting: &Setting<'_>, fact: Fact, because: Because) {
        add_fact(setting, &mut self.now, fact);
        self.steps.push(Step {
            because,
            level: self.level,
        });
    }

    /// Goes back to the branch of a level.
    pub fn go_back(&mut self, state: &State, level: usize) {
        self.now.copy_from(state);
        self.steps.cut(state.facts.len().wrapping_sub(self.given));
        self.level = level;
    }

    /// The last step of a set before this one, and `NONE` where there is none.
    pub fn last_before(&self, set: usize, limit: usize) -> usize {
        for i in (0..limit).rev() {
            if self.sets.has(set, i) {
                return i;
            }
        }
        NONE
    }

    /// How much a fact was met in lemmas of late.
    pub fn heat_of(&self, setting: &Setting<'_>, fact: Fact) -> usize {
        self.heat.at(place_of(setting, fact))
    }

    /// Notes that a fact was met in a lemma.
    pub fn warm(&mut self, setting: &Setting<'_>, fact: Fact) {
        let place = place_of(setting, fact);
        let heat = self.heat.at(place).wrapping_add(self.growth);
        self.heat.put(place, heat);
    }

    /// Has all that was met so far count for less.
    pub fn cool(&mut self) {
        self.growth = self.growth.wrapping_add(self.growth / 16);
        if self.growth < MOST_HEAT {
            return;
        }
        self.growth = FIRST_GROWTH;
        for i in 0..self.heat.len() {
            let heat = self.heat.at(i);
            self.heat.put(i, heat / (MOST_HEAT / FIRST_GROWTH));
        }
    }
}

/// Where the heat of a fact stands.
fn place_of(setting: &Setting<'_>, fact: Fact) -> usize {
    let (a, b) = match fact {
        Fact::From(r, s, _) => (r, s),
        Fact::Before(w, v) => (w.min(v), w.max(v)),
        Fact::Last(w, _) => (w, w),
        Fact::Returns(r, _, _) => (r, r),
        Fact::Holds(..) | Fact::Given(..) => return NONE,
    };
    a.wrapping_mul(setting.size).wrapping_add(b)
}
