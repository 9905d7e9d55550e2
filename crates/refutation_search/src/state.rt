//! A branch of the search: its facts, and what they leave possible.

use crate::counting::SPARES;
use crate::facts::{Fact, NO_FACT};
use crate::leasts::{Least, NOTHING};
use crate::lists::{List, NONE};
use crate::parts::add_given;
use crate::rows::Rows;
use crate::sets::Values;
use crate::setting::{COUNTERS, Setting};
use crate::truths::{OPEN, Truth};
use std::alloc::Global;

/// What is kept of each event.
#[derive(Clone, Copy)]
pub enum Group {
    /// What a read can read from.
    Sources,
    /// What is after an event, and before it, by the relations on one location.
    AfterOnLocation,
    BeforeOnLocation,
    /// The same by the global relations.
    AfterGlobally,
    BeforeGlobally,
    /// What is known to come after a write in coherence, and before it.
    Later,
    Earlier,
    /// What is known to come after all that a read can read from.
    FromReads,
    /// The sources that a read can have, but whose branch is known to be closed.
    ClosedSources,
    /// The writes of which is known that the branch is closed where this one comes before them.
    ClosedOrders,
}

/// How many groups there are.
const GROUPS: usize = 10;

impl Group {
    /// The row of an event.
    pub fn row(self, setting: &Setting<'_>, a: usize) -> usize {
        (self as usize).wrapping_mul(setting.size).wrapping_add(a)
    }
}

/// The reads that are to be looked at.
pub const READS: usize = 0;
/// The locations that are to be looked at.
pub const LOCATIONS: usize = 1;
/// The reads of whose values facts speak.
pub const TOLD: usize = 2;
/// The writes that can't be the last one, as is known since the branch would be closed.
pub const NOT_LAST: usize = 3;

/// A branch.
#[derive(Drop)]
pub struct State {
    /// A row for each event in each of the groups.
    pub rows: Rows,
    /// The writes that can be the last one to each location.
    pub lasts: Rows,
    /// Sets of events, a row for each of those that are named above.
    pub sets: Rows,
    /// What each event can read or write.
    pub values: Values,
    /// The least that each read can return which can return any value.
    pub leasts: List<Least>,
    pub facts: List<Fact>,
    /// What each part of what is asked can be.
    pub truths: List<Truth>,
    pub is_closed: bool,
    /// Whether all is told, also where the branch is closed.
    pub is_thorough: bool,
}

/// A branch that tells nothing yet.
pub fn empty_state(alloc: Global, setting: &Setting<'_>) -> State {
    State {
        rows: Rows::new(alloc, setting.size.wrapping_mul(GROUPS), setting.size),
        lasts: Rows::new(alloc, setting.locations, setting.size),
        sets: Rows::new(alloc, 4, setting.size),
        values: Values::new(
            alloc,
            setting
                .size
                .wrapping_add(SPARES)
                .wrapping_add(setting.makings.len()),
        ),
        leasts: List::new(alloc, setting.size, NOTHING),
        facts: List::new(alloc, 0, NO_FACT),
        truths: List::new(alloc, setting.parts.len(), OPEN),
        is_closed: false,
        is_thorough: false,
    }
}

impl State {
    /// Whether memory was refused.
    pub fn is_refused(&self) -> bool {
        self.rows.words.is_refused
            | self.lasts.words.is_refused
            | self.sets.words.is_refused
            | self.values.is_refused()
            | self.leasts.is_refused
            | self.facts.is_refused
            | self.truths.is_refused
    }

    /// The same branch once more.
    pub fn copy(&self, setting: &Setting<'_>) -> State {
        let mut copy = empty_state(setting.alloc, setting);
        copy.copy_from(self);
        copy
    }

    /// Makes it the same branch as another one.
    pub fn copy_from(&mut self, other: &State) {
        copy_rows(&mut self.rows, &other.rows);
        copy_rows(&mut self.lasts, &other.lasts);
        copy_rows(&mut self.sets, &other.sets);
        self.values.copy_from(&other.values);
        if self.leasts.items.len() == other.leasts.items.len() {
            self.leasts.items.copy_from_slice(&other.leasts.items);
        }
        self.facts.cut(0);
        for fact in &other.facts.items {
            self.facts.push(*fact);
        }
        self.truths.cut(0);
        for truth in &other.truths.items {
            self.truths.push(*truth);
        }
        self.is_closed = other.is_closed;
        self.is_thorough = other.is_thorough;
    }

    /// Whether a row has an event.
    pub fn has(&self, setting: &Setting<'_>, group: Group, a: usize, b: usize) -> bool {
        self.rows.has(group.row(setting, a), b)
    }

    /// How many sources a read can have, and the first one.
    pub fn count_sources(&self, setting: &Setting<'_>, r: usize) -> usize {
        self.rows.count(Group::Sources.row(setting, r))
    }

    /// The first source of a read.
    pub fn first_source(&self, setting: &Setting<'_>, r: usize) -> usize {
        self.rows.next(Group::Sources.row(setting, r), 0)
    }

    /// Notes that all of a row's events are to be looked at.
    pub fn look_again(&mut self, set: usize, rows: &Rows, row: usize) {
        self.sets.join(set, rows, row);
    }
}

fn copy_rows(to: &mut Rows, from: &Rows) {
    if to.words.items.len() == from.words.items.len() {
        to.words.items.copy_from_slice(&from.words.items);
    }
}

/// Takes a source from a read.
pub fn remove_source(setting: &Setting<'_>, state: &mut State, r: usize, s: usize) {
    let row = Group::Sources.row(setting, r);
    if state.rows.has(row, s) {
        state.rows.remove(row, s);
        state.sets.add(READS, r);
    }
}

/// Leaves a read at most this source.
fn keep_source(setting: &Setting<'_>, state: &mut State, r: usize, s: usize) {
    let row = Group::Sources.row(setting, r);
    let had = state.rows.has(row, s);
    state.rows.clear(row);
    if had {
        state.rows.add(row, s);
    }
    state.sets.add(READS, r);
}

/// Adds to the rows of events, those of a row and one more, an event and all of its row.
fn spread(
    state: &mut State,
    setting: &Setting<'_>,
    group: Group,
    events: usize,
    a: usize,
    b: usize,
) {
    let more = group.row(setting, b);
    let mut x = state.rows.next(events, 0);
    for _event in 0..setting.size {
        if x == NONE {
            break;
        }
        let row = group.row(setting, x);
        if !state.rows.has(row, b) {
            state.rows.join_own(row, more);
            state.rows.add(row, b);
        }
        x = state.rows.next(events, x.wrapping_add(1));
    }
    let own = group.row(setting, a);
    state.rows.join_own(own, more);
    state.rows.add(own, b);
}

/// Notes that one event is before another one by a relation of this group, and by it all that follows.
fn add_edge(
    setting: &Setting<'_>,
    state: &mut State,
    after: Group,
    before: Group,
    a: usize,
    b: usize,
) {
    if (a == b) || state.has(setting, after, b, a) {
        state.is_closed = true;
    } else if !state.has(setting, after, a, b) {
        spread(state, setting, after, before.row(setting, a), a, b);
        spread(state, setting, before, after.row(setting, b), b, a);
    }
}

/// Notes an edge of the relations on one location.
pub fn add_on_location(setting: &Setting<'_>, state: &mut State, a: usize, b: usize) {
    add_edge(
        setting,
        state,
        Group::AfterOnLocation,
        Group::BeforeOnLocation,
        a,
        b,
    );
}

/// Notes an edge of the global relations.
pub fn add_globally(setting: &Setting<'_>, state: &mut State, a: usize, b: usize) {
    add_edge(
        setting,
        state,
        Group::AfterGlobally,
        Group::BeforeGlobally,
        a,
        b,
    );
}

/// Notes that one write comes before another one.
pub fn add_order(setting: &Setting<'_>, state: &mut State, a: usize, b: usize) {
    if state.has(setting, Group::Later, a, b) {
        return;
    }
    let x = setting.events.at(a).location;
    state.rows.add(Group::Later.row(setting, a), b);
    state.rows.add(Group::Earlier.row(setting, b), a);
    if state.lasts.has(x, a) {
        state.lasts.remove(x, a);
        state.sets.add(LOCATIONS, x);
    }
    add_on_location(setting, state, a, b);
    add_globally(setting, state, a, b);
    let mut r = setting.readers_of.next(x, 0);
    for _read in 0..setting.size {
        if r == NONE {
            break;
        }
        if state.has(setting, Group::Sources, r, a) || setting.sets.has(COUNTERS, x) {
            state.sets.add(READS, r);
        }
        r = setting.readers_of.next(x, r.wrapping_add(1));
    }
}

/// Leaves at most this write as the last one to its location.
fn keep_last(setting: &Setting<'_>, state: &mut State, w: usize) {
    let x = setting.events.at(w).location;
    let had = state.lasts.has(x, w);
    state.lasts.clear(x);
    if had {
        state.lasts.add(x, w);
    }
    state.sets.add(LOCATIONS, x);
}

fn add_one(setting: &Setting<'_>, state: &mut State, fact: Fact) {
    state.facts.push(fact);
    match fact {
        Fact::From(r, s, true) => keep_source(setting, state, r, s),
        Fact::From(r, s, false) => remove_source(setting, state, r, s),
        Fact::Before(w, v) => add_order(setting, state, w, v),
        Fact::Last(w, true) => keep_last(setting, state, w),
        Fact::Last(w, false) => {
            let x = setting.events.at(w).location;
            state.lasts.remove(x, w);
            state.sets.add(LOCATIONS, x);
        }
        Fact::Returns(r, _, _) => {
            state.sets.add(TOLD, r);
            state.sets.add(READS, r);
        }
        // What is asked of locations limits their last writes.
        _ => {
            for x in 0..setting.locations {
                state.sets.add(LOCATIONS, x);
            }
        }
    }
}

/// Adds these facts; the first one comes last.
pub fn add_all(setting: &Setting<'_>, state: &mut State, facts: &List<Fact>) {
    for i in (0..facts.len()).rev() {
        add_one(setting, state, facts.at(i));
    }
}

/// Adds a fact, or all for which it stands.
pub fn add_fact(setting: &Setting<'_>, state: &mut State, fact: Fact) {
    match fact {
        Fact::Given(part, truth) => {
            let mut facts = List::new(setting.alloc, 0, NO_FACT);
            add_given(setting, &mut facts, part, truth);
            add_all(setting, state, &facts);
            state.facts.is_refused |= facts.is_refused;
        }
        _ => add_one(setting, state, fact),
    }
}
