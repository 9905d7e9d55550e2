//! What a search works on, by number: the initial write of each location stands before the events.

use crate::facts::{Fact, NO_FACT};
use crate::lists::{List, NONE};
use crate::makings::{Making, NO_MAKING, Term, add_makings, term_of};
use crate::parts::{NO_PART, Part, add_given, add_parts};
use crate::program::add_program;
use crate::rows::Rows;
use reading_tables::tables::Problem;
use refutation_laws::Model;
use refutations::events::{is_read, is_write};
use std::alloc::Global;
use tso_terms::{Core, Entry, Kind, Loc, Operator, Quantifier, Reg};

/// An event.
#[derive(Clone, Copy)]
pub struct Event {
    pub entry: Entry,
    pub core: usize,
    pub location: usize,
    pub reads: bool,
    /// Whether it is a write, and not an initial one.
    pub writes: bool,
    pub is_locked: bool,
    pub is_fence: bool,
}

/// How many cores a test has at most.
const MOST_CORES: usize = 8;

/// What stands where there is no event.
pub const NO_EVENT: Event = Event {
    entry: Entry {
        core: Core(255),
        place: 0,
        kind: Kind::F,
        loc: Loc(0),
        value: 0,
    },
    core: MOST_CORES,
    location: NONE,
    reads: false,
    writes: false,
    is_locked: false,
    is_fence: false,
};

/// The locations to which locked instructions alone write.
pub const LOCKED: usize = 0;
/// The locations to which locked additions and subtractions of numbers alone write.
pub const COUNTERS: usize = 1;
/// The locations that what is asked names.
pub const NAMED: usize = 2;
/// The locations to which writes set or add numbers alone that together, with the first word, fit into a word.
pub const GROWING: usize = 3;

/// What a search works on.
#[derive(Drop)]
pub struct Setting<'t> {
    pub alloc: Global,
    pub is_sequential: bool,
    /// How many events there are, with the initial writes.
    pub size: usize,
    /// How many locations there are: the initial write of each has its number.
    pub locations: usize,
    pub events: List<Event>,
    /// What each event writes.
    pub terms: List<Term>,
    /// What instructions make.
    pub makings: List<Making>,
    /// What each store part adds that adds a number to what its own load part returns.
    pub addends: List<u32>,
    /// The writes to each location but the initial one, its reads, and its load parts of locked instructions.
    pub writes_to: Rows,
    pub readers_of: Rows,
    pub load_parts_of: Rows,
    /// The writes whose value hangs on a read.
    pub users_of: Rows,
    pub events_of: Rows,
    /// Edges that the program alone tells: a row of each event for those on one location, then for the global ones.
    pub program: Rows,
    /// Sets of locations, a row for each of those that are named above.
    pub sets: Rows,
    /// The first event of each instruction of each core.
    numbers: List<usize>,
    pub parts: List<Part<'t>>,
    pub given: List<Fact>,
    /// Whether the first part is asked to be true.
    pub asked: bool,
}

/// What is done costs no less than with so many events.
const FEWEST: usize = 16;

/// How many instructions a program has at most, and more.
const PLACES: usize = 256;

impl<'t> Setting<'t> {
    /// The number of an event.
    pub fn number_of(&self, e: &Entry) -> usize {
        let place = usize::from(e.core.0)
            .wrapping_mul(PLACES)
            .wrapping_add(usize::from(e.place));
        let first = self.numbers.at(place);
        if matches!(e.kind, Kind::LW) {
            first.wrapping_add(1)
        } else {
            first
        }
    }

    /// How often so much work pays for what costs the number of events to this power.
    pub fn affordable(&self, work: usize, power: usize) -> usize {
        let mut cost = 1usize;
        for _factor in 0..power {
            cost = cost.saturating_mul(self.size.max(FEWEST));
        }
        work / cost.max(1)
    }

    /// The model of whose executions the search is.
    pub fn model(&self) -> Model {
        if self.is_sequential {
            Model::Sequential
        } else {
            Model::Tso
        }
    }

    /// The first word of a location.
    pub fn first_word(&self, x: usize) -> u32 {
        match self.terms.at(x) {
            Term::Number(word) => word,
            Term::Returned(_) | Term::Made(_) => 0,
        }
    }

    /// What a register holds at the end.
    pub fn register_left(&self, problem: &Problem<'_>, core: Core, reg: Reg) -> Term {
        match problem.expressions.registers.get(usize::from(core.0)) {
            Some(registers) => term_of(self, registers[reg.index()]),
            None => Term::Number(0),
        }
    }

    /// Whether memory was refused.
    pub fn is_refused(&self) -> bool {
        self.events.is_refused
            | self.terms.is_refused
            | self.makings.is_refused
            | self.addends.is_refused
            | self.writes_to.words.is_refused
            | self.readers_of.words.is_refused
            | self.load_parts_of.words.is_refused
            | self.users_of.words.is_refused
            | self.events_of.words.is_refused
            | self.program.words.is_refused
            | self.sets.words.is_refused
            | self.numbers.is_refused
            | self.parts.is_refused
            | self.given.is_refused
    }
}

fn add_event(setting: &mut Setting<'_>, entry: &Entry) {
    let a = setting.events.len();
    let location = usize::from(entry.loc.0);
    let event = Event {
        entry: *entry,
        core: usize::from(entry.core.0),
        location,
        reads: is_read(entry),
        writes: is_write(entry),
        is_locked: matches!(entry.kind, Kind::LR | Kind::LW),
        is_fence: matches!(entry.kind, Kind::F),
    };
    setting.events.push(event);
    setting.terms.push(Term::Number(0));
    setting.events_of.add(event.core, a);
    if event.reads {
        setting.readers_of.add(location, a);
    }
    if event.reads & event.is_locked {
        setting.load_parts_of.add(location, a);
    }
    if event.writes {
        setting.writes_to.add(location, a);
    }
    if !matches!(entry.kind, Kind::LW) {
        let place = event
            .core
            .wrapping_mul(PLACES)
            .wrapping_add(usize::from(entry.place));
        setting.numbers.put(place, a);
    }
}

/// Notes what each write writes.
fn add_terms(setting: &mut Setting<'_>, problem: &Problem<'_>) {
    for x in &problem.expressions.written {
        let w = setting.number_of(&x.write);
        let term = term_of(setting, x.value);
        setting.terms.put(w, term);
        add_user(setting, term, w);
    }
}

/// Notes that what a write writes hangs on the reads of a term.
fn add_user(setting: &mut Setting<'_>, term: Term, w: usize) {
    match term {
        Term::Number(_) => {}
        Term::Returned(r) => setting.users_of.add(r, w),
        Term::Made(number) => {
            let first = setting.makings.at(number).first;
            for k in first..number.wrapping_add(1) {
                for part in setting.makings.at(k).parts {
                    if let Term::Returned(r) = part {
                        setting.users_of.add(r, w);
                    }
                }
            }
        }
    }
}

/// What a store part adds to what its own load part returns, if it adds a number.
fn addend_of(setting: &Setting<'_>, w: usize) -> Option<u32> {
    if !setting.events.at(w).is_locked {
        return None;
    }
    let Term::Made(number) = setting.terms.at(w) else {
        return None;
    };
    let making = setting.makings.at(number);
    match (making.parts[0], making.parts[1]) {
        (Term::Returned(r), Term::Number(value)) if r == w.wrapping_sub(1) => {
            match making.operator {
                Some(Operator::Add) => Some(value),
                Some(Operator::Subtract) => Some(0u32.wrapping_sub(value)),
                _ => None,
            }
        }
        _ => None,
    }
}

/// The number that a write writes, or that a store part adds, if it is one.
fn written_number(setting: &Setting<'_>, w: usize) -> Option<u32> {
    match setting.terms.at(w) {
        Term::Number(value) => Some(value),
        Term::Returned(_) | Term::Made(_) => addend_of(setting, w),
    }
}

/// Whether writes to a location set or add numbers alone that together, with its first word, fit into a word.
fn is_growing(setting: &Setting<'_>, x: usize) -> bool {
    let mut sum = u64::from(setting.first_word(x));
    for w in setting.locations..setting.size {
        if setting.writes_to.has(x, w) {
            match written_number(setting, w) {
                Some(number) => sum = sum.wrapping_add(u64::from(number)),
                None => return false,
            }
        }
    }
    sum <= u64::from(u32::MAX)
}

/// Notes the locations to which locked instructions alone write, the counters among them, and those to which numbers alone are set or added.
fn add_sets(setting: &mut Setting<'_>) {
    for x in 0..setting.locations {
        let mut is_locked = setting.writes_to.next(x, 0) != NONE;
        let mut is_counter = is_locked;
        for w in setting.locations..setting.size {
            if setting.writes_to.has(x, w) {
                is_locked &= setting.events.at(w).is_locked;
                match addend_of(setting, w) {
                    Some(addend) => setting.addends.put(w, addend),
                    None => is_counter = false,
                }
            }
        }
        if is_locked {
            setting.sets.add(LOCKED, x);
        }
        if is_locked & is_counter {
            setting.sets.add(COUNTERS, x);
        }
        if is_growing(setting, x) {
            setting.sets.add(GROWING, x);
        }
    }
}

fn add_claim<'t>(setting: &mut Setting<'t>, problem: &Problem<'t>) {
    let Some(cond) = problem.test.cond() else {
        setting.parts.push(NO_PART);
        setting.given.push(Fact::Holds(0, true));
        return;
    };
    add_parts(setting, problem, &cond.prop);
    let truth = !matches!(cond.quantifier, Quantifier::Forall);
    let mut given = List::new(setting.alloc, 0, NO_FACT);
    add_given(setting, &mut given, 0, truth);
    setting.given = given;
    setting.asked = truth;
}

/// Notes the initial writes.
fn add_initial(setting: &mut Setting<'_>, problem: &Problem<'_>) {
    let mut location = 0usize;
    for word in problem.test.initial_words() {
        setting.events.push(Event {
            location,
            ..NO_EVENT
        });
        setting.terms.push(Term::Number(*word));
        location = location.wrapping_add(1);
    }
}

/// What a search for a refutation works on.
pub fn make_setting<'t>(alloc: Global, problem: &Problem<'t>, model: Model) -> Setting<'t> {
    let locations = usize::from(problem.test.locations());
    let size = locations.wrapping_add(problem.events.len());
    let mut setting = Setting {
        alloc,
        is_sequential: matches!(model, Model::Sequential),
        size,
        locations,
        events: List::new(alloc, 0, NO_EVENT),
        terms: List::new(alloc, 0, Term::Number(0)),
        makings: List::new(alloc, 0, NO_MAKING),
        addends: List::new(alloc, size, 0),
        writes_to: Rows::new(alloc, locations, size),
        readers_of: Rows::new(alloc, locations, size),
        load_parts_of: Rows::new(alloc, locations, size),
        users_of: Rows::new(alloc, size, size),
        events_of: Rows::new(alloc, MOST_CORES, size),
        program: Rows::new(alloc, size.wrapping_mul(2), size),
        sets: Rows::new(alloc, 4, locations),
        numbers: List::new(alloc, MOST_CORES.wrapping_mul(PLACES), NONE),
        parts: List::new(alloc, 0, NO_PART),
        given: List::new(alloc, 0, NO_FACT),
        asked: true,
    };
    add_initial(&mut setting, problem);
    for entry in &problem.events {
        add_event(&mut setting, entry);
    }
    add_makings(&mut setting, problem);
    add_terms(&mut setting, problem);
    add_sets(&mut setting);
    add_program(&mut setting);
    add_claim(&mut setting, problem);
    setting
}
