//! Runs by chance: the cores take steps and write back stores in an order of chance, as far as what is known of each read and write leaves
//! them possible. Where what is asked is true at the end of many runs, one is found soon.

use crate::chance::{Chance, FIRST_CHANCE};
use crate::lists::{List, NONE};
use crate::makings::Term;
use crate::parts::PartKind;
use crate::rows::Rows;
use crate::setting::Setting;
use crate::state::{Group, State};
use std::alloc::Global;
use tso_terms::{Entry, Execution, NoMemory};

/// A run.
#[derive(Drop)]
struct Run {
    /// For each core the event that comes next, that behind its last one, and the first one of its stores that may still be buffered.
    next: List<usize>,
    ends: List<usize>,
    buffered: List<usize>,
    /// What each event read or wrote.
    values: List<u32>,
    /// What instructions made, as far as it was asked for.
    made: List<u32>,
    /// The last write to each location.
    memory: List<usize>,
    /// The events that memory has seen, in their order, and as a set.
    order: List<usize>,
    placed: Rows,
    truths: List<bool>,
    chance: Chance,
    cores: usize,
}

fn make_run(alloc: Global, setting: &Setting<'_>) -> Run {
    let mut run = Run {
        next: List::new(alloc, 0, NONE),
        ends: List::new(alloc, 0, NONE),
        buffered: List::new(alloc, 0, NONE),
        values: List::new(alloc, setting.size, 0),
        made: List::new(alloc, setting.makings.len(), 0),
        memory: List::new(alloc, setting.locations, NONE),
        order: List::new(alloc, 0, NONE),
        placed: Rows::new(alloc, 1, setting.size),
        truths: List::new(alloc, setting.parts.len(), false),
        chance: FIRST_CHANCE,
        cores: 0,
    };
    for a in setting.locations..setting.size {
        let core = setting.events.at(a).core;
        if run.ends.len() <= core {
            for _core in run.ends.len()..core.wrapping_add(1) {
                run.next.push(a);
                run.buffered.push(a);
                run.ends.push(a);
            }
        }
        run.ends.put(core, a.wrapping_add(1));
    }
    run.cores = run.ends.len();
    run
}

impl Run {
    /// Whether memory was refused.
    fn is_refused(&self) -> bool {
        self.next.is_refused
            | self.ends.is_refused
            | self.buffered.is_refused
            | self.values.is_refused
            | self.made.is_refused
            | self.memory.is_refused
            | self.order.is_refused
            | self.placed.words.is_refused
            | self.truths.is_refused
    }
}

/// Makes it a run that hasn't begun.
fn begin(setting: &Setting<'_>, run: &mut Run) {
    let mut first = setting.locations;
    for core in 0..run.cores {
        run.next.put(core, first);
        run.buffered.put(core, first);
        first = run.ends.at(core);
    }
    for x in 0..setting.locations {
        run.memory.put(x, x);
        run.values.put(x, setting.first_word(x));
    }
    run.order.cut(0);
    run.placed.clear(0);
}

/// The first store of a core that is buffered; what comes next where none is.
fn first_buffered(setting: &Setting<'_>, run: &Run, core: usize) -> usize {
    let next = run.next.at(core);
    for a in run.buffered.at(core)..next {
        let event = setting.events.at(a);
        if event.writes & !event.is_locked {
            return a;
        }
    }
    next
}

/// The write from which a core would read now.
fn source_of(setting: &Setting<'_>, run: &Run, core: usize, x: usize) -> usize {
    for a in (run.buffered.at(core)..run.next.at(core)).rev() {
        let event = setting.events.at(a);
        if event.writes & !event.is_locked & (event.location == x) {
            return a;
        }
    }
    run.memory.at(x)
}

/// Whether memory has seen all that is known to come before this event.
fn may_place(setting: &Setting<'_>, root: &State, run: &Run, a: usize) -> bool {
    let before = Group::BeforeGlobally.row(setting, a);
    let earlier = Group::Earlier.row(setting, a);
    for k in 0..run.placed.width {
        let all = root.rows.word(before, k) | root.rows.word(earlier, k);
        if all & !run.placed.word(0, k) & !first_words(setting, k) != 0 {
            return false;
        }
    }
    true
}

/// The initial writes in a word of a row.
fn first_words(setting: &Setting<'_>, k: usize) -> u64 {
    if k == 0 {
        (1u64 << (setting.locations % 64)).wrapping_sub(1)
    } else {
        0
    }
}

fn place(run: &mut Run, a: usize) {
    run.order.push(a);
    run.placed.add(0, a);
}

/// Whether a read may read from this write now.
fn may_read(setting: &Setting<'_>, root: &State, run: &Run, r: usize, s: usize) -> bool {
    root.has(setting, Group::Sources, r, s)
        && root.values.has(r, run.values.at(s))
        && may_place(setting, root, run, r)
}

/// The number that a term is in this run, where what instructions make for it is noted.
fn known(run: &Run, term: Term) -> u32 {
    match term {
        Term::Number(value) => value,
        Term::Returned(r) => run.values.at(r),
        Term::Made(number) => run.made.at(number),
    }
}

/// The number that a term is in this run. What instructions make for it is noted.
fn value_of(setting: &Setting<'_>, run: &mut Run, term: Term) -> u32 {
    if let Term::Made(number) = term {
        for k in setting.makings.at(number).first..number.wrapping_add(1) {
            let making = setting.makings.at(k);
            let [first, second, third] = making.parts;
            let made = making.of([known(run, first), known(run, second), known(run, third)]);
            run.made.put(k, made);
        }
    }
    known(run, term)
}

/// Lets memory see a write.
fn write(setting: &Setting<'_>, run: &mut Run, w: usize) {
    place(run, w);
    run.memory.put(setting.events.at(w).location, w);
}

/// Writes back a core's first buffered store, if it may come now.
fn write_back(setting: &Setting<'_>, root: &State, run: &mut Run, core: usize) -> bool {
    let w = first_buffered(setting, run, core);
    if w == run.next.at(core) || !may_place(setting, root, run, w) {
        return false;
    }
    run.buffered.put(core, w.wrapping_add(1));
    write(setting, run, w);
    true
}

/// A locked instruction, if it may come now.
fn run_locked(setting: &Setting<'_>, root: &State, run: &mut Run, core: usize, r: usize) -> bool {
    let s = run.memory.at(setting.events.at(r).location);
    let w = r.wrapping_add(1);
    if !may_read(setting, root, run, r, s) {
        return false;
    }
    run.placed.add(0, r);
    let may_write = may_place(setting, root, run, w);
    run.placed.remove(0, r);
    if !may_write {
        return false;
    }
    let value = run.values.at(s);
    run.values.put(r, value);
    place(run, r);
    let written = value_of(setting, run, setting.terms.at(w));
    run.values.put(w, written);
    write(setting, run, w);
    run.next.put(core, w.wrapping_add(1));
    run.buffered.put(core, w.wrapping_add(1));
    true
}

/// A plain load, if it may come now.
fn run_load(setting: &Setting<'_>, root: &State, run: &mut Run, core: usize, r: usize) -> bool {
    let s = source_of(setting, run, core, setting.events.at(r).location);
    if !may_read(setting, root, run, r, s) {
        return false;
    }
    let value = run.values.at(s);
    run.values.put(r, value);
    place(run, r);
    run.next.put(core, r.wrapping_add(1));
    true
}

/// Takes a core's next step, if it may come now.
fn step(setting: &Setting<'_>, root: &State, run: &mut Run, core: usize) -> bool {
    let a = run.next.at(core);
    if a >= run.ends.at(core) {
        return false;
    }
    let event = setting.events.at(a);
    let has_buffered = first_buffered(setting, run, core) != a;
    if has_buffered & (event.is_fence | event.is_locked | setting.is_sequential) {
        return false;
    }
    if event.is_fence {
        place(run, a);
        run.next.put(core, a.wrapping_add(1));
        return true;
    }
    if event.reads & event.is_locked {
        return run_locked(setting, root, run, core, a);
    }
    if event.reads {
        return run_load(setting, root, run, core, a);
    }
    let written = value_of(setting, run, setting.terms.at(a));
    run.values.put(a, written);
    run.next.put(core, a.wrapping_add(1));
    true
}

/// Lets a core do something, if it can: a step or, in half of all cases, a buffered store first.
fn act(setting: &Setting<'_>, root: &State, run: &mut Run, core: usize) -> bool {
    if run.chance.below(2) == 0 {
        write_back(setting, root, run, core) || step(setting, root, run, core)
    } else {
        step(setting, root, run, core) || write_back(setting, root, run, core)
    }
}

/// Lets one core do something, this one if it can: the core that did, and `NONE` where none can.
fn act_from(setting: &Setting<'_>, root: &State, run: &mut Run, start: usize) -> usize {
    let cores = run.cores.max(1);
    for i in 0..run.cores {
        let core = start.wrapping_add(i) % cores;
        if act(setting, root, run, core) {
            return core;
        }
    }
    NONE
}

/// Goes on until nothing can come: how many steps it took. Of so many steps of a core, one is its last for a while.
fn finish(setting: &Setting<'_>, root: &State, run: &mut Run, patience: usize) -> usize {
    let mut core = run.chance.below(run.cores);
    let most = setting.size.wrapping_mul(2);
    for steps in 0..most {
        if run.chance.below(patience) == 0 {
            core = run.chance.below(run.cores);
        }
        core = act_from(setting, root, run, core);
        if core == NONE {
            return steps;
        }
    }
    most
}

fn truth_of(setting: &Setting<'_>, run: &mut Run, i: usize) -> bool {
    let part = setting.parts.at(i);
    let first = run.truths.at(i.wrapping_add(1));
    let second = run.truths.at(part.second);
    match part.kind {
        PartKind::Truth(value) => value,
        PartKind::Register(term, value) => value_of(setting, run, term) == value,
        PartKind::Word(x, value) => run.values.at(run.memory.at(x)) == value,
        PartKind::Not => !first,
        PartKind::Both => first & second,
        PartKind::Either => first | second,
    }
}

/// Whether what is asked is true at the end of a run that came to its end.
fn is_met(setting: &Setting<'_>, run: &mut Run) -> bool {
    if run.order.len() != setting.size.wrapping_sub(setting.locations) {
        return false;
    }
    for i in (0..setting.parts.len()).rev() {
        let truth = truth_of(setting, run, i);
        run.truths.put(i, truth);
    }
    run.truths.at(0) == setting.asked
}

/// The order in which memory saw a run.
fn order_of(setting: &Setting<'_>, run: &Run) -> Result<Execution, NoMemory> {
    let mut order = List::new(setting.alloc, 0, setting.events.at(NONE).entry);
    for a in &run.order.items {
        let event = setting.events.at(*a);
        let value = if event.is_fence { 0 } else { run.values.at(*a) };
        order.push(Entry {
            value,
            ..event.entry
        });
    }
    Ok(Execution {
        order: order.into_items()?,
    })
}

/// The order of a run at whose end what is asked is true, as far as this branch lets it come, if one is found within so many steps.
///
/// Errors: out of memory only.
pub fn find_run(
    alloc: Global,
    setting: &Setting<'_>,
    root: &State,
    most: usize,
) -> Result<Option<Execution>, NoMemory> {
    if root.is_closed {
        return Ok(None);
    }
    let mut run = make_run(alloc, setting);
    if run.is_refused() {
        return Err(NoMemory);
    }
    let mut steps = 0usize;
    for round in 0..most {
        if steps > most {
            break;
        }
        begin(setting, &mut run);
        let patience = 1usize << (round % 4);
        let taken = finish(setting, root, &mut run, patience);
        steps = steps.wrapping_add(taken).wrapping_add(8);
        if is_met(setting, &mut run) {
            return Ok(Some(order_of(setting, &run)?));
        }
    }
    if run.is_refused() {
        return Err(NoMemory);
    }
    Ok(None)
}
