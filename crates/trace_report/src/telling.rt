//! What each choice on a machine did, told from the machine before it and after it. The machine makes the choice as it
//! would in any run; looking changes nothing.

ghost use Rattle.std.specs.Prelude.{◌≡◌, ◌<◌, ◌+◌, ◌^◌, ◌++◌, IfOk, OnOk, length, drop};
ghost use Rattle.std.specs.Option.{option_map};
ghost use Rattle.tso_terms.specs.Actions.{action_of};
ghost use Rattle.tso_terms.specs.FlatMachine.{chosen, core_of};
ghost use Rattle.tso_terms.specs.Runs.{stall_count};
ghost use Rattle.machine_core.specs.Running.{machine_after, AnswerFits};
ghost use Rattle.trace_report.specs.Shown.{shown_step};
ghost use Rattle.trace_report.specs.inner.Steps.{waited_before};
ghost use Rattle.trace_report.specs.Steps.{is_forwarded, access_kind_in, moved_from, moved_by, register_given, given_by_move};
ghost use Rattle.trace_report.specs.Steps.{buffer_if_changed, among, left_in, written_line, trace_step_of, states_of};
ghost use Rattle.trace_report.specs.Known.{StepNamesExist};
ghost use Rattle.trace_report.specs.inner.Told.{IsLookedAt};
ghost use Rattle.trace_report.specs.Told.{IsTracedInStates};
ghost use Rattle.trace_report.specs.inner.Left.{IsLeftBy};
ghost use Rattle.trace_report.specs.Stalls.{stalled_step};
ghost use Rattle.trace_report.specs.inner.ToldSteps.{told_step, told_source, stalls_told};
ghost use Rattle.trace_report.specs.Supplied.{supplied_by};

use crate::sending::sent_by;
use crate::states::{PlacedState, changes_in, states_of};
use crate::step::{Given, Moved, StateChange, Step, core_of};
use crate::supplied::found_by;
use machine_core::{CacheUse, Config, Machine};
use protocol_tables::Protocol;
use snoop_bus::AccessKind;
use std::alloc::Global;
use tso_terms::{Action, Change, Choice, Core, Entry, Instr, NoMemory, Outcome, Reg, Stall, Test};

/// What is told of a choice: that it stalled and nothing else, or its step.
#[derive(Drop)]
pub enum Told {
    Stalled(Stall),
    Made(Step),
}

/// Makes a choice on a machine, and answers what it did. The states are those of the machine's lines, before it and then
/// after it.
///
/// Errors: out of memory only.
pub fn tell<P: Protocol>(
    alloc: Global,
    machine: &mut Machine<P>,
    states: &mut Vec<PlacedState>,
    test: &Test,
    config: Config,
    choice: Choice,
) -> Result<Step, NoMemory>
    requires core { chosen choice < length test.now.programs }
    requires told { IsTracedInStates test.now config machine.old states.old.items }
    ensures step { IfOk result (λ step. shown_step step ≡ trace_step_of machine.old choice) }
    ensures supplied { IfOk result (λ step. step.supplied ≡ supplied_by machine.old choice) }
    ensures known { IfOk result (λ step. StepNamesExist test.now config.shape.words (shown_step step)) }
    ensures after { OnOk result (machine.new ≡ machine_after machine.old choice) }
    ensures told { OnOk result (IsTracedInStates test.now config machine.new states.new.items) }

    // Of a choice that stalled nothing else is told.
    ensures stall { (why : Stall) → IfOk result (λ step. step.outcome ≡ Outcome.Stalled why → shown_step step ≡ stalled_step choice why) }

    // Between the two parts of a locked instruction no write of another core to its location hits.
    ensures answer { OnOk result (AnswerFits machine.old choice) }
{
    match tell_or_stall(alloc, machine, states, test, config, choice)? {
        Told::Stalled(stall) => Ok(Step {
            choice,
            outcome: Outcome::Stalled(stall),
            entries: Vec::new(alloc),
            moved: None,
            forwarded: false,
            access: None,
            supplied: None,
            request: None,
            flushed: None,
            wrote_back: None,
            changes: Vec::new(alloc),
            buffer: None,
        }),
        Told::Made(step) => Ok(step),
    }
}

/// What [`tell`] answers, but no step of a choice that stalled. A run may stall at each of its choices, so it is inlined:
/// then no step is laid out where there is none.
///
/// Errors: out of memory only.
#[inline(always)]
pub fn tell_or_stall<P: Protocol>(
    alloc: Global,
    machine: &mut Machine<P>,
    states: &mut Vec<PlacedState>,
    test: &Test,
    config: Config,
    choice: Choice,
) -> Result<Told, NoMemory>
    requires core { chosen choice < length test.now.programs }
    requires told { IsTracedInStates test.now config machine.old states.old.items }
    ensures step { IfOk result (λ told. told_step choice told ≡ trace_step_of machine.old choice) }
    ensures supplied { IfOk result (λ told. told_source told ≡ supplied_by machine.old choice) }
    ensures known { IfOk result (λ told. StepNamesExist test.now config.shape.words (told_step choice told)) }
    ensures stalls { IfOk result (λ told. stalls_told told ≡ stall_count (told_step choice told).outcome) }
    ensures after { OnOk result (machine.new ≡ machine_after machine.old choice) }
    ensures told { OnOk result (IsTracedInStates test.now config machine.new states.new.items) }

    // A stall changes nothing.
    ensures same { IfOk result (λ told. stalls_told told ≡ 1 → machine.new ≡ machine.old) }

    // Between the two parts of a locked instruction no write of another core to its location hits.
    ensures answer { OnOk result (AnswerFits machine.old choice) }
{
    test.know_limits();
    let core = core_of(choice);
    let place = machine.place(core).unwrap_or(0);
    let committed = machine.committed().len();
    let lines = test.locations().div_ceil(config.words());
    let (outcome, cache_use) = machine.choose_telling(choice)?;
    if let Outcome::Stalled(stall) = outcome {
        return Ok(Told::Stalled(stall));
    }
    let made = Made {
        choice,
        outcome,
        committed,
    };
    let left = left_behind(alloc, machine, states, test, config, made)?;
    let sent = sent_by(cache_use);
    let (forwarded, access) = answered_by(cache_use);
    Ok(Told::Made(Step {
        choice,
        outcome,
        entries: left.entries,
        moved: moved_in(machine, test, choice, place),
        forwarded,
        access,
        supplied: found_by(test, place, choice, cache_use),
        request: sent.request,
        flushed: sent.flushed,
        wrote_back: written_back(cache_use, lines),
        changes: left.changes,
        buffer: left.buffer,
    }))
}

/// A choice that was made, its outcome, and how many entries were committed before it.
#[derive(Clone, Copy)]
struct Made {
    choice: Choice,
    outcome: Outcome,
    committed: usize,
}

/// What a choice left in the order, in the lines and in its core's buffer.
#[derive(Drop)]
struct Left {
    /// The entries that it committed, and that of a store that became pending.
    entries: Vec<Entry>,
    changes: Vec<StateChange>,
    /// The core's pending stores, where they changed.
    buffer: Option<Vec<Entry>>,
}

/// What a choice left. The states are those of the machine's lines, before it and then after it.
///
/// Errors: out of memory only.
fn left_behind<P: Protocol>(
    alloc: Global,
    machine: &Machine<P>,
    states: &mut Vec<PlacedState>,
    test: &Test,
    config: Config,
    made: Made,
) -> Result<Left, NoMemory>
    requires { IsLookedAt test.now config.shape.words machine.now }
    ensures left { IfOk result (IsLeftBy machine.now states.old.items made.choice made.outcome made.committed) }
    ensures states { OnOk result (states.new.items ≡ states_of machine.now) }
{
    let after = states_of(alloc, machine, test, config.words())?;
    let changes = changes_in(alloc, states, &after)?;
    *states = after;
    let pending = pending_of(alloc, machine, core_of(made.choice))?;
    let waited = waited_before(made.outcome, made.choice, pending.len());
    let entries = entries_since(alloc, machine.committed(), made.committed, &pending, waited)?;
    Ok(Left {
        entries,
        changes,
        buffer: changed_buffer(pending, waited),
    })
}

/// How many stores were pending before a choice with this outcome that left so many.
fn waited_before(outcome: Outcome, choice: Choice, pending: usize) -> usize
    requires { pending + 1 < 2 ^ 64 }
    ensures { result ≡ waited_before outcome choice pending }
{
    match outcome {
        Outcome::Buffered => pending.saturating_sub(1),
        Outcome::Committed => match choice {
            Choice::Step(_) => pending,
            Choice::Drain(_) => pending + 1,
        },
        Outcome::Moved | Outcome::Asked | Outcome::Stalled(_) => pending,
    }
}

/// The pending stores of a core, the oldest first.
pub fn pending_of<P: Protocol>(
    alloc: Global,
    machine: &Machine<P>,
    core: Core,
) -> Result<Vec<Entry>, NoMemory>
    ensures { IfOk result (λ stores. stores.items ≡ (core_of machine.now.state.flat core.0).pending) }
{
    let mut stores = Vec::new(alloc);
    while let Some(store) = machine.pending(core, stores.len()) {
        stores.push(store)?;
    }
    Ok(stores)
}

/// The entries after the first so many that are committed, and then the pending stores after the first so many.
fn entries_since(
    alloc: Global,
    commits: &[Entry],
    committed: usize,
    pending: &[Entry],
    waited: usize,
) -> Result<Vec<Entry>, NoMemory>
    ensures { IfOk result (λ entries. entries.items ≡ drop committed commits.now ++ drop waited pending.now) }
{
    let mut entries = Vec::new(alloc);
    entries.extend_from_slice(after(commits, committed))?;
    entries.extend_from_slice(after(pending, waited))?;
    Ok(entries)
}

/// The entries after the first so many.
fn after(entries: &[Entry], count: usize) -> &[Entry]
    ensures { result.now ≡ drop count entries.now }
{
    &entries[count.min(entries.len())..]
}

/// What a step at this place of its core's program gave registers, if it is a move.
fn moved_in<P: Protocol>(
    machine: &Machine<P>,
    test: &Test,
    choice: Choice,
    place: u8,
) -> Option<Moved>
    requires { chosen choice < length test.now.programs }
    ensures { result ≡ moved_from test.now place choice (core_of machine.now.state.flat (chosen choice)).registers }
{
    match choice {
        Choice::Drain(_) => None,
        Choice::Step(core) => match test.program(core).get(usize::from(place)) {
            None => None,
            Some(instr) => moved_by(machine, core, *instr),
        },
    }
}

/// A register of a core, and the value that it has now.
fn register_given<P: Protocol>(machine: &Machine<P>, core: Core, reg: Reg) -> Given
    ensures { result ≡ register_given (core_of machine.now.state.flat core.0).registers reg }
{
    Given {
        reg,
        value: machine.register(core, reg).unwrap_or(0),
    }
}

/// What a move of a core gave.
fn given_by_move<P: Protocol>(machine: &Machine<P>, core: Core, change: Change) -> Option<Moved>
    ensures { result ≡ given_by_move change (core_of machine.now.state.flat core.0).registers }
{
    match change {
        Change::Keep => None,
        Change::Set(reg, _) => Some(Moved::One(register_given(machine, core, reg))),
        Change::Swap(reg, other) => Some(Moved::Both(
            register_given(machine, core, reg),
            register_given(machine, core, other),
        )),
    }
}

/// What an instruction of a core gave registers, if it is a move.
fn moved_by<P: Protocol>(machine: &Machine<P>, core: Core, instr: Instr) -> Option<Moved>
    ensures { result ≡ moved_by (action_of instr) (core_of machine.now.state.flat core.0).registers }
{
    match instr.action() {
        Action::Move(change) => given_by_move(machine, core, change),
        Action::Store(..) | Action::Load(..) | Action::Fence | Action::Lock(..) => None,
    }
}

/// Whether the core's own pending stores answered the choice, and what its access was.
fn answered_by(cache_use: CacheUse) -> (bool, Option<AccessKind>)
    ensures forwarded { result.0 ≡ is_forwarded cache_use }
    ensures access { result.1 ≡ access_kind_in cache_use }
{
    match cache_use {
        CacheUse::Unused | CacheUse::Asked(_) => (false, None),
        CacheUse::Forwarded => (true, None),
        CacheUse::Through(report) => (false, Some(report.access.kind)),
    }
}

/// The line that left the core's cache and was written back, if it is one of so many: caches have no others.
fn written_back(cache_use: CacheUse, lines: u8) -> Option<u8>
    ensures { result ≡ among lines (written_line (left_in cache_use)) }
{
    let CacheUse::Through(report) = cache_use else {
        return None;
    };
    let Some(left) = report.left else {
        return None;
    };
    if !left.written_back {
        return None;
    }
    if left.line < lines {
        Some(left.line)
    } else {
        None
    }
}

/// The pending stores, unless they are as many as before.
fn changed_buffer(pending: Vec<Entry>, waited: usize) -> Option<Vec<Entry>>
    ensures { option_map (λ stores. stores.items) result ≡ buffer_if_changed waited pending.items }
{
    if pending.len() == waited {
        None
    } else {
        Some(pending)
    }
}
