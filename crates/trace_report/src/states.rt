//! What the lines of all cores are in, and which of them changed. They are looked at before a choice and after it: what
//! changed is seen, and not concluded from what the choice should do.

ghost use Rattle.std.specs.Prelude.{◌≡◌, ◌<◌, ◌++◌, IfOk, OnOk, length};
ghost use Rattle.std.specs.Int.{div_ceil};
ghost use Rattle.machine_core.specs.Looking.{bus_holder_of};
ghost use Rattle.trace_report.specs.Steps.{awaited_at, line_state, line_states, number_of_lines, states_of, number_of_state};
ghost use Rattle.trace_report.specs.Steps.{changes_in};
ghost use Rattle.trace_report.specs.inner.Told.{IsLookedAt};

use crate::step::{LineState, StateChange, core_of};
use machine_core::Machine;
use machine_core::looking::BusHolder;
use protocol_tables::{Protocol, State, Transient};
use std::alloc::Global;
use tso_terms::{Core, NoMemory, Test};

/// What a core's line is in, by the line's number.
#[derive(Clone, Copy)]
pub struct PlacedState {
    pub core: Core,
    pub line: u8,
    pub state: LineState,
}

/// What each line of each core is in, by core and then by line, where lines have so many words.
///
/// Errors: out of memory only.
pub fn states_of<P: Protocol>(
    alloc: Global,
    machine: &Machine<P>,
    test: &Test,
    words: u8,
) -> Result<Vec<PlacedState>, NoMemory>
    requires { IsLookedAt test.now words machine.now }
    ensures { IfOk result (λ states. states.items ≡ states_of machine.now) }
{
    let mut states = Vec::new(alloc);
    let holder = machine.bus_holder();
    let lines = test.locations().div_ceil(words);
    for number in 0..test.cores() {
        let core = Core(number);
        for line in 0..lines {
            let state = line_state(machine, holder, words, core, line);
            states.push(PlacedState { core, line, state })?;
        }
    }
    Ok(states)
}

/// What a core's line is in, where lines have so many words and this is the action that holds the bus. While the core
/// has asked for the line and awaits it, that is a transient.
pub fn line_state<P: Protocol>(
    machine: &Machine<P>,
    holder: Option<BusHolder>,
    words: u8,
    core: Core,
    line: u8,
) -> LineState
    requires core { core.0 < length machine.now.test.programs }
    requires words { (0 < words) × (machine.now.statistics.caches.shape.words ≡ words) }
    requires holder { holder ≡ bus_holder_of machine.now }
    ensures { result ≡ line_state machine.now core.0 line }
{
    match awaited_at(holder, words, core, line) {
        Some(transient) => LineState::Transient(transient),
        None => LineState::Stable(machine.copy_state(core, line).unwrap_or(State::I)),
    }
}

/// What the holder of the bus awaits, if this is its line.
fn awaited_at(holder: Option<BusHolder>, words: u8, core: Core, line: u8) -> Option<Transient>
    requires { 0 < words }
    ensures { result ≡ awaited_at holder words core.0 line }
{
    let Some(holder) = holder else {
        return None;
    };
    if core_of(holder.choice).0 == core.0 && holder.loc.0 / words == line {
        holder.transient
    } else {
        None
    }
}

/// The lines whose states changed, in their order.
///
/// Errors: out of memory only.
pub fn changes_in(
    alloc: Global,
    before: &[PlacedState],
    after: &[PlacedState],
) -> Result<Vec<StateChange>, NoMemory>
    ensures { IfOk result (λ changes. changes.items ≡ changes_in before.now after.now) }
{
    let mut changes = Vec::new(alloc);
    for at in 0..before.len().min(after.len()) {
        let (before, after) = (before[at], after[at]);
        if number_of_state(before.state) != number_of_state(after.state) {
            changes.push(StateChange {
                core: before.core,
                line: before.line,
                before: before.state,
                after: after.state,
            })?;
        }
    }
    Ok(changes)
}

/// A number of each state, by which states are told apart; that of I is 0.
fn number_of_state(state: LineState) -> u8
    ensures { result ≡ number_of_state state }
{
    match state {
        LineState::Stable(State::I) => 0,
        LineState::Stable(State::S) => 1,
        LineState::Stable(State::E) => 2,
        LineState::Stable(State::O) => 3,
        LineState::Stable(State::M) => 4,
        LineState::Transient(Transient::IsD) => 5,
        LineState::Transient(Transient::ImD) => 6,
        LineState::Transient(Transient::SmD) => 7,
    }
}
