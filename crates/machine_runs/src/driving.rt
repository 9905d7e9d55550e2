//! Choices on a machine, until the test has ended. It stops at the first moment at which it has: which choices are used,
//! and so what is printed, must not depend on those after it.

ghost use Rattle.std.specs.Prelude.{◌≡◌, ◌+◌, ◌^◌, ◌<◌, false, IfOk, OnOk, length};
ghost use Rattle.tso_terms.specs.Runs.{CoresExist};
ghost use Rattle.protocol_tables.specs.Tables.{Table, table_of};
ghost use Rattle.machine_core.specs.Running.{new_machine};
ghost use Rattle.machine_runs.specs.Runs.{run_by, run_under, counts_by, counts_under, AnswersFit, AnswersFitBy};
ghost use Rattle.machine_runs.specs.Simulation.{IsEndingOf, FitsEnding, HasCounts, verdict};
ghost use Rattle.machine_runs.specs.inner.Observed.{Watched, IsWatched};
ghost use Rattle.machine_runs.specs.inner.Simulation.{Drives, IsEndingLeftBy};
ghost use Rattle.tso_laws.specs.BusChoices.{IsPossibleOn};

use crate::ended_runs::ended_runs_of_machines_are_executions;
use crate::observing::Observer;
use machine_core::{Choice, Config, Machine, Outcome};
use protocol_tables::{Mesi, Moesi, Mosi, Msi, Protocol, ProtocolKind};
use scheduler::{Choices, Listed};
use std::alloc::Global;
use tso_laws::{
    atomic_runs_are_flat_runs, attempts_lead_from_state_to_state,
    runs_on_either_bus_stop_where_they_end, stalls_on_either_bus_change_nothing,
    what_holds_so_far_on_either_bus, whole_orders_have_each_entry_once,
};
use tso_report::Run;
use tso_terms::{NoMemory, Test, cond_holds};

/// What a run is asked for: a test, on a machine of this protocol and configuration.
#[derive(Clone, Copy)]
pub struct Setup<'t> {
    /// The test.
    pub test: &'t Test,
    /// By which the machine's caches are kept coherent.
    pub protocol: ProtocolKind,
    /// How the machine is built.
    pub config: Config,
}

/// How a list of choices left a test.
#[derive(Drop)]
pub enum Ending {
    /// The test ended within the list.
    Ended(Run),
    /// The list was too short: so many choices were made, and so many of them stalled.
    Unfinished { used: usize, stalled: usize },
}

/// Runs a test under a list of choices, up to the first moment at which it has ended, on a machine of this protocol and
/// configuration, and has an observer look. On the atomic bus neither the protocol nor the shape of the caches has a part in
/// the answer but in the counts. On a split bus an access that hits needs no bus.
///
/// Errors: those of the observer, and out of memory.
pub fn simulate_observed<O: Observer>(
    alloc: Global,
    setup: &Setup<'_>,
    choices: &[Choice],
    observer: &mut O,
) -> Result<Ending, NoMemory>
    requires cores { CoresExist (length setup.now.test.now.programs) choices.now }
    requires begins { (table : Table) → O.begins observer.old (new_machine table setup.now.config setup.now.test.now) }
    ensures watched { OnOk result
        (IsWatched O.opens O.makes O.ends observer.old
        (new_machine (table_of setup.now.protocol) setup.now.config setup.now.test.now) choices.now observer.new) }
    ensures ending { IfOk result (IsEndingOf setup.now.test.now (run_under setup.now.test.now setup.now.protocol setup.now.config choices.now)) }
    ensures fits { IfOk result (FitsEnding setup.now.test.now) }
    ensures answers { OnOk result (AnswersFit setup.now.test.now setup.now.protocol setup.now.config choices.now) }
    ensures counts { IfOk result (HasCounts (counts_under setup.now.test.now setup.now.protocol setup.now.config choices.now)) }
{
    match setup.protocol {
        ProtocolKind::Msi => run_to_the_end(alloc, setup, Msi, choices, observer),
        ProtocolKind::Mesi => run_to_the_end(alloc, setup, Mesi, choices, observer),
        ProtocolKind::Moesi => run_to_the_end(alloc, setup, Moesi, choices, observer),
        ProtocolKind::Mosi => run_to_the_end(alloc, setup, Mosi, choices, observer),
    }
}

/// The run on a machine of this protocol.
fn run_to_the_end<P: Protocol, O: Observer>(
    alloc: Global,
    setup: &Setup<'_>,
    protocol: P,
    choices: &[Choice],
    observer: &mut O,
) -> Result<Ending, NoMemory>
    requires cores { CoresExist (length setup.now.test.now.programs) choices.now }
    requires begins { (table : Table) → O.begins observer.old (new_machine table setup.now.config setup.now.test.now) }
    ensures watched { OnOk result
        (IsWatched O.opens O.makes O.ends observer.old
        (new_machine (P.table protocol) setup.now.config setup.now.test.now) choices.now observer.new) }
    ensures ending { IfOk result
        (IsEndingOf setup.now.test.now (run_by setup.now.config.bus (P.table protocol) setup.now.config setup.now.test.now choices.now)) }
    ensures fits { IfOk result (FitsEnding setup.now.test.now) }
    ensures answers { OnOk result (AnswersFitBy (P.table protocol) setup.now.config setup.now.test.now choices.now) }
    ensures counts { IfOk result (HasCounts (counts_by (P.table protocol) setup.now.config setup.now.test.now choices.now)) }
{
    attempts_lead_from_state_to_state();
    atomic_runs_are_flat_runs();
    runs_on_either_bus_stop_where_they_end();
    ended_runs_of_machines_are_executions();
    whole_orders_have_each_entry_once();
    setup.test.know_limits();
    let mut machine = Machine::new(alloc, protocol, setup.test, setup.config)?;
    observer.begin(&machine)?;
    let mut choices = Listed::new(choices);
    let progress = drive_machine(&mut machine, observer, &mut choices)?;
    observer.end(&machine)?;
    ending_of(alloc, machine, setup.test, progress, choices.left())
}

/// How a machine that was driven so far leaves its test, with so many of the choices unused.
///
/// Errors: out of memory only.
pub fn ending_of<P: Protocol>(
    alloc: Global,
    machine: Machine<'_, P>,
    test: &Test,
    progress: Progress,
    unused: usize,
) -> Result<Ending, NoMemory>
    requires { machine.test ≡ test.now }
    ensures { IfOk result (IsEndingLeftBy test.now machine.entry progress.used progress.stalled unused) }
{
    if !machine.is_ended() {
        return Ok(Ending::Unfinished {
            used: progress.used,
            stalled: progress.stalled,
        });
    }
    let left = machine.finish(alloc)?;
    let holds = verdict_of(test, &left.state.registers, &left.state.memory);
    Ok(Ending::Ended(Run {
        left,
        holds,
        used: progress.used,
        stalled: progress.stalled,
        unused,
    }))
}

/// How far a machine was driven.
#[derive(Clone, Copy)]
pub struct Progress {
    /// How many choices were made, the stalled ones too.
    pub used: usize,
    /// How many of these stalled.
    pub stalled: usize,
}

/// Makes the choices one after the other, until the test has ended, and counts those that stall. The caches'
/// answers along all of them fit, those after the end too: there nobody holds the bus.
///
/// Errors: those of the observer, and out of memory.
// It is a part of its callers: as a call it has a sweep on the split bus execute 7 in 100 instructions more.
#[inline(always)]
pub fn drive_machine<P: Protocol, C: Choices, O: Observer>(
    machine: &mut Machine<'_, P>,
    observer: &mut O,
    choices: &mut C,
) -> Result<Progress, NoMemory>
    requires fresh { machine.old.failed ≡ false }
    requires cores { CoresExist (length machine.old.test.programs) (C.coming choices.old) }
    requires possible { IsPossibleOn machine.old.bus machine.old.test machine.old.depth machine.old.commits machine.old.state }
    requires watches { O.watches observer.old machine.old }
    ensures drives { IfOk result (λ p. Drives machine.old machine.new (C.coming choices.old) p.used p.stalled) }
    ensures left { IfOk result (λ p. p.used + length (C.coming choices.new) ≡ length (C.coming choices.old)) }
    ensures watches { OnOk result (O.watches observer.new machine.new) }
    ensures watched { OnOk result (Watched O.makes observer.old machine.old 1 (C.coming choices.old) observer.new machine.new) }
{
    attempts_lead_from_state_to_state();
    what_holds_so_far_on_either_bus();
    runs_on_either_bus_stop_where_they_end();
    stalls_on_either_bus_change_nothing();
    know_choices(choices);
    let mut used = 0;
    let mut stalled = 0;
    let mut ended = machine.is_ended();
    while !ended {
        let Some(choice) = choices.next() else {
            return Ok(Progress { used, stalled });
        };
        used += 1;
        let outcome = observer.choose(machine, used, choice)?;
        match outcome {
            // A stall changes nothing, so no test ends by one.
            Outcome::Stalled(_) => stalled += 1,
            Outcome::Committed | Outcome::Buffered | Outcome::Moved | Outcome::Asked => {
                ended = machine.is_ended();
            }
        }
    }
    Ok(Progress { used, stalled })
}

/// The choices are no more than a `usize` counts: so much is known of them from this call on, which has no effect.
fn know_choices<C: Choices>(choices: &C)
    ensures { length (C.coming choices.now) < 2 ^ 64 }
{
    let _left = choices.left();
}

/// The truth of the test's condition in this state, if it has one.
pub fn verdict_of(test: &Test, registers: &[[u32; 6]], memory: &[u32]) -> Option<bool>
    requires cores { length registers.now ≡ length test.now.programs }
    requires locations { length memory.now ≡ length test.now.locations }
    ensures { result ≡ verdict test.now registers.now memory.now }
{
    match test.cond() {
        None => None,
        Some(cond) => Some(cond_holds(cond, registers, memory)),
    }
}
