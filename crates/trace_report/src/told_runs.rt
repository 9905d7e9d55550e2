//! What a trace says of its run: its entries are the run's order, its changes lead from state to state, its accesses are
//! those that were counted, and each step tells what becomes of its core and of the other caches. Each law is the contract
//! of a function that does nothing: who calls it knows it.

ghost use Rattle.trace_report.specs.TraceLaws.{TracesTellTheirRuns, ChangesLeadFromStatesToStates, AccessesAreTold};
ghost use Rattle.trace_report.specs.TraceLaws.{ProtocolsKeepNoCopyInI};
ghost use Rattle.trace_report.specs.StepLaws.{StepsAreTold};

use tso_laws::atomic_runs_are_flat_runs;

/// The entries that the steps of a trace have committed, each load part of a locked instruction put directly before
/// its store part, are the run's order; the steps are as many as the choices that the run used, and those that
/// stalled as many as its stalls.
pub fn traces_tell_their_runs()
    ensures { TracesTellTheirRuns }
{
    atomic_runs_are_flat_runs();
}

/// The states of all lines before a choice, with the changes that its step tells laid in, are the states after it;
/// and no change is told that isn't one.
pub fn changes_lead_from_states_to_states()
    ensures { ChangesLeadFromStatesToStates }
{}

/// Core by core, the steps of a trace that tell a hit, a miss, an upgrade, a write-back or a load that the core's own
/// pending stores answered are as many as the run's statistics count, whether the test has ended or not; and once it
/// has ended, so are those that tell a flush. Write-backs are so for a test within the limits, lines of a word at
/// least, and a protocol that keeps no copy in I; each of the four is one.
pub fn accesses_are_told()
    ensures counts { AccessesAreTold }
    ensures protocols { ProtocolsKeepNoCopyInI }
{}

/// A step tells the register that its core moved a value to and the stores that are then pending; the word of a
/// stall is its reason; and the request and the line that it tells are those by which the other cores' copies change.
pub fn steps_are_told()
    ensures { StepsAreTold }
{}
