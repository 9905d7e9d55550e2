//! What `trace` prints tells what each choice did, line by line and as JSON.

ghost use Rattle.std.specs.Prelude.{true, false};
ghost use Rattle.printed_laws.specs.Traces.{TracesTellTheirSteps, ObjectsTellTheirSteps, TraceValuesTellTheirSteps};
ghost use Rattle.printed_laws.specs.TracedMachines.{MachinesAreTold};
ghost use Rattle.printed_laws.specs.Traces.{TracedStepsFit, PrintedTracesAreTold, PrintedTracesNameTheSame};

use crate::{printed_runs_are_told, reports_tell_their_machines};
use tso_cli::answers::runs_fit_their_tests;

/// The lines of a trace tell its steps, the object of a step tells the step and where the word was found that it read, and the
/// JSON value of a trace its steps: the choice and its outcome, with the reason of a stall; the entries; the register and its
/// value; whether the core's own stores answered; the access, the request and its line; whose copy went to memory; the line
/// that was written back; and each line whose state changed, with both states. A line also tells the location and the value of
/// each store that is pending, where that changed; an object tells the value of the machine after the step.
pub fn traces_tell_their_steps()
    ensures lines { TracesTellTheirSteps }
    ensures object { ObjectsTellTheirSteps }
    ensures json { TraceValuesTellTheirSteps }
{}

/// The JSON value of a machine, as it is in a trace before the first choice and after each step, tells who holds the bus, with
/// its line and what that is in; of each core its place, its registers, the location and the value of each pending store, and the
/// copies in its cache, set by set, with their states; memory's own words; and those that a program sees.
pub fn values_of_machines_tell_them()
    ensures { MachinesAreTold }
{}

/// Each step that `trace` tells of a run fits the run's test: it names lines and locations of the test, and its numbers are those
/// of cores, places and words.
pub fn traced_steps_fit_their_test()
    ensures { TracedStepsFit }
{}

/// Where `trace` prints the same of a test's runs under two lists of choices, plain or as JSON, both runs took the same steps, and
/// left the same.
pub fn printed_traces_are_told()
    ensures lines { PrintedTracesAreTold false }
    ensures json { PrintedTracesAreTold true }
{
    printed_runs_are_told();
    runs_fit_their_tests();
}

/// What `trace` prints tells the test's name, the protocol and the configuration; as JSON it does so of runs that ended.
pub fn printed_traces_tell_their_machines()
    ensures lines { PrintedTracesNameTheSame false }
    ensures json { PrintedTracesNameTheSame true }
{
    reports_tell_their_machines();
    runs_fit_their_tests();
}
