//! What is printed of runs and sweeps tells what it shows: no form of an answer loses a part of it, and none prints two things alike.
//! So it is of final states (`outcomes`), of the steps of a trace (`traces`), and of those of a refutation
//! (`reasons`). What the laws say is in `specs/`: of what may be shown and counted, of the runs of a machine, of what is
//! observed of final states, and of the tree that is read back from a refutation's steps.
ghost use Rattle.std.specs.Prelude.{true, false};
ghost use Rattle.printed_laws.specs.OfRuns.{PrintedRunsAreTold};
ghost use Rattle.printed_laws.specs.Telling.{ReportsTellTheirMachines, ReportsTellTheirRuns};
ghost use Rattle.printed_laws.specs.Telling.{SweepsTellTheirCounts, SweepsTellTheirMachines, UnfinishedRunsAreTold};

use order_builder::order_texts::{order_is_spelled_once, printed_order_is_spelled};
use tso_cli::answers::runs_fit_their_tests;
use tso_report::report_texts::{report_spells_its_order, reports_are_short};

/// The report of a run that ended tells its order, its registers and memory, the condition's verdict, the counts of choices
/// and those of each core's cache, and so does the JSON object of such a run.
pub fn reports_tell_their_runs()
    ensures lines { ReportsTellTheirRuns false }
    ensures json { ReportsTellTheirRuns true }
{
    order_is_spelled_once();
    printed_order_is_spelled();
    report_spells_its_order();
    reports_are_short();
}

/// The report of a run that ended tells the test's name, the protocol and the configuration, and so does the JSON object of
/// such a run.
pub fn reports_tell_their_machines()
    ensures lines { ReportsTellTheirMachines false }
    ensures json { ReportsTellTheirMachines true }
{}

/// The line of a run that didn't end tells how many choices it used and how many of them stalled, and so does the JSON
/// object of such a run.
pub fn unfinished_runs_are_told()
    ensures line { UnfinishedRunsAreTold false }
    ensures json { UnfinishedRunsAreTold true }
{}

/// The lines of a sweep tell the states that its runs ended in and how often each, how many runs made the condition's
/// proposition true and how many false, and how many didn't end.
pub fn sweeps_tell_their_counts()
    ensures { SweepsTellTheirCounts }
{}

/// The lines of a sweep tell the test's name, the protocol and the configuration, and the plan: the first seed, how many seeds
/// there are, and how many choices each makes.
pub fn sweeps_tell_their_machines()
    ensures { SweepsTellTheirMachines }
{}

/// What `run` prints tells the run: where the same is printed of a test's runs under two lists of choices, plain or as JSON,
/// both ended and the same is shown of them, or neither ended and both came as far.
pub fn printed_runs_are_told()
    ensures { PrintedRunsAreTold }
{
    reports_tell_their_runs();
    unfinished_runs_are_told();
    runs_fit_their_tests();
}
