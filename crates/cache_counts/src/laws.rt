//! Laws of what is counted: each is the contract of a function that does nothing, so who calls it knows it.

ghost use Rattle.cache_counts.specs.AddingUp.{CountsAddUp, SumsOfPlansAddUp};
ghost use Rattle.cache_counts.specs.Laws.{CountsTellTheirRuns};

use tso_laws::{
    atomic_runs_are_flat_runs, attempts_lead_from_state_to_state, what_holds_so_far_on_either_bus,
};

/// What is counted of the runs of a plan, and of one run, tells each of them: as many ended as are said to have ended; each sum,
/// each least and each greatest is that of the runs that ended; and each run that ended gives twelve numbers for each core.
pub fn counts_tell_their_runs()
    ensures { CountsTellTheirRuns }
{}

/// What is counted of a run that ended adds up, for each core: its hits, misses and upgrades are its accesses; each miss and each
/// upgrade is one request; and the line of each miss is supplied once.
pub fn counts_add_up()
    ensures { CountsAddUp }
{
    attempts_lead_from_state_to_state();
    what_holds_so_far_on_either_bus();
    atomic_runs_are_flat_runs();
}

/// So do the sums over the runs of a plan that ended.
pub fn sums_over_runs_add_up()
    ensures { SumsOfPlansAddUp }
{
    counts_add_up();
}
