//! The laws of the final states of a test: the ends of the machine's runs are what TSO allows, and without store buffers
//! what sequential consistency allows. (Primer, chapters 3 and 4.)

ghost use Rattle.tso_laws.specs.Outcomes.{ChoicesToAnEndAreCounted, EndsAreWhatTsoAllows};
ghost use Rattle.tso_laws.specs.Outcomes.{UnbufferedRunsReachExactlyTheSequentiallyConsistent};

use crate::{
    ended_runs_are_executions, no_buffer_no_reordering, runs_are_counted,
    runs_reach_exactly_the_executions, runs_stop_where_they_end, stalls_change_nothing,
};

/// The orders that runs without store buffers end with are exactly the TSO executions that keep all
/// of program order: those of sequential consistency.
pub fn unbuffered_runs_reach_exactly_the_sequentially_consistent()
    ensures { UnbufferedRunsReachExactlyTheSequentiallyConsistent }
{
    stalls_change_nothing();
    runs_stop_where_they_end();
    runs_reach_exactly_the_executions();
    ended_runs_are_executions();
    no_buffer_no_reordering();
}

/// The final states of the runs that end are those of the TSO executions: at a depth of 1 or more of
/// those that need no more, at the greatest depth of all, and at depth 0, without store buffers, of
/// those that keep all of program order.
pub fn ends_are_what_tso_allows()
    ensures { EndsAreWhatTsoAllows }
{
    runs_reach_exactly_the_executions();
    unbuffered_runs_reach_exactly_the_sequentially_consistent();
    ended_runs_are_executions();
}

/// All choices that lead to an end of a test, with none that stalls and none left over, are as many:
/// one for each instruction and, with store buffers, one more for each plain store.
pub fn choices_to_an_end_are_counted()
    ensures { ChoicesToAnEndAreCounted }
{
    runs_are_counted();
    runs_stop_where_they_end();
}
