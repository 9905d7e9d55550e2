//! Threads that branch, as trees, and that their executions are those of the straight-line tests of
//! their paths.
//!
//! Nothing here computes. Each public function has no code of its own, and its contract is a law on
//! the definitions. A tree says what a thread does to memory, with one way on for each value that a
//! read may return, whatever its instructions are. So what is proved here holds of any instruction
//! set whose threads can be written as such trees.
//!
//! Sources: interaction trees (Xia and others, 2020) for the form; the Primer, chapter "Total Store
//! Order", for the axioms; the x86-TSO paper for the machine. Rounds of values, and how a final
//! state shows a path, are this project's.
#![tactic(auto)]

ghost use Rattle.branch_laws.specs.Additions.{AdditionsShareATest};
ghost use Rattle.branch_laws.specs.Bounds.{BoundedOutcomesAreOutcomes, CutOffPathsShow};
ghost use Rattle.branch_laws.specs.SamePaths.{SamePathsLeaveTheSame};
ghost use Rattle.branch_laws.specs.Laws.{SplittingIsExact, TreeRunsReachExactlyTheExecutions, TreeEndsAreTheOutcomes};
ghost use Rattle.branch_laws.specs.Laws.{ReadValuesAreOfRounds, OutcomesAreTheUnionOfPaths, FinalStatesShowThePath, NotesAddNothing};

pub mod worked;

use tso_laws::{
    ended_runs_are_executions, most_stores_are_depth_enough, runs_reach_exactly_the_executions,
    runs_stop_where_they_end, whole_orders_have_each_entry_once,
};
pub use worked::{branch_premises_are_met, worked_branches};

/// An order is an execution of a branching test exactly where it is one of the straight-line test of
/// the paths that its own read values choose.
pub fn splitting_is_exact()
    ensures { SplittingIsExact }
{}

/// The orders and outputs that runs of the machine over trees end with are exactly the executions of
/// the branching test that need no more depth.
pub fn tree_runs_reach_exactly_the_executions()
    ensures { TreeRunsReachExactlyTheExecutions }
{
    runs_stop_where_they_end();
    runs_reach_exactly_the_executions();
}

/// The outputs and the memory that runs of the machine over trees end with, at the greatest depth,
/// are exactly those that the axioms allow.
pub fn tree_ends_are_the_outcomes()
    ensures { TreeEndsAreTheOutcomes }
{
    runs_stop_where_they_end();
    whole_orders_have_each_entry_once();
    runs_reach_exactly_the_executions();
    ended_runs_are_executions();
    most_stores_are_depth_enough();
}

/// An execution needs at most as many rounds of values as it has writes, and a round that adds
/// nothing is the last that adds any.
pub fn read_values_are_of_rounds()
    ensures { ReadValuesAreOfRounds }
{
    whole_orders_have_each_entry_once();
}

/// What the axioms allow a branching test to leave is the union, over finitely many paths, of what
/// their straight-line tests leave with these read values.
pub fn outcomes_are_the_union_of_paths()
    ensures { OutcomesAreTheUnionOfPaths }
{
    whole_orders_have_each_entry_once();
}

/// A locked addition has the executions of its update, and its straight-line program doesn't depend on
/// the word that it reads.
pub fn additions_share_a_test()
    ensures { AdditionsShareATest }
{}

/// With a bound on loops each outcome is an outcome of the whole test; where no execution takes a path
/// that is cut off, these are all.
pub fn bounded_outcomes_are_outcomes()
    ensures { BoundedOutcomesAreOutcomes }
{}

/// Whether an execution takes a path that a bound cuts off shows in the bounded test itself: where no
/// outcome has a core that was cut off, none does.
pub fn cut_off_paths_show()
    ensures { CutOffPathsShow }
{
    runs_stop_where_they_end();
    whole_orders_have_each_entry_once();
    runs_reach_exactly_the_executions();
    most_stores_are_depth_enough();
    tree_ends_are_the_outcomes();
}

/// A read whose value the rest of the path doesn't need, and a store to a location that no thread reads,
/// add nothing and take nothing away.
pub fn same_paths_leave_the_same()
    ensures { SamePathsLeaveTheSame }
{
    runs_stop_where_they_end();
    whole_orders_have_each_entry_once();
    runs_reach_exactly_the_executions();
    ended_runs_are_executions();
    most_stores_are_depth_enough();
}

/// The final states of one straight-line test show what its paths read: in registers, and in locations of
/// the cores' own where registers don't do. They are what these paths leave, with the notes.
pub fn final_states_show_the_path()
    ensures { FinalStatesShowThePath }
{
    whole_orders_have_each_entry_once();
}

/// A store of what a core read, into a location of its own, adds nothing.
pub fn notes_add_nothing()
    ensures { NotesAddNothing }
{
    same_paths_leave_the_same();
}
