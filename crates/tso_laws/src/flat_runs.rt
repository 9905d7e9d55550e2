//! The laws of the flat machine: its ended runs are TSO executions, and each TSO execution is such a run where the store
//! buffers are deep enough. A law that is too long for its clause is in `specs/`, under the name of its function.
//! (Primer, chapter 4; x86-TSO, section 3.)

ghost use Rattle.std.specs.Prelude.{ℕ, max, ◌≤◌, ◌≡◌, List, [], ◌∷◌};
ghost use Rattle.tso_terms.specs.Limits.{most_depth};
ghost use Rattle.tso_terms.specs.Litmus.{Litmus, IsTest};
ghost use Rattle.tso_laws.specs.WellFormed.{IsWellFormed};
ghost use Rattle.tso_terms.specs.ProgramEntries.{made};
ghost use Rattle.tso_terms.specs.Axioms.{IsTsoExecution};
ghost use Rattle.tso_terms.specs.Standing.{StandsIn};
ghost use Rattle.tso_terms.specs.SequentialConsistency.{KeepsAllOrder};
ghost use Rattle.tso_terms.specs.Runs.{run};
ghost use Rattle.basic_laws.specs.Types.{Entry, Choice};
ghost use Rattle.tso_laws.specs.Entries.{FitsTest};
ghost use Rattle.tso_laws.specs.EndedRuns.{End, IsExecution};
ghost use Rattle.tso_laws.specs.Counting.{most_stores};
ghost use Rattle.tso_laws.specs.Depth.{needed};
ghost use Rattle.tso_laws.specs.inner.Depth.{asked};
ghost use Rattle.tso_laws.specs.Laws.{WhatHoldsSoFar};
ghost use Rattle.tso_laws.specs.inner.Laws.{ChoicesLeadFromStateToState, WholeOrdersHaveEachEntryOnce};
ghost use Rattle.tso_laws.specs.Laws.{RunsAreCounted, FairRoundsEnd, ValuesAreWords};
ghost use Rattle.tso_laws.specs.inner.Laws.{RunsStopWhereTheyEnd, StallsChangeNothing};
ghost use Rattle.tso_laws.specs.Laws.{EveryExecutionIsReached, SmallerDepthsNeverReach, RunsReachExactlyTheExecutions};

/// The states that choices can lead to, with what was committed on the way: the first state is one,
/// each choice leads from one to one, and each run leads to one.
pub fn choices_lead_from_state_to_state()
    ensures { ChoicesLeadFromStateToState }
{}

/// What holds in each state that choices lead to, whether the test has ended or not: the commits
/// meet the axioms as far as they go, each core's pending list is its issued and uncommitted plain
/// stores in program order, memory has the last write to each location, and the registers are the
/// threads' so far.
pub fn what_holds_so_far()
    ensures { WhatHoldsSoFar }
{}

/// Each entry that the programs make, whatever values their reads are given, has a core, a place
/// and a location of the test; a fence has location 0 and value 0.
pub fn made_entries_fit_the_test()
    ensures { (t : Litmus) (order : List Entry) (e : Entry) → IsWellFormed t → StandsIn (made t order) e → FitsTest t e }
{}

/// Where an order is whole, each of its entries is made by the programs and is in it once; its
/// core, its place and, but for a fence, its location are of the test.
pub fn whole_orders_have_each_entry_once()
    ensures { WholeOrdersHaveEachEntryOnce }
{}

/// What an ended run commits is a TSO execution of the test, and its memory and registers are the
/// final state of that order.
pub fn ended_runs_are_executions()
    ensures { (t : Litmus) (depth : ℕ) (choices : List Choice) → IsWellFormed t → End t depth choices → IsExecution t (run t depth choices) }
{}

/// A run uses its choices up to the first moment at which the test has ended, and counts the
/// others as unused; after that moment no choice commits or changes anything.
pub fn runs_stop_where_they_end()
    ensures { RunsStopWhereTheyEnd }
{}

/// A choice that stalls changes nothing, and commits nothing.
pub fn stalls_change_nothing()
    ensures { StallsChangeNothing }
{}

/// In an ended run the choices that didn't stall are as many as all instructions and, with store
/// buffers, all plain stores together: each instruction took effect once, and each plain store was
/// drained once.
pub fn runs_are_counted()
    ensures { RunsAreCounted }
{}

/// A list that can be cut into twice as many rounds as the longest program has instructions, and a
/// rest, ends the test.
pub fn fair_rounds_end()
    ensures { FairRoundsEnd }
{}

/// At depth 0, where no store is ever pending, the order of a run keeps every two entries of program
/// order, without exception: sequential consistency.
pub fn no_buffer_no_reordering()
    ensures { (t : Litmus) (choices : List Choice) → IsWellFormed t → KeepsAllOrder (run t 0 choices).commits }
{}

/// The choices made along a TSO execution end the test with that very order, where the depth is
/// enough; none stalls and none is left over.
pub fn every_execution_is_reached()
    ensures { EveryExecutionIsReached }
{}

/// What a run commits needs no more than the run's depth; so at a smaller depth no list of choices
/// commits an order that needs more.
pub fn smaller_depths_never_reach()
    ensures { SmallerDepthsNeverReach }
{}

/// The depth that an order needs is the most that one of its entries asks of it: a load asks for the
/// stores that it passes, a plain store for 1.
pub fn needed_is_the_most_that_is_asked()
    ensures none { needed [] ≡ 0 }
    ensures first { (x : Entry) (back : List Entry) → needed (x ∷ back) ≡ max (asked x back) (needed back) }
{}

/// A TSO execution needs no more depth than the most plain stores of one program, and so never more
/// than the greatest depth of a store buffer.
pub fn most_stores_are_depth_enough()
    ensures of_a_program { (t : Litmus) (order : List Entry) → IsTsoExecution t order → needed order ≤ most_stores t.programs }
    ensures greatest { (t : Litmus) (order : List Entry) → IsTest t → IsTsoExecution t order → needed order ≤ most_depth }
{}

/// The orders that runs end with, at a depth of 1 or more, are exactly the TSO executions that need
/// no more; at the greatest depth they are exactly the TSO executions.
pub fn runs_reach_exactly_the_executions()
    ensures { RunsReachExactlyTheExecutions }
{}

/// Every value is a word, and each core has its six registers: in what a run commits and leaves,
/// whether the test has ended or not, and so in each TSO execution.
pub fn values_are_words()
    ensures { ValuesAreWords }
{
    every_execution_is_reached();
}
