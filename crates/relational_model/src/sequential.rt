//! Sequential consistency as a relational model: it allows exactly the candidates of the orders that keep all of program
//! order, and those of the runs of a machine without store buffers.

ghost use Rattle.std.specs.Prelude.{ℕ, List, length};
ghost use Rattle.tso_terms.specs.Litmus.{Litmus, IsTest};
ghost use Rattle.tso_terms.specs.Runs.{run, CoresExist};
ghost use Rattle.tso_terms.specs.Examples.{sb, n6};
ghost use Rattle.basic_laws.specs.Types.{Entry, Choice};
ghost use Rattle.tso_laws.specs.EndedRuns.{End};
ghost use Rattle.tso_laws.specs.Outcomes.{IsSequentiallyConsistent};
ghost use Rattle.relational_model.specs.Candidates.{Candidate};
ghost use Rattle.relational_model.specs.Model.{IsAllowed};
ghost use Rattle.relational_model.specs.SequentialModel.{IsSequential};
ghost use Rattle.relational_model.specs.CandidatesOfOrders.{IsCandidateOf, IsOfASequentialExecution};
ghost use Rattle.relational_model.specs.CandidatesOfRuns.{IsCandidateOfRun};
ghost use Rattle.relational_model.specs.WorkedCandidates.{sb_candidate, n6_candidate};

use tso_laws::{
    ended_runs_are_executions, no_buffer_no_reordering,
    unbuffered_runs_reach_exactly_the_sequentially_consistent, whole_orders_have_each_entry_once,
};

/// The candidates that sequential consistency allows are exactly those of the sequentially consistent
/// orders, and leave the same memory and registers. x86-TSO allows each of them.
pub fn sequential_candidates_are_sequential_executions()
    ensures sequential { (t : Litmus) (order : List Entry) (c : Candidate)
        → IsSequentiallyConsistent t order → IsCandidateOf t order c → IsSequential t c }
    ensures executions { (t : Litmus) (c : Candidate) → IsSequential t c → IsOfASequentialExecution t c }
    ensures allowed { (t : Litmus) (c : Candidate) → IsSequential t c → IsAllowed t c }
{
    whole_orders_have_each_entry_once();
}

/// Each run at depth 0 that ends a test has a candidate that sequential consistency allows, and leaves
/// its memory and registers; and each candidate that it allows is that of such a run, under choices of
/// the test's own cores.
pub fn unbuffered_runs_have_exactly_the_sequential_candidates()
    ensures sequential { (t : Litmus) (choices : List Choice) → IsTest t → End t 0 choices
        → (c : Candidate) × IsSequential t c × IsCandidateOfRun t (run t 0 choices) c }
    ensures reached { (t : Litmus) (c : Candidate) → IsTest t → IsSequential t c
        → (choices : List Choice) × CoresExist (length t.programs) choices × End t 0 choices × IsCandidateOfRun t (run t 0 choices) c }
{
    whole_orders_have_each_entry_once();
    ended_runs_are_executions();
    no_buffer_no_reordering();
    unbuffered_runs_reach_exactly_the_sequentially_consistent();
}

/// Store buffering with both loads reading 0, and a core that reads its own store before memory has it:
/// x86-TSO allows both, and sequential consistency neither.
pub fn worked_candidates_of_store_buffers()
    ensures sb_is_not_sequential { IsSequential sb sb_candidate → ⊥ }
    ensures n6_is_not_sequential { IsSequential n6 n6_candidate → ⊥ }
{}
