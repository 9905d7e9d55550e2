//! The relational model of x86-TSO, and that it allows exactly the TSO executions; and that of sequential
//! consistency, with the same law.
//!
//! Nothing here computes. Each public function has no code of its own, and its contract is a law on
//! the definitions. The model is in `specs/`: candidates, their relations, and the three
//! conditions of herd's `x86tso.cat` (uniproc, atomicity, global happens-before). It names tests,
//! threads and entries, but no order, no machine and none of this project's axioms; only the laws
//! name both sides.
//!
//! Sources: Alglave, Maranget and Tautschnig, "Herding Cats" (2014), for candidates and relations;
//! herd's `x86tso.cat` for the conditions.
#![tactic(auto)]

ghost use Rattle.std.specs.Prelude.{ℕ, ◌≢◌, List, length};
ghost use Rattle.tso_terms.specs.Limits.{most_depth};
ghost use Rattle.tso_terms.specs.Litmus.{Litmus, IsTest};
ghost use Rattle.tso_terms.specs.Axioms.{IsTsoExecution};
ghost use Rattle.tso_terms.specs.FinalState.{final_registers};
ghost use Rattle.tso_terms.specs.Runs.{run, CoresExist};
ghost use Rattle.tso_terms.specs.Examples.{sb, sb_order, n6, n6_order};
ghost use Rattle.basic_laws.specs.Types.{Entry, Choice};
ghost use Rattle.tso_laws.specs.EndedRuns.{End};
ghost use Rattle.relational_model.specs.Candidates.{Candidate};
ghost use Rattle.relational_model.specs.Model.{IsAllowed, IsForbidden, IsForbiddenByUniproc};
ghost use Rattle.relational_model.specs.CandidatesOfOrders.{IsCandidateOf, LeaveTheSame, IsOfAnExecution};
ghost use Rattle.relational_model.specs.CandidatesOfRuns.{IsCandidateOfRun};
ghost use Rattle.relational_model.specs.WorkedCandidates.{sb_candidate, n6_candidate, fenced, fenced_candidate};
ghost use Rattle.relational_model.specs.WorkedCandidates.{exchanged, exchanged_candidate, passing, passing_candidate};
ghost use Rattle.relational_model.specs.WorkedCandidates.{buffering, buffering_candidate, between, between_candidate};
ghost use Rattle.relational_model.specs.WorkedCandidates.{independent, independent_candidate, opposite_registers};
ghost use Rattle.relational_model.specs.WorkedCandidates.{unseen, unseen_candidate};

pub mod sequential;

pub use sequential::{
    sequential_candidates_are_sequential_executions,
    unbuffered_runs_have_exactly_the_sequential_candidates, worked_candidates_of_store_buffers,
};
use tso_laws::{
    ended_runs_are_executions, runs_reach_exactly_the_executions,
    whole_orders_have_each_entry_once, worked_orders,
};

/// Each TSO execution has a candidate.
pub fn executions_have_candidates()
    ensures { (t : Litmus) (order : List Entry) → IsTsoExecution t order → (c : Candidate) × IsCandidateOf t order c }
{
    whole_orders_have_each_entry_once();
}

/// The candidate of a TSO execution is allowed by the relational model, and leaves the same memory
/// and registers.
pub fn candidates_of_executions_are_allowed()
    ensures allowed { (t : Litmus) (order : List Entry) (c : Candidate)
        → IsTsoExecution t order → IsCandidateOf t order c → IsAllowed t c }
    ensures same_state { (t : Litmus) (order : List Entry) (c : Candidate)
        → IsTsoExecution t order → IsCandidateOf t order c → LeaveTheSame t order c }
{
    whole_orders_have_each_entry_once();
}

/// Each candidate that the relational model allows is the candidate of a TSO execution, which
/// leaves the same memory and registers.
pub fn allowed_candidates_are_executions()
    ensures { (t : Litmus) (c : Candidate) → IsAllowed t c → IsOfAnExecution t c }
{}

/// Each run that ends a test has a candidate that the relational model allows, and leaves its memory
/// and registers; and each candidate that it allows is that of such a run at the greatest depth, under
/// choices of the test's own cores.
pub fn runs_have_exactly_the_allowed_candidates()
    ensures allowed { (t : Litmus) (depth : ℕ) (choices : List Choice) → IsTest t → End t depth choices
        → (c : Candidate) × IsAllowed t c × IsCandidateOfRun t (run t depth choices) c }
    ensures reached { (t : Litmus) (c : Candidate) → IsTest t → IsAllowed t c
        → (choices : List Choice) × CoresExist (length t.programs) choices × End t most_depth choices
        × IsCandidateOfRun t (run t most_depth choices) c }
{
    whole_orders_have_each_entry_once();
    ended_runs_are_executions();
    runs_reach_exactly_the_executions();
}

/// Worked candidates: store buffering with both loads reading 0 is allowed, and so is a core that
/// reads its own store before memory has it; with fences, with XCHG in place of the stores, and in
/// message passing, load buffering and the independent reads of independent writes, the outcome that
/// is asked for isn't; nor is a write between the two parts of a locked instruction; and that a load
/// doesn't see the earlier store of its own core is forbidden by uniproc alone. No TSO execution leaves
/// the registers that tell of independent reads that see the two writes in opposite orders.
pub fn worked_candidates()
    ensures sb_is_of_its_order { IsCandidateOf sb sb_order sb_candidate }
    ensures sb_is_allowed { IsAllowed sb sb_candidate }
    ensures n6_is_of_its_order { IsCandidateOf n6 n6_order n6_candidate }
    ensures n6_is_allowed { IsAllowed n6 n6_candidate }
    ensures fenced_is_forbidden { IsForbidden fenced fenced_candidate }
    ensures exchanged_is_forbidden { IsForbidden exchanged exchanged_candidate }
    ensures passing_is_forbidden { IsForbidden passing passing_candidate }
    ensures buffering_is_forbidden { IsForbidden buffering buffering_candidate }
    ensures independent_is_forbidden { IsForbidden independent independent_candidate }
    ensures between_is_forbidden { IsForbidden between between_candidate }
    ensures unseen_is_forbidden { IsForbidden unseen unseen_candidate }
    ensures unseen_is_forbidden_by_uniproc { IsForbiddenByUniproc unseen unseen_candidate }
    ensures independent_is_no_execution { (order : List Entry)
        → IsTsoExecution independent order → final_registers independent order ≢ opposite_registers }
{
    whole_orders_have_each_entry_once();
    worked_orders();
}

/// Each worked candidate is one of a test within the limits.
pub fn worked_tests_are_tests()
    ensures sb { IsTest sb }
    ensures n6 { IsTest n6 }
    ensures fenced { IsTest fenced }
    ensures exchanged { IsTest exchanged }
    ensures passing { IsTest passing }
    ensures buffering { IsTest buffering }
    ensures independent { IsTest independent }
    ensures between { IsTest between }
    ensures unseen { IsTest unseen }
{}
