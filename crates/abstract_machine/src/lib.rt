//! The abstract machine of the x86-TSO paper, and that the orders of its runs are exactly the TSO
//! executions.
//!
//! Nothing here computes. Each public function has no code of its own, and its contract is a law on
//! the definitions. The machine is in `specs/`, rule by rule as the paper has it: write buffers
//! without a bound, a global lock, and threads that are blocked while another one holds it. It names
//! tests, threads and entries, but none of this project's axioms and none of its machines; only the
//! laws name both sides.
//!
//! Source: Sewell, Sarkar, Owens, Zappa Nardelli and Myreen, "x86-TSO: A Rigorous and Usable
//! Programmer's Model for x86 Multiprocessors", Communications of the ACM, 2010, section 3.
#![tactic(auto)]

ghost use Rattle.std.specs.Prelude.{ℕ, ◌≡◌, ◌≤◌, ◌↔◌, List};
ghost use Rattle.tso_terms.specs.Litmus.{Litmus, IsTest};
ghost use Rattle.tso_terms.specs.Axioms.{IsTsoExecution};
ghost use Rattle.tso_terms.specs.FinalState.{final_words, final_registers};
ghost use Rattle.tso_terms.specs.Examples.{sb, sb_order, n6, n6_order, added, separated_order};
ghost use Rattle.tso_terms.specs.declared.execution.Entry.{Entry};
ghost use Rattle.tso_laws.specs.Counting.{most_stores};
ghost use Rattle.tso_laws.specs.Reached.{IsReached};
ghost use Rattle.tso_laws.specs.WorkedRuns.{short_order, turned_order, wrong_order};
ghost use Rattle.abstract_machine.specs.Machine.{Machine};
ghost use Rattle.abstract_machine.specs.Ended.{registers_of_threads, EndsWith, IsReachedFreely};
ghost use Rattle.abstract_machine.specs.OneStep.{BlockedThreadsReadAndFlushNothing, OnlyTheHolderUnlocks};
ghost use Rattle.abstract_machine.specs.OneStep.{StoresAndMovesAreMadeAtAnyTime, LockedInstructionsBeginWhateverTheBufferHas};

use tso_laws::{
    choices_lead_from_state_to_state, ended_runs_are_executions, every_execution_is_reached,
    most_stores_are_depth_enough, runs_stop_where_they_end, worked_orders,
};

/// A run of the abstract machine that ends the test has the memory order of a TSO execution, and
/// leaves the final state of that order.
pub fn runs_of_the_abstract_machine_are_executions()
    ensures order { (t : Litmus) (order : List Entry) (m : Machine) → IsTest t → EndsWith t order m → IsTsoExecution t order }
    ensures memory { (t : Litmus) (order : List Entry) (m : Machine) → IsTest t → EndsWith t order m → m.memory ≡ final_words t order }
    ensures registers { (t : Litmus) (order : List Entry) (m : Machine) → IsTest t → EndsWith t order m
        → registers_of_threads m ≡ final_registers t order }
{
    choices_lead_from_state_to_state();
    runs_stop_where_they_end();
    ended_runs_are_executions();
}

/// Each TSO execution is the memory order of a run of the abstract machine that ends the test.
pub fn executions_are_runs_of_the_abstract_machine()
    ensures { (t : Litmus) (order : List Entry) → IsTest t → IsTsoExecution t order → IsReachedFreely t order }
{
    every_execution_is_reached();
}

/// No program of a test has more than 32 plain stores: the greatest depth holds them all.
pub fn most_stores_are_at_most_32()
    ensures { (t : Litmus) → IsTest t → most_stores t.programs ≤ 32 }
{}

/// Bounded buffers lose nothing: at each depth that is at least the greatest number of plain stores
/// of a program, the runs of this project's machine end with exactly the orders with which those of
/// the abstract machine do; and so at depth 32. By the two laws on executions these are the TSO
/// executions of the test.
pub fn bounded_buffers_lose_nothing()
    ensures deep_enough { (t : Litmus) (depth : ℕ) (order : List Entry) → IsTest t → most_stores t.programs ≤ depth
        → IsReached t depth order ↔ IsReachedFreely t order }
    ensures at_the_greatest { (t : Litmus) (order : List Entry) → IsTest t → IsReached t 32 order ↔ IsReachedFreely t order }
{
    most_stores_are_at_most_32();
    ended_runs_are_executions();
    every_execution_is_reached();
    most_stores_are_depth_enough();
    executions_are_runs_of_the_abstract_machine();
    runs_of_the_abstract_machine_are_executions();
}

/// Worked runs, held against the worked orders: store buffering with both loads reading 0, and a core
/// that reads its own store before memory has it, are reached; the orders that are each spoiled for
/// one part of what makes an execution are not.
pub fn worked_runs_of_the_abstract_machine()
    ensures sb_is_reached { IsReachedFreely sb sb_order }
    ensures n6_is_reached { IsReachedFreely n6 n6_order }
    ensures short_is_not_reached { IsReachedFreely sb short_order → ⊥ }
    ensures turned_is_not_reached { IsReachedFreely n6 turned_order → ⊥ }
    ensures separated_is_not_reached { IsReachedFreely added separated_order → ⊥ }
    ensures wrong_is_not_reached { IsReachedFreely sb wrong_order → ⊥ }
{
    worked_orders();
    executions_are_runs_of_the_abstract_machine();
    runs_of_the_abstract_machine_are_executions();
}

/// In any machine, whether a run leads to it or not, a thread that is blocked reads nothing, from memory
/// or from its own buffer, and flushes nothing.
pub fn blocked_threads_read_and_flush_nothing()
    ensures { BlockedThreadsReadAndFlushNothing }
{}

/// In any machine a lock that is held stays with its holder until this very thread frees it, which it does
/// with an empty buffer; a free one is taken by the thread that makes the step; and a locked instruction
/// that has written ends in no other way than by unlocking.
pub fn only_the_holder_unlocks()
    ensures { OnlyTheHolderUnlocks }
{}

/// In any machine a store, the write of a locked instruction and a register move can be made at any time,
/// also by a thread that is blocked, whatever its buffer has.
pub fn stores_and_moves_are_made_at_any_time()
    ensures { StoresAndMovesAreMadeAtAnyTime }
{}

/// In any machine whose lock nobody holds a locked instruction can begin, whatever the buffer has.
pub fn locked_instructions_begin_whatever_the_buffer_has()
    ensures { LockedInstructionsBeginWhateverTheBufferHas }
{}
