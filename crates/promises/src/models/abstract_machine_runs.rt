//! What the steps of the abstract machine of x86-TSO keep and what they leave free, field by field, and what its runs leave.
//! (x86-TSO, section 3.)

ghost use Rattle.std.specs.Prelude.{◌↔◌, ◌∷◌, ◌≡◌, ◌≤◌, ◌⊎◌, List, None, Option, Some, [], slice_get, ℕ};
ghost use Rattle.abstract_machine.specs.Ended.{EndsWith, IsReachedFreely, registers_of_threads};
ghost use Rattle.abstract_machine.specs.Machine.{HardwareThread, HasRead, HasWritten, Machine, NotLocked};
ghost use Rattle.abstract_machine.specs.OneStep.{CanGoOn, IsBlocked, KeepsBuffer, Unlocks};
ghost use Rattle.abstract_machine.specs.Steps.{StandsAt, ThreadStep};
ghost use Rattle.tso_laws.specs.Counting.{most_stores};
ghost use Rattle.tso_laws.specs.Reached.{IsReached};
ghost use Rattle.tso_terms.specs.FinalState.{final_registers, final_words};
ghost use Rattle.tso_terms.specs.Litmus.{IsTest, Litmus};
ghost use Rattle.tso_terms.specs.Thread.{fence};
ghost use Rattle.tso_terms.specs.declared.action.Action.TheVariants.{Lock, Move, Store};
ghost use Rattle.basic_laws.specs.Types.{Change, Operand, Update, Entry, Loc, Reg};

use abstract_machine::{
    blocked_threads_read_and_flush_nothing, bounded_buffers_lose_nothing,
    locked_instructions_begin_whatever_the_buffer_has, only_the_holder_unlocks,
    runs_of_the_abstract_machine_are_executions, stores_and_moves_are_made_at_any_time,
};

/// A step of a blocked thread gives nothing, or a fence; memory, the lock and what its buffer has stay as they were.
pub fn a_blocked_thread_changes_neither_memory_nor_the_lock()
    ensures given { (t : Litmus) (m : Machine) (p : ℕ) (h : HardwareThread) (es : List Entry) (o : Machine) → IsBlocked m p
        → ThreadStep t m p h es o → (es ≡ []) ⊎ (es ≡ fence p h.place ∷ []) }
    ensures memory { (t : Litmus) (m : Machine) (p : ℕ) (h : HardwareThread) (es : List Entry) (o : Machine) → IsBlocked m p
        → ThreadStep t m p h es o → o.memory ≡ m.memory }
    ensures buffer { (t : Litmus) (m : Machine) (p : ℕ) (h : HardwareThread) (es : List Entry) (o : Machine) → IsBlocked m p
        → ThreadStep t m p h es o → (after : HardwareThread) → slice_get o.threads p ≡ Some after → KeepsBuffer h.buffer after.buffer }
    ensures lock { (t : Litmus) (m : Machine) (p : ℕ) (h : HardwareThread) (es : List Entry) (o : Machine) → IsBlocked m p
        → ThreadStep t m p h es o → o.lock ≡ m.lock }
{
    blocked_threads_read_and_flush_nothing();
}

/// A lock that is held stays so, or its holder frees it with an empty buffer; a free one stays free, or the thread that makes the
/// step takes it.
pub fn a_held_lock_stays_until_its_holder_frees_it()
    ensures held { (t : Litmus) (m : Machine) (p : ℕ) (h : HardwareThread) (es : List Entry) (o : Machine) (q : ℕ)
        → ThreadStep t m p h es o → m.lock ≡ Some q → (o.lock ≡ Some q) ⊎ Unlocks m p h o }
    ensures free { (t : Litmus) (m : Machine) (p : ℕ) (h : HardwareThread) (es : List Entry) (o : Machine) → ThreadStep t m p h es o
        → m.lock ≡ None → (o.lock ≡ None) ⊎ (o.lock ≡ Some p) }
    ensures ends { (t : Litmus) (m : Machine) (p : ℕ) (h : HardwareThread) (es : List Entry) (o : Machine) (after : HardwareThread)
        → ThreadStep t m p h es o → h.progress ≡ HasWritten → slice_get o.threads p ≡ Some after → after.progress ≡ NotLocked
        → Unlocks m p h o }
{
    only_the_holder_unlocks();
}

/// Who unlocks held the lock, with an empty buffer, and nobody holds it then.
pub fn a_lock_is_freed_by_its_holder_with_an_empty_buffer()
    ensures holder { (m : Machine) (p : ℕ) (h : HardwareThread) (o : Machine) → Unlocks m p h o → m.lock ≡ Some p }
    ensures drained { (m : Machine) (p : ℕ) (h : HardwareThread) (o : Machine) → Unlocks m p h o → h.buffer ≡ [] }
    ensures free { (m : Machine) (p : ℕ) (h : HardwareThread) (o : Machine) → Unlocks m p h o → o.lock ≡ None }
{}

/// A run that ends the test leaves the memory and the registers of its order; and some run ends with an order exactly where one of
/// this project's machine does, at a depth that is enough for the programs, and so at 32.
pub fn a_run_leaves_the_final_state_of_its_order()
    ensures memory { (t : Litmus) (order : List Entry) (m : Machine) → IsTest t → EndsWith t order m
        → m.memory ≡ final_words t order }
    ensures registers { (t : Litmus) (order : List Entry) (m : Machine) → IsTest t → EndsWith t order m
        → registers_of_threads m ≡ final_registers t order }
    ensures deep_enough { (t : Litmus) (depth : ℕ) (order : List Entry) → IsTest t → most_stores t.programs ≤ depth
        → IsReached t depth order ↔ IsReachedFreely t order }
    ensures at_the_greatest { (t : Litmus) (order : List Entry) → IsTest t → IsReached t 32 order ↔ IsReachedFreely t order }
{
    runs_of_the_abstract_machine_are_executions();
    bounded_buffers_lose_nothing();
}

/// A store, the write of a locked instruction and a register move can be made at any time, and a locked instruction begins whatever
/// the buffer has.
pub fn a_thread_stores_at_any_time()
    ensures store { (t : Litmus) (m : Machine) (p : ℕ) (h : HardwareThread) (loc : Loc) (operand : Operand)
        → StandsAt t p h NotLocked (Store loc operand) → CanGoOn t m p h }
    ensures locked_write { (t : Litmus) (m : Machine) (p : ℕ) (h : HardwareThread) (loc : Loc) (reg : Option Reg) (update : Update) (v : ℕ)
        → StandsAt t p h (HasRead v) (Lock loc reg update) → CanGoOn t m p h }
    ensures register_move { (t : Litmus) (m : Machine) (p : ℕ) (h : HardwareThread) (change : Change)
        → StandsAt t p h NotLocked (Move change) → CanGoOn t m p h }
    ensures locked_instruction { (t : Litmus) (m : Machine) (p : ℕ) (h : HardwareThread) (loc : Loc) (reg : Option Reg) (update : Update)
        → StandsAt t p h NotLocked (Lock loc reg update) → m.lock ≡ None
        → (o : Machine) × ThreadStep t m p h [] o × (o.memory ≡ m.memory) × (o.lock ≡ Some p) }
{
    stores_and_moves_are_made_at_any_time();
    locked_instructions_begin_whatever_the_buffer_has();
}
