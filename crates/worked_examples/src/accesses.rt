//! The access that each choice makes, and which accesses need the bus: a forwarded load makes none, a hit needs none.

ghost use Rattle.std.specs.Prelude.{◌≡◌, true, false, [], ◌∷◌};
ghost use Rattle.tso_terms.specs.MemoryAccess.{NoAccess, Reads, Writes, Locks};
ghost use Rattle.tso_terms.specs.SplitMachine.{needs_bus};
ghost use Rattle.tso_terms.specs.declared.register.Reg.TheVariants.{Ebx};
ghost use Rattle.tso_terms.specs.declared.instruction.Instr.TheVariants as instr;
ghost use Rattle.worked_examples.specs.Written.{loc_x, loc_y, step, drain};
ghost use Rattle.worked_examples.specs.SmallPrograms.{three_stores, moves};
ghost use Rattle.worked_examples.specs.inner.SmallPrograms.{access_after, load_of_own, load_of_other, drained};
ghost use Rattle.worked_examples.specs.SmallPrograms.{store_and, stored};

/// The access of one choice after others.
pub fn worked_accesses()
    // A plain store makes none where it becomes pending, and writes where there is no buffer; a drain writes the oldest.
    ensures store_makes_none { access_after three_stores 2 [] (step 0) ≡ NoAccess }
    ensures unbuffered_store_writes { access_after three_stores 0 (step 0 ∷ step 0 ∷ []) (step 0) ≡ Writes loc_y }
    ensures drain_writes_the_oldest { access_after three_stores 3 (step 0 ∷ step 0 ∷ step 0 ∷ []) (drain 0) ≡ Writes loc_x }
    ensures empty_drain_makes_none { access_after three_stores 3 [] (drain 0) ≡ NoAccess }

    // A load reads, unless an own pending store answers it.
    ensures load_reads { access_after load_of_other 2 (step 0 ∷ step 0 ∷ []) (step 0) ≡ Reads loc_y }
    ensures forwarded_load_makes_none { access_after load_of_own 2 (step 0 ∷ step 0 ∷ []) (step 0) ≡ NoAccess }

    // A locked instruction, once nothing is pending.
    ensures exchange_locks { access_after (store_and (instr.Xchg loc_y Ebx)) 2 drained (step 0) ≡ Locks loc_y }
    ensures addition_locks { access_after (store_and (instr.Xadd loc_y Ebx)) 2 drained (step 0) ≡ Locks loc_y }
    ensures waiting_exchange_makes_none { access_after (store_and (instr.Xchg loc_y Ebx)) 2 stored (step 0) ≡ NoAccess }

    // A register move, a fence, and a step at the program's end.
    ensures move_makes_none { access_after moves 2 [] (step 0) ≡ NoAccess }
    ensures fence_makes_none { access_after (store_and instr.Fence) 2 drained (step 0) ≡ NoAccess }
    ensures end_makes_none { access_after moves 2 (step 0 ∷ step 0 ∷ []) (step 0) ≡ NoAccess }
{}

/// Which accesses need the bus, where they miss and where they hit.
pub fn worked_needs()
    ensures no_access { needs_bus NoAccess false ≡ false }
    ensures read_that_misses { needs_bus (Reads loc_x) false ≡ true }
    ensures read_that_hits { needs_bus (Reads loc_x) true ≡ false }
    ensures write_that_misses { needs_bus (Writes loc_x) false ≡ true }
    ensures write_that_hits { needs_bus (Writes loc_x) true ≡ false }
    ensures locked_that_misses { needs_bus (Locks loc_x) false ≡ true }
    ensures locked_that_hits { needs_bus (Locks loc_x) true ≡ true }
{}
