//! Each outcome and each stall of the machine on a split bus, by name: what one choice comes to after others, and who holds the
//! bus then.

ghost use Rattle.std.specs.Prelude.{◌≡◌, [], ◌∷◌};
ghost use Rattle.tso_terms.specs.SplitMachine.{Free, HeldBy, HeldBetween};
ghost use Rattle.basic_laws.specs.Types.{Ebx, R, W, LR, LW, Committed, Buffered, Asked, Stalled};
ghost use Rattle.tso_terms.specs.declared.instruction.Instr.TheVariants as instr;
ghost use Rattle.tso_terms.specs.declared.choice.Stall.TheVariants as stall;
ghost use Rattle.worked_examples.specs.Written.{loc_x, loc_y, step, drain, six, memory_action, core_at};
ghost use Rattle.worked_examples.specs.inner.Written.{comes_with};
ghost use Rattle.worked_examples.specs.SharedBus.{missing, hitting};
ghost use Rattle.worked_examples.specs.inner.SharedBus.{comes_on, first_of_p0, first_of_p1, two_loads, load_holds};
ghost use Rattle.worked_examples.specs.inner.SharedBus.{store_and_load, is_pending, drain_holds, exchange_and_load, exchange_holds};
ghost use Rattle.worked_examples.specs.inner.SharedBus.{exchange_has_read, load_part, load_beside, held_and_pending, pending_of_p1};
ghost use Rattle.worked_examples.specs.inner.SharedBus.{load_beside_none, store_before_load, load_holds_over_store};

/// What takes effect, and who holds the bus afterwards.
pub fn worked_split_outcomes()
    // A load that misses asks, and its core's next step completes it; one that hits needs no bus.
    ensures load_asks { comes_on two_loads 2 [] (missing (step 0)) ≡ comes_with Asked (core_at 0 first_of_p0 []) [] (HeldBy (step 0)) }
    ensures load_is_completed { comes_on two_loads 2 load_holds (missing (step 0))
        ≡ comes_with Committed (core_at 1 (six 3 12 13 14 15 16) []) (memory_action 0 0 R loc_x 3 ∷ []) Free }
    ensures load_hits { comes_on two_loads 2 [] (hitting (step 0))
        ≡ comes_with Committed (core_at 1 (six 3 12 13 14 15 16) []) (memory_action 0 0 R loc_x 3 ∷ []) Free }

    // So does a drain; while another action holds the bus, a load that hits is committed.
    ensures drain_asks { comes_on store_and_load 2 is_pending (missing (drain 0))
        ≡ comes_with Asked (core_at 1 first_of_p0 (memory_action 0 0 W loc_x 7 ∷ [])) [] (HeldBy (drain 0)) }
    ensures drain_is_completed { comes_on store_and_load 2 drain_holds (missing (drain 0))
        ≡ comes_with Committed (core_at 1 first_of_p0 []) (memory_action 0 0 W loc_x 7 ∷ []) Free }
    ensures drain_hits { comes_on store_and_load 2 is_pending (hitting (drain 0))
        ≡ comes_with Committed (core_at 1 first_of_p0 []) (memory_action 0 0 W loc_x 7 ∷ []) Free }
    ensures load_hits_beside { comes_on store_and_load 2 drain_holds (hitting (step 1))
        ≡ comes_with Committed (core_at 1 (six 4 22 23 24 25 26) []) (memory_action 1 0 R loc_y 4 ∷ []) (HeldBy (drain 0)) }

    // The holder's own core may do otherwise meanwhile, where that hits.
    ensures own_drain_hits { comes_on store_before_load 2 load_holds_over_store (hitting (drain 0))
        ≡ comes_with Committed (core_at 1 first_of_p0 []) (memory_action 0 0 W loc_x 7 ∷ []) (HeldBy (step 0)) }

    // A store that becomes pending needs no bus; without a buffer it asks at its step.
    ensures store_is_buffered { comes_on (load_beside instr.Fence) 2 load_holds (missing (step 1))
        ≡ comes_with Buffered (core_at 1 first_of_p1 pending_of_p1) [] (HeldBy (step 0)) }
    ensures unbuffered_store_asks { comes_on store_and_load 0 [] (missing (step 0))
        ≡ comes_with Asked (core_at 0 first_of_p0 []) [] (HeldBy (step 0)) }

    // An exchange asks though its line is there; it reads, and keeps the bus; and it writes, and frees the bus.
    ensures exchange_asks { comes_on exchange_and_load 2 [] (hitting (step 0))
        ≡ comes_with Asked (core_at 0 first_of_p0 []) [] (HeldBy (step 0)) }
    ensures exchange_reads { comes_on exchange_and_load 2 exchange_holds (missing (step 0))
        ≡ comes_with Committed (core_at 0 first_of_p0 []) (memory_action 0 0 LR loc_x 3 ∷ []) (HeldBetween load_part) }
    ensures exchange_writes { comes_on exchange_and_load 2 exchange_has_read (missing (step 0))
        ≡ comes_with Committed (core_at 1 (six 3 12 13 14 15 16) []) (memory_action 0 0 LW loc_x 11 ∷ []) Free }

    // Between the two, a load of another core that hits.
    ensures load_hits_between { comes_on exchange_and_load 2 exchange_has_read (hitting (step 1))
        ≡ comes_with Committed (core_at 1 (six 4 22 23 24 25 26) []) (memory_action 1 0 R loc_y 4 ∷ []) (HeldBetween load_part) }
{}

/// What stalls, and changes nothing.
pub fn worked_split_stalls()
    // What needs the bus while another action holds it, and between the two parts of a locked instruction.
    ensures bus_is_held { comes_on two_loads 2 load_holds (missing (step 1))
        ≡ comes_with (Stalled stall.Bus) (core_at 0 first_of_p1 []) [] (HeldBy (step 0)) }
    ensures bus_is_held_between { comes_on exchange_and_load 2 exchange_has_read (missing (step 1))
        ≡ comes_with (Stalled stall.Bus) (core_at 0 first_of_p1 []) [] (HeldBetween load_part) }

    // So does another choice of the holder's own core.
    ensures own_drain_waits { comes_on store_before_load 2 load_holds_over_store (missing (drain 0))
        ≡ comes_with (Stalled stall.Bus) (core_at 1 first_of_p0 (memory_action 0 0 W loc_x 7 ∷ [])) [] (HeldBy (step 0)) }

    // What makes no access doesn't ask for the bus: it stalls as on the flat machine.
    ensures done_before_bus { comes_on load_beside_none 2 load_holds (missing (step 1))
        ≡ comes_with (Stalled stall.Done) (core_at 0 first_of_p1 []) [] (HeldBy (step 0)) }
    ensures empty_before_bus { comes_on two_loads 2 load_holds (missing (drain 1))
        ≡ comes_with (Stalled stall.Empty) (core_at 0 first_of_p1 []) [] (HeldBy (step 0)) }
    ensures full_before_bus { comes_on (load_beside (instr.StoreImm loc_x 9)) 1 held_and_pending (missing (step 1))
        ≡ comes_with (Stalled stall.Full) (core_at 1 first_of_p1 pending_of_p1) [] (HeldBy (step 0)) }
    ensures fence_before_bus { comes_on (load_beside instr.Fence) 2 held_and_pending (missing (step 1))
        ≡ comes_with (Stalled stall.Fence) (core_at 1 first_of_p1 pending_of_p1) [] (HeldBy (step 0)) }
    ensures lock_before_bus { comes_on (load_beside (instr.Xchg loc_x Ebx)) 2 held_and_pending (missing (step 1))
        ≡ comes_with (Stalled stall.Lock) (core_at 1 first_of_p1 pending_of_p1) [] (HeldBy (step 0)) }
{}
