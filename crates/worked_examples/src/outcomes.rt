//! Each outcome and each stall of the flat machine, by name: what one choice comes to after others. (x86-TSO, section 3.)

ghost use Rattle.std.specs.Prelude.{◌≡◌, true, false, [], ◌∷◌};
ghost use Rattle.tso_terms.specs.Runs.{run};
ghost use Rattle.basic_laws.specs.Types.{Ebx, R, W, F, LR, LW, Committed, Buffered, Moved, Stalled};
ghost use Rattle.tso_terms.specs.declared.instruction.Instr.TheVariants as instr;
ghost use Rattle.tso_terms.specs.declared.choice.Stall.TheVariants as stall;
ghost use Rattle.worked_examples.specs.Written.{loc_x, loc_y, step, drain, six, memory_action, core_at, comes};
ghost use Rattle.worked_examples.specs.SmallPrograms.{alone, comes_of, first, three_stores, two_pending};
ghost use Rattle.worked_examples.specs.inner.SmallPrograms.{load_of_own, load_of_other, drained};
ghost use Rattle.worked_examples.specs.SmallPrograms.{moves, store_and, store_waits, stored, stalling, stalling_choices};

/// What takes effect.
pub fn worked_outcomes()
    // At depth 2 a second store becomes pending; without a buffer a store goes to memory at its step.
    ensures buffered { comes_of three_stores 2 stored (step 0) ≡ comes Buffered (core_at 2 first two_pending) [] }
    ensures unbuffered { comes_of three_stores 0 stored (step 0)
        ≡ comes Committed (core_at 2 first []) (memory_action 0 1 W loc_x 8 ∷ []) }

    // A drain commits the oldest.
    ensures oldest_drained { comes_of three_stores 2 (step 0 ∷ step 0 ∷ []) (drain 0)
        ≡ comes Committed (core_at 2 first (memory_action 0 1 W loc_x 8 ∷ [])) (memory_action 0 0 W loc_x 7 ∷ []) }

    // A load gets the newest own pending store's value, and where there is none memory's.
    ensures own_store_loaded { comes_of load_of_own 2 (step 0 ∷ step 0 ∷ []) (step 0)
        ≡ comes Committed (core_at 3 (six 11 8 13 14 15 16) two_pending) (memory_action 0 2 R loc_x 8 ∷ []) }
    ensures memory_loaded { comes_of load_of_other 2 (step 0 ∷ step 0 ∷ []) (step 0)
        ≡ comes Committed (core_at 3 (six 11 4 13 14 15 16) two_pending) (memory_action 0 2 R loc_y 4 ∷ []) }

    // A register gets a number, and another's value.
    ensures number_moved { comes_of moves 2 [] (step 0) ≡ comes Moved (core_at 1 (six 11 12 7 14 15 16) []) [] }
    ensures register_moved { comes_of moves 2 (step 0 ∷ []) (step 0) ≡ comes Moved (core_at 2 (six 11 12 14 14 15 16) []) [] }

    // Once the store before it is drained: a fence, an exchange and an addition.
    ensures fence_committed { comes_of (store_and instr.Fence) 2 drained (step 0)
        ≡ comes Committed (core_at 2 first []) (memory_action 0 1 F loc_x 0 ∷ []) }
    ensures exchange_committed { comes_of (store_and (instr.Xchg loc_x Ebx)) 2 drained (step 0)
        ≡ comes Committed (core_at 2 (six 11 14 13 14 15 16) []) (memory_action 0 1 LR loc_x 14 ∷ memory_action 0 1 LW loc_x 12 ∷ []) }
    ensures addition_committed { comes_of (store_and (instr.Xadd loc_x Ebx)) 2 drained (step 0)
        ≡ comes Committed (core_at 2 (six 11 14 13 14 15 16) []) (memory_action 0 1 LR loc_x 14 ∷ memory_action 0 1 LW loc_x 26 ∷ []) }
{}

/// What stalls, and changes nothing.
pub fn worked_stalls()
    // A step at the program's end, and a drain where nothing is pending.
    ensures done { comes_of moves 2 (step 0 ∷ step 0 ∷ []) (step 0) ≡ comes (Stalled stall.Done) (core_at 2 (six 11 12 14 14 15 16) []) [] }
    ensures empty { comes_of three_stores 2 [] (drain 0) ≡ comes (Stalled stall.Empty) (core_at 0 first []) [] }

    // A third store at depth 2.
    ensures full { comes_of three_stores 2 (step 0 ∷ step 0 ∷ []) (step 0) ≡ comes (Stalled stall.Full) (core_at 2 first two_pending) [] }

    // While the store before it is pending: a fence, an exchange and an addition.
    ensures fence_waits { comes_of (store_and instr.Fence) 2 stored (step 0) ≡ comes (Stalled stall.Fence) store_waits [] }
    ensures exchange_waits { comes_of (store_and (instr.Xchg loc_x Ebx)) 2 stored (step 0) ≡ comes (Stalled stall.Lock) store_waits [] }
    ensures addition_waits { comes_of (store_and (instr.Xadd loc_x Ebx)) 2 stored (step 0) ≡ comes (Stalled stall.Lock) store_waits [] }

    // A run counts each of them, and no other choice, and what comes after the end.
    ensures stalls_are_counted { (run (alone stalling) 1 stalling_choices).stalled ≡ 4 }
    ensures choices_are_counted { (run (alone stalling) 1 stalling_choices).used ≡ 13 }
    ensures run_ends { (run (alone stalling) 1 stalling_choices).ended ≡ true }
    ensures memory_left { (run (alone stalling) 1 stalling_choices).state.memory ≡ 12 ∷ 20 ∷ [] }
    ensures after_the_end { (run (alone moves) 1 (step 0 ∷ step 0 ∷ step 0 ∷ drain 0 ∷ [])).unused ≡ 2 }
    ensures up_to_the_end { (run (alone moves) 1 (step 0 ∷ step 0 ∷ step 0 ∷ drain 0 ∷ [])).used ≡ 2 }
    ensures pending_is_no_end { (run (alone (store_and instr.Fence)) 2 (step 0 ∷ step 0 ∷ [])).ended ≡ false }
    ensures buffered_is_no_end { (run (alone three_stores) 3 (step 0 ∷ step 0 ∷ step 0 ∷ [])).ended ≡ false }
{}
