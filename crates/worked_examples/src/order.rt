//! Program order between two entries, and the one pair that may be passed: a plain store by a later plain load. (Primer,
//! chapter 4.)

ghost use Rattle.std.specs.Prelude.{◌≡◌, true, false, [], ◌∷◌};
ghost use Rattle.tso_terms.specs.ProgramEntries.{read_value};
ghost use Rattle.tso_terms.specs.Axioms.{due_value};
ghost use Rattle.tso_terms.specs.Together.{put_together};
ghost use Rattle.tso_terms.specs.ProgramOrder.{is_before, may_be_passed, is_read, is_write, writes_to};
ghost use Rattle.tso_terms.specs.declared.execution.Kind.TheVariants.{R, W, F, LR, LW};
ghost use Rattle.worked_examples.specs.Written.{loc_x, loc_y, memory_action};
ghost use Rattle.worked_examples.specs.inner.Orders.{some_test, read_of_x, writes_before, writes_after, separated_pairs, pairs_together};

/// Which of two entries of one core comes first in its program.
pub fn worked_program_order()
    ensures earlier_place { is_before (memory_action 1 2 W loc_x 7) (memory_action 1 3 R loc_y 8) ≡ true }
    ensures later_place { is_before (memory_action 1 3 R loc_y 8) (memory_action 1 2 W loc_x 7) ≡ false }
    ensures another_core { is_before (memory_action 0 2 W loc_x 7) (memory_action 1 3 R loc_y 8) ≡ false }
    ensures same_entry { is_before (memory_action 1 2 W loc_x 7) (memory_action 1 2 W loc_x 7) ≡ false }
    ensures load_part_first { is_before (memory_action 1 2 LR loc_x 7) (memory_action 1 2 LW loc_x 8) ≡ true }
    ensures store_part_second { is_before (memory_action 1 2 LW loc_x 8) (memory_action 1 2 LR loc_x 7) ≡ false }
{}

/// Which kinds read, which write, and to which location; and that a plain store alone may be passed, by a plain load alone.
pub fn worked_kinds_of_entries()
    ensures load_reads { is_read (memory_action 1 2 R loc_x 7) ≡ true }
    ensures store_reads_not { is_read (memory_action 1 2 W loc_x 7) ≡ false }
    ensures fence_reads_not { is_read (memory_action 1 2 F loc_x 7) ≡ false }
    ensures load_part_reads { is_read (memory_action 1 2 LR loc_x 7) ≡ true }
    ensures store_part_reads_not { is_read (memory_action 1 2 LW loc_x 7) ≡ false }
    ensures load_writes_not { is_write (memory_action 1 2 R loc_x 7) ≡ false }
    ensures store_writes { is_write (memory_action 1 2 W loc_x 7) ≡ true }
    ensures fence_writes_not { is_write (memory_action 1 2 F loc_x 7) ≡ false }
    ensures load_part_writes_not { is_write (memory_action 1 2 LR loc_x 7) ≡ false }
    ensures store_part_writes { is_write (memory_action 1 2 LW loc_x 7) ≡ true }
    ensures writes_its_location { writes_to 1 (memory_action 0 2 W loc_y 7) ≡ true }
    ensures writes_no_other { writes_to 0 (memory_action 0 2 W loc_y 7) ≡ false }
    ensures store_is_passed_by_load { may_be_passed (memory_action 1 2 W loc_x 7) (memory_action 1 3 R loc_y 8) ≡ true }
    ensures load_is_not_passed_by_store { may_be_passed (memory_action 1 2 R loc_x 7) (memory_action 1 3 W loc_y 8) ≡ false }
    ensures store_is_not_passed_by_store { may_be_passed (memory_action 1 2 W loc_x 7) (memory_action 1 3 W loc_y 8) ≡ false }
    ensures store_is_not_passed_by_fence { may_be_passed (memory_action 1 2 W loc_x 7) (memory_action 1 3 F loc_x 0) ≡ false }
    ensures fence_is_not_passed_by_load { may_be_passed (memory_action 1 2 F loc_x 0) (memory_action 1 3 R loc_y 8) ≡ false }
    ensures store_is_not_passed_by_load_part { may_be_passed (memory_action 1 2 W loc_x 7) (memory_action 1 3 LR loc_y 8) ≡ false }
    ensures store_part_is_not_passed_by_load { may_be_passed (memory_action 1 2 LW loc_x 7) (memory_action 1 3 R loc_y 8) ≡ false }
{}

/// The value that is due to a read: of the last write that counts, before it in the order or in its own program.
pub fn worked_due_values()
    ensures first_word { due_value some_test read_of_x [] [] ≡ 3 }
    ensures last_before_it { due_value some_test read_of_x writes_before [] ≡ 6 }
    ensures own_after_it { due_value some_test read_of_x writes_before writes_after ≡ 7 }
    ensures own_alone { due_value some_test read_of_x [] writes_after ≡ 7 }
    ensures read_of_this_place { read_value 0 3 R (memory_action 1 3 R loc_x 5 ∷ memory_action 0 2 R loc_x 6 ∷ memory_action 0 3 W loc_x 7
        ∷ memory_action 0 3 R loc_x 8 ∷ memory_action 0 3 R loc_x 9 ∷ []) ≡ 8 }
    ensures read_of_no_place { read_value 0 3 R writes_before ≡ 0 }
{}

/// Each load part of a locked instruction goes directly before its own store part, and to the end where there is none.
pub fn worked_pairs()
    ensures { put_together separated_pairs ≡ pairs_together }
{}
