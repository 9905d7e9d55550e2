//! Worked runs and orders, on which the laws can be held against the eye: what TSO allows and what it doesn't, that the laws'
//! premises are met, and what fails without them.

ghost use Rattle.std.specs.Prelude.{ℕ, ◌*◌, ◌≡◌, false, [], ◌∷◌, length};
ghost use Rattle.tso_terms.specs.Litmus.{IsTest};
ghost use Rattle.tso_terms.specs.Axioms.{IsTsoExecution};
ghost use Rattle.tso_terms.specs.SequentialConsistency.{KeepsAllOrder};
ghost use Rattle.tso_terms.specs.Runs.{run};
ghost use Rattle.tso_terms.specs.Examples.{sb, sb_order, sb_choices, n6, n6_order, added, separated_order, zeros};
ghost use Rattle.tso_terms.specs.FinalState.{final_words, final_registers};
ghost use Rattle.tso_laws.specs.EndedRuns.{End};
ghost use Rattle.tso_laws.specs.Counting.{most_stores, longest};
ghost use Rattle.tso_laws.specs.Rounds.{CanBeCutIntoRounds};
ghost use Rattle.tso_laws.specs.Depth.{needed};
ghost use Rattle.tso_laws.specs.Along.{choices_along};
ghost use Rattle.tso_laws.specs.inner.WorkedRuns.{n6_along, sb_along, sb_rounds, moved_last, moved_order, moved_along};
ghost use Rattle.tso_laws.specs.inner.WorkedRuns.{two_stores, two_passed, two_stalled, one_store, one_round, wordless, wordless_choices};
ghost use Rattle.tso_laws.specs.WorkedRuns.{short_order, turned_order, wrong_order};

/// Worked runs, and the choices along worked orders.
pub fn worked_runs()
    ensures sb_order_of_the_run { (run sb 4 sb_choices).commits ≡ sb_order }
    ensures sb_used { (run sb 4 sb_choices).used ≡ 6 }
    ensures sb_stalled { (run sb 4 sb_choices).stalled ≡ 0 }
    ensures sb_unused { (run sb 4 sb_choices).unused ≡ 0 }
    ensures sb_needs_one { needed sb_order ≡ 1 }
    ensures sb_along_its_order { choices_along sb sb_order ≡ sb_along }
    ensures n6_needs_one { needed n6_order ≡ 1 }
    ensures n6_along_its_order { choices_along n6 n6_order ≡ n6_along }
    ensures n6_run { (run n6 1 n6_along).commits ≡ n6_order }
    ensures n6_run_deeper { (run n6 4 n6_along).commits ≡ n6_order }
    ensures two_passed_need_two { needed two_passed ≡ 2 }
    ensures two_passed_at_two { (run two_stores 2 (choices_along two_stores two_passed)).commits ≡ two_passed }
    ensures full_is_counted { (run two_stores 1 two_stalled).stalled ≡ 1 }
    ensures moved_at_the_end { choices_along moved_last moved_order ≡ moved_along }
{}

/// Worked orders: two that TSO allows, one in which both loads pass their own core's store and one in
/// which a core reads its own store before memory has it; and four that it doesn't, each spoiled for
/// one part of what makes an execution.
pub fn worked_orders()
    ensures sb_is_allowed { IsTsoExecution sb sb_order }
    ensures sb_memory { final_words sb sb_order ≡ 1 ∷ (1 ∷ []) }
    ensures sb_registers { final_registers sb sb_order ≡ zeros ∷ (zeros ∷ []) }
    ensures n6_is_allowed { IsTsoExecution n6 n6_order }
    ensures short_is_not_whole { IsTsoExecution sb short_order → ⊥ }
    ensures turned_breaks_program_order { IsTsoExecution n6 turned_order → ⊥ }
    ensures separated_is_not_adjacent { IsTsoExecution added separated_order → ⊥ }
    ensures wrong_has_another_value { IsTsoExecution sb wrong_order → ⊥ }
{}

/// The laws' premises are met: the store-buffering test is within the limits, its first run ends,
/// its order is a TSO execution, and four rounds of it are what the law on rounds asks for.
pub fn premises_are_met()
    ensures test { IsTest sb }
    ensures ended { End sb 4 sb_choices }
    ensures unbuffered { End sb 0 sb_choices }
    ensures shallow { End two_stores 1 two_stalled }
    ensures execution { IsTsoExecution sb sb_order }
    ensures rounds { CanBeCutIntoRounds (length sb.programs) (2 * longest sb.programs) sb_rounds }
{}

/// What fails without the laws' premises.
///
/// Outside the limits: a location without a word keeps no store, so that a load after the store
/// returns 0. Not ended: a run of no choices is no execution, and its counts aren't the program's.
/// One round less: a drain that comes before the step of its round finds nothing. A buffer: both
/// loads of store buffering pass their stores. No buffer: an order that needs a depth of 1 is
/// committed at depth 0. No execution, or too little depth: the choices along the order don't end
/// the test. Entries of another test: the order needs more than this test's stores.
pub fn laws_need_their_premises()
    ensures wordless_ends { End wordless 1 wordless_choices }
    ensures wordless_is_refuted { IsTsoExecution wordless (run wordless 1 wordless_choices).commits → ⊥ }
    ensures unended_is_refuted { IsTsoExecution sb (run sb 4 []).commits → ⊥ }
    ensures unended_is_not_counted { (run sb 4 []).used ≡ 0 }
    ensures one_round_is_cut { CanBeCutIntoRounds (length one_store.programs) 1 one_round }
    ensures one_round_is_not_enough { (run one_store 1 one_round).ended ≡ false }
    ensures buffered_is_not_sequential { KeepsAllOrder (run sb 4 sb_choices).commits → ⊥ }
    ensures unbuffered_needs_one { needed (run one_store 0 one_round).commits ≡ 1 }
    ensures no_execution_is_not_reached { (run sb 4 (choices_along sb [])).ended ≡ false }
    ensures too_small_is_not_reached { (run two_stores 1 (choices_along two_stores two_passed)).ended ≡ false }
    ensures foreign_needs_two { needed two_passed ≡ 2 }
    ensures one_store_at_most { most_stores one_store.programs ≡ 1 }
{}
