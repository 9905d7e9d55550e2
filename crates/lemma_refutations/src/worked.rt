//! Worked refutations, on which the definitions can be held against the eye.

ghost use Rattle.std.specs.Prelude.{◌≡◌, true, false, List, []};
ghost use Rattle.tso_terms.specs.Examples.{sb};
ghost use Rattle.relational_model.specs.WorkedCandidates.{between, fenced, passing};
ghost use Rattle.refutation_laws.specs.Worked.{both_zero, lost, passed};
ghost use Rattle.refutation_laws.specs.declared.model.Model.TheVariants.{Sequential, Tso};
ghost use Rattle.lemma_refutations.specs.Refutations.{Lemma, Node, refutes};
ghost use Rattle.lemma_refutations.specs.Worked.{sb_refuted, fenced_refuted, passing_refuted, crossed, first_ones_last, crossed_refuted, lost_refuted};
ghost use Rattle.lemma_refutations.specs.Worked.{lock_of_three, two_have_it, two_refuted, first_two, two_refuted_by_lemma, none_has_it, none_refuted};
ghost use Rattle.lemma_refutations.specs.Worked.{counter_of_three, counts_two, counts_two_refuted, both_read, two_refused};
ghost use Rattle.lemma_refutations.specs.Worked.{exchanged_in_turn, second_first_and_last, turns_refuted, small_again, small_again_refuted};
ghost use Rattle.possible_reads.specs.Worked.{both_add};

use crate::refuted_claims::refutations_by_lemmas_are_sound;
use relational_model::worked_candidates;

/// These refute: store buffering under sequential consistency, and with fences under x86-TSO; message
/// passing; two cores' stores in opposite orders; a store between the parts of a locked addition; a lock
/// that two of three cores have, also by a lemma, and one that none has; a counter of three that counts
/// two, and two of its cores that get one number; a word of an exchange that nobody reads; a load of 1
/// after an addition of 2, beside another core's addition. Nothing refutes what x86-TSO allows of store
/// buffering.
pub fn worked_refutations_by_lemmas()
    ensures sb_is_refuted { refutes Sequential sb both_zero [] sb_refuted ≡ true }
    ensures fenced_is_refuted { refutes Tso fenced both_zero [] fenced_refuted ≡ true }
    ensures passing_is_refuted { refutes Tso passing passed [] passing_refuted ≡ true }
    ensures crossed_is_refuted { refutes Tso crossed first_ones_last [] crossed_refuted ≡ true }
    ensures lost_is_refuted { refutes Tso between lost [] lost_refuted ≡ true }
    ensures two_are_refuted { refutes Tso lock_of_three two_have_it [] two_refuted ≡ true }
    ensures lemma_refutes { refutes Tso lock_of_three two_have_it first_two two_refuted_by_lemma ≡ true }
    ensures none_is_refuted { refutes Tso lock_of_three none_has_it [] none_refuted ≡ true }
    ensures count_is_refuted { refutes Tso counter_of_three counts_two [] counts_two_refuted ≡ true }
    ensures one_number_is_refuted { refutes Tso counter_of_three (both_read 0 1 1) [] two_refused ≡ true }
    ensures turns_are_refuted { refutes Tso exchanged_in_turn second_first_and_last [] turns_refuted ≡ true }
    ensures small_again_is_refuted { refutes Tso (both_add 0) small_again [] small_again_refuted ≡ true }
    ensures sb_has_none { (lemmas : List Lemma) (tree : List Node) → refutes Tso sb both_zero lemmas tree ≡ false }
{
    refutations_by_lemmas_are_sound();
    worked_candidates();
}
