//! The laws of refutations by lemmas: what is refuted is false in all that the model allows, and what isn't refuted is true in
//! some of it.

ghost use Rattle.std.specs.Prelude.{ℕ, ◌≡◌, ◌⊎◌, true, false, List, length, Some, None};
ghost use Rattle.tso_terms.specs.Litmus.{Litmus, IsTest};
ghost use Rattle.tso_terms.specs.Condition.{Claim, truth_of, NamesExist};
ghost use Rattle.tso_terms.specs.FinalState.{final_words, final_registers};
ghost use Rattle.tso_terms.specs.Runs.{run};
ghost use Rattle.tso_terms.specs.FlatMachine.{registers_in};
ghost use Rattle.basic_laws.specs.Types.{Choice, Exists, NotExists, Forall, Entry};
ghost use Rattle.tso_laws.specs.EndedRuns.{End};
ghost use Rattle.tso_laws.specs.Outcomes.{IsEnd};
ghost use Rattle.relational_model.specs.Candidates.{Candidate, registers_left, words_left};
ghost use Rattle.refutation_laws.specs.Refutations.{asked_claim};
ghost use Rattle.refutation_laws.specs.Models.{IsAllowedBy, IsExecutionOf, IsFinalStateOf, HasCandidate, HasExecution, HasRun};
ghost use Rattle.refutation_laws.specs.declared.model.Model.{Model};
ghost use Rattle.refutation_laws.specs.declared.model.Model.TheVariants.{Tso, Sequential};
ghost use Rattle.refutation_laws.specs.declared.model.Relation.{Relation};
ghost use Rattle.lemma_refutations.specs.Edges.{Knowledge, relates, is_edge};
ghost use Rattle.lemma_refutations.specs.Shown.{first_that_relates};
ghost use Rattle.lemma_refutations.specs.Refutations.{Node, Lemma, refutes};
ghost use Rattle.lemma_refutations.specs.Laws.{IsRefuted};

use locked_laws::{each_but_the_last_is_read, somebody_reads_the_initial_word};
use possible_reads::{
    claims_give_facts, known_order_is_right, last_registers_are_possible, last_words_are_possible,
    readings_are_possible, some_case_is_met, some_write_comes_last, truths_are_those_left,
};
use refutation_laws::refuted_questions_are_answered;
use relational_model::{
    allowed_candidates_are_executions, candidates_of_executions_are_allowed,
    executions_have_candidates, runs_have_exactly_the_allowed_candidates,
    sequential_candidates_are_sequential_executions,
    unbuffered_runs_have_exactly_the_sequential_candidates,
};

/// A proposition that is refuted, and whose names exist in the test, is false in the state that each
/// candidate leaves that the model allows, and in the final state of each execution of the model; so it
/// is in each final state that the model allows.
pub fn refutations_by_lemmas_are_sound()
    ensures candidates { (model : Model) (t : Litmus) (claim : Claim) (lemmas : List Lemma) (tree : List Node) (c : Candidate)
        → NamesExist (length t.programs) (length t.words) claim → refutes model t claim lemmas tree ≡ true → IsAllowedBy model t c
        → truth_of (registers_left t c) (words_left t c) claim ≡ false }
    ensures executions { (model : Model) (t : Litmus) (claim : Claim) (lemmas : List Lemma) (tree : List Node) (order : List Entry)
        → NamesExist (length t.programs) (length t.words) claim → refutes model t claim lemmas tree ≡ true → IsExecutionOf model t order
        → truth_of (final_registers t order) (final_words t order) claim ≡ false }
    ensures states { (model : Model) (t : Litmus) (claim : Claim) (lemmas : List Lemma) (tree : List Node) (registers : List (List ℕ)) (memory : List ℕ)
        → NamesExist (length t.programs) (length t.words) claim → refutes model t claim lemmas tree ≡ true
        → IsFinalStateOf model t registers memory → truth_of registers memory claim ≡ false }
{
    executions_have_candidates();
    candidates_of_executions_are_allowed();
    sequential_candidates_are_sequential_executions();
    somebody_reads_the_initial_word();
    each_but_the_last_is_read();
    readings_are_possible();
    known_order_is_right();
    some_write_comes_last();
    last_words_are_possible();
    last_registers_are_possible();
    truths_are_those_left();
    claims_give_facts();
    some_case_is_met();
}

/// No run that ends the test, at whatever depth, leaves a state in which a refuted proposition is true;
/// under sequential consistency none at depth 0. So neither does an end that a search of the machine
/// finds.
pub fn no_run_meets_what_is_refuted()
    ensures tso { (t : Litmus) (claim : Claim) (lemmas : List Lemma) (tree : List Node) (depth : ℕ) (choices : List Choice)
        → IsTest t → NamesExist (length t.programs) (length t.words) claim → refutes Tso t claim lemmas tree ≡ true → End t depth choices
        → truth_of (registers_in (run t depth choices).state) (run t depth choices).state.memory claim ≡ false }
    ensures sequential { (t : Litmus) (claim : Claim) (lemmas : List Lemma) (tree : List Node) (choices : List Choice)
        → IsTest t → NamesExist (length t.programs) (length t.words) claim → refutes Sequential t claim lemmas tree ≡ true → End t 0 choices
        → truth_of (registers_in (run t 0 choices).state) (run t 0 choices).state.memory claim ≡ false }
    ensures ends { (t : Litmus) (claim : Claim) (lemmas : List Lemma) (tree : List Node) (depth : ℕ) (registers : List (List ℕ)) (memory : List ℕ)
        → IsTest t → NamesExist (length t.programs) (length t.words) claim → refutes Tso t claim lemmas tree ≡ true
        → IsEnd t depth registers memory → truth_of registers memory claim ≡ false }
    ensures unbuffered_ends { (t : Litmus) (claim : Claim) (lemmas : List Lemma) (tree : List Node) (registers : List (List ℕ)) (memory : List ℕ)
        → IsTest t → NamesExist (length t.programs) (length t.words) claim → refutes Sequential t claim lemmas tree ≡ true
        → IsEnd t 0 registers memory → truth_of registers memory claim ≡ false }
{
    refutations_by_lemmas_are_sound();
    runs_have_exactly_the_allowed_candidates();
    unbuffered_runs_have_exactly_the_sequential_candidates();
}

/// What a refutation of the question that a test asks says of its condition: that no execution makes the
/// proposition of `exists` or `~exists` true, that each makes that of `forall` true, and without a
/// condition that there is none.
pub fn refuted_questions_have_answers()
    ensures exists { (model : Model) (t : Litmus) (claim : Claim) (lemmas : List Lemma) (tree : List Node) (order : List Entry)
        → IsTest t → t.condition ≡ Some (record { quantifier = Exists; claim = claim })
        → refutes model t (asked_claim t.condition) lemmas tree ≡ true
        → IsExecutionOf model t order → truth_of (final_registers t order) (final_words t order) claim ≡ false }
    ensures not_exists { (model : Model) (t : Litmus) (claim : Claim) (lemmas : List Lemma) (tree : List Node) (order : List Entry)
        → IsTest t → t.condition ≡ Some (record { quantifier = NotExists; claim = claim })
        → refutes model t (asked_claim t.condition) lemmas tree ≡ true
        → IsExecutionOf model t order → truth_of (final_registers t order) (final_words t order) claim ≡ false }
    ensures forall { (model : Model) (t : Litmus) (claim : Claim) (lemmas : List Lemma) (tree : List Node) (order : List Entry)
        → IsTest t → t.condition ≡ Some (record { quantifier = Forall; claim = claim })
        → refutes model t (asked_claim t.condition) lemmas tree ≡ true
        → IsExecutionOf model t order → truth_of (final_registers t order) (final_words t order) claim ≡ true }
    ensures unasked { (model : Model) (t : Litmus) (lemmas : List Lemma) (tree : List Node) (order : List Entry)
        → IsTest t → t.condition ≡ None → refutes model t (asked_claim t.condition) lemmas tree ≡ true → IsExecutionOf model t order → ⊥ }
{
    refutations_by_lemmas_are_sound();
    refuted_questions_are_answered();
}

/// Each proposition whose names exist in a test is refuted, or is true in the state that some candidate
/// leaves that the model allows; in the final state of some execution of the model; and at the end of
/// some run at the model's depth.
pub fn refutations_by_lemmas_are_complete()
    ensures candidates { (model : Model) (t : Litmus) (claim : Claim)
        → IsTest t → NamesExist (length t.programs) (length t.words) claim → IsRefuted model t claim ⊎ HasCandidate model t claim }
    ensures executions { (model : Model) (t : Litmus) (claim : Claim)
        → IsTest t → NamesExist (length t.programs) (length t.words) claim → IsRefuted model t claim ⊎ HasExecution model t claim }
    ensures runs { (model : Model) (t : Litmus) (claim : Claim)
        → IsTest t → NamesExist (length t.programs) (length t.words) claim → IsRefuted model t claim ⊎ HasRun model t claim }
{
    last_words_are_possible();
    allowed_candidates_are_executions();
    runs_have_exactly_the_allowed_candidates();
    sequential_candidates_are_sequential_executions();
    unbuffered_runs_have_exactly_the_sequential_candidates();
}

/// Each edge of some relations has a first one of them that holds, and nothing else has one.
pub fn edges_have_names()
    ensures edge { (t : Litmus) (k : Knowledge) (relations : List Relation) (x y : Entry)
        → is_edge t k relations x y ≡ true → (r : Relation) × (first_that_relates t k relations x y ≡ Some r) }
    ensures holds { (t : Litmus) (k : Knowledge) (relations : List Relation) (x y : Entry) (r : Relation)
        → first_that_relates t k relations x y ≡ Some r → (relates t k r x y ≡ true) × (is_edge t k relations x y ≡ true) }
{}
