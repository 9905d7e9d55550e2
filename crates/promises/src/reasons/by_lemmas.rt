//! What the laws of refutations by lemmas say of claims, final states, executions and runs, each said again.

ghost use Rattle.std.specs.Prelude.{◌==◌, ◌≡◌, ◌≤◌, List, None, Some, false, length, true, ℕ};
ghost use Rattle.tso_laws.specs.EndedRuns.{End};
ghost use Rattle.tso_laws.specs.Outcomes.{IsAllowedByTso, IsAllowedSequentially, IsEnd};
ghost use Rattle.refutation_laws.specs.Models.{IsAllowedBy, IsExecutionOf, depth_of};
ghost use Rattle.refutation_laws.specs.Refutations.{asked_claim};
ghost use Rattle.refutation_laws.specs.declared.model.Model.{Model};
ghost use Rattle.refutation_laws.specs.declared.model.Model.TheVariants.{Sequential, Tso};
ghost use Rattle.relational_model.specs.Candidates.{Candidate, registers_left, words_left};
ghost use Rattle.possible_reads.specs.Facts.{Fact};
ghost use Rattle.possible_reads.specs.Laws.{AreMet};
ghost use Rattle.possible_reads.specs.Possible.{can_be, least_read, readings_after, values_written};
ghost use Rattle.refutation_laws.specs.Agreement.{Stands};
ghost use Rattle.relational_model.specs.Model.{IsAllowed};
ghost use Rattle.refutation_laws.specs.declared.model.Relation.{Relation};
ghost use Rattle.lemma_refutations.specs.Edges.{Knowledge, is_edge, relates};
ghost use Rattle.lemma_refutations.specs.Shown.{first_that_relates};
ghost use Rattle.lemma_refutations.specs.Refutations.{Lemma, Node, refutes};
ghost use Rattle.tso_terms.specs.Condition.{Claim, NamesExist, truth_of};
ghost use Rattle.tso_terms.specs.FinalState.{final_registers, final_words};
ghost use Rattle.tso_terms.specs.FlatMachine.{registers_in};
ghost use Rattle.tso_terms.specs.Litmus.{IsTest, Litmus};
ghost use Rattle.tso_terms.specs.ProgramOrder.{is_read, is_write};
ghost use Rattle.tso_terms.specs.Runs.{CoresExist, run};
ghost use Rattle.basic_laws.specs.Types.{Choice, Entry, Exists, Forall, NotExists};

use lemma_refutations::{
    edges_have_names, no_run_meets_what_is_refuted, refutations_by_lemmas_are_complete,
    refutations_by_lemmas_are_sound, refuted_questions_have_answers,
};
use possible_reads::{readings_are_possible, written_values_are_possible};

/// What each read returns is no less than the least that it can return, after any number of rounds.
pub fn a_read_returns_no_less()
    ensures { (t : Litmus) (c : Candidate) (facts : List Fact) (rounds : ℕ) (read : Entry) (r : Entry) → IsAllowed t c → AreMet t c facts
        → Stands t c read r → is_read r ≡ true → least_read (readings_after t facts rounds) read ≤ r.value }
{
    readings_are_possible();
}

/// What each write writes is among what it can write, after any number of rounds.
pub fn a_write_writes_what_it_can()
    ensures { (t : Litmus) (c : Candidate) (facts : List Fact) (rounds : ℕ) (write : Entry) (w : Entry) → IsAllowed t c → AreMet t c facts
        → Stands t c write w → is_write w ≡ true
        → can_be (values_written t (readings_after t facts rounds) write) (λ v. v == w.value) ≡ true }
{
    written_values_are_possible();
}

/// What lemmas and a tree refute is false in each final state that TSO allows, or sequential consistency.
pub fn no_final_state_is_refuted_by_lemmas()
    ensures tso { (t : Litmus) (claim : Claim) (lemmas : List Lemma) (tree : List Node) (registers : List (List ℕ)) (memory : List ℕ)
        → NamesExist (length t.programs) (length t.words) claim → refutes Tso t claim lemmas tree ≡ true
        → IsAllowedByTso t registers memory → truth_of registers memory claim ≡ false }
    ensures sequential { (t : Litmus) (claim : Claim) (lemmas : List Lemma) (tree : List Node) (registers : List (List ℕ)) (memory : List ℕ)
        → NamesExist (length t.programs) (length t.words) claim → refutes Sequential t claim lemmas tree ≡ true
        → IsAllowedSequentially t registers memory → truth_of registers memory claim ≡ false }
{
    refutations_by_lemmas_are_sound();
}

/// No run ends in a state that meets what they refute, and no end that a search finds is such a state.
pub fn no_run_is_refuted_by_lemmas()
    ensures tso { (t : Litmus) (claim : Claim) (lemmas : List Lemma) (tree : List Node) (depth : ℕ) (choices : List Choice)
        → IsTest t → NamesExist (length t.programs) (length t.words) claim → refutes Tso t claim lemmas tree ≡ true → End t depth choices
        → truth_of (registers_in (run t depth choices).state) (run t depth choices).state.memory claim ≡ false }
    ensures sequential { (t : Litmus) (claim : Claim) (lemmas : List Lemma) (tree : List Node) (choices : List Choice)
        → IsTest t → NamesExist (length t.programs) (length t.words) claim → refutes Sequential t claim lemmas tree ≡ true → End t 0 choices
        → truth_of (registers_in (run t 0 choices).state) (run t 0 choices).state.memory claim ≡ false }
    ensures ends { (t : Litmus) (claim : Claim) (lemmas : List Lemma) (tree : List Node) (depth : ℕ) (registers : List (List ℕ)) (memory : List ℕ)
        → IsTest t → NamesExist (length t.programs) (length t.words) claim → refutes Tso t claim lemmas tree ≡ true
        → IsEnd t depth registers memory → truth_of registers memory claim ≡ false }
    ensures unbuffered_ends { (t : Litmus) (claim : Claim) (lemmas : List Lemma) (tree : List Node) (registers : List (List ℕ)) (memory : List ℕ)
        → IsTest t → NamesExist (length t.programs) (length t.words) claim → refutes Sequential t claim lemmas tree ≡ true
        → IsEnd t 0 registers memory → truth_of registers memory claim ≡ false }
{
    no_run_meets_what_is_refuted();
}

/// Where they refute a test's question, no execution makes the claim of `exists` or `~exists` true, each makes that of `forall` true,
/// and without a condition there is none.
pub fn a_question_is_refuted_by_lemmas()
    ensures exists { (model : Model) (t : Litmus) (claim : Claim) (lemmas : List Lemma) (tree : List Node) (order : List Entry)
        → IsTest t → t.condition ≡ Some (record { quantifier = Exists; claim = claim })
        → refutes model t (asked_claim t.condition) lemmas tree ≡ true
        → IsExecutionOf model t order → truth_of (final_registers t order) (final_words t order) claim ≡ false }
    ensures not_exists { (model : Model) (t : Litmus) (claim : Claim) (lemmas : List Lemma) (tree : List Node) (order : List Entry)
        → IsTest t → t.condition ≡ Some (record { quantifier = NotExists; claim = claim })
        → refutes model t (asked_claim t.condition) lemmas tree ≡ true
        → IsExecutionOf model t order → truth_of (final_registers t order) (final_words t order) claim ≡ false }
    ensures forall { (model : Model) (t : Litmus) (claim : Claim) (lemmas : List Lemma) (tree : List Node) (order : List Entry)
        → IsTest t → t.condition ≡ Some (record { quantifier = Forall; claim = claim })
        → refutes model t (asked_claim t.condition) lemmas tree ≡ true
        → IsExecutionOf model t order → truth_of (final_registers t order) (final_words t order) claim ≡ true }
    ensures unasked { (model : Model) (t : Litmus) (lemmas : List Lemma) (tree : List Node) (order : List Entry)
        → IsTest t → t.condition ≡ None → refutes model t (asked_claim t.condition) lemmas tree ≡ true → IsExecutionOf model t order → ⊥ }
{
    refuted_questions_have_answers();
}

/// A claim that no lemmas and tree refute is true of some allowed candidate, of some execution, and at the end of some run.
pub fn what_is_not_refuted_by_lemmas_is_met()
    ensures candidate { (model : Model) (t : Litmus) (claim : Claim)
        → IsTest t → NamesExist (length t.programs) (length t.words) claim
        → ((lemmas : List Lemma) (tree : List Node) → refutes model t claim lemmas tree ≡ true → ⊥)
        → (c : Candidate) × IsAllowedBy model t c × (truth_of (registers_left t c) (words_left t c) claim ≡ true) }
    ensures execution { (model : Model) (t : Litmus) (claim : Claim)
        → IsTest t → NamesExist (length t.programs) (length t.words) claim
        → ((lemmas : List Lemma) (tree : List Node) → refutes model t claim lemmas tree ≡ true → ⊥)
        → (order : List Entry) × IsExecutionOf model t order
        × (truth_of (final_registers t order) (final_words t order) claim ≡ true) }
    ensures ended_run { (model : Model) (t : Litmus) (claim : Claim)
        → IsTest t → NamesExist (length t.programs) (length t.words) claim
        → ((lemmas : List Lemma) (tree : List Node) → refutes model t claim lemmas tree ≡ true → ⊥)
        → (choices : List Choice) × CoresExist (length t.programs) choices × End t (depth_of model) choices
        × (truth_of (registers_in (run t (depth_of model) choices).state) (run t (depth_of model) choices).state.memory claim ≡ true) }
{
    refutations_by_lemmas_are_complete();
}

/// An edge has a relation of its own, and a relation that is found makes an edge.
pub fn an_edge_has_its_name()
    ensures edge { (t : Litmus) (k : Knowledge) (relations : List Relation) (x y : Entry)
        → is_edge t k relations x y ≡ true → (r : Relation) × (first_that_relates t k relations x y ≡ Some r) }
    ensures holds { (t : Litmus) (k : Knowledge) (relations : List Relation) (x y : Entry) (r : Relation)
        → first_that_relates t k relations x y ≡ Some r → (relates t k r x y ≡ true) × (is_edge t k relations x y ≡ true) }
{
    edges_have_names();
}
