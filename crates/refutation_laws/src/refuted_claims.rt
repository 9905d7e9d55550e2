//! The laws of refutations: what is refuted is false in all that the model allows, and what isn't refuted is true in some of
//! it.

ghost use Rattle.std.specs.Prelude.{ℕ, ◌≡◌, ◌<◌, ◌⊎◌, true, false, List, [], length, Some, None, slice_index};
ghost use Rattle.std.specs.Prelude.{slice_index_or};
ghost use Rattle.std.specs.List.{list_any};
ghost use Rattle.tso_terms.specs.Litmus.{Litmus, IsTest};
ghost use Rattle.tso_terms.specs.Thread.{value_in};
ghost use Rattle.tso_terms.specs.Condition.{Claim, truth_of, NamesExist};
ghost use Rattle.tso_terms.specs.FinalState.{final_words, final_registers};
ghost use Rattle.tso_terms.specs.Runs.{run};
ghost use Rattle.tso_terms.specs.FlatMachine.{registers_in};
ghost use Rattle.basic_laws.specs.Types.{Reg, Choice, Exists, NotExists, Forall, Entry};
ghost use Rattle.tso_laws.specs.EndedRuns.{End};
ghost use Rattle.tso_laws.specs.Outcomes.{IsEnd};
ghost use Rattle.relational_model.specs.Events.{IsIn};
ghost use Rattle.relational_model.specs.Candidates.{Candidate, IsCandidate, events, registers_left, words_left};
ghost use Rattle.refutation_laws.specs.Known.{Known, bare};
ghost use Rattle.refutation_laws.specs.Edges.{relates, is_edge};
ghost use Rattle.refutation_laws.specs.Values.{can_be, register_at_end, words_at_end};
ghost use Rattle.refutation_laws.specs.Refutations.{Node, refutes, asked_claim};
ghost use Rattle.refutation_laws.specs.Shown.{first_that_relates, value_known};
ghost use Rattle.refutation_laws.specs.Models.{IsAllowedBy, IsExecutionOf, IsFinalStateOf, IsRefuted, HasCandidate, HasExecution, HasRun};
ghost use Rattle.refutation_laws.specs.Agreement.{Agrees};
ghost use Rattle.refutation_laws.specs.declared.model.Model.{Model};
ghost use Rattle.refutation_laws.specs.declared.model.Model.TheVariants.{Tso, Sequential};
ghost use Rattle.refutation_laws.specs.declared.model.Relation.{Relation};

use relational_model::{
    allowed_candidates_are_executions, candidates_of_executions_are_allowed,
    executions_have_candidates, runs_have_exactly_the_allowed_candidates,
    sequential_candidates_are_sequential_executions,
    unbuffered_runs_have_exactly_the_sequential_candidates,
};

/// A proposition that is refuted, and whose names exist in the test, is false in the state that each
/// candidate leaves that the model allows, and in the final state of each execution of the model; so it
/// is in each final state that the model allows.
pub fn refuted_claims_are_false()
    ensures candidates { (model : Model) (t : Litmus) (claim : Claim) (nodes : List Node) (c : Candidate)
        → NamesExist (length t.programs) (length t.words) claim → refutes model t claim nodes ≡ true → IsAllowedBy model t c
        → truth_of (registers_left t c) (words_left t c) claim ≡ false }
    ensures executions { (model : Model) (t : Litmus) (claim : Claim) (nodes : List Node) (order : List Entry)
        → NamesExist (length t.programs) (length t.words) claim → refutes model t claim nodes ≡ true → IsExecutionOf model t order
        → truth_of (final_registers t order) (final_words t order) claim ≡ false }
    ensures states { (model : Model) (t : Litmus) (claim : Claim) (nodes : List Node) (registers : List (List ℕ)) (memory : List ℕ)
        → NamesExist (length t.programs) (length t.words) claim → refutes model t claim nodes ≡ true
        → IsFinalStateOf model t registers memory → truth_of registers memory claim ≡ false }
{
    executions_have_candidates();
    candidates_of_executions_are_allowed();
    sequential_candidates_are_sequential_executions();
}

/// No run that ends the test, at whatever depth, leaves a state in which a refuted proposition is true;
/// under sequential consistency none at depth 0. So neither does an end that a search of the machine
/// finds.
pub fn no_run_makes_a_refuted_claim_true()
    ensures tso { (t : Litmus) (claim : Claim) (nodes : List Node) (depth : ℕ) (choices : List Choice)
        → IsTest t → NamesExist (length t.programs) (length t.words) claim → refutes Tso t claim nodes ≡ true → End t depth choices
        → truth_of (registers_in (run t depth choices).state) (run t depth choices).state.memory claim ≡ false }
    ensures sequential { (t : Litmus) (claim : Claim) (nodes : List Node) (choices : List Choice)
        → IsTest t → NamesExist (length t.programs) (length t.words) claim → refutes Sequential t claim nodes ≡ true → End t 0 choices
        → truth_of (registers_in (run t 0 choices).state) (run t 0 choices).state.memory claim ≡ false }
    ensures ends { (t : Litmus) (claim : Claim) (nodes : List Node) (depth : ℕ) (registers : List (List ℕ)) (memory : List ℕ)
        → IsTest t → NamesExist (length t.programs) (length t.words) claim → refutes Tso t claim nodes ≡ true
        → IsEnd t depth registers memory → truth_of registers memory claim ≡ false }
    ensures unbuffered_ends { (t : Litmus) (claim : Claim) (nodes : List Node) (registers : List (List ℕ)) (memory : List ℕ)
        → IsTest t → NamesExist (length t.programs) (length t.words) claim → refutes Sequential t claim nodes ≡ true
        → IsEnd t 0 registers memory → truth_of registers memory claim ≡ false }
{
    refuted_claims_are_false();
    runs_have_exactly_the_allowed_candidates();
    unbuffered_runs_have_exactly_the_sequential_candidates();
}

/// What a refutation of the question that a test asks says of its condition: that no execution makes the
/// proposition of `exists` or `~exists` true, that each makes that of `forall` true, and without a
/// condition that there is none.
pub fn refuted_questions_are_answered()
    ensures names { (t : Litmus) → IsTest t → NamesExist (length t.programs) (length t.words) (asked_claim t.condition) }
    ensures exists { (model : Model) (t : Litmus) (claim : Claim) (nodes : List Node) (order : List Entry)
        → IsTest t → t.condition ≡ Some (record { quantifier = Exists; claim = claim }) → refutes model t (asked_claim t.condition) nodes ≡ true
        → IsExecutionOf model t order → truth_of (final_registers t order) (final_words t order) claim ≡ false }
    ensures not_exists { (model : Model) (t : Litmus) (claim : Claim) (nodes : List Node) (order : List Entry)
        → IsTest t → t.condition ≡ Some (record { quantifier = NotExists; claim = claim }) → refutes model t (asked_claim t.condition) nodes ≡ true
        → IsExecutionOf model t order → truth_of (final_registers t order) (final_words t order) claim ≡ false }
    ensures forall { (model : Model) (t : Litmus) (claim : Claim) (nodes : List Node) (order : List Entry)
        → IsTest t → t.condition ≡ Some (record { quantifier = Forall; claim = claim }) → refutes model t (asked_claim t.condition) nodes ≡ true
        → IsExecutionOf model t order → truth_of (final_registers t order) (final_words t order) claim ≡ true }
    ensures unasked { (model : Model) (t : Litmus) (nodes : List Node) (order : List Entry)
        → IsTest t → t.condition ≡ None → refutes model t (asked_claim t.condition) nodes ≡ true → IsExecutionOf model t order → ⊥ }
{
    refuted_claims_are_false();
}

/// Each proposition whose names exist in a test is refuted, or is true in the state that some candidate
/// leaves that the model allows; in the final state of some execution of the model; and at the end of
/// some run at the model's depth.
pub fn claims_are_refuted_or_met()
    ensures candidates { (model : Model) (t : Litmus) (claim : Claim)
        → IsTest t → NamesExist (length t.programs) (length t.words) claim → IsRefuted model t claim ⊎ HasCandidate model t claim }
    ensures executions { (model : Model) (t : Litmus) (claim : Claim)
        → IsTest t → NamesExist (length t.programs) (length t.words) claim → IsRefuted model t claim ⊎ HasExecution model t claim }
    ensures runs { (model : Model) (t : Litmus) (claim : Claim)
        → IsTest t → NamesExist (length t.programs) (length t.words) claim → IsRefuted model t claim ⊎ HasRun model t claim }
{
    allowed_candidates_are_executions();
    runs_have_exactly_the_allowed_candidates();
    sequential_candidates_are_sequential_executions();
    unbuffered_runs_have_exactly_the_sequential_candidates();
}

/// What the answers of a branch tell is so in each candidate that gives them: the value of an event, of
/// a register at the end, and that a location's last word is one of those that it may be.
pub fn known_values_are_right()
    ensures events { (t : Litmus) (c : Candidate) (k : Known) (x : Entry) (value : ℕ)
        → IsCandidate t c → Agrees t c k → IsIn (events t c) x → value_known t k (bare x) ≡ Some value → x.value ≡ value }
    ensures registers { (t : Litmus) (c : Candidate) (k : Known) (core : ℕ) (reg : Reg) (value : ℕ)
        → IsCandidate t c → Agrees t c k → core < length t.programs → register_at_end t k core reg ≡ Some value
        → value_in (slice_index_or (registers_left t c) core []) reg ≡ value }
    ensures words { (t : Litmus) (c : Candidate) (k : Known) (loc : ℕ)
        → IsCandidate t c → Agrees t c k → loc < length t.words
        → list_any (can_be (slice_index (words_left t c) loc) true) (words_at_end t k loc) ≡ true }
{}

/// Each edge of some relations has a first one of them that holds, and nothing else has one.
pub fn edges_have_relations()
    ensures edge { (t : Litmus) (k : Known) (relations : List Relation) (x y : Entry)
        → is_edge t k relations x y ≡ true → (r : Relation) × (first_that_relates t k relations x y ≡ Some r) }
    ensures holds { (t : Litmus) (k : Known) (relations : List Relation) (x y : Entry) (r : Relation)
        → first_that_relates t k relations x y ≡ Some r → (relates t k r x y ≡ true) × (is_edge t k relations x y ≡ true) }
{}
