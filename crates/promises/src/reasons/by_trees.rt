//! What the laws of refutations say of claims, final states, executions and runs, each said again; and what a model without store
//! buffers allows, x86-TSO allows.

ghost use Rattle.std.specs.List.{list_any};
ghost use Rattle.std.specs.Prelude.{◌<◌, ◌≡◌, [], List, None, Some, false, length, slice_index, slice_index_or, true, ℕ};
ghost use Rattle.tso_laws.specs.Outcomes.{IsAllowedByTso, IsAllowedSequentially, IsEnd};
ghost use Rattle.refutation_laws.specs.Agreement.{Agrees};
ghost use Rattle.refutation_laws.specs.Edges.{is_edge, relates};
ghost use Rattle.refutation_laws.specs.Known.{Known, bare};
ghost use Rattle.refutation_laws.specs.Models.{IsAllowedBy, IsExecutionOf, depth_of};
ghost use Rattle.refutation_laws.specs.Refutations.{Node, asked_claim, refutes};
ghost use Rattle.refutation_laws.specs.Shown.{first_that_relates, value_known};
ghost use Rattle.refutation_laws.specs.Values.{can_be, register_at_end, words_at_end};
ghost use Rattle.refutation_laws.specs.declared.model.Model.{Model};
ghost use Rattle.refutation_laws.specs.declared.model.Model.TheVariants.{Sequential, Tso};
ghost use Rattle.refutation_laws.specs.declared.model.Relation.{Relation};
ghost use Rattle.relational_model.specs.Candidates.{Candidate, IsCandidate, events, registers_left, words_left};
ghost use Rattle.relational_model.specs.Events.{IsIn};
ghost use Rattle.relational_model.specs.Model.{IsAllowed};
ghost use Rattle.relational_model.specs.SequentialModel.{IsSequential};
ghost use Rattle.tso_laws.specs.EndedRuns.{End};
ghost use Rattle.tso_terms.specs.Condition.{Claim, NamesExist, truth_of};
ghost use Rattle.tso_terms.specs.FinalState.{final_registers, final_words};
ghost use Rattle.tso_terms.specs.FlatMachine.{registers_in};
ghost use Rattle.tso_terms.specs.Litmus.{IsTest, Litmus};
ghost use Rattle.tso_terms.specs.Runs.{CoresExist, run};
ghost use Rattle.tso_terms.specs.Thread.{value_in};
ghost use Rattle.basic_laws.specs.Types.{Choice, Exists, Forall, NotExists, Entry, Reg};

use refutation_laws::{
    claims_are_refuted_or_met, edges_have_relations, known_values_are_right,
    no_run_makes_a_refuted_claim_true, refuted_claims_are_false, refuted_questions_are_answered,
};
use relational_model::sequential_candidates_are_sequential_executions;

/// A refuted claim is false in each final state that TSO allows, or sequential consistency.
pub fn no_final_state_meets_a_refuted_claim()
    ensures tso { (t : Litmus) (claim : Claim) (nodes : List Node) (registers : List (List ℕ)) (memory : List ℕ)
        → NamesExist (length t.programs) (length t.words) claim → refutes Tso t claim nodes ≡ true
        → IsAllowedByTso t registers memory → truth_of registers memory claim ≡ false }
    ensures sequential { (t : Litmus) (claim : Claim) (nodes : List Node) (registers : List (List ℕ)) (memory : List ℕ)
        → NamesExist (length t.programs) (length t.words) claim → refutes Sequential t claim nodes ≡ true
        → IsAllowedSequentially t registers memory → truth_of registers memory claim ≡ false }
{
    refuted_claims_are_false();
}

/// No run ends in a state that meets a refuted claim, and no end that a search finds is such a state.
pub fn no_run_meets_a_refuted_claim()
    ensures tso { (t : Litmus) (claim : Claim) (nodes : List Node) (depth : ℕ) (choices : List Choice)
        → IsTest t → NamesExist (length t.programs) (length t.words) claim → refutes Tso t claim nodes ≡ true → End t depth choices
        → truth_of (registers_in (run t depth choices).state) (run t depth choices).state.memory claim ≡ false }
    ensures sequential { (t : Litmus) (claim : Claim) (nodes : List Node) (choices : List Choice)
        → IsTest t → NamesExist (length t.programs) (length t.words) claim → refutes Sequential t claim nodes ≡ true → End t 0 choices
        → truth_of (registers_in (run t 0 choices).state) (run t 0 choices).state.memory claim ≡ false }
    ensures ends { (t : Litmus) (claim : Claim) (nodes : List Node) (depth : ℕ) (registers : List (List ℕ)) (memory : List ℕ)
        → IsTest t → NamesExist (length t.programs) (length t.words) claim → refutes Tso t claim nodes ≡ true
        → IsEnd t depth registers memory → truth_of registers memory claim ≡ false }
    ensures unbuffered_ends { (t : Litmus) (claim : Claim) (nodes : List Node) (registers : List (List ℕ)) (memory : List ℕ)
        → IsTest t → NamesExist (length t.programs) (length t.words) claim → refutes Sequential t claim nodes ≡ true
        → IsEnd t 0 registers memory → truth_of registers memory claim ≡ false }
{
    no_run_makes_a_refuted_claim_true();
}

/// A refutation of a test's question says that no execution makes the claim of `exists` or `~exists` true, that each makes that of
/// `forall` true, and without a condition that there is none.
pub fn a_refuted_question_is_answered()
    ensures names { (t : Litmus) → IsTest t → NamesExist (length t.programs) (length t.words) (asked_claim t.condition) }
    ensures exists { (model : Model) (t : Litmus) (claim : Claim) (nodes : List Node) (order : List Entry)
        → IsTest t → t.condition ≡ Some (record { quantifier = Exists; claim = claim }) → refutes model t (asked_claim t.condition) nodes ≡ true
        → IsExecutionOf model t order → truth_of (final_registers t order) (final_words t order) claim ≡ false }
    ensures not_exists { (model : Model) (t : Litmus) (claim : Claim) (nodes : List Node) (order : List Entry)
        → IsTest t → t.condition ≡ Some (record { quantifier = NotExists; claim = claim }) → refutes model t (asked_claim t.condition) nodes ≡ true
        → IsExecutionOf model t order → truth_of (final_registers t order) (final_words t order) claim ≡ false }
    ensures forall { (model : Model) (t : Litmus) (claim : Claim) (nodes : List Node) (order : List Entry)
        → IsTest t → t.condition ≡ Some (record { quantifier = Forall; claim = claim }) → refutes model t (asked_claim t.condition) nodes ≡ true
        → IsExecutionOf model t order → truth_of (final_registers t order) (final_words t order) claim ≡ true }
    ensures unasked { (model : Model) (t : Litmus) (nodes : List Node) (order : List Entry)
        → IsTest t → t.condition ≡ None → refutes model t (asked_claim t.condition) nodes ≡ true → IsExecutionOf model t order → ⊥ }
{
    refuted_questions_are_answered();
}

/// A claim that no tree refutes is true of some allowed candidate, of some execution, and at the end of some run.
pub fn what_no_tree_refutes_is_met()
    ensures candidate { (model : Model) (t : Litmus) (claim : Claim)
        → IsTest t → NamesExist (length t.programs) (length t.words) claim → ((nodes : List Node) → refutes model t claim nodes ≡ true → ⊥)
        → (c : Candidate) × IsAllowedBy model t c × (truth_of (registers_left t c) (words_left t c) claim ≡ true) }
    ensures execution { (model : Model) (t : Litmus) (claim : Claim)
        → IsTest t → NamesExist (length t.programs) (length t.words) claim → ((nodes : List Node) → refutes model t claim nodes ≡ true → ⊥)
        → (order : List Entry) × IsExecutionOf model t order
        × (truth_of (final_registers t order) (final_words t order) claim ≡ true) }
    ensures ended_run { (model : Model) (t : Litmus) (claim : Claim)
        → IsTest t → NamesExist (length t.programs) (length t.words) claim → ((nodes : List Node) → refutes model t claim nodes ≡ true → ⊥)
        → (choices : List Choice) × CoresExist (length t.programs) choices × End t (depth_of model) choices
        × (truth_of (registers_in (run t (depth_of model) choices).state) (run t (depth_of model) choices).state.memory claim ≡ true) }
{
    claims_are_refuted_or_met();
}

/// What a branch's answers tell of an event, a register or a location's last word is so in each candidate that gives them.
pub fn what_a_branch_knows_is_so()
    ensures events { (t : Litmus) (c : Candidate) (k : Known) (x : Entry) (value : ℕ)
        → IsCandidate t c → Agrees t c k → IsIn (events t c) x → value_known t k (bare x) ≡ Some value → x.value ≡ value }
    ensures registers { (t : Litmus) (c : Candidate) (k : Known) (core : ℕ) (reg : Reg) (value : ℕ)
        → IsCandidate t c → Agrees t c k → core < length t.programs → register_at_end t k core reg ≡ Some value
        → value_in (slice_index_or (registers_left t c) core []) reg ≡ value }
    ensures words { (t : Litmus) (c : Candidate) (k : Known) (loc : ℕ)
        → IsCandidate t c → Agrees t c k → loc < length t.words
        → list_any (can_be (slice_index (words_left t c) loc) true) (words_at_end t k loc) ≡ true }
{
    known_values_are_right();
}

/// An edge has a relation of its own, and a relation that is found makes an edge.
pub fn an_edge_has_its_relation()
    ensures edge { (t : Litmus) (k : Known) (relations : List Relation) (x y : Entry)
        → is_edge t k relations x y ≡ true → (r : Relation) × (first_that_relates t k relations x y ≡ Some r) }
    ensures holds { (t : Litmus) (k : Known) (relations : List Relation) (x y : Entry) (r : Relation)
        → first_that_relates t k relations x y ≡ Some r → (relates t k r x y ≡ true) × (is_edge t k relations x y ≡ true) }
{
    edges_have_relations();
}

/// A candidate that sequential consistency allows, x86-TSO allows too.
pub fn a_sequential_candidate_is_allowed()
    ensures allowed { (t : Litmus) (c : Candidate) → IsSequential t c → IsAllowed t c }
{
    sequential_candidates_are_sequential_executions();
}
