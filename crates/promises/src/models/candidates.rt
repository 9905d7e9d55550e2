//! What the laws of herd's model say, field by field. (`x86tso.cat`.)

ghost use Rattle.std.specs.Prelude.{List, length, ℕ, ◌≡◌};
ghost use Rattle.relational_model.specs.Candidates.{Candidate, IsCandidate, events, registers_left, words_left};
ghost use Rattle.relational_model.specs.CandidatesOfOrders.{IsCandidateOf};
ghost use Rattle.relational_model.specs.CandidatesOfRuns.{IsCandidateOfRun};
ghost use Rattle.relational_model.specs.Events.{IsAcyclic};
ghost use Rattle.relational_model.specs.Model.{HappensBefore, IsAllowed, IsAtomic, IsBeforeOnLocation, IsForbidden, IsForbiddenByUniproc};
ghost use Rattle.tso_terms.specs.FlatMachine.{registers_in};
ghost use Rattle.tso_terms.specs.Litmus.{IsTest, Litmus};
ghost use Rattle.tso_terms.specs.Runs.{CoresExist, Run, run};
ghost use Rattle.tso_laws.specs.EndedRuns.{End};
ghost use Rattle.tso_terms.specs.Axioms.{IsTsoExecution};
ghost use Rattle.tso_terms.specs.FinalState.{final_registers, final_words};
ghost use Rattle.tso_terms.specs.Limits.{most_depth};
ghost use Rattle.basic_laws.specs.Types.{Choice, Entry};

use relational_model::{
    candidates_of_executions_are_allowed, runs_have_exactly_the_allowed_candidates,
};

/// The candidate of a run is that of its commits, and leaves its memory and registers.
pub fn a_candidate_of_a_run_leaves_its_state()
    ensures order { (t : Litmus) (r : Run) (c : Candidate) → IsCandidateOfRun t r c → IsCandidateOf t r.commits c }
    ensures memory { (t : Litmus) (r : Run) (c : Candidate) → IsCandidateOfRun t r c → r.state.memory ≡ words_left t c }
    ensures registers { (t : Litmus) (r : Run) (c : Candidate) → IsCandidateOfRun t r c → registers_in r.state ≡ registers_left t c }
{}

/// A forbidden candidate is one of the test, and isn't allowed; one that uniproc alone forbids meets all else.
pub fn what_is_forbidden_is_a_candidate()
    ensures forbidden { (t : Litmus) (c : Candidate) → IsForbidden t c → IsCandidate t c }
    ensures not_allowed { (t : Litmus) (c : Candidate) → IsForbidden t c → IsAllowed t c → ⊥ }
    ensures forbidden_by_uniproc { (t : Litmus) (c : Candidate) → IsForbiddenByUniproc t c → IsCandidate t c }
    ensures atomic { (t : Litmus) (c : Candidate) → IsForbiddenByUniproc t c → IsAtomic (events t c) c }
    ensures global { (t : Litmus) (c : Candidate) → IsForbiddenByUniproc t c
        → IsAcyclic (events t c) (HappensBefore (events t c) c) }
    ensures not_uniproc { (t : Litmus) (c : Candidate) → IsForbiddenByUniproc t c → IsAcyclic (events t c) (IsBeforeOnLocation c) → ⊥ }
{}

/// The candidate of an execution is allowed, and leaves the same state.
pub fn candidates_of_executions_are_allowed_ones()
    ensures candidate { (t : Litmus) (order : List Entry) (c : Candidate) → IsTsoExecution t order → IsCandidateOf t order c
        → IsCandidate t c }
    ensures uniproc { (t : Litmus) (order : List Entry) (c : Candidate) → IsTsoExecution t order → IsCandidateOf t order c
        → IsAcyclic (events t c) (IsBeforeOnLocation c) }
    ensures atomic { (t : Litmus) (order : List Entry) (c : Candidate) → IsTsoExecution t order → IsCandidateOf t order c
        → IsAtomic (events t c) c }
    ensures global { (t : Litmus) (order : List Entry) (c : Candidate) → IsTsoExecution t order → IsCandidateOf t order c
        → IsAcyclic (events t c) (HappensBefore (events t c) c) }
    ensures memory { (t : Litmus) (order : List Entry) (c : Candidate) → IsTsoExecution t order → IsCandidateOf t order c
        → words_left t c ≡ final_words t order }
    ensures registers { (t : Litmus) (order : List Entry) (c : Candidate) → IsTsoExecution t order → IsCandidateOf t order c
        → registers_left t c ≡ final_registers t order }
{
    candidates_of_executions_are_allowed();
}

/// Each ended run has a candidate that is allowed, and each that is allowed is that of a run.
pub fn runs_have_the_allowed_candidates()
    ensures run_allowed { (t : Litmus) (depth : ℕ) (choices : List Choice) → IsTest t → End t depth choices
        → (c : Candidate) × IsAllowed t c × IsCandidateOfRun t (run t depth choices) c }
    ensures reached { (t : Litmus) (c : Candidate) → IsTest t → IsAllowed t c
        → (choices : List Choice) × CoresExist (length t.programs) choices × End t most_depth choices × IsCandidateOfRun t (run t most_depth choices) c }
{
    runs_have_exactly_the_allowed_candidates();
}
