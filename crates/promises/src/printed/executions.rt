//! What is printed of an execution in which what a test asks is so, said again in plain terms.

ghost use Rattle.std.specs.Prelude.{◌≡◌, ℕ, Bool, List};
ghost use Rattle.tso_terms.specs.Litmus.{Litmus};
ghost use Rattle.basic_laws.specs.Types.{Choice, Entry};
ghost use Rattle.relational_model.specs.Candidates.{Candidate};
ghost use Rattle.relational_model.specs.CandidatesOfOrders.{IsCandidateOf};
ghost use Rattle.refutation_laws.specs.declared.model.Model.{Model};
ghost use Rattle.search_report.specs.PrintedReasons.{ShowsExecution, allowed_in};

/// What is printed of an order is what a candidate of that order is printed as, with these choices.
pub fn a_printed_execution_is_a_candidate_of_its_order()
    ensures { (json : Bool) (model : Model) (t : Litmus) (order : List Entry) (choices : List Choice) (out : List ℕ)
        → ShowsExecution json model t order choices out
        → (c : Candidate) × IsCandidateOf t order c × (out ≡ allowed_in json model t c choices) }
{}
