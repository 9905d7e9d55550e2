//! What an execution is that a search for a reason answers, said again in plain terms.

ghost use Rattle.std.specs.Prelude.{◌≡◌, true, List};
ghost use Rattle.tso_terms.specs.Litmus.{Litmus};
ghost use Rattle.tso_terms.specs.Condition.{Claim, truth_of};
ghost use Rattle.tso_terms.specs.FinalState.{final_registers, final_words};
ghost use Rattle.tso_terms.specs.declared.execution.Entry.{Entry};
ghost use Rattle.refutation_laws.specs.Models.{IsExecutionOf, IsMet};
ghost use Rattle.refutation_laws.specs.declared.model.Model.{Model};

/// What is met is true in the final state of an execution of the model.
pub fn what_is_met_is_so_in_an_execution()
    ensures { (model : Model) (t : Litmus) (claim : Claim) (order : List Entry) → IsMet model t claim order
        → IsExecutionOf model t order × (truth_of (final_registers t order) (final_words t order) claim ≡ true) }
{}
