//! What the headline of `why` says, said again: what a printed refutation rules out, and where a printed execution leads. Of one test
//! and one model both are never printed.

ghost use Rattle.std.specs.Prelude.{◌≡◌, ◌<◌, ◌≤◌, ◌↔◌, ℕ, Bool, true, List, length, IsSome, IfSome};
ghost use Rattle.litmus_tokens.specs.declared.instructions.Instructions.{Instructions};
ghost use Rattle.tso_terms.specs.Litmus.{Litmus};
ghost use Rattle.tso_terms.specs.FinalState.{final_registers, final_words};
ghost use Rattle.tso_terms.specs.FlatMachine.{registers_in};
ghost use Rattle.tso_terms.specs.Runs.{run};
ghost use Rattle.basic_laws.specs.Types.{Choice, Entry};
ghost use Rattle.tso_laws.specs.Along.{LeadTo};
ghost use Rattle.tso_laws.specs.EndedRuns.{End};
ghost use Rattle.relational_model.specs.Candidates.{Candidate};
ghost use Rattle.relational_model.specs.CandidatesOfOrders.{IsCandidateOf};
ghost use Rattle.refutation_laws.specs.Models.{IsExecutionOf, depth_of};
ghost use Rattle.refutation_laws.specs.Refutations.{asked_claim};
ghost use Rattle.refutation_laws.specs.declared.model.Model.{Model};
ghost use Rattle.scheduler.specs.Grammar.{SpellsChoices};
ghost use Rattle.scheduler.specs.Printed.{printed_choices};
ghost use Rattle.lemma_refutations.specs.Refutations.{Lemma, Node, refutes};
ghost use Rattle.found_reasons.specs.Reasons.{most_cases};
ghost use Rattle.search_report.specs.PrintedReasons.{allowed_in, unfinished_cases_in};
ghost use Rattle.search_report.specs.RefutationReports.{refutation_in};
ghost use Rattle.command_line.specs.Explanation.{Explanation, IsExplanationWithinLimits};
ghost use Rattle.command_line.specs.declared.settings.Settings.{Settings};
ghost use Rattle.tso_cli.specs.Dividing.{parts_of};
ghost use Rattle.protocol_tables.specs.declared.kind.ProtocolKind.{ProtocolKind};
ghost use Rattle.multiprocessor.specs.Configuration.{Configuration};
ghost use Rattle.tso_cli.specs.RunTexts.{report_in};
ghost use Rattle.tso_cli.specs.Explained.{ReportsExecution};
ghost use Rattle.tso_cli.specs.Headline.{InputHeadline};
ghost use Rattle.tso_cli.specs.OneReason.{AreOneReason, GivesNoReason};
ghost use Rattle.tso_cli.specs.WhyHeadline.{IsSoIn, IsDepthOf, PrintsRefutation, PrintsExecutionOf};

use command_line::ReasonPlan;
use refutation_laws::model;
use tso_cli::headline_laws::headlines_leave_one_text;

/// A printed refutation is that of lemmas and a tree that refute.
pub fn a_printed_refutation_refutes()
    ensures { (t : Litmus) (model : Model) (json : Bool) (out : List ℕ) → PrintsRefutation t model json out
        → (lemmas : List Lemma) × (tree : List Node) × (out ≡ refutation_in json model t lemmas tree)
        × (refutes model t (asked_claim t.condition) lemmas tree ≡ true) }
{}

/// Where a refutation is printed, what is asked is so at the end of no execution of the model, and of no run.
pub fn a_printed_refutation_rules_out()
    ensures executions { (t : Litmus) (model : Model) (json : Bool) (out : List ℕ) (order : List Entry)
        → PrintsRefutation t model json out → IsExecutionOf model t order
        → ¬ IsSoIn t.condition (final_registers t order) (final_words t order) }
    ensures runs { (t : Litmus) (model : Model) (json : Bool) (out : List ℕ) (depth : ℕ) (choices : List Choice)
        → PrintsRefutation t model json out → IsDepthOf model depth → End t depth choices
        → ¬ IsSoIn t.condition (registers_in (run t depth choices).state) (run t depth choices).state.memory }
{}

/// A printed execution is one of the model, with a candidate of its own; choices that are read as printed lead there, and what is
/// asked is so at its end.
pub fn a_printed_execution_is_reached()
    ensures execution { (t : Litmus) (model : Model) (json : Bool) (out : List ℕ) (said : PrintsExecutionOf t model json out)
        → IsExecutionOf model t said.order }
    ensures holds { (t : Litmus) (model : Model) (json : Bool) (out : List ℕ) (said : PrintsExecutionOf t model json out)
        → IsSoIn t.condition (final_registers t said.order) (final_words t said.order) }
    ensures lead { (t : Litmus) (model : Model) (json : Bool) (out : List ℕ) (said : PrintsExecutionOf t model json out)
        → LeadTo t (depth_of model) said.choices said.order }
    ensures spelled { (t : Litmus) (model : Model) (json : Bool) (out : List ℕ) (said : PrintsExecutionOf t model json out)
        → SpellsChoices (length t.programs) (printed_choices said.choices) said.choices }
    ensures shown { (t : Litmus) (model : Model) (json : Bool) (out : List ℕ) (said : PrintsExecutionOf t model json out)
        → (c : Candidate) × IsCandidateOf t said.order c × (out ≡ allowed_in json model t c said.choices) }
{}

/// Of one test and one model a refutation and an execution are never both printed.
pub fn a_refutation_and_an_execution_are_never_both_printed()
    ensures { (t : Litmus) (model : Model) (json again : Bool) (out other : List ℕ)
        → PrintsRefutation t model json out → PrintsExecutionOf t model again other → ⊥ }
{}

/// Two texts for one input and one model never tell the one that it never is and the other that it can be.
pub fn reasons_for_one_input_agree()
    ensures reasons { (plan another : Explanation) (set : Instructions) (json again assert asserted : Bool) (input out other : List ℕ)
        → plan.model ≡ another.model
        → InputHeadline (Settings.Why plan set json assert) input out → InputHeadline (Settings.Why another set again asserted) input other
        → AreOneReason set (parts_of input).test plan another json again out other }
{
    headlines_leave_one_text();
}

/// A text without a reason says how many cases could be told apart; there can be more.
pub fn a_text_without_a_reason_names_its_limit()
    ensures printed { (t : Litmus) (plan : Explanation) (json : Bool) (out : List ℕ) (said : GivesNoReason t plan json out)
        → out ≡ unfinished_cases_in json t plan.cases }
    ensures fewer { (t : Litmus) (plan : Explanation) (json : Bool) (out : List ℕ) (said : GivesNoReason t plan json out)
        → plan.cases < most_cases t }
{}

/// Choices that were printed with an execution, run again, report that very execution.
pub fn a_printed_execution_is_run_again()
    ensures printed { (t : Litmus) (kind : ProtocolKind) (c : Configuration) (json : Bool) (order : List Entry) (out : List ℕ)
        (said : ReportsExecution t kind c json order out) → out ≡ report_in json t kind c said.shown }
    ensures reached { (t : Litmus) (kind : ProtocolKind) (c : Configuration) (json : Bool) (order : List Entry) (out : List ℕ)
        (said : ReportsExecution t kind c json order out) → said.shown.order ≡ order }
    ensures stalled { (t : Litmus) (kind : ProtocolKind) (c : Configuration) (json : Bool) (order : List Entry) (out : List ℕ)
        (said : ReportsExecution t kind c json order out) → said.shown.stalled ≡ 0 }
    ensures unused { (t : Litmus) (kind : ProtocolKind) (c : Configuration) (json : Bool) (order : List Entry) (out : List ℕ)
        (said : ReportsExecution t kind c json order out) → said.shown.unused ≡ 0 }
{}

/// A search for a reason tells from 1 to 1,000,000 cases apart.
pub fn a_reason_within_limits_is_looked_for(model: model::Model, cases: u32) -> Option<ReasonPlan>
    ensures made { IsSome result ↔ ((1 ≤ cases) × (cases ≤ 1000000)) }
    ensures value { IfSome result (λ p. p ≡ record { model = model; cases = cases }) }
    ensures valid { IsSome result ↔ IsExplanationWithinLimits (record { model = model; cases = cases }) }
{
    ReasonPlan::new(model, cases)
}

/// Whoever looks at a search for a reason knows that it is within the limits.
pub fn a_search_for_a_reason_is_within_limits(plan: &ReasonPlan) -> u32
    ensures { (1 ≤ result) × (result ≤ 1000000) }
{
    plan.cases()
}
