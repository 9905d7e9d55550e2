//! Laws of what one command prints and another reads: `check` accepts what `run` prints, and `run` follows the choices that
//! `witness`, `outcomes` and `why` print. Each is the contract of a function that does nothing: who calls it knows it.

ghost use Rattle.std.specs.Prelude.{◌≡◌, ◌<◌, ◌≤◌, ◌^◌, ℕ, Bool, false, List, Some, length};
ghost use Rattle.tso_terms.specs.Limits.{most_depth};
ghost use Rattle.tso_terms.specs.Litmus.{Litmus, IsTest};
ghost use Rattle.tso_terms.specs.Axioms.{IsTsoExecution};
ghost use Rattle.tso_terms.specs.Runs.{Run, run};
ghost use Rattle.tso_terms.specs.declared.choice.Bus.TheVariants.{Atomic};
ghost use Rattle.tso_terms.specs.declared.choice.Choice.{Choice};
ghost use Rattle.tso_terms.specs.declared.execution.Entry.{Entry};
ghost use Rattle.tso_laws.specs.Along.{choices_along, LeadTo};
ghost use Rattle.tso_laws.specs.Depth.{needed};
ghost use Rattle.refutation_laws.specs.Models.{depth_of};
ghost use Rattle.litmus_tokens.specs.declared.instructions.Instructions.{Instructions};
ghost use Rattle.protocol_tables.specs.declared.kind.ProtocolKind.{ProtocolKind};
ghost use Rattle.multiprocessor.specs.Configuration.{Configuration};
ghost use Rattle.tso_cli.specs.Answers.{IsAnswer, IsPrinted};
ghost use Rattle.tso_cli.specs.CommandAnswers.{IsCheckAnswer};
ghost use Rattle.tso_cli.specs.CheckLines.{valid_line};
ghost use Rattle.tso_cli.specs.Explained.{IsExplained};
ghost use Rattle.tso_cli.specs.RunHeadline.{PrintsExecution};
ghost use Rattle.command_line.specs.Limits.{IsWithinLimits};
ghost use Rattle.tso_cli.specs.Revisited.{AreRevisited};
ghost use Rattle.command_line.specs.Explanation.{Explanation};
ghost use Rattle.command_line.specs.Search.{Search};
ghost use Rattle.tso_cli.specs.Dividing.{parts_of, joined_parts, IsJoinable};
ghost use Rattle.machine_runs.specs.Simulation.{IsEndingOf};
ghost use Rattle.tso_cli.specs.Witness.{witness_line, IsWitness, IsEndingAlong, HasEndedWith, ReportsOrder};
ghost use Rattle.machine_runs.specs.declared.driving.Ending.{Ending};
ghost use Rattle.tso_cli.specs.declared.answer.Status.{Status};
ghost use Rattle.tso_cli.specs.declared.answer.Status.TheVariants.{Good, Refused};
ghost use Rattle.command_line.specs.declared.settings.Settings.{Settings};

use crate::answers::texts_are_read_one_way;
use axiom_checker::first_breaches::first_breach_is_real;
use lemma_refutations::{no_run_meets_what_is_refuted, refutations_by_lemmas_are_sound};
use machine_runs::ended_runs_of_machines_are_executions;
use refutation_laws::refuted_questions_are_answered;
use scheduler::printed_choices_are_spelled;
use tso_laws::{
    atomic_runs_are_flat_runs, choices_to_an_end_are_counted, ends_are_what_tso_allows,
    every_execution_is_reached, most_stores_are_depth_enough, runs_are_counted,
    runs_on_either_bus_stop_where_they_end, smaller_depths_never_reach,
    whole_orders_have_each_entry_once,
};
use tso_report::report_texts::{report_spells_its_order, reports_are_short};

/// A first part that ends in a line feed and has no dividing line, put before a dividing line and a
/// second part, is separated from it again.
pub fn joined_parts_are_separated()
    ensures { (test rest : List ℕ) → IsJoinable test → parts_of (joined_parts test rest) ≡ record { test = test; rest = rest } }
{}

/// What `run` prints of a run that ended, but for JSON, handed to `check` with the same test, is answered `Check
/// valid`, with the status of success: of one test, and of the whole inputs, where the second has the
/// first part of the first, the dividing line and what was printed.
pub fn printed_runs_are_valid()
    ensures tests { (t : Litmus) (kind : ProtocolKind) (c : Configuration) (r : Run) (out answer : List ℕ) (status : Status)
        → IsTest t → length out < 2 ^ 64 → PrintsExecution t kind c false r out → IsCheckAnswer t out answer status
        → (answer ≡ valid_line) × (status ≡ Good) }
    ensures inputs { (kind : ProtocolKind) (c : Configuration) (set : Instructions) (input out answer : List ℕ) (status : Status)
        → IsWithinLimits (Settings.Run kind c set false) → IsJoinable (parts_of input).test
        → IsAnswer (Settings.Run kind c set false) (Some input) out Good
        → IsAnswer (Settings.Check set) (Some (joined_parts (parts_of input).test out)) answer status
        → (answer ≡ valid_line) × (status ≡ Good) }
{
    texts_are_read_one_way();
    atomic_runs_are_flat_runs();
    runs_on_either_bus_stop_where_they_end();
    ended_runs_of_machines_are_executions();
    whole_orders_have_each_entry_once();
    report_spells_its_order();
    reports_are_short();
    joined_parts_are_separated();
}

/// What `run` prints of a run that ended, but for JSON, has at most 32,768 bytes.
pub fn printed_runs_are_short()
    ensures { (kind : ProtocolKind) (c : Configuration) (set : Instructions) (input out : List ℕ)
        → IsWithinLimits (Settings.Run kind c set false) → IsAnswer (Settings.Run kind c set false) (Some input) out Good → length out ≤ 32768 }
{
    texts_are_read_one_way();
    atomic_runs_are_flat_runs();
    runs_on_either_bus_stop_where_they_end();
    ended_runs_of_machines_are_executions();
    whole_orders_have_each_entry_once();
    report_spells_its_order();
    reports_are_short();
}

/// Where choices lead to an order, what `simulate` answers under them on the atomic bus has ended with
/// that very order, whatever the protocol and the shape of the caches: no choice stalled, and none was
/// left over. The choices along a TSO execution are such, if the depth is enough for it.
pub fn led_simulations_end()
    ensures led { (t : Litmus) (depth : ℕ) (choices : List Choice) (order : List Entry) (ending : Ending)
        → LeadTo t depth choices order → IsEndingOf t (run t depth choices) ending → HasEndedWith order ending }
    ensures along { (t : Litmus) (depth : ℕ) (order : List Entry) (ending : Ending)
        → IsTest t → IsTsoExecution t order → needed order ≤ depth → IsEndingAlong t depth order ending → HasEndedWith order ending }
{
    every_execution_is_reached();
}

/// At the greatest depth `witness` finds choices for each TSO execution: it answers no depth there.
pub fn greatest_depth_is_enough()
    ensures { (t : Litmus) (order : List Entry) (out : List ℕ) (status : Status)
        → IsTest t → IsTsoExecution t order → IsWitness t most_depth order out status
        → (out ≡ witness_line (choices_along t order)) × (status ≡ Good) }
{
    most_stores_are_depth_enough();
    first_breach_is_real();
}

/// What `witness` prints where it finds choices, handed to `run` at the same depth on the atomic bus
/// with the same test, is answered with the report of a run that ended with that very order, and with
/// the status of success, whatever the protocol and the shape of the caches: no choice stalled, and
/// none was left over.
pub fn witnesses_reach_their_orders()
    ensures { (kind : ProtocolKind) (c : Configuration) (set : Instructions) (json : Bool) (input out answer : List ℕ) (status : Status)
        → c.bus ≡ Atomic → IsWithinLimits (Settings.Run kind c set json) → IsJoinable (parts_of input).test
        → IsAnswer (Settings.Witness c.depth set) (Some input) out Good
        → IsAnswer (Settings.Run kind c set json) (Some (joined_parts (parts_of input).test out)) answer status
        → ReportsOrder kind c set json (parts_of input) answer × (status ≡ Good) }
{
    texts_are_read_one_way();
    every_execution_is_reached();
    smaller_depths_never_reach();
    runs_are_counted();
    printed_choices_are_spelled();
    joined_parts_are_separated();
}

/// The choices that `outcomes` prints for a state, of all that there are or of some, handed to `run` at the same depth on the atomic
/// bus with the same test, are answered with the report of a run that ended with the printed values, and with the status of success,
/// whatever the protocol and the shape of the caches: no choice stalled, and none was left over.
pub fn searches_reach_their_states()
    ensures { (kind : ProtocolKind) (c : Configuration) (set : Instructions) (search : Search) (json told assert : Bool) (input out : List ℕ) (status : Status)
        → c.bus ≡ Atomic → search.depth ≡ c.depth → IsWithinLimits (Settings.Run kind c set json) → IsJoinable (parts_of input).test
        → ¬ (status ≡ Refused) → IsAnswer (Settings.Outcomes search set told assert) (Some input) out status
        → AreRevisited kind c set search json told (parts_of input).test out }
{
    texts_are_read_one_way();
    every_execution_is_reached();
    smaller_depths_never_reach();
    runs_are_counted();
    printed_choices_are_spelled();
    joined_parts_are_separated();
    ends_are_what_tso_allows();
    choices_to_an_end_are_counted();
}

/// The choices that `why` prints with an execution, handed to `run` on the atomic bus with the same test, at depth 32 for TSO and 0 for
/// sequential consistency, are answered with the report of a run that ended with the order of that very execution, and with the status
/// of success, whatever the protocol and the shape of the caches: no choice stalled, and none was left over. Where none is printed, a
/// refutation is.
pub fn reasons_reach_their_executions()
    ensures { (kind : ProtocolKind) (c : Configuration) (set : Instructions) (plan : Explanation)
        (json told assert : Bool) (input out : List ℕ) (status : Status)
        → c.bus ≡ Atomic → c.depth ≡ depth_of plan.model → IsWithinLimits (Settings.Run kind c set json) → IsJoinable (parts_of input).test
        → IsPrinted status → IsAnswer (Settings.Why plan set told assert) (Some input) out status
        → IsExplained kind c set json plan.model told (parts_of input).test out }
{
    texts_are_read_one_way();
    every_execution_is_reached();
    smaller_depths_never_reach();
    runs_are_counted();
    printed_choices_are_spelled();
    joined_parts_are_separated();
    refuted_questions_are_answered();
    refutations_by_lemmas_are_sound();
    no_run_meets_what_is_refuted();
}
