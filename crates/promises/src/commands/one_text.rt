//! What the headline leaves open of two texts, field by field.

ghost use Rattle.std.specs.Prelude.{◌++◌, ◌<◌, ◌^◌, ◌≡◌, ◌≤◌, ◌⊎◌, Bool, List, Option, Some, false, length, map, true, ℕ};
ghost use Rattle.litmus_tokens.specs.declared.instructions.Instructions.{Instructions};
ghost use Rattle.command_line.specs.Limits.{IsWithinLimits};
ghost use Rattle.scheduler.specs.Plan.{Plan};
ghost use Rattle.command_line.specs.Search.{Search};
ghost use Rattle.command_line.specs.declared.settings.Settings.{Settings};
ghost use Rattle.tso_cli.specs.CommandAnswers.{IsCheckAnswer};
ghost use Rattle.tso_cli.specs.CheckLines.{valid_line};
ghost use Rattle.tso_cli.specs.Dividing.{IsJoinable, joined_parts, parts_of};
ghost use Rattle.tso_cli.specs.RunTexts.{report_in};
ghost use Rattle.tso_cli.specs.Witness.{HasEndedWith, IsEndingAlong};
ghost use Rattle.tso_cli.specs.declared.answer.Status.{Status};
ghost use Rattle.tso_cli.specs.declared.answer.Status.TheVariants.{Good};
ghost use Rattle.multiprocessor.specs.Configuration.{Configuration};
ghost use Rattle.search_report.specs.Laws.{OutcomesAreAlike};
ghost use Rattle.search_report.specs.Outcomes.{Outcome, failed_in, held_in, shown_values, true_in};
ghost use Rattle.search_report.specs.OutcomesJson.{holds_in};
ghost use Rattle.search_report.specs.PrintedOutcomes.{outcomes_in};
ghost use Rattle.protocol_tables.specs.declared.kind.ProtocolKind.{ProtocolKind};
ghost use Rattle.scheduler.specs.Grammar.{SpellsChoices};
ghost use Rattle.tso_report.specs.ShownNames.{names_shown};
ghost use Rattle.machine_runs.specs.Simulation.{IsEndingOf};
ghost use Rattle.machine_runs.specs.declared.driving.Ending.{Ending};
ghost use Rattle.std.specs.Option.{ForSome};
ghost use Rattle.trace_report.specs.TracedRun.{json_ended};
ghost use Rattle.trace_report.specs.Lines.{trace_text};
ghost use Rattle.tso_cli.specs.Answers.{IsAnswer};
ghost use Rattle.tso_cli.specs.Headline.{InputHeadline};
ghost use Rattle.tso_cli.specs.OneText.{AreOneTrace, ReachOneOrder, ShowOneExecution, ShowTheSameStates, TraceOneExecution, TraceOneObject};
ghost use Rattle.tso_cli.specs.RunHeadline.{PrintsExecution};
ghost use Rattle.tso_laws.specs.Along.{LeadTo};
ghost use Rattle.tso_laws.specs.Depth.{needed};
ghost use Rattle.tso_terms.specs.Axioms.{IsTsoExecution};
ghost use Rattle.tso_terms.specs.Litmus.{IsTest, Litmus};
ghost use Rattle.tso_terms.specs.Runs.{Run, run};
ghost use Rattle.basic_laws.specs.Types.{Choice, Entry};
ghost use Rattle.tso_report.specs.Json.{json_report};
ghost use Rattle.tso_report.specs.Report.{head};
ghost use Rattle.tso_report.specs.declared.named.Named.{Named};

use tso_cli::answers::inputs_have_one_answer;
use tso_cli::headline_laws::headlines_leave_one_text;
use tso_cli::round_trips::{led_simulations_end, printed_runs_are_valid};

/// Two reports of one run show the same order, registers, memory and verdict of one test.
pub fn two_reports_show_one_execution()
    ensures first { (kind : ProtocolKind) (c : Configuration) (json : Bool) (out other : List ℕ)
        (said : ShowOneExecution kind c json out other) → out ≡ report_in json said.t kind c said.shown }
    ensures second { (kind : ProtocolKind) (c : Configuration) (json : Bool) (out other : List ℕ)
        (said : ShowOneExecution kind c json out other) → other ≡ report_in json said.t kind c said.again }
    ensures order { (kind : ProtocolKind) (c : Configuration) (json : Bool) (out other : List ℕ)
        (said : ShowOneExecution kind c json out other) → said.shown.order ≡ said.again.order }
    ensures registers { (kind : ProtocolKind) (c : Configuration) (json : Bool) (out other : List ℕ)
        (said : ShowOneExecution kind c json out other) → said.shown.registers ≡ said.again.registers }
    ensures memory { (kind : ProtocolKind) (c : Configuration) (json : Bool) (out other : List ℕ)
        (said : ShowOneExecution kind c json out other) → said.shown.memory ≡ said.again.memory }
    ensures holds { (kind : ProtocolKind) (c : Configuration) (json : Bool) (out other : List ℕ)
        (said : ShowOneExecution kind c json out other) → said.shown.holds ≡ said.again.holds }
{}

/// Two traces tell the same steps, and are such reports without them.
pub fn two_traces_tell_one_execution()
    ensures first { (kind : ProtocolKind) (c : Configuration) (out other : List ℕ) (said : TraceOneExecution kind c out other)
        → out ≡ head said.t kind c ++ (trace_text said.t c.shape.words said.steps ++ said.rest) }
    ensures second { (kind : ProtocolKind) (c : Configuration) (out other : List ℕ) (said : TraceOneExecution kind c out other)
        → other ≡ head said.t kind c ++ (trace_text said.t c.shape.words said.steps ++ said.again) }
    ensures reports { (kind : ProtocolKind) (c : Configuration) (out other : List ℕ) (said : TraceOneExecution kind c out other)
        → ShowOneExecution kind c false (head said.t kind c ++ said.rest) (head said.t kind c ++ said.again) }
{}

/// As JSON they are the objects of such reports.
pub fn two_objects_tell_one_execution()
    ensures first { (kind : ProtocolKind) (c : Configuration) (out other : List ℕ) (said : TraceOneObject kind c out other)
        → out ≡ json_ended said.t kind c said.choices said.shown }
    ensures second { (kind : ProtocolKind) (c : Configuration) (out other : List ℕ) (said : TraceOneObject kind c out other)
        → other ≡ json_ended said.t kind c said.choices said.again }
    ensures reports { (kind : ProtocolKind) (c : Configuration) (out other : List ℕ) (said : TraceOneObject kind c out other)
        → ShowOneExecution kind c true (json_report said.t kind c said.shown) (json_report said.t kind c said.again) }
{}

/// Two texts of `outcomes` show states of one test that are alike.
pub fn two_texts_show_the_same_states()
    ensures first { (s : Search) (json : Bool) (out other : List ℕ) (said : ShowTheSameStates s json out other)
        → out ≡ outcomes_in json said.t (names_shown s.show said.t) s.depth said.outcomes }
    ensures second { (s : Search) (json : Bool) (out other : List ℕ) (said : ShowTheSameStates s json out other)
        → other ≡ outcomes_in json said.t (names_shown s.show said.t) s.depth said.others }
    ensures alike { (s : Search) (json : Bool) (out other : List ℕ) (said : ShowTheSameStates s json out other)
        → OutcomesAreAlike said.t (names_shown s.show said.t) said.outcomes said.others }
    ensures values { (t : Litmus) (names : List Named) (outcomes others : List Outcome) → OutcomesAreAlike t names outcomes others
        → map (shown_values names) outcomes ≡ map (shown_values names) others }
    ensures holds { (t : Litmus) (names : List Named) (outcomes others : List Outcome) → OutcomesAreAlike t names outcomes others
        → map (holds_in t.condition) outcomes ≡ map (holds_in t.condition) others }
    ensures held { (t : Litmus) (names : List Named) (outcomes others : List Outcome) → OutcomesAreAlike t names outcomes others
        → ForSome t.condition (λ c. held_in c.claim outcomes ≡ held_in c.claim others) }
    ensures failed { (t : Litmus) (names : List Named) (outcomes others : List Outcome) → OutcomesAreAlike t names outcomes others
        → ForSome t.condition (λ c. failed_in c.claim outcomes ≡ failed_in c.claim others) }
    ensures numbers { (t : Litmus) (names : List Named) (outcomes others : List Outcome) → OutcomesAreAlike t names outcomes others
        → ForSome t.condition (λ c. true_in c.claim outcomes ≡ true_in c.claim others) }
{}

/// Two texts of `witness` spell choices that lead to one order.
pub fn two_texts_reach_one_order()
    ensures first { (depth : ℕ) (out other : List ℕ) (said : ReachOneOrder depth out other)
        → SpellsChoices (length said.t.programs) out said.choices }
    ensures second { (depth : ℕ) (out other : List ℕ) (said : ReachOneOrder depth out other)
        → SpellsChoices (length said.t.programs) other said.others }
    ensures lead { (depth : ℕ) (out other : List ℕ) (said : ReachOneOrder depth out other)
        → LeadTo said.t depth said.choices said.order }
    ensures lead_too { (depth : ℕ) (out other : List ℕ) (said : ReachOneOrder depth out other)
        → LeadTo said.t depth said.others said.order }
{}

/// The headline leaves such texts, and one text of `sweep`, `counts` and `check`.
pub fn headlines_leave_one_text_of_each_command()
    ensures runs { (kind : ProtocolKind) (c : Configuration) (set : Instructions) (json : Bool) (input out other : List ℕ)
        → InputHeadline (Settings.Run kind c set json) input out → InputHeadline (Settings.Run kind c set json) input other
        → (out ≡ other) ⊎ ShowOneExecution kind c json out other }
    ensures traces { (kind : ProtocolKind) (c : Configuration) (set : Instructions) (json : Bool) (input out other : List ℕ)
        → InputHeadline (Settings.Trace kind c set json) input out → InputHeadline (Settings.Trace kind c set json) input other
        → AreOneTrace kind c json out other }
    ensures sweeps { (kind : ProtocolKind) (c : Configuration) (set : Instructions) (plan : Plan) (input out other : List ℕ)
        → InputHeadline (Settings.Sweep kind c set plan) input out → InputHeadline (Settings.Sweep kind c set plan) input other
        → out ≡ other }
    ensures counts { (kind : ProtocolKind) (c : Configuration) (set : Instructions) (plan : Option Plan) (json : Bool) (input out other : List ℕ)
        → InputHeadline (Settings.Counts kind c set plan json) input out → InputHeadline (Settings.Counts kind c set plan json) input other
        → out ≡ other }
    ensures checks { (set : Instructions) (input out other : List ℕ) → InputHeadline (Settings.Check set) input out
        → InputHeadline (Settings.Check set) input other → out ≡ other }
    ensures witnesses { (depth : ℕ) (set : Instructions) (input out other : List ℕ) → InputHeadline (Settings.Witness depth set) input out
        → InputHeadline (Settings.Witness depth set) input other → (out ≡ other) ⊎ ReachOneOrder depth out other }
{
    headlines_leave_one_text();
}

/// Each command but `outcomes` gives one answer to an input, and so one status.
pub fn each_command_gives_one_answer()
    ensures runs { (kind : ProtocolKind) (config : Configuration) (set : Instructions) (json : Bool) (input out other : List ℕ) (status again : Status)
        → IsAnswer (Settings.Run kind config set json) (Some input) out status
        → IsAnswer (Settings.Run kind config set json) (Some input) other again → (out ≡ other) × (status ≡ again) }
    ensures traces { (kind : ProtocolKind) (config : Configuration) (set : Instructions) (json : Bool) (input out other : List ℕ) (status again : Status)
        → IsAnswer (Settings.Trace kind config set json) (Some input) out status
        → IsAnswer (Settings.Trace kind config set json) (Some input) other again → (out ≡ other) × (status ≡ again) }
    ensures sweeps { (kind : ProtocolKind) (config : Configuration) (set : Instructions) (plan : Plan) (input out other : List ℕ) (status again : Status)
        → IsAnswer (Settings.Sweep kind config set plan) (Some input) out status
        → IsAnswer (Settings.Sweep kind config set plan) (Some input) other again → (out ≡ other) × (status ≡ again) }
    ensures counts { (kind : ProtocolKind) (config : Configuration) (set : Instructions) (plan : Option Plan)
        (json : Bool) (input out other : List ℕ) (status again : Status)
        → IsAnswer (Settings.Counts kind config set plan json) (Some input) out status
        → IsAnswer (Settings.Counts kind config set plan json) (Some input) other again → (out ≡ other) × (status ≡ again) }
    ensures checks { (set : Instructions) (input out other : List ℕ) (status again : Status) → IsAnswer (Settings.Check set) (Some input) out status
        → IsAnswer (Settings.Check set) (Some input) other again → (out ≡ other) × (status ≡ again) }
    ensures witnesses { (depth : ℕ) (set : Instructions) (input out other : List ℕ) (status again : Status)
        → IsAnswer (Settings.Witness depth set) (Some input) out status → IsAnswer (Settings.Witness depth set) (Some input) other again
        → (out ≡ other) × (status ≡ again) }
    ensures tables { (kind : ProtocolKind) (input out other : List ℕ) (status again : Status)
        → IsAnswer (Settings.Tables kind) (Some input) out status → IsAnswer (Settings.Tables kind) (Some input) other again
        → (out ≡ other) × (status ≡ again) }
{
    inputs_have_one_answer();
}

/// A simulation under choices that lead to an order ends with it; what is printed of a run is valid.
pub fn led_runs_end_with_their_order()
    ensures led { (t : Litmus) (depth : ℕ) (choices : List Choice) (order : List Entry) (ending : Ending)
        → LeadTo t depth choices order → IsEndingOf t (run t depth choices) ending → HasEndedWith order ending }
    ensures along { (t : Litmus) (depth : ℕ) (order : List Entry) (ending : Ending) → IsTest t → IsTsoExecution t order
        → needed order ≤ depth → IsEndingAlong t depth order ending → HasEndedWith order ending }
    ensures tests { (t : Litmus) (kind : ProtocolKind) (c : Configuration) (r : Run) (out answer : List ℕ) (status : Status)
        → IsTest t → length out < 2 ^ 64 → PrintsExecution t kind c false r out → IsCheckAnswer t out answer status
        → (answer ≡ valid_line) × (status ≡ Good) }
    ensures inputs { (kind : ProtocolKind) (c : Configuration) (set : Instructions) (input out answer : List ℕ) (status : Status)
        → IsWithinLimits (Settings.Run kind c set false) → IsJoinable (parts_of input).test
        → IsAnswer (Settings.Run kind c set false) (Some input) out Good
        → IsAnswer (Settings.Check set) (Some (joined_parts (parts_of input).test out)) answer status
        → (answer ≡ valid_line) × (status ≡ Good) }
{
    led_simulations_end();
    printed_runs_are_valid();
}
