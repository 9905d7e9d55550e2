//! What the headline says of each command, field by field.

ghost use Rattle.std.specs.Prelude.{◌+◌, ◌<◌, ◌^◌, ◌⊎◌, ◌≡◌, ◌≢◌, ◌≤◌, All, Bool, IfSome, List, if◌then◌else◌, is_some, length, true, ℕ};
ghost use Rattle.litmus_tokens.specs.declared.instructions.Instructions.{Instructions};
ghost use Rattle.command_line.specs.Instructions.{instructions_of};
ghost use Rattle.scheduler.specs.Plan.{Plan, most_seeds};
ghost use Rattle.command_line.specs.Search.{Search};
ghost use Rattle.command_line.specs.declared.settings.Settings.{Settings};
ghost use Rattle.tso_cli.specs.Dividing.{EndsInFeed, HasNoDivider, IsJoinable, Parts};
ghost use Rattle.tso_cli.specs.Lines.{test_refusal};
ghost use Rattle.tso_cli.specs.Outcomes.{AreAllOutcomes};
ghost use Rattle.tso_cli.specs.RunTexts.{report_in};
ghost use Rattle.tso_cli.specs.Sweep.{IsSweepAnswer};
ghost use Rattle.tso_cli.specs.Witness.{ReportsOrder};
ghost use Rattle.tso_cli.specs.declared.answer.Status.{Status};
ghost use Rattle.tso_cli.specs.declared.answer.Status.TheVariants.{Good};
ghost use Rattle.litmus_reader.specs.Spelling.{IsRefused as IsRefusedTest, SpellsTest};
ghost use Rattle.litmus_reader.specs.declared.fault.TextFault.{TextFault};
ghost use Rattle.multiprocessor.specs.Configuration.{Configuration};
ghost use Rattle.order_builder.specs.Spelling.{SpellsOrder};
ghost use Rattle.tso_laws.specs.Outcomes.{IsSequentiallyConsistent};
ghost use Rattle.search_report.specs.MetOutcomes.{unfinished_search_in};
ghost use Rattle.search_report.specs.PrintedOutcomes.{outcomes_in};
ghost use Rattle.protocol_tables.specs.Names.{protocol_name};
ghost use Rattle.protocol_tables.specs.PrintedTable.{printed_table};
ghost use Rattle.protocol_tables.specs.Tables.{table_of};
ghost use Rattle.protocol_tables.specs.declared.kind.ProtocolKind.{ProtocolKind};
ghost use Rattle.scheduler.specs.Grammar.{SpellsChoices};
ghost use Rattle.scheduler.specs.Limits.{most_choices};
ghost use Rattle.scheduler.specs.Printed.{printed_choices};
ghost use Rattle.tso_report.specs.ShownNames.{names_shown, values_at};
ghost use Rattle.machine_runs.specs.Runs.{AnswersFit, run_under};
ghost use Rattle.sweep_runs.specs.Counting.{SweepAnswersFit, sweep_counts};
ghost use Rattle.tso_cli.specs.Answers.{IsTableAnswer};
ghost use Rattle.tso_cli.specs.Fitting.{IsStateOf, shown_under};
ghost use Rattle.tso_cli.specs.Headline.{HeadlineOf, PartsHeadline};
ghost use Rattle.tso_cli.specs.OutcomesHeadline.{AreExactly, PrintsAllOutcomes};
ghost use Rattle.tso_cli.specs.Revisited.{AreRevisited, IsRevisited, ReportsValues};
ghost use Rattle.tso_cli.specs.RunHeadline.{PrintsExecution};
ghost use Rattle.tso_cli.specs.SweepHeadline.{HasPart, PrintsSweep, seeded_order};
ghost use Rattle.tso_terms.specs.Axioms.{IsTsoExecution};
ghost use Rattle.tso_terms.specs.Limits.{most_depth};
ghost use Rattle.tso_terms.specs.Litmus.{IsTest, Litmus};
ghost use Rattle.tso_terms.specs.Registers.{IsWord};
ghost use Rattle.tso_terms.specs.Runs.{Run};
ghost use Rattle.tso_terms.specs.SequentialConsistency.{KeepsAllOrder};
ghost use Rattle.basic_laws.specs.Types.{Atomic, Choice};
ghost use Rattle.tso_report.specs.Limits.{IsSmall};
ghost use Rattle.tso_report.specs.Shown.{IsRunOf, ShownRun};
ghost use Rattle.tso_report.specs.Tally.{Ascend, count_of_runs, ended_in, looked_at, runs_in, counted_state_line, with_values};
ghost use Rattle.tso_report.specs.declared.named.Named.{Named};

use tso_cli::answers::runs_fit_their_tests;
use tso_report::report_texts::one_more_run_is_counted;

/// Each first part that spells a test is answered of this test, and every other is refused.
pub fn a_test_or_its_refusal_is_answered()
    ensures every_test { (s : Settings) (parts : Parts) (out : List ℕ) → PartsHeadline s parts out → (t : Litmus)
        → SpellsTest (instructions_of s) parts.test t → HeadlineOf s t parts.rest out }
    ensures every_other { (s : Settings) (parts : Parts) (out : List ℕ) → PartsHeadline s parts out
        → ((t : Litmus) → ¬ (SpellsTest (instructions_of s) parts.test t))
        → (fault : TextFault) × IsRefusedTest (instructions_of s) parts.test fault × (out ≡ test_refusal fault) }
{}

/// At depth 0 the printed order keeps program order without exception.
pub fn without_buffers_all_order_is_kept()
    ensures unbuffered { (t : Litmus) (kind : ProtocolKind) (c : Configuration) (json : Bool) (r : Run) (out : List ℕ)
        (said : PrintsExecution t kind c json r out) → c.depth ≡ 0 → KeepsAllOrder said.shown.order }
{}

/// Each run of a sweep that ended is an execution, and each number is that of its runs.
pub fn a_sweep_prints_executions()
    ensures runs { (t : Litmus) (kind : ProtocolKind) (c : Configuration) (plan : Plan) (run_of : List Choice → Run)
        (out : List ℕ) (said : PrintsSweep t kind c plan run_of out) → runs_in said.counts ≡ plan.seeds }
    ensures executions { (t : Litmus) (kind : ProtocolKind) (c : Configuration) (plan : Plan) (run_of : List Choice → Run) (out : List ℕ)
        → PrintsSweep t kind c plan run_of out → (n : ℕ) → n < plan.seeds
        → IfSome (seeded_order t run_of plan (plan.from + n)) (IsTsoExecution t) }
    ensures every_seed { (t : Litmus) (kind : ProtocolKind) (c : Configuration) (plan : Plan) (run_of : List Choice → Run) (out : List ℕ)
        → PrintsSweep t kind c plan run_of out → c.bus ≡ Atomic → (seed : ℕ)
        → IfSome (seeded_order t run_of plan seed) (IsTsoExecution t) }
    ensures unbuffered { (t : Litmus) (kind : ProtocolKind) (c : Configuration) (plan : Plan) (run_of : List Choice → Run) (out : List ℕ)
        → PrintsSweep t kind c plan run_of out → c.depth ≡ 0 → (n : ℕ) → n < plan.seeds
        → IfSome (seeded_order t run_of plan (plan.from + n)) KeepsAllOrder }
    ensures lines { (t : Litmus) (kind : ProtocolKind) (c : Configuration) (plan : Plan) (run_of : List Choice → Run)
        (out : List ℕ) (said : PrintsSweep t kind c plan run_of out)
        → All (λ state. HasPart out (counted_state_line t state)) said.counts.states }
{}

/// What `outcomes` prints is all that can be reached, and at depth 32 and 0 exactly what is allowed, by the values that are shown.
pub fn outcomes_prints_what_is_allowed()
    ensures printed { (t : Litmus) (s : Search) (json : Bool) (out : List ℕ) (said : PrintsAllOutcomes t s json out)
        → out ≡ outcomes_in json t (names_shown s.show t) s.depth said.outcomes }
    ensures all { (t : Litmus) (s : Search) (json : Bool) (out : List ℕ) (said : PrintsAllOutcomes t s json out)
        → AreAllOutcomes t (names_shown s.show t) s.depth said.outcomes }
    ensures tso { (t : Litmus) (s : Search) (json : Bool) (out : List ℕ) (said : PrintsAllOutcomes t s json out)
        → s.depth ≡ most_depth → AreExactly t (names_shown s.show t) said.outcomes (IsTsoExecution t) }
    ensures sequential { (t : Litmus) (s : Search) (json : Bool) (out : List ℕ) (said : PrintsAllOutcomes t s json out)
        → s.depth ≡ 0 → AreExactly t (names_shown s.show t) said.outcomes (IsSequentiallyConsistent t) }
    ensures spelled { (t : Litmus) (s : Search) (json : Bool) (out : List ℕ) (said : PrintsAllOutcomes t s json out)
        → All (λ o. SpellsChoices (length t.programs) (printed_choices o.choices) o.choices) said.outcomes }
{}

/// `tables` prints the table, with success.
pub fn a_table_is_printed()
    ensures text { (kind : ProtocolKind) (out : List ℕ) (status : Status) → IsTableAnswer kind out status
        → out ≡ printed_table (protocol_name kind) (table_of kind) }
    ensures status_is { (kind : ProtocolKind) (out : List ℕ) (status : Status) → IsTableAnswer kind out status → status ≡ Good }
{}

/// Choices of a printed state end there when they are run.
pub fn printed_choices_end_in_printed_states()
    ensures printed_states { (kind : ProtocolKind) (c : Configuration) (set : Instructions) (s : Search) (json told : Bool) (test out : List ℕ)
        (said : AreRevisited kind c set s json told test out) → (out ≡ outcomes_in told said.t (names_shown s.show said.t) s.depth said.outcomes)
        ⊎ (out ≡ unfinished_search_in told said.t (names_shown s.show said.t) s.states said.outcomes) }
    ensures each { (kind : ProtocolKind) (c : Configuration) (set : Instructions) (s : Search) (json told : Bool) (test out : List ℕ)
        (said : AreRevisited kind c set s json told test out)
        → All (IsRevisited kind c set json test said.t (names_shown s.show said.t)) said.outcomes }
    ensures printed { (t : Litmus) (names : List Named) (kind : ProtocolKind) (c : Configuration) (json : Bool) (values out : List ℕ)
        (said : ReportsValues t names kind c json values out) → out ≡ report_in json t kind c said.shown }
    ensures values_are { (t : Litmus) (names : List Named) (kind : ProtocolKind) (c : Configuration) (json : Bool) (values out : List ℕ)
        (said : ReportsValues t names kind c json values out) → values_at names said.shown.registers said.shown.memory ≡ values }
    ensures stalled { (t : Litmus) (names : List Named) (kind : ProtocolKind) (c : Configuration) (json : Bool) (values out : List ℕ)
        (said : ReportsValues t names kind c json values out) → said.shown.stalled ≡ 0 }
    ensures unused { (t : Litmus) (names : List Named) (kind : ProtocolKind) (c : Configuration) (json : Bool) (values out : List ℕ)
        (said : ReportsValues t names kind c json values out) → said.shown.unused ≡ 0 }
{}

/// What is shown of a run, and counted of a sweep, fits the test.
pub fn runs_fit_their_test()
    ensures of_test { (t : Litmus) (kind : ProtocolKind) (c : Configuration) (choices : List Choice) → IsTest t
        → length choices ≤ most_choices → AnswersFit t kind c choices → (run_under t kind c choices).ended ≡ true
        → IsRunOf t (shown_under t kind c choices) }
    ensures small { (t : Litmus) (kind : ProtocolKind) (c : Configuration) (choices : List Choice) → IsTest t
        → length choices ≤ most_choices → AnswersFit t kind c choices → (run_under t kind c choices).ended ≡ true
        → IsSmall t (shown_under t kind c choices) }
    ensures states { (t : Litmus) (kind : ProtocolKind) (c : Configuration) (plan : Plan) → IsTest t → plan.seeds ≤ most_seeds
        → SweepAnswersFit t kind c plan → All (λ state. IsStateOf t state.0) (sweep_counts t kind c plan).states }
    ensures verdicts { (t : Litmus) (kind : ProtocolKind) (c : Configuration) (plan : Plan) → IsTest t → plan.seeds ≤ most_seeds
        → SweepAnswersFit t kind c plan → (sweep_counts t kind c plan).held + (sweep_counts t kind c plan).failed
        ≡ (if is_some t.condition then ended_in (sweep_counts t kind c plan) else 0) }
    ensures few { (t : Litmus) (kind : ProtocolKind) (c : Configuration) (plan : Plan) → IsTest t → plan.seeds ≤ most_seeds
        → SweepAnswersFit t kind c plan → runs_in (sweep_counts t kind c plan) < 2 ^ 64 }
{
    runs_fit_their_tests();
}

/// A counted state has a word for each value that is looked at.
pub fn a_counted_state_is_of_the_test()
    ensures each { (t : Litmus) (values : List ℕ) → IsStateOf t values → length values ≡ length (looked_at t) }
    ensures words { (t : Litmus) (values : List ℕ) → IsStateOf t values → All IsWord values }
    ensures verdict { (t : Litmus) (s : ShownRun) → IsRunOf t s → is_some s.holds ≡ is_some t.condition }
{}

/// A text that is put before a dividing line ends in a line feed and has no such line.
pub fn joinable_texts_end_their_last_line()
    ensures ends { (text : List ℕ) → IsJoinable text → EndsInFeed text }
    ensures undivided { (text : List ℕ) → IsJoinable text → HasNoDivider text }
{}

/// A sweep's answers are such as caches may give.
pub fn a_swept_answer_fits_its_caches()
    ensures answers { (t : Litmus) (kind : ProtocolKind) (c : Configuration) (plan : Plan) (out : List ℕ) (status : Status)
        → IsSweepAnswer t kind c plan out status → SweepAnswersFit t kind c plan }
{}

/// The report of a witness shows the very order, no choice stalled and none left over.
pub fn an_order_is_reported()
    ensures test_spelled { (kind : ProtocolKind) (c : Configuration) (set : Instructions) (json : Bool) (parts : Parts) (out : List ℕ)
        (said : ReportsOrder kind c set json parts out) → SpellsTest set parts.test said.t }
    ensures order_spelled { (kind : ProtocolKind) (c : Configuration) (set : Instructions) (json : Bool) (parts : Parts) (out : List ℕ)
        (said : ReportsOrder kind c set json parts out) → SpellsOrder said.t parts.rest said.order }
    ensures printed { (kind : ProtocolKind) (c : Configuration) (set : Instructions) (json : Bool) (parts : Parts) (out : List ℕ)
        (said : ReportsOrder kind c set json parts out) → out ≡ report_in json said.t kind c said.shown }
    ensures reached { (kind : ProtocolKind) (c : Configuration) (set : Instructions) (json : Bool) (parts : Parts) (out : List ℕ)
        (said : ReportsOrder kind c set json parts out) → said.shown.order ≡ said.order }
    ensures stalled { (kind : ProtocolKind) (c : Configuration) (set : Instructions) (json : Bool) (parts : Parts) (out : List ℕ)
        (said : ReportsOrder kind c set json parts out) → said.shown.stalled ≡ 0 }
    ensures unused { (kind : ProtocolKind) (c : Configuration) (set : Instructions) (json : Bool) (parts : Parts) (out : List ℕ)
        (said : ReportsOrder kind c set json parts out) → said.shown.unused ≡ 0 }
{}

/// One more run is counted in its own state alone, and the states stay in order.
pub fn one_more_run_is_counted_once()
    ensures own { (values : List ℕ) (states : List (List ℕ × ℕ))
        → count_of_runs values (with_values values states) ≡ count_of_runs values states + 1 }
    ensures others { (values other : List ℕ) (states : List (List ℕ × ℕ)) → other ≢ values
        → count_of_runs other (with_values values states) ≡ count_of_runs other states }
    ensures order { (values : List ℕ) (states : List (List ℕ × ℕ)) → Ascend states → Ascend (with_values values states) }
{
    one_more_run_is_counted();
}
