//! What `counts` answers, what its headline says, and what the numbers of a run say of each other and of the run's trace.

ghost use Rattle.std.specs.Prelude.{◌≡◌, ◌+◌, ◌*◌, ◌<◌, ℕ, Bool, List, [], None, Option, is_some, length, slice_index_or, true};
ghost use Rattle.tso_terms.specs.Axioms.{IsTsoExecution};
ghost use Rattle.tso_terms.specs.Litmus.{IsTest, Litmus};
ghost use Rattle.basic_laws.specs.Types.{Choice};
ghost use Rattle.scheduler.specs.Grammar.{SpellsChoices};
ghost use Rattle.scheduler.specs.Plan.{Plan};
ghost use Rattle.scheduler.specs.Refusals.{IsRefusedAsChoices};
ghost use Rattle.scheduler.specs.declared.fault.ChoiceFault.{ChoiceFault};
ghost use Rattle.protocol_tables.specs.Tables.{table_of};
ghost use Rattle.protocol_tables.specs.declared.kind.ProtocolKind.{ProtocolKind};
ghost use Rattle.multiprocessor.specs.Configuration.{Configuration};
ghost use Rattle.multiprocessor.specs.Statistics.{no_counts};
ghost use Rattle.machine_runs.specs.Runs.{AnswersFit, counts_under, run_under};
ghost use Rattle.serde_json.specs.Data.{null};
ghost use Rattle.cache_counts.specs.AddingUp.{accesses_in, printed_sum, sum_of_uses};
ghost use Rattle.cache_counts.specs.Counted.{Counted, counted_by, numbers_under};
ghost use Rattle.cache_counts.specs.Laws.{TellsRuns};
ghost use Rattle.cache_counts.specs.Runs.{AnswersFitFrom};
ghost use Rattle.cache_counts.specs.Traffic.{traffic_of};
ghost use Rattle.cache_counts.specs.Uses.{uses_of};
ghost use Rattle.counts_report.specs.Json.{counted_cores_value};
ghost use Rattle.counts_report.specs.Printed.{counted_lines};
ghost use Rattle.tso_cli.specs.Counts.{IsCountOfSeeds, counts_status, told_counts};
ghost use Rattle.tso_cli.specs.CountsHeadline.{HeadlineOfCounts, PrintsCounts, PrintsCountsOfGiven};
ghost use Rattle.tso_cli.specs.Lines.{choices_refusal};
ghost use Rattle.tso_cli.specs.declared.answer.Status.{Status};
ghost use Rattle.tso_cli.specs.declared.answer.Status.TheVariants.{Good, Unended};
ghost use Rattle.trace_report.specs.Steps.{trace_under};
ghost use Rattle.counted_steps.specs.StepSums.{has_request, lost_by_others, reads_line, steps_of_core, sum_of_steps};
ghost use Rattle.counted_steps.specs.StepSums.{was_hit, was_miss, was_upgrade, writes_line};

use cache_counts::{counts_add_up, sums_over_runs_add_up};
use counted_steps::{counts_are_sums_of_steps, traffic_is_sums_of_steps};

/// What is printed is counted of the runs, over those alone that ended, and the order of each of these is a TSO execution.
pub fn counts_are_of_executions()
    ensures printed { (t : Litmus) (kind : ProtocolKind) (c : Configuration) (plan : Option Plan) (json : Bool)
        (choices_in : ℕ → List Choice) (runs : ℕ) (out : List ℕ)
        (said : PrintsCounts t kind c plan json choices_in runs out) → out ≡ told_counts json t kind c plan said.counted }
    ensures tells { (t : Litmus) (kind : ProtocolKind) (c : Configuration) (plan : Option Plan) (json : Bool)
        (choices_in : ℕ → List Choice) (runs : ℕ) (out : List ℕ)
        (said : PrintsCounts t kind c plan json choices_in runs out)
        → TellsRuns (λ i. numbers_under t kind c (choices_in i)) (12 * length t.programs) runs said.counted }
    ensures executions { (t : Litmus) (kind : ProtocolKind) (c : Configuration) (plan : Option Plan) (json : Bool)
        (choices_in : ℕ → List Choice) (runs : ℕ) (out : List ℕ)
        → PrintsCounts t kind c plan json choices_in runs out → (i : ℕ) → i < runs → (run_under t kind c (choices_in i)).ended ≡ true
        → IsTsoExecution t (run_under t kind c (choices_in i)).commits }
{}

/// Where the choices are given, their one run is counted; a text that spells none is refused.
pub fn given_choices_are_counted_or_refused()
    ensures counted { (t : Litmus) (kind : ProtocolKind) (c : Configuration) (json : Bool) (text out : List ℕ) → HeadlineOfCounts t kind c None json text out
        → (choices : List Choice) → SpellsChoices (length t.programs) text choices → PrintsCounts t kind c None json (λ i. choices) 1 out }
    ensures refused { (t : Litmus) (kind : ProtocolKind) (c : Configuration) (json : Bool) (text out : List ℕ) → PrintsCountsOfGiven t kind c json text out
        → ((choices : List Choice) → ¬ (SpellsChoices (length t.programs) text choices))
        → (fault : ChoiceFault) × IsRefusedAsChoices (length t.programs) text fault × (out ≡ choices_refusal fault) }
{}

/// Where no run ended no number is printed: there is no line, and as JSON `null`.
pub fn where_no_run_ended_there_is_no_number()
    ensures lines { (t : Litmus) (k : Counted) → k.ended ≡ 0 → counted_lines t k ≡ [] }
    ensures value { (t : Litmus) (k : Counted) → k.ended ≡ 0 → counted_cores_value t k ≡ null }
{}

/// The status tells whether all runs ended; and along each run the caches answered as caches may.
pub fn the_status_of_counts_tells_whether_all_ended()
    ensures all { (k : Counted) → k.unfinished ≡ 0 → counts_status k ≡ Good }
    ensures some { (k : Counted) → 0 < k.unfinished → counts_status k ≡ Unended }
    ensures answers { (t : Litmus) (kind : ProtocolKind) (c : Configuration) (plan : Plan) (json : Bool) (out : List ℕ) (status : Status)
        → IsCountOfSeeds t kind c plan json out status → AnswersFitFrom t kind c plan.length plan.from plan.seeds }
{}

/// In a run that ended a core's hits, misses and upgrades are its accesses; each miss and each upgrade is one request; and each miss has
/// its line from another cache or from memory.
pub fn counts_of_a_run_add_up()
    ensures accesses { (t : Litmus) (kind : ProtocolKind) (c : Configuration) (choices : List Choice) (core : ℕ)
        → AnswersFit t kind c choices → (run_under t kind c choices).ended ≡ true → core < length t.programs
        → (slice_index_or (counts_under t kind c choices) core no_counts).hits + (slice_index_or (counts_under t kind c choices) core no_counts).misses
        + (slice_index_or (counts_under t kind c choices) core no_counts).upgrades
        ≡ sum_of_uses accesses_in core (uses_of (table_of kind) c t choices) }
    ensures requests { (t : Litmus) (kind : ProtocolKind) (c : Configuration) (choices : List Choice) (core : ℕ)
        → AnswersFit t kind c choices → (run_under t kind c choices).ended ≡ true → core < length t.programs
        → (slice_index_or (counts_under t kind c choices) core no_counts).misses + (slice_index_or (counts_under t kind c choices) core no_counts).upgrades
        ≡ (traffic_of (table_of kind) core (uses_of (table_of kind) c t choices)).get_s
        + (traffic_of (table_of kind) core (uses_of (table_of kind) c t choices)).get_m }
    ensures supplies { (t : Litmus) (kind : ProtocolKind) (c : Configuration) (choices : List Choice) (core : ℕ)
        → AnswersFit t kind c choices → (run_under t kind c choices).ended ≡ true → core < length t.programs
        → (slice_index_or (counts_under t kind c choices) core no_counts).misses
        ≡ (traffic_of (table_of kind) core (uses_of (table_of kind) c t choices)).from_caches
        + (traffic_of (table_of kind) core (uses_of (table_of kind) c t choices)).from_memory }
{
    counts_add_up();
}

/// So do the sums over the runs of many seeds, in which a core's misses, upgrades, requests to read and to write, and lines from caches and
/// from memory have the places 1, 2, 6, 7, 9 and 10 of its twelve numbers.
pub fn counts_of_seeds_add_up()
    ensures requests { (t : Litmus) (kind : ProtocolKind) (c : Configuration) (plan : Plan) (core : ℕ)
        → AnswersFitFrom t kind c plan.length plan.from plan.seeds → core < length t.programs
        → printed_sum (counted_by t kind c plan).spreads core 1 + printed_sum (counted_by t kind c plan).spreads core 2
        ≡ printed_sum (counted_by t kind c plan).spreads core 6 + printed_sum (counted_by t kind c plan).spreads core 7 }
    ensures supplies { (t : Litmus) (kind : ProtocolKind) (c : Configuration) (plan : Plan) (core : ℕ)
        → AnswersFitFrom t kind c plan.length plan.from plan.seeds → core < length t.programs
        → printed_sum (counted_by t kind c plan).spreads core 1
        ≡ printed_sum (counted_by t kind c plan).spreads core 9 + printed_sum (counted_by t kind c plan).spreads core 10 }
{
    sums_over_runs_add_up();
}

/// A core's hits, misses, upgrades, forwarded loads and requests are the numbers of its steps of which the run's trace says so.
pub fn counts_are_sums_of_traced_steps()
    ensures hits { (t : Litmus) (kind : ProtocolKind) (c : Configuration) (choices : List Choice) (core : ℕ)
        → core < length t.programs
        → (slice_index_or (counts_under t kind c choices) core no_counts).hits
        ≡ steps_of_core (λ s. was_hit s.access) core (trace_under t kind c choices) }
    ensures misses { (t : Litmus) (kind : ProtocolKind) (c : Configuration) (choices : List Choice) (core : ℕ)
        → core < length t.programs
        → (slice_index_or (counts_under t kind c choices) core no_counts).misses
        ≡ steps_of_core (λ s. was_miss s.access) core (trace_under t kind c choices) }
    ensures upgrades { (t : Litmus) (kind : ProtocolKind) (c : Configuration) (choices : List Choice) (core : ℕ)
        → core < length t.programs
        → (slice_index_or (counts_under t kind c choices) core no_counts).upgrades
        ≡ steps_of_core (λ s. was_upgrade s.access) core (trace_under t kind c choices) }
    ensures forwards { (t : Litmus) (kind : ProtocolKind) (c : Configuration) (choices : List Choice) (core : ℕ)
        → core < length t.programs
        → (slice_index_or (counts_under t kind c choices) core no_counts).forwards
        ≡ steps_of_core (λ s. s.forwarded) core (trace_under t kind c choices) }
    ensures get_s { (t : Litmus) (kind : ProtocolKind) (c : Configuration) (choices : List Choice) (core : ℕ)
        → core < length t.programs
        → (traffic_of (table_of kind) core (uses_of (table_of kind) c t choices)).get_s
        ≡ steps_of_core (λ s. has_request reads_line s.request) core (trace_under t kind c choices) }
    ensures get_m { (t : Litmus) (kind : ProtocolKind) (c : Configuration) (choices : List Choice) (core : ℕ)
        → core < length t.programs
        → (traffic_of (table_of kind) core (uses_of (table_of kind) c t choices)).get_m
        ≡ steps_of_core (λ s. has_request writes_line s.request) core (trace_under t kind c choices) }
{
    counts_are_sums_of_steps();
}

/// The copies of others that a core's requests turn to I are the lines of other cores that its steps tell to go to I. The lines that are
/// written to memory for it are its steps that tell a copy of another core as sent there, and those that tell a write-back.
pub fn traffic_is_sums_of_traced_steps()
    ensures invalidations { (t : Litmus) (kind : ProtocolKind) (c : Configuration) (choices : List Choice) (core : ℕ)
        → IsTest t → 0 < c.shape.words → core < length t.programs
        → (traffic_of (table_of kind) core (uses_of (table_of kind) c t choices)).invalidations
        ≡ sum_of_steps (λ s. lost_by_others core s.changes) core (trace_under t kind c choices) }
    ensures to_memory { (t : Litmus) (kind : ProtocolKind) (c : Configuration) (choices : List Choice) (core : ℕ)
        → IsTest t → 0 < c.shape.words → core < length t.programs
        → (traffic_of (table_of kind) core (uses_of (table_of kind) c t choices)).to_memory
        ≡ steps_of_core (λ s. is_some s.flushed) core (trace_under t kind c choices)
        + steps_of_core (λ s. is_some s.wrote_back) core (trace_under t kind c choices) }
{
    traffic_is_sums_of_steps();
}
