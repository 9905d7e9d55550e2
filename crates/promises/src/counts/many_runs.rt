//! What is counted of what the caches did in many runs, what is printed of it, and what it tells of each run.

ghost use Rattle.std.specs.Prelude.{◌≡◌, ◌+◌, ◌*◌, ◌<◌, ◌≤◌, ℕ, IfOk, IfSome, List, None, OnOk, Some, length, slice_get, string_bytes};
ghost use Rattle.tso_terms.specs.Litmus.{Litmus};
ghost use Rattle.tso_terms.specs.Runs.{CoresExist};
ghost use Rattle.basic_laws.specs.Types.{Choice};
ghost use Rattle.scheduler.specs.Limits.{most_choices};
ghost use Rattle.scheduler.specs.Plan.{Plan};
ghost use Rattle.protocol_tables.specs.declared.kind.ProtocolKind.{ProtocolKind};
ghost use Rattle.multiprocessor.specs.Configuration.{Configuration};
ghost use Rattle.machine_runs.specs.Runs.{AnswersFit};
ghost use Rattle.cache_counts.specs.Counted.{counted_by, counted_once, numbers_under, seeded_numbers};
ghost use Rattle.cache_counts.specs.Laws.{TellsNumbers, ended_among, number_of_run};
ghost use Rattle.cache_counts.specs.Runs.{AnswersFitFrom};
ghost use Rattle.cache_counts.specs.declared.spread.Spread.{Spread};
ghost use Rattle.counts_report.specs.Json.{json_counts};
ghost use Rattle.counts_report.specs.Printed as printed;

use cache_counts::{count_given, count_seeds, counts_tell_their_runs};
use counts_report::{counts_json, counts_text};
use machine_runs::Setup;
use scheduler::SweepPlan;
use std::alloc::Global;
use tso_terms::NoMemory;

/// The lines of what is counted of the runs of a plan are the stated ones of the counts of these runs.
pub fn lines_are_of_the_runs_of_a_plan(
    alloc: Global,
    setup: &Setup<'_>,
    plan: SweepPlan,
) -> Result<String, NoMemory>
    ensures lines { IfOk result (λ text. string_bytes text
        ≡ printed.counts_text setup.now.test.now setup.now.protocol setup.now.config (Some plan)
        (counted_by setup.now.test.now setup.now.protocol setup.now.config plan)) }
    ensures answers { OnOk result (AnswersFitFrom setup.now.test.now setup.now.protocol setup.now.config plan.length plan.from plan.seeds) }
{
    let runs = count_seeds(alloc, setup, plan)?;
    counts_text(
        alloc,
        setup.test,
        setup.protocol,
        setup.config,
        Some(plan),
        &runs,
    )
}

/// So is the JSON of what is counted of the one run under given choices.
pub fn json_is_of_the_run_that_is_given(
    alloc: Global,
    setup: &Setup<'_>,
    choices: &[machine_core::Choice],
) -> Result<String, NoMemory>
    requires cores { CoresExist (length setup.now.test.now.programs) choices.now }
    requires few { length choices.now ≤ most_choices }
    ensures object { IfOk result (λ text. string_bytes text
        ≡ json_counts setup.now.test.now setup.now.protocol setup.now.config None
        (counted_once setup.now.test.now setup.now.protocol setup.now.config choices.now)) }
    ensures answers { OnOk result (AnswersFit setup.now.test.now setup.now.protocol setup.now.config choices.now) }
{
    let runs = count_given(alloc, setup, choices)?;
    counts_json(alloc, setup.test, setup.protocol, setup.config, None, &runs)
}

/// What is counted of the runs of a plan tells them: how many ended, how many there were, that there are twelve numbers for each core,
/// and of each number the sum, the least and the greatest over the runs that ended.
pub fn counts_are_those_of_the_runs()
    ensures twelve { (t : Litmus) (kind : ProtocolKind) (c : Configuration) (choices : List Choice)
        → IfSome (numbers_under t kind c choices) (λ ns. length ns ≡ 12 * length t.programs) }
    ensures ended { (t : Litmus) (kind : ProtocolKind) (c : Configuration) (plan : Plan)
        → (counted_by t kind c plan).ended ≡ ended_among (seeded_numbers t kind c plan.length plan.from) plan.seeds }
    ensures all { (t : Litmus) (kind : ProtocolKind) (c : Configuration) (plan : Plan)
        → (counted_by t kind c plan).ended + (counted_by t kind c plan).unfinished ≡ plan.seeds }
    ensures size { (t : Litmus) (kind : ProtocolKind) (c : Configuration) (plan : Plan)
        → 0 < (counted_by t kind c plan).ended → length (counted_by t kind c plan).spreads ≡ 12 * length t.programs }
    ensures numbers { (t : Litmus) (kind : ProtocolKind) (c : Configuration) (plan : Plan) (place : ℕ) (s : Spread)
        → slice_get (counted_by t kind c plan).spreads place ≡ Some s
        → TellsNumbers (λ i. number_of_run place (seeded_numbers t kind c plan.length plan.from i)) plan.seeds s }
{
    counts_tell_their_runs();
}
