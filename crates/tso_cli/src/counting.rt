//! The answer of `counts`: what the caches did in the runs of many seeds, or in the one run of choices that are given.

ghost use Rattle.std.specs.Prelude.{◌≡◌, IfOk, string_bytes};
ghost use Rattle.cache_counts.specs.Runs.{runs_counted};
ghost use Rattle.tso_cli.specs.Counts.{IsCountsAnswer, IsCountOfSeeds, IsCountOfGiven, told_counts, counts_status};

use crate::answer::{Answer, Status};
use crate::running::{cause_of, refused_choices};
use cache_counts::{CountedRuns, count_given, count_seeds};
use counts_report::{counts_json, counts_text};
use hints::Cause;
use machine_core::Config;
use machine_runs::Setup;
use protocol_tables::ProtocolKind;
use scheduler::{Stalls, SweepPlan, read_choices, spelled_cores_exist};
use std::alloc::Global;
use tso_terms::{NoMemory, Test};

/// The answer of `counts` to a test and the second part of its input: of the runs of a plan, or where there is none of the one run
/// whose choices the second part spells.
///
/// Errors: out of memory only.
pub fn counts_answer(
    alloc: Global,
    test: &Test,
    protocol: ProtocolKind,
    config: Config,
    plan: Option<SweepPlan>,
    json: bool,
    text: &[u8],
) -> Result<Answer, NoMemory>
    ensures { IfOk result (λ a. IsCountsAnswer test.now protocol config plan json text.now (string_bytes a.text) a.status) }
{
    let setup = Setup {
        test,
        protocol,
        config,
    };
    match plan {
        Some(plan) => seeds_answer(alloc, &setup, plan, json),
        None => given_answer(alloc, &setup, json, text),
    }
}

/// The answer of the runs of a plan.
fn seeds_answer(
    alloc: Global,
    setup: &Setup<'_>,
    plan: SweepPlan,
    json: bool,
) -> Result<Answer, NoMemory>
    ensures { IfOk result (λ a. IsCountOfSeeds setup.now.test.now setup.now.protocol setup.now.config plan json (string_bytes a.text) a.status) }
{
    let runs = count_seeds(alloc, setup, plan)?;
    let text = text_of(alloc, setup, Some(plan), json, &runs)?;
    Ok(Answer {
        text,
        status: status_of(&runs),
        cause: cause_of_seeds(&runs, plan),
    })
}

/// The answer of the one run of choices that are given.
fn given_answer(
    alloc: Global,
    setup: &Setup<'_>,
    json: bool,
    text: &[u8],
) -> Result<Answer, NoMemory>
    ensures { IfOk result (λ a. IsCountOfGiven setup.now.test.now setup.now.protocol setup.now.config json text.now (string_bytes a.text) a.status) }
{
    spelled_cores_exist();
    match read_choices(alloc, setup.test.cores(), text) {
        Ok(choices) => {
            let runs = count_given(alloc, setup, &choices)?;
            let text_of_runs = text_of(alloc, setup, None, json, &runs)?;
            let status = status_of(&runs);
            Ok(Answer {
                text: text_of_runs,
                status,
                cause: cause_of(status, setup, text, Stalls::none()),
            })
        }
        Err(fault) => refused_choices(alloc, setup.test, text, fault),
    }
}

/// What is written of this, in lines or as JSON.
fn text_of(
    alloc: Global,
    setup: &Setup<'_>,
    plan: Option<SweepPlan>,
    json: bool,
    runs: &CountedRuns,
) -> Result<String, NoMemory>
    ensures { IfOk result (λ text. string_bytes text ≡ told_counts json setup.now.test.now setup.now.protocol setup.now.config plan (runs_counted runs.now)) }
{
    if json {
        counts_json(alloc, setup.test, setup.protocol, setup.config, plan, runs)
    } else {
        counts_text(alloc, setup.test, setup.protocol, setup.config, plan, runs)
    }
}

/// Why not all runs of a plan ended, if they didn't.
fn cause_of_seeds(runs: &CountedRuns, plan: SweepPlan) -> Cause {
    if runs.unfinished == 0 {
        Cause::Nothing
    } else {
        Cause::ShortSeeds {
            length: plan.length(),
            none_ended: runs.ended == 0,
        }
    }
}

fn status_of(runs: &CountedRuns) -> Status
    ensures { result ≡ counts_status (runs_counted runs.now) }
{
    if runs.unfinished == 0 {
        Status::Good
    } else {
        Status::Unended
    }
}
