//! The answer of `sweep`: the text of what was counted of its runs, and whether all of them ended.

ghost use Rattle.std.specs.Prelude.{◌≡◌, if◌then◌else◌, IfOk, string_bytes};
ghost use Rattle.tso_cli.specs.Sweep.{IsSweepAnswer};

use crate::answer::{Answer, Status};
use hints::Cause;
use machine_core::Config;
use protocol_tables::ProtocolKind;
use scheduler::SweepPlan;
use std::alloc::Global;
use sweeper::{Swept, sweep};
use tso_report::head_text;
use tso_terms::{NoMemory, Test};

/// The answer of `sweep` to a test: how many runs of the plan left each final state, in the values of
/// what the condition names, and how many made the condition's proposition true and false. A run is
/// kept no longer than until it is counted.
///
/// Errors: out of memory only.
pub fn sweep_answer(
    alloc: Global,
    test: &Test,
    protocol: ProtocolKind,
    config: Config,
    plan: SweepPlan,
) -> Result<Answer, NoMemory>
    ensures { IfOk result (λ a. IsSweepAnswer test.now protocol config plan (string_bytes a.text) a.status) }
{
    let swept = sweep(alloc, test, protocol, config, plan)?;
    let mut text = head_text(alloc, test, protocol, config)?;
    text.push_str(&swept.tally.text(alloc, plan.from(), plan.length())?)?;
    Ok(Answer {
        text,
        status: status_of(swept.all_ended),
        cause: cause_of(test, &swept, config, plan),
    })
}

/// What is to be told of a sweep: that runs didn't end, or that the condition's proposition was true in none.
fn cause_of(test: &Test, swept: &Swept<'_>, config: Config, plan: SweepPlan) -> Cause {
    let runs = swept.tally.ended();
    if !swept.all_ended {
        Cause::ShortSeeds {
            length: plan.length(),
            none_ended: runs == 0,
        }
    } else if test.cond().is_some() && swept.tally.held() == 0 {
        Cause::NeverSeen {
            runs,
            depth: config.depth(),
        }
    } else {
        Cause::Nothing
    }
}

fn status_of(all_ended: bool) -> Status
    ensures { result ≡ (if all_ended then Status.Good else Status.Unended) }
{
    if all_ended {
        Status::Good
    } else {
        Status::Unended
    }
}
