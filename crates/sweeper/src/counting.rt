//! A sweep: one machine makes the runs of all seeds, each from the beginning of the test, and only their tally is kept. So room
//! doesn't grow with the number of runs.

ghost use Rattle.std.specs.Prelude.{◌≡◌, ◌==◌, IfOk, OnOk};
ghost use Rattle.sweep_runs.specs.Counting.{sweep_counts, SweepAnswersFit};

use machine_core::Config;
use protocol_tables::ProtocolKind;
use scheduler::SweepPlan;
use std::alloc::Global;
use sweep_runs::sweep_into;
use tso_report::Tally;
use tso_terms::{NoMemory, Test};

/// What a sweep has counted, and whether all of its runs ended.
#[derive(Drop)]
pub struct Swept<'a> {
    /// The counts.
    pub tally: Tally<'a>,
    /// Whether all runs ended.
    pub all_ended: bool,
}

/// Makes the runs of a plan, one seed after the other, and counts them. A run is kept no longer than until it is counted. On the
/// atomic bus neither the protocol nor the shape of the caches has a part in the answer.
///
/// Errors: out of memory only.
pub fn sweep<'a>(
    alloc: Global,
    test: &'a Test,
    protocol: ProtocolKind,
    config: Config,
    plan: SweepPlan,
) -> Result<Swept<'a>, NoMemory>
    ensures test { IfOk result (λ s. s.tally.test ≡ test.now) }
    ensures counts { IfOk result (λ s. s.tally.counts ≡ sweep_counts test.now protocol config plan) }
    ensures ended { IfOk result (λ s. s.all_ended ≡ (s.tally.counts.unfinished == 0)) }
    ensures answers { OnOk result (SweepAnswersFit test.now protocol config plan) }
{
    let mut tally = Tally::new(alloc, test)?;
    let all_ended = sweep_into(alloc, test, protocol, config, plan, &mut tally)?;
    Ok(Swept { tally, all_ended })
}
