//! The numbers of one run: for each core its cache's counts, as a report has them, and what its accesses had moved.

ghost use Rattle.std.specs.Prelude.{◌≡◌, ◌≤◌, IfOk, OnOk, length, option_map};
ghost use Rattle.tso_terms.specs.Limits.{most_cores};
ghost use Rattle.tso_terms.specs.Runs.{CoresExist};
ghost use Rattle.scheduler.specs.Limits.{most_choices};
ghost use Rattle.protocol_tables.specs.Tables.{table_of};
ghost use Rattle.machine_runs.specs.Runs.{AnswersFit};
ghost use Rattle.cache_counts.specs.Counted.{core_numbers, numbers_from, numbers_under};

use crate::noting::{CoreUse, Noter};
use crate::traffic::{Traffic, traffic_of};
use machine_core::{Choice, Counts};
use machine_runs::{Ending, Setup, simulate_observed};
use protocol_tables::ProtocolKind;
use std::alloc::Global;
use tso_terms::NoMemory;

/// How many numbers each core has.
pub const NUMBERS: usize = 12;

/// Runs a test under these choices, on a machine of this protocol and configuration, and answers the numbers of its cores, one
/// core after the other; `None` where the test didn't end.
///
/// Errors: out of memory only.
pub fn count_run(
    alloc: Global,
    setup: &Setup<'_>,
    choices: &[Choice],
) -> Result<Option<Vec<u32>>, NoMemory>
    requires cores { CoresExist (length setup.now.test.now.programs) choices.now }
    requires few { length choices.now ≤ most_choices }
    ensures numbers { IfOk result
        (λ found.
        option_map (λ v. v.items) found
        ≡ numbers_under setup.now.test.now setup.now.protocol setup.now.config choices.now) }
    ensures answers { OnOk result (AnswersFit setup.now.test.now setup.now.protocol setup.now.config choices.now) }
{
    setup.test.know_limits();
    let mut noter = Noter::new(alloc);
    match simulate_observed(alloc, setup, choices, &mut noter)? {
        Ending::Ended(run) => {
            let numbers = numbers_of(alloc, setup.protocol, &noter.uses, &run.left.counts)?;
            Ok(Some(numbers))
        }
        Ending::Unfinished { .. } => Ok(None),
    }
}

/// The numbers of all cores, by their caches' counts and what the choices had to do with the caches.
fn numbers_of(
    alloc: Global,
    protocol: ProtocolKind,
    uses: &[CoreUse],
    counts: &[Counts],
) -> Result<Vec<u32>, NoMemory>
    requires cores { length counts.now ≤ most_cores }
    requires few { length uses.now ≤ most_choices }
    ensures { IfOk result (λ numbers. numbers.items ≡ numbers_from (table_of protocol) uses.now 0 counts.now) }
{
    let mut numbers = Vec::new(alloc);
    for (core, counts) in counts.iter().enumerate() {
        let own = core_numbers(*counts, traffic_of(protocol, uses, core));
        numbers.extend_from_slice(&own)?;
    }
    Ok(numbers)
}

/// One core's numbers, in the order in which they are printed.
fn core_numbers(counts: Counts, traffic: Traffic) -> [u32; NUMBERS]
    ensures { result ≡ core_numbers counts traffic }
{
    [
        counts.hits,
        counts.misses,
        counts.upgrades,
        counts.forwards,
        counts.write_backs,
        counts.flushes,
        traffic.get_s,
        traffic.get_m,
        traffic.invalidations,
        traffic.from_caches,
        traffic.from_memory,
        traffic.to_memory,
    ]
}
