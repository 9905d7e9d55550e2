//! What is counted of several runs: one under the choices of each seed of a plan, or the one run under choices that were given.
//! No run is kept longer than until it is counted, so room doesn't grow with their number.

ghost use Rattle.std.specs.Prelude.{◌≡◌, ◌≤◌, ◌<◌, ◌+◌, ◌-◌, ◌^◌, [], IfOk, OnOk, All, length, option_map};
ghost use Rattle.tso_terms.specs.Runs.{CoresExist};
ghost use Rattle.scheduler.specs.Limits.{most_choices};
ghost use Rattle.scheduler.specs.Seeds.{seeded_choices};
ghost use Rattle.machine_runs.specs.Runs.{AnswersFit};
ghost use Rattle.cache_counts.specs.Counted.{counted_by, counted_once, no_runs_counted, with_counted_run};
ghost use Rattle.cache_counts.specs.inner.Bounds.{IsSumOf};
ghost use Rattle.cache_counts.specs.inner.Runs.{HasFewRuns};
ghost use Rattle.cache_counts.specs.Runs.{runs_counted, AnswersFitFrom};

use crate::one_run::count_run;
use crate::spread::{Spread, spreads_with};
use machine_core::Choice;
use machine_runs::Setup;
use scheduler::{Seeded, SweepPlan, seeded_choices};
use std::alloc::Global;
use tso_terms::NoMemory;

/// What is counted of several runs.
#[derive(Drop)]
pub struct CountedRuns {
    /// How many ended.
    pub ended: u32,
    /// How many didn't.
    pub unfinished: u32,
    /// Each number over the runs that ended, core by core; empty where none ended.
    pub spreads: Vec<Spread>,
}

impl CountedRuns {
    /// No run is counted yet.
    fn none(alloc: Global) -> CountedRuns
        ensures value { runs_counted result ≡ no_runs_counted }
        ensures few { HasFewRuns 0 result }
    {
        CountedRuns {
            ended: 0,
            unfinished: 0,
            spreads: Vec::new(alloc),
        }
    }

    /// With one more run, which gave these numbers, or none where it didn't end.
    ///
    /// Errors: out of memory only.
    fn with_run(self, alloc: Global, numbers: Option<Vec<u32>>) -> Result<CountedRuns, NoMemory>
        requires room { self.ended + self.unfinished < 2 ^ 32 - 1 }
        requires few { All (IsSumOf self.ended) self.spreads.items }
        ensures value { IfOk result (λ k. runs_counted k ≡ with_counted_run (option_map (λ v. v.items) numbers) (runs_counted self)) }
        ensures few { IfOk result (HasFewRuns (self.ended + self.unfinished + 1)) }
    {
        let CountedRuns {
            ended,
            unfinished,
            spreads,
        } = self;
        match numbers {
            None => Ok(CountedRuns {
                ended,
                unfinished: unfinished + 1,
                spreads,
            }),
            Some(numbers) => Ok(CountedRuns {
                ended: ended + 1,
                unfinished,
                spreads: spreads_with(alloc, ended, &spreads, &numbers)?,
            }),
        }
    }
}

/// What is counted of the runs of a plan, one for each seed.
///
/// Errors: out of memory only.
pub fn count_seeds(
    alloc: Global,
    setup: &Setup<'_>,
    plan: SweepPlan,
) -> Result<CountedRuns, NoMemory>
    ensures counted { IfOk result (λ k. runs_counted k ≡ counted_by setup.now.test.now setup.now.protocol setup.now.config plan) }
    ensures answers { OnOk result (AnswersFitFrom setup.now.test.now setup.now.protocol setup.now.config plan.length plan.from plan.seeds) }
{
    let cores = setup.test.cores();
    let length = plan.length() as usize;
    let mut runs = CountedRuns::none(alloc);
    for at in 0..plan.seeds() {
        let choices = choices_of(alloc, cores, plan.seed(at), length)?;
        let numbers = count_run(alloc, setup, &choices)?;
        runs = runs.with_run(alloc, numbers)?;
    }
    Ok(runs)
}

/// What is counted of the one run under these choices.
///
/// Errors: out of memory only.
pub fn count_given(
    alloc: Global,
    setup: &Setup<'_>,
    choices: &[Choice],
) -> Result<CountedRuns, NoMemory>
    requires cores { CoresExist (length setup.now.test.now.programs) choices.now }
    requires few { length choices.now ≤ most_choices }
    ensures counted { IfOk result (λ k. runs_counted k ≡ counted_once setup.now.test.now setup.now.protocol setup.now.config choices.now) }
    ensures answers { OnOk result (AnswersFit setup.now.test.now setup.now.protocol setup.now.config choices.now) }
{
    let numbers = count_run(alloc, setup, choices)?;
    CountedRuns::none(alloc).with_run(alloc, numbers)
}

/// The first `count` choices of a seed.
fn choices_of(alloc: Global, cores: u8, seed: u64, count: usize) -> Result<Vec<Choice>, NoMemory>
    requires cores { 0 < cores }
    ensures choices { IfOk result (λ v. v.items ≡ seeded_choices cores seed count) }
    ensures length { IfOk result (λ v. length v.items ≡ count) }
    ensures cores { CoresExist cores (seeded_choices cores seed count) }
{
    // Made for what it ensures: that the cores of its choices exist.
    let _drawn = Seeded::new(cores, seed, count);
    seeded_choices(alloc, cores, seed, count)
}
