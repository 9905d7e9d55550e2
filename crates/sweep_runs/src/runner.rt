//! The runs of many seeds, one after the other, whatever machine makes them: only their tally is kept, so room doesn't grow with
//! their number.

ghost use Rattle.std.specs.Prelude.{◌≡◌, ◌<◌, ◌-◌, ◌^◌, ◌==◌, List, IfOk, OnOk, length};
ghost use Rattle.tso_terms.specs.Litmus.{Litmus};
ghost use Rattle.tso_terms.specs.Runs.{Run, CoresExist};
ghost use Rattle.tso_terms.specs.declared.choice.Choice.{Choice};
ghost use Rattle.protocol_tables.specs.declared.kind.ProtocolKind.{ProtocolKind};
ghost use Rattle.multiprocessor.specs.Configuration.{Configuration};
ghost use Rattle.tso_report.specs.Tally.{nothing_counted, runs_in, values_in, with_state_counted, with_verdict};
ghost use Rattle.machine_runs.specs.Runs.{run_under, AnswersFit};
ghost use Rattle.machine_runs.specs.Simulation.{verdict};
ghost use Rattle.sweep_runs.specs.Counting.{with_one_run, sweep_counts, SweepAnswersFit};
ghost use Rattle.sweep_runs.specs.inner.Counting.{CanRunAgain};

use machine_runs::verdict_of;
use scheduler::{Choices, Seeded, SweepPlan};
use tso_report::Tally;
use tso_terms::{NoMemory, Test};

/// Makes one run after the other, each from the beginning of a test.
pub(crate) trait Runner {
    // It makes runs of this test.
    ghost runs: { Self → Litmus → Type 0 };

    // The run that it makes of a test under these choices.
    ghost run_of: { Self → Litmus → List Choice → Run };

    // The answers of its caches along these choices are such as caches may give.
    ghost fits: { Self → List Choice → Type 0 };

    /// Makes the run under these choices, counts it, and answers whether it ended.
    ///
    /// Errors: out of memory only.
    fn count_run<C: Choices>(
        &mut self,
        test: &Test,
        choices: &mut C,
        tally: &mut Tally<'_>,
    ) -> Result<bool, NoMemory>
        requires runs { runs self.old test.now }
        requires cores { CoresExist (length test.now.programs) (C.coming choices.old) }
        requires tally { tally.old.test ≡ test.now }
        requires room { runs_in tally.old.counts < 2 ^ 32 - 1 }
        ensures ended { IfOk result (λ b. b ≡ (run_of self.old test.now (C.coming choices.old)).ended) }
        ensures counts { OnOk result (tally.new.counts ≡ with_one_run test.now (run_of self.old test.now (C.coming choices.old)) tally.old.counts) }
        ensures answers { OnOk result (fits self.old (C.coming choices.old)) }
        ensures test { tally.new.test ≡ tally.old.test }

        // It can make the same runs again.
        ensures again { OnOk result (CanRunAgain runs run_of fits test.now self.old self.new) };
}

/// Makes the runs of a plan, one seed after the other, counts them in a tally that has counted nothing yet, and answers whether all
/// ended.
///
/// Errors: out of memory only.
pub(crate) fn count_runs<R: Runner>(
    test: &Test,
    runner: &mut R,
    plan: SweepPlan,
    tally: &mut Tally<'_>,
) -> Result<bool, NoMemory>
    requires runs { R.runs runner.old test.now }
    requires tally { tally.old.test ≡ test.now }
    requires nothing { tally.old.counts ≡ nothing_counted }
    ensures test { OnOk result (tally.new.test ≡ test.now) }
    ensures ended { IfOk result (λ b. b ≡ (tally.new.counts.unfinished == 0)) }

    // What is counted is what any machine's runs come to that are these.
    ensures counts { OnOk result ((kind : ProtocolKind) (config : Configuration)
        → ((cs : List Choice) → R.run_of runner.old test.now cs ≡ run_under test.now kind config cs)
        → tally.new.counts ≡ sweep_counts test.now kind config plan) }
    ensures answers { OnOk result ((kind : ProtocolKind) (config : Configuration)
        → ((cs : List Choice) → R.fits runner.old cs → AnswersFit test.now kind config cs) → SweepAnswersFit test.now kind config plan) }
{
    let mut all_ended = true;
    let length = plan.length() as usize;
    for at in 0..plan.seeds() {
        let mut choices = Seeded::new(test.cores(), plan.seed(at), length);
        let ended = runner.count_run(test, &mut choices, tally)?;
        all_ended = all_ended && ended;
    }
    Ok(all_ended)
}

/// Counts a run that ended with these registers and this memory.
pub(crate) fn count_state(
    test: &Test,
    registers: &[[u32; 6]],
    memory: &[u32],
    tally: &mut Tally<'_>,
) -> Result<(), NoMemory>
    requires tally { tally.old.test ≡ test.now }
    requires cores { length registers.now ≡ length test.now.programs }
    requires locations { length memory.now ≡ length test.now.locations }
    requires room { runs_in tally.old.counts < 2 ^ 32 - 1 }

    ensures counts { OnOk result
        (tally.new.counts ≡ with_verdict (verdict test.now registers.now memory.now)
        (with_state_counted (values_in test.now registers.now memory.now) tally.old.counts)) }
    ensures test { tally.new.test ≡ tally.old.test }
{
    let holds = verdict_of(test, registers, memory);
    tally.add_state(registers, memory, holds)
}
