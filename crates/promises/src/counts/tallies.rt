//! What a tally has counted: every run once, and with a condition each ended run as true or false.

ghost use Rattle.std.specs.Prelude.{◌≡◌, ◌+◌, true, is_some};
ghost use Rattle.tso_report.specs.Tally.{runs_in, ended_in};

use tso_report::Tally;

/// A tally counts each run; with a condition, each run that ended made its proposition true or false.
pub fn a_tally_counts_each_run(tally: &Tally<'_>) -> u32
    ensures runs { result ≡ runs_in tally.now.counts }
    ensures verdicts { is_some tally.now.test.condition ≡ true
        → tally.now.counts.held + tally.now.counts.failed ≡ ended_in tally.now.counts }
{
    tally.count()
}
