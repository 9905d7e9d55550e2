//! What the caches did in the runs of a test, core by core: what each run counts, and of many runs the sum, the least and the
//! greatest.
#![tactic(auto)]

pub mod laws;
pub mod noting;
pub mod one_run;
pub mod runs;
pub mod spread;
pub mod traffic;

pub use laws::{counts_add_up, counts_tell_their_runs, sums_over_runs_add_up};
pub use one_run::count_run;
pub use runs::{CountedRuns, count_given, count_seeds};
pub use spread::Spread;
