//! What is counted of runs.

pub mod many_runs;
pub mod sums;
pub mod tallies;
