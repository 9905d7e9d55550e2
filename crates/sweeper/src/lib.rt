//! A sweep: the runs of many seeds, and their tally.
#![tactic(auto)]

pub mod counting;

pub use counting::{Swept, sweep};
