//! What printed texts tell.

pub mod executions;
pub mod lines_by_hand;
pub mod machine_values;
pub mod runs;
pub mod sweeps;
pub mod trace_steps;
pub mod verdicts;
pub mod words;
