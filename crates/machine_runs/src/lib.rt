//! A machine of any protocol and configuration that is driven by choices, up to the first moment at which its test has ended;
//! and that what an ended run leaves is a TSO execution of the test, with its final state.
#![tactic(auto)]

pub mod driving;
pub mod ended_runs;
pub mod observing;

pub use driving::{
    Ending, Progress, Setup, drive_machine, ending_of, simulate_observed, verdict_of,
};
pub use ended_runs::ended_runs_of_machines_are_executions;
pub use observing::Observer;
