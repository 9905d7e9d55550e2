//! A test's run under a list of choices, on a machine of any protocol and configuration. What drives the machine is in
//! `machine_runs`, which this crate lends out.
#![tactic(auto)]

pub mod simulation;

pub use machine_runs::{
    Ending, Observer, Progress, Setup, drive_machine, ended_runs_of_machines_are_executions,
    ending_of, simulate_observed, verdict_of,
};
pub use simulation::{SimFault, simulate, simulate_noting};
