//! The runs of a sweep, each under the choices of a seed of its own, and what is counted of them: of a run no more is kept than
//! the values of its final state.
#![tactic(auto)]

mod flat_sweep;
mod runner;
mod stalling;
mod sweeping;

pub use sweeping::sweep_into;
