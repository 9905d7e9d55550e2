//! The commits of a run, and the order of memory actions that they make.
#![tactic(auto)]

mod building;
mod commits;

pub use building::build;
pub use commits::Commits;
