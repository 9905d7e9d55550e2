//! Whether an order is an execution of a model in whose final state what a test asks is true.
#![tactic(auto)]

pub mod final_state;
pub mod meeting;

pub use meeting::is_met;
