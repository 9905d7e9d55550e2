//! The reason why what a test asks never is, as a refutation; or an execution in which it is. One of the two is found, unless the
//! cases are more than the caller allows.
#![tactic(auto)]

pub mod answers;
pub mod case_numbers;
pub mod choices;
pub mod choosing;
pub mod cycle;
pub mod leaves;
pub mod order;
pub mod questions;
pub mod reason;
pub mod search;
pub mod sorting;
pub mod steps;
pub mod telling;

pub use case_numbers::numbers_of_cases;
pub use choices::choices_to;
pub use reason::Reason;
pub use search::explain;
