//! The choices along an order, by which the machine reaches it.
#![tactic(auto)]

mod along;

pub use along::choices_along;
