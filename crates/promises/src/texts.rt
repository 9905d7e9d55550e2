//! What is read of texts, and which texts are hints.

pub mod choices;
pub mod hints_and_tests;
pub mod readings;
