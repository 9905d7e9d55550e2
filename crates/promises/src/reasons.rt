//! What refutations refute, and what a search for a reason answers.

pub mod by_lemmas;
pub mod by_trees;
pub mod found_executions;
pub mod found_lemmas;
pub mod judged_lemmas;
