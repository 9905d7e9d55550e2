//! Whether lemmas and a list of nodes are a refutation by lemmas of what a test asks: the checker, which computes exactly the definition
//! `refutes` of `lemma_refutations`.
//!
//! Sources: Alglave, Maranget and Tautschnig, "Herding Cats" (2014), for candidates and relations;
//! herd's `x86tso.cat` for the conditions.
#![tactic(auto)]

pub mod branches;
pub mod checking;
pub mod claims;
pub mod edges;
pub mod nodes;
pub mod tables;
pub mod tree;

pub use checking::refutes;
pub use tree::{Lemma, Node};
