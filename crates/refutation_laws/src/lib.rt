//! Refutations: why no candidate that a model allows makes a proposition true, as a tree that a reader can check by hand.
//!
//! Nothing here computes. The definitions are in `specs/`: the answers of a branch, the edges and the
//! values that they tell, the tree, and when it refutes. Each public function has no code of its own,
//! and its contract is a law on them: what is refuted never happens, and what isn't refuted does. The
//! two models are x86-TSO and sequential consistency.
//!
//! Sources: Alglave, Maranget and Tautschnig, "Herding Cats" (2014), for candidates and relations;
//! herd's `x86tso.cat` for the conditions.
#![tactic(auto)]

pub mod known;
pub mod model;
pub mod refuted_claims;
pub mod worked;

pub use known::{Pair, Source};
pub use model::{Model, Relation};
pub use refuted_claims::{
    claims_are_refuted_or_met, edges_have_relations, known_values_are_right,
    no_run_makes_a_refuted_claim_true, refuted_claims_are_false, refuted_questions_are_answered,
};
pub use worked::worked_refutations;
