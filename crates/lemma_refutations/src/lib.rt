//! Refutations by lemmas of what a litmus test asks: trees of questions whose branches are the answers that are still possible, and
//! lemmas before them.
//!
//! Nothing here computes. The definitions are in `specs/`: the edges that facts tell, the nodes of a
//! tree and where each may stand, and when lemmas and a tree refute. Each public function has no code of
//! its own, and its contract is a law on them: what is refuted never happens, and what isn't refuted
//! does. The two models are x86-TSO and sequential consistency.
//!
//! Sources: Alglave, Maranget and Tautschnig, "Herding Cats" (2014), for candidates and relations;
//! herd's `x86tso.cat` for the conditions.
#![tactic(auto)]

pub mod refuted_claims;
pub mod worked;

pub use refuted_claims::{
    edges_have_names, no_run_meets_what_is_refuted, refutations_by_lemmas_are_complete,
    refutations_by_lemmas_are_sound, refuted_questions_have_answers,
};
pub use worked::worked_refutations_by_lemmas;
