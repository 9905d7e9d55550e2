//! A search for a refutation by lemmas of what a test asks, or for an execution in which it is true: it proposes one, and what it proposes is
//! judged elsewhere. So its contracts say nothing but that it is safe and ends.
#![tactic(auto)]

pub mod candidates;
pub mod chance;
pub mod closing;
pub mod cores;
pub mod counting;
pub mod edges;
pub mod facts;
pub mod first_state;
pub mod following;
pub mod hanging;
pub mod hunt;
pub mod learner;
pub mod learning;
pub mod learnt_search;
pub mod leasts;
pub mod leaves;
pub mod lemmas;
pub mod lines;
pub mod lists;
pub mod looking;
pub mod makings;
pub mod ordering;
pub mod parts;
pub mod program;
pub mod proposal;
pub mod questions;
pub mod replay;
pub mod rows;
pub mod runs;
pub mod searching;
pub mod sets;
pub mod setting;
pub mod settle;
pub mod soon;
pub mod state;
pub mod told;
pub mod trees;
pub mod truths;
pub mod using;

pub use proposal::Proposal;
pub use searching::{Proposed, propose_answer};
