//! What the checker of refutations by lemmas, the search for reasons and the report share: the events of a test, the answers of a branch and
//! what they tell of values, and nodes that ask or close.
//!
//! Sources: Alglave, Maranget and Tautschnig, "Herding Cats" (2014), for candidates and relations;
//! herd's `x86tso.cat` for the conditions.
#![tactic(auto)]

pub mod answers;
pub mod edges;
pub mod events;
pub mod facts;
pub mod tree;
pub mod values;

pub use answers::{Answers, Branch};
pub use edges::Acyclic;
pub use events::make_events;
pub use facts::{Facts, known_facts, value_known};
pub use tree::Node;
