//! What breaks the axioms in an order of memory actions, which breach is the first, and what one needs to find it: where an
//! entry is among those of the programs, whether it came, which write its program has before it, and how far its core
//! has come.
//!
//! What a breach is and which one is the first is in `specs/`, as facts about orders. Here single entries are judged, by
//! tables; `axiom_checker` goes over the order with these.
#![tactic(auto)]

pub mod arrivals;
pub mod breach;
pub mod entries;
pub mod entry_breaches;
pub mod first_breaches;
pub mod index;
pub mod layout;
pub mod met;
pub mod programs;
pub mod progress;
pub mod sources;

pub use breach::Breach;
