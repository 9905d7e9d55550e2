//! The machine: cores with store buffers and caches on one snooping bus, run one choice at a time.
//!
//! Callers see the machine of `tso_terms` on either bus: what each choice does, and what it leaves. On
//! the atomic bus the protocol and the shape of the caches have no part in that; on a split bus the
//! caches answer whether an access hits. Beside it callers see what the accesses of each core's cache
//! were, which goes by both.
#![tactic(auto)]

pub mod bus_laws;
mod completing;
pub mod ending;
mod hardware;
pub mod looking;
pub mod machine;
mod restarting;
mod split;

pub use ending::FinalState;
pub use looking::BusHolder;
pub use machine::{Final, Machine};
pub use multiprocessor::{CacheUse, Config, Counts, MemoryAccess, accesses, config, counts};
pub use snoop_bus::{CachedLine, Shape};
pub use tso_terms::{Bus, Choice, Outcome, Stall};
