//! The cores of a machine, with store buffers and caches on one snooping bus: what a step or a drain of one core does, and
//! what is counted of it.
//!
//! A core does what it does on the machine of `tso_terms`. Its access of the bus is whole, or completes what was asked for on
//! a split bus. Callers see the core, the bus, what was committed, and what the access of the core's cache was.
#![tactic(auto)]

pub mod accesses;
pub mod config;
pub mod counts;
pub mod entries;
pub mod locked;
pub mod memory;
pub mod pending_stores;
pub mod processor;
pub mod turn;

pub use accesses::{CacheUse, MemoryAccess};
pub use config::Config;
pub use counts::Counts;
pub use pending_stores::PendingStores;
pub use processor::Processor;
