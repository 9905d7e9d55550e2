//! The caches of all cores on one snooping bus, and memory after them. An access is a hit, an upgrade or a
//! miss. It is whole when its call returns, or is made in two halves: an ask, and a completion; in between the
//! core's action holds the bus, and the accesses of others go on where they hit.
//!
//! Callers see one list of words, which every access keeps but for the word that it writes, and beside
//! it the lines and states of each cache, which go by the protocol's table alone. Coherence is proved
//! once, for any lawful protocol.
#![tactic(auto)]

pub mod access;
mod asking;
pub mod bus;
mod cleaning;
mod completing;
mod hierarchy;
pub mod holding;
mod loading;
pub mod looking;
mod restarting;
mod results;
pub mod shape;
mod snoop;
pub mod whole_accesses;
mod writing;

pub use access::{Access, AccessKind, AccessReport, BusRequest, Departure, Supplier, Updated};
pub use bus::SnoopBus;
pub use holding::{BusAction, HeldBus, Stage, Transaction};
pub use looking::CachedLine;
pub use shape::Shape;
