//! An input that is read whole from a stream, and streams that count which of their calls failed, so that a contract can
//! say that a fault is told exactly where a device had one.
#![tactic(auto)]

pub mod counted;
pub mod streams;

pub use counted::Counted;
pub use streams::{MAX_INPUT, READ_LIMIT, RunFault, read_input};
