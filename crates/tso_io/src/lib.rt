//! Streams as the commands use them: an input is read whole, an answer is written once, and it is counted which calls of a
//! device failed, so that a contract can say that a fault is told exactly where a device had one.
#![tactic(auto)]

pub mod streams;

pub use counted_io::{Counted, MAX_INPUT, READ_LIMIT, RunFault, counted, read_input};
pub use streams::write_output;
