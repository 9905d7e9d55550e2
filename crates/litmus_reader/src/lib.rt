//! Texts of litmus tests: which test a text spells, or the first thing in it that is at fault and
//! its line.
//!
//! The text is read part by part in its own order: header line, information lines, initial state,
//! header row, rows, `locations [..]`, condition. Each part is a reading of tokens that answers what
//! it found and the tokens after it, or the first fault.
#![tactic(auto)]

mod assembling;
mod cell;
mod columns;
mod condition;
mod fault;
mod header;
mod information;
mod initial;
mod keyword;
mod limits;
mod observed;
mod reader;
mod row;
mod section;
mod setting;
pub mod test_texts;

pub use fault::TextFault;
pub use header::header_at;
pub use information::braces_at;
pub use limits::{MAX_OPEN, MAX_TEST_NAME, MAX_TEXT, limits_are_as_defined};
pub use litmus_cells::{Fault, ReadError, Why};
pub use litmus_tokens::Instructions;
pub use reader::{read_test, read_test_in, refusal_for, test_or_fault, test_or_fault_in};
pub use test_texts::texts_are_decided;
