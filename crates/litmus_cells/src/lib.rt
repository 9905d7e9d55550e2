//! Cells of litmus tests: the instruction that a cell spells, or why and where its text is refused.
//!
//! A cell is its tokens. Its form is read first, with names and digits as they stand; then its number is judged, its location
//! is numbered by first appearance, and last there has to be room for it in its core's program.
#![tactic(auto)]

mod cell;

pub use cell::{CoreInstr, read_cell};
pub use litmus_tokens::{Fault, ReadError, Why, located, location_at, register_at, word_at};
