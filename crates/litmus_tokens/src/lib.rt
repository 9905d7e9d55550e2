//! Test texts as tokens, each with its place, and what a few tokens spell: names of locations and registers, operands, and the
//! forms of instructions. Beside it stands why a text is refused, and how locations are numbered.
//!
//! A place is the number of bytes of the text that stand from there on, so that no reader counts
//! lines; [`line_of`] makes a line of it at the end.
#![tactic(auto)]

mod argument;
mod fault;
mod form;
mod front;
mod gap;
mod instructions;
mod lexing;
mod location;
mod names;
mod numbers;
mod numeral;
mod token;

pub use fault::{Fault, ReadError, Why};
pub use form::{Constant, Form, Use, form_of};
pub use front::{after_symbol, is_symbol, name_at, number_at};
pub use gap::after_gap;
pub use instructions::Instructions;
pub use lexing::{limits_are_as_defined, token_at, tokens_of, word};
pub use location::located;
pub use names::{location_at, register_at};
pub use numbers::{constant_at, word_at};
pub use numeral::{Numeral, numeral_at};
pub use token::{Lexeme, Stop, Symbol, Token, Tokens, line_of};
