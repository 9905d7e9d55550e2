//! The commands of the program with their options, as data: by it command lines are read, and hints name options.
#![tactic(auto)]

pub mod help;
pub mod table;

pub use table::{DeclaredOption, SUBCOMMANDS, Subcommand, Value};
