//! What is printed of a run, and of many runs: texts that are functions of what a run left, so that all that is proved of
//! the run holds of what is read.
//!
//! It also says which values of a final state are shown: those of what the test's condition names, and of as many further
//! registers and locations as a user asks for. States are told apart by them.
#![tactic(auto)]

pub mod arrays;
pub mod condition_values;
mod counters;
pub mod json;
pub mod members;
pub mod named;
pub mod objects;
pub mod observation;
pub mod pieces;
pub mod printed_values;
pub mod report;
pub mod report_texts;
pub mod run;
pub mod show;
pub mod shown_names;
pub mod tally;
mod tally_text;

pub use json::{report_json, unfinished_json};
pub use report::{head_text, report_text, write_body};
pub use run::Run;
pub use show::Show;
pub use shown_names::names_shown;
pub use tally::Tally;
