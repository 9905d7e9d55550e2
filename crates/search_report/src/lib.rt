//! What is printed of what a search found: the final states of a test, or a reason; as lines of text, or as JSON.
//!
//! `outcomes` prints all final states: those that look alike once, each with choices that lead there; and what they say of the
//! test's condition. Where the search met its limit, it prints those that were met. Two final states look alike where the registers
//! and locations that are shown have the same values. Which registers make no state look different is known before a search.
//!
//! `why` prints the reason why what a test asks is never so, as cases that a reader can check by hand, or an execution in which
//! it is. A refutation is laid out in lines, of which both forms are made (`specs/Lines.antt`). Of a question's cases those come
//! first that their line closes, so that most reasons read as a chain.
#![tactic(auto)]

pub mod alike_outcomes;
pub mod allowed;
pub mod asked;
pub mod cases_of_lines;
pub mod contents;
pub mod contents_as_json;
pub mod contents_as_text;
mod counted_states;
pub mod fields;
pub mod hidden;
mod items;
pub mod keys;
mod laws_of_lines;
mod line_json;
pub mod line_layout;
mod line_text;
pub mod lines;
pub mod met_outcomes;
mod outcomes;
pub mod outcomes_as_json;
mod outcomes_as_text;
pub mod printed_outcomes;
pub mod printed_reasons;
pub mod readings;
pub mod reasons_as_json;
pub mod reasons_as_text;
mod refutation_reports;
pub mod shown;
mod shown_closings;
mod shown_events;
mod shown_facts;
mod shown_places;
mod shown_text;
pub mod standing;
pub mod verdict;

pub use hidden::hidden_registers;
pub use laws_of_lines::false_lines_are_so;
pub use met_outcomes::{PrintedMet, unfinished_report};
pub use printed_outcomes::{Printed, outcomes_report};
pub use printed_reasons::{allowed_report, unfinished_cases_report};
pub use reasons_as_json::unfinished_reason_json;
pub use reasons_as_text::unfinished_text;
pub use refutation_reports::refutation_report;
