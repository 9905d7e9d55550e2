//! Hints: one line that says what was expected where an input was refused, where a run didn't end, or
//! what may mislead in an answer; of a search that ended at its limit a second line may say choices.
//!
//! A hint is made of what is known at the fault: its place, the name of the refusal, and the bytes that
//! are there. What is promised of it is its form; which words it has is held by tests.
#![tactic(auto)]

mod above;
mod assembled;
mod assembly;
mod assignment;
mod body;
mod brackets;
mod c_forms;
mod calls;
mod cause;
mod cells;
mod characters;
mod choices;
mod columns;
mod computed;
mod conditions;
mod cycles;
mod directives;
mod divider;
mod faults;
mod forms;
mod headers;
mod heads;
mod hinting;
mod hyphens;
mod instructions;
mod items;
mod keywords;
mod kinds;
mod larger_set;
mod line;
mod lines;
mod listed;
mod markup;
mod meant;
mod mnemonics;
mod moves;
mod near;
mod never_true;
mod numbers;
mod openings;
mod operand;
mod operands;
mod orders;
mod pairs;
mod passed;
mod place;
mod points;
mod prefixes;
mod printing;
mod quotes;
mod reader;
mod region;
mod registers;
mod rows;
mod search_end;
mod signs;
mod statement;
mod tables;
mod target;
mod unended;
mod unused;
mod unwritten;
mod values;
mod words;

pub use cause::Cause;
pub use hinting::hint_of;
pub use lines::line_hint;
pub use listed::{Listed, ListedName, listed_in};
pub use printing::{MAX_HINT, limits_are_as_defined};
pub use reader::{Reader, Request};
pub use search_end::{
    MAX_RUNS_LINE, SearchEnd, Sighting, limit_of_runs_lines_is_as_defined, runs_line,
};
