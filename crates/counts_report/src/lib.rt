//! What is printed of what the caches did in several runs: lines, or one JSON object. Both are functions of what was counted, so
//! they can't disagree.
#![tactic(auto)]

pub mod json;
pub mod names;
pub mod text;

pub use json::counts_json;
pub use text::counts_text;
