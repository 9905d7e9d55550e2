//! The trace of a run: what each choice that was used did to the store buffers, the caches, the bus and memory. It is lines of
//! text, or JSON.
//!
//! As JSON it also has the machine before the first choice, and after each choice. So one who draws a machine needs no model of
//! it.
#![tactic(auto)]

mod copies_as_json;
mod cores_as_json;
mod following;
mod kept_trace;
mod limited;
mod machine_as_json;
pub mod memory_words;
mod moment;
pub mod names;
mod own_words;
mod pieces;
mod programs_as_json;
mod proposition_as_json;
mod sending;
pub mod states;
pub mod step;
mod step_as_json;
mod supplied;
pub mod telling;
pub mod text;
mod texts_as_json;
pub mod told_runs;
mod traced_run;

pub use kept_trace::{TracedRun, simulate_telling_last, simulate_tracing};
pub use states::states_of;
pub use step::{Given, LineRequest, LineState, Moved, StateChange, Step};
pub use telling::{Told, tell, tell_or_stall};
pub use text::{write_end, write_stall, write_start, write_step};
pub use traced_run::{MAX_STEPS, traced_json, word_beyond};
