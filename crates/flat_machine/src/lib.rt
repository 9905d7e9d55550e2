//! The flat machine of the definitions, run: one memory, and for each core the stores that are pending. It has no caches, for on
//! the atomic bus they have no part in what a run leaves; so whoever asks for that alone, as a search or a sweep, needs none.
#![tactic(auto)]

mod acting;
mod driving;
mod ending;
pub mod snapshot;

pub use acting::{act, drain, has_stalled, is_idle, step};
pub use driving::drive;
pub use ending::{has_ended, registers_of, write_registers};
pub use snapshot::{Processor, Snapshot, overwrite, start};
