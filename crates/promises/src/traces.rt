//! What the steps of a trace tell.

pub mod cores_and_caches;
pub mod stalled_steps;
pub mod step_laws;
pub mod word_sources;
