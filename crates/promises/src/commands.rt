//! What commands answer, and what is told of their end.

pub mod answers;
pub mod counted_streams;
pub mod headline;
pub mod machines_alike;
pub mod one_text;
pub mod round_trips;
pub mod single_calls;
pub mod why;
