//! All final states of a test that the flat machine can reach at a depth of its store buffers, each
//! with choices that lead there.
//!
//! A search keeps the machine's states in one set, each packed into a string of bytes, in the order in which they were found, and in each
//! of them in turn makes the choices of a stubborn set, or every choice. Choices that need not wait are made at once, as
//! `tso_laws` allows, so the states on their way aren't kept. States that differ in dead registers
//! alone are kept as one: those that nothing reads any more, and that nobody looks at in the end. So
//! are states that differ by which of some cores that are alike is which; at the end all of those in
//! which the test has ended are put back. Where there are more states than may be kept, the search ends
//! there. It then runs on from some of those that it keeps, down to the end of the test, and answers the
//! final states that it has met.
#![tactic(auto)]

mod alike;
mod arranging;
mod closing;
pub mod coming;
mod eager;
mod exchange;
pub mod fault;
pub mod final_states;
mod forgetting;
pub mod found;
pub mod link;
pub mod meeting;
pub mod packed;
mod packing;
mod picking;
pub mod plan;
pub mod reached;
mod running_on;
pub mod search;
pub mod situation;
pub mod stubborn;
mod unpacking;
pub mod watching;

pub use fault::ExploreFault;
pub use final_states::{Exploration, FinalState, Met, explore, explore_watched};
pub use search::Extent;
pub use watching::{STRIDE, Unwatched, Watcher};
