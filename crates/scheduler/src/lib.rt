//! What is chosen next, and by which core: the texts that say it, the choices of a seed, and those that reach a given
//! order. By them alone a run on the machine is decided. Here too: the seeds of a sweep, the depth
//! that an order needs, and which choices of a run stalled.
#![tactic(auto)]

pub mod choice_texts;
mod choices;
pub mod coming;
mod depth;
pub mod fault;
mod item;
mod placing;
pub mod plan;
mod printing;
mod reaching;
mod seeds;
mod stalls;
pub mod witness_fault;
mod words;

pub use choice_texts::{printed_choices_are_spelled, spelled_cores_exist, texts_are_decided};
pub use choices::{MAX_CHOICES, read_choices};
pub use coming::{Choices, Listed, Seeded};
pub use fault::ChoiceFault;
pub use placing::word_of_choice;
pub use plan::SweepPlan;
pub use printing::{choices_text, write_after};
pub use reaching::witness;
pub use seeds::seeded_choices;
pub use stalls::{FirstStall, Stalls};
pub use witness_fault::WitnessFault;
