//! An execution in which what a test asks is so, as it is shown.

use crate::readings::Reading;
use tso_report::named::Named;
use tso_terms::{Choice, Entry};

/// What is shown of an execution.
#[derive(Clone, Copy)]
pub struct Shown<'a> {
    /// Its order.
    pub order: &'a [Entry],
    /// What each read reads from.
    pub readings: &'a [Reading],
    /// What is looked at.
    pub names: &'a [Named],
    /// The values that it has at the end.
    pub values: &'a [u32],
    /// Choices that lead there.
    pub choices: &'a [Choice],
}
