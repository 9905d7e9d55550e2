//! How much of a final state is shown.

/// How much of a final state is shown, from least to most.
#[derive(Clone, Copy)]
pub enum Show {
    /// What the condition names; without a condition all locations.
    Condition,
    /// That, and each register that an instruction of its core writes.
    Registers,
    /// That, and all locations.
    All,
}
