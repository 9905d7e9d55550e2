//! Which instructions a reading has.

/// A set of instructions.
#[derive(Clone, Copy)]
pub enum Instructions {
    /// MOV, MFENCE, XCHG with memory, LOCK XADD; decimal numbers.
    Basic,
    /// Those, compare and exchange, arithmetic, locked or on registers, fences that do nothing; hexadecimal and negative numbers
    /// too.
    All,
}
