//! Memory actions (entries), and orders of them: the vocabulary in which TSO is said. (Primer, chapter 4; x86-TSO, section
//! 3.)

use crate::instruction::{Core, Loc};

/// The kind of a memory action.
#[derive(Clone, Copy, PartialEq, Eq)]
pub enum Kind {
    /// A plain load.
    R,
    /// A plain store.
    W,
    /// A fence.
    F,
    /// The load part of a locked instruction.
    LR,
    /// The store part of a locked instruction.
    LW,
}

/// A memory action: of which core, of which instruction of its program (counted from 0, register
/// moves too), of which kind, at which location, and the value that was read or written. A fence
/// of a program has location 0 and value 0.
#[derive(Clone, Copy, PartialEq, Eq)]
pub struct Entry {
    pub core: Core,
    pub place: u8,
    pub kind: Kind,
    pub loc: Loc,
    pub value: u32,
}

/// The memory actions of all cores in one order, the first in memory first.
#[derive(Drop)]
pub struct Execution {
    pub order: Vec<Entry>,
}
