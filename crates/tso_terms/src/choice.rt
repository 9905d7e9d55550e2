//! The choices of a schedule, what may come of one, and the buses on which they are made. A run is decided by its
//! choices alone, so that it can be made again; a choice that can't take effect is a stall, and changes nothing. On the
//! atomic bus a request and its answer are one moment; on a split bus others act between the two, and may be made to
//! wait. (Primer, chapter 7.)

use crate::instruction::Core;

/// One step of a schedule: which core acts, and how.
#[derive(Clone, Copy, PartialEq, Eq)]
pub enum Choice {
    /// The core's next instruction is to take effect.
    Step(Core),
    /// The core's oldest pending store is to go to memory.
    Drain(Core),
}

/// Why a choice changed nothing.
#[derive(Clone, Copy)]
pub enum Stall {
    /// The core's program is at its end.
    Done,
    /// A plain store finds as many stores pending as the buffer holds.
    Full,
    /// A fence waits until nothing is pending.
    Fence,
    /// A locked instruction waits until nothing is pending.
    Lock,
    /// A drain finds nothing pending.
    Empty,
    /// On a split bus: an access that needs the bus finds it held by another action.
    Bus,
}

/// What a choice did.
#[derive(Clone, Copy)]
pub enum Outcome {
    /// One memory action took effect, or both parts of a locked instruction.
    Committed,
    /// A plain store became pending.
    Buffered,
    /// A register was set.
    Moved,
    /// On a split bus: the action holds the bus now, and its next choice completes it. Nothing else
    /// changed.
    Asked,
    /// Nothing changed.
    Stalled(Stall),
}

/// Which bus the caches share.
#[derive(Clone, Copy)]
pub enum Bus {
    /// A request and its answer are one moment.
    Atomic,
    /// A request and its answer are two moments, and others may act in between. (Primer, chapter 7.)
    Split,
}
