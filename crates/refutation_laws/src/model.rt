//! The two models whose candidates are refuted, and the relations of which their cycles are made. (Herding Cats,
//! section 4; herd's `x86tso.cat`.)

/// A model of memory.
#[derive(Clone, Copy)]
pub enum Model {
    /// x86-TSO.
    Tso,
    /// Sequential consistency.
    Sequential,
}

/// A relation between two events. What each one is, the definition `relates` says.
#[derive(Clone, Copy)]
pub enum Relation {
    /// Program order.
    Po,
    /// Program order of two accesses of one location.
    PoLoc,
    /// Program order as x86-TSO keeps it without fences and locked instructions.
    PoGhb,
    /// A fence comes between the two.
    Mfence,
    /// A store and a later load, one of them a part of a locked instruction.
    Implied,
    /// A write, and a read that reads from it.
    Rf,
    /// A write, and a read of another core that reads from it.
    Rfe,
    /// Two writes, as they are in coherence.
    Co,
    /// A read, and a write that comes after the one that it reads from.
    Fr,
}
