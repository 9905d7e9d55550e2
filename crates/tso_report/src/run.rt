//! A run that ended, as it is reported. Nothing is kept of one that didn't: its order is no execution of the test.

use machine_core::Final;

/// A run that ended.
pub struct Run {
    /// What it left: the order in which memory saw it, the final state, and what the accesses of each core's
    /// cache were.
    pub left: Final,
    /// Whether the condition's proposition is true in that state; `None` where the test has no
    /// condition.
    pub holds: Option<bool>,
    /// How many choices were made, the stalled ones too.
    pub used: usize,
    /// How many of these stalled.
    pub stalled: usize,
    /// How many choices stood after the end.
    pub unused: usize,
}

// Said by hand, so that who lets it go makes one call, and not one for each part.
impl Drop for Run {
    fn drop(self) {
        let Run {
            left: _left,
            holds: _,
            used: _,
            stalled: _,
            unused: _,
        } = self;
    }
}
