//! Who looks at a search while it goes on. What is told of it is no part of its answer: a search says the same whoever looks,
//! or nobody.
ghost use Rattle.std.specs.Prelude.{◌≡◌, OnOk, length};
ghost use Rattle.explorer.specs.inner.Settled.{HaveCores};

use crate::packed::Packed;
use crate::plan::Plan;
use crate::unpacking::unpack;
use flat_machine::{Snapshot, has_ended};
use indexmap::IndexSet;
use tso_terms::NoMemory;

/// How many more states are kept before a search is told of again.
pub const STRIDE: usize = 250_000;

/// Looks at a search while it goes on.
pub trait Watcher {
    /// The search goes on. It keeps so many states by now, and the test has ended in so many of them.
    fn goes_on(&mut self, kept: usize, finals: usize);

    /// The search is over, with an answer or without. It had kept so many states.
    fn is_over(&mut self, kept: usize);
}

/// Nobody looks.
#[derive(Drop)]
pub struct Unwatched;

impl Watcher for Unwatched {
    fn goes_on(&mut self, _kept: usize, _finals: usize) {}

    fn is_over(&mut self, _kept: usize) {}
}

/// How far a watcher has been told of a search.
#[derive(Clone, Copy)]
pub(crate) struct ToldSoFar {
    /// How many of the states have been looked at.
    counted: usize,
    /// In how many of these the test has ended.
    finals: usize,
    /// How many states there are when the watcher is told next.
    next: usize,
}

/// Nothing has been told.
pub(crate) const NOTHING_TOLD: ToldSoFar = ToldSoFar {
    counted: 0,
    finals: 0,
    next: STRIDE,
};

/// Tells a watcher of a search, where so many states are kept that it is time. The room is for one of them, unpacked.
///
/// Errors: out of memory only.
pub(crate) fn tell<W: Watcher>(
    plan: &Plan,
    states: &IndexSet<Packed>,
    room: &mut Snapshot,
    told: &mut ToldSoFar,
    watcher: &mut W,
) -> Result<(), NoMemory>
    requires cores { HaveCores plan.now.test.now states.now.keys }
    requires room { length room.old.cores.items ≡ length plan.now.test.now.programs }
    ensures room { OnOk result (length room.new.cores.items ≡ length plan.now.test.now.programs) }
{
    let kept = states.len();
    if kept < told.next {
        return Ok(());
    }
    for at in told.counted..kept {
        unpack(&states[at], room)?;
        if has_ended(plan.test, room) {
            told.finals = told.finals.saturating_add(1);
        }
    }
    told.counted = kept;
    told.next = told.next.saturating_add(STRIDE);
    watcher.goes_on(kept, told.finals);
    Ok(())
}
