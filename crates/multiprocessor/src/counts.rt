//! The statistics of one core's cache, and how the accesses of a run are counted. Each access is counted once, by the
//! choice that makes it; a load that the store buffer answers (a forward) is no access of the cache. All counts are the
//! acting core's, but for a flush: that is the core's whose copy was sent to memory when another one loaded the line.
//! (Primer, chapters 6 and 7, for hits, misses and upgrades.)

ghost use Rattle.std.specs.Prelude.{◌≡◌, ◌≢◌, ◌<◌, All, IfSome, length};
ghost use Rattle.multiprocessor.specs.Statistics.{with_use_counted, counts_at_core, with_access, with_write_back, with_forward, with_flush};
ghost use Rattle.multiprocessor.specs.Keeping.{IsAtMost};
ghost use Rattle.multiprocessor.specs.inner.Keeping.{IsFlusherAmong, IsUncounted, most_counted};

use crate::accesses::CacheUse;
use snoop_bus::{Access, AccessKind};
use tso_terms::{Core, Outcome};

/// What the accesses of one core's cache were, counted over a run. A load that the core's own pending
/// stores answer is no access; a locked instruction is one write access.
#[derive(Clone, Copy)]
pub struct Counts {
    /// Accesses that the core's own copy served, with nothing asked of the bus.
    pub hits: u32,
    /// Accesses that brought in a line that the core didn't have.
    pub misses: u32,
    /// Write accesses that took the other cores' copies away from a line that the core had.
    pub upgrades: u32,
    /// Loads that the core's own pending stores answered.
    pub forwards: u32,
    /// Dirty lines that left the core's cache for another line, and were written to memory.
    pub write_backs: u32,
    /// Copies of the core that were sent to memory when another core loaded their line.
    pub flushes: u32,
}

impl Counts {
    /// Nothing counted.
    pub const NONE: Counts = Counts {
        hits: 0,
        misses: 0,
        upgrades: 0,
        forwards: 0,
        write_backs: 0,
        flushes: 0,
    };
}

/// Counts what a choice of this core had to do with the caches, which had this outcome.
#[inline(always)]
pub fn tally(counts: &mut [Counts], core: Core, outcome: Outcome, cache_use: CacheUse)
    requires core { core.0 < length counts.old }
    requires flusher { IsFlusherAmong (length counts.old) cache_use }
    requires few { All (IsAtMost most_counted) counts.old }
    requires committed { outcome ≢ Outcome.Committed → IsUncounted cache_use }
    ensures { counts.new ≡ with_use_counted core.0 cache_use counts.old }
{
    // Most choices of a run on a split bus stall. They pass by their outcome, which is at hand; their use of the caches would have
    // to be read.
    if let Outcome::Committed = outcome {
        tally_use(counts, core, cache_use);
    }
}

/// Counts a use of the caches by a choice of this core.
#[inline(always)]
fn tally_use(counts: &mut [Counts], core: Core, cache_use: CacheUse)
    requires core { core.0 < length counts.old }
    requires flusher { IsFlusherAmong (length counts.old) cache_use }
    requires few { All (IsAtMost most_counted) counts.old }
    ensures { counts.new ≡ with_use_counted core.0 cache_use counts.old }
{
    match cache_use {
        CacheUse::Unused | CacheUse::Asked(_) => {}
        CacheUse::Forwarded => counts[core.0 as usize].forwards += 1,
        CacheUse::Through(report) => {
            let access = report.access;
            tally_access(&mut counts[core.0 as usize], access);
            if let Some(flusher) = access.flushed {
                counts[flusher.0 as usize].flushes += 1;
            }
        }
    }
}

/// Counts an access of the core itself.
#[inline(always)]
fn tally_access(counts: &mut Counts, access: Access)
    requires few { IsAtMost most_counted counts.old }
    ensures value { counts.new ≡ with_write_back access.wrote_back (with_access access.kind counts.old) }
{
    match access.kind {
        AccessKind::Hit => counts.hits += 1,
        AccessKind::Miss => counts.misses += 1,
        AccessKind::Upgrade => counts.upgrades += 1,
    }
    if access.wrote_back {
        counts.write_backs += 1;
    }
}
