//! The first pass over an order: it finds what is extra, there twice or missing. Where nothing is, the programs' entries are
//! laid out with the order's own read values, and an entry of the order is found among them at once.
ghost use Rattle.std.specs.Prelude.{◌≡◌, ◌≢◌, ◌+◌, ◌≤◌, ℕ, List, None, length, IfErr, IfOk};
ghost use Rattle.tso_terms.specs.Litmus.{IsTest};
ghost use Rattle.tso_terms.specs.ProgramEntries as program_entries;
ghost use Rattle.order_breaches.specs.FirstBreach.{IsFirstBreach};
ghost use Rattle.order_breaches.specs.declared.breach.Breach.TheVariants as breaches;
ghost use Rattle.order_breaches.specs.inner.Laid.{IsLaidOut};
ghost use Rattle.order_breaches.specs.inner.Matched.{IsMatched};
ghost use Rattle.order_breaches.specs.inner.Programs.{made_reading, kept_in};
ghost use Rattle.order_breaches.specs.inner.Slots.{IsIndex};

use crate::arrivals::{first_missing, first_stray};
use crate::breach::Breach;
use crate::index::index_of;
use crate::programs::{made_entries, reads_in_order};
use crate::sources::own_writes;
use std::alloc::Global;
use std::sync::ledger::Ledger;
use tso_terms::limits::{MAX_CORES, MAX_INSTRUCTIONS};
use tso_terms::{Entry, NoMemory, Test, Watched};

/// Maximum number of reads of a test: each instruction may be one.
const MAX_READS: usize = MAX_CORES * MAX_INSTRUCTIONS;

/// What the programs make with an order's own read values, and the tables that go with it.
#[derive(Drop)]
pub struct Layout {
    /// The entries, core by core and in program order.
    pub made: Vec<Entry>,
    /// Where the entry of each slot is among them.
    pub slots: Vec<Option<usize>>,
    /// For each of them the last write to its location that its own program has before it.
    pub sources: Vec<Option<Entry>>,
}

/// What the programs make, laid out for an order that holds each of their actions once. Of any other order the first breach;
/// `NoMemory` alone says nothing of the order.
pub fn lay_out<L: Ledger>(
    alloc: Global,
    test: &Test,
    order: &mut Watched<'_, L>,
) -> Result<Layout, Breach>
    ensures breach { IfErr result (λ b. b ≢ breaches.NoMemory → IsFirstBreach test.now order.old.order b) }
    ensures laid_out { IfOk result (IsLaidOut test.now order.old.order) }
    ensures same { order.new.order ≡ order.old.order }
    ensures looks { order.new.looks ≤ order.old.looks + length order.old.order }
{
    test.know_limits();
    let shape = made_entries(alloc, test, &[0; MAX_READS])?;
    let slots = index_of(alloc, test.cores(), &shape)?;
    let mut came = none_came(alloc, shape.len())?;
    let made = made_by_shape(alloc, test, &shape, &slots, &mut came, order)?;
    let sources = own_writes(alloc, test.locations(), &made)?;
    Ok(Layout {
        made,
        slots,
        sources,
    })
}

/// A table for so many entries of which none came yet.
///
/// Errors: out of memory only.
fn none_came(alloc: Global, count: usize) -> Result<Vec<Option<u32>>, NoMemory>
    ensures size { IfOk result (λ came. length came.items ≡ count) }
    ensures fresh { IfOk result (λ came. (i : ℕ) → kept_in came.items i ≡ None) }
{
    Ok(vec![in alloc; None; count]?)
}

/// What the programs make with the order's own read values, given the shape of what they make with any.
fn made_by_shape<L: Ledger>(
    alloc: Global,
    test: &Test,
    shape: &[Entry],
    slots: &[Option<usize>],
    came: &mut [Option<u32>],
    order: &mut Watched<'_, L>,
) -> Result<Vec<Entry>, Breach>
    requires test { IsTest test.now }
    requires shape { (reads : List ℕ) × (shape.now ≡ made_reading 0 test.now.programs test.now.registers reads) }
    requires index { IsIndex shape.now slots.now }
    requires size { length came.old ≡ length shape.now }
    requires fresh { (i : ℕ) → kept_in came.old i ≡ None }
    ensures breach { IfErr result (λ b. b ≢ breaches.NoMemory → IsFirstBreach test.now order.old.order b) }
    ensures made { IfOk result (λ es. es.items ≡ program_entries.made test.now order.old.order) }
    ensures index { IfOk result (λ es. IsIndex es.items slots.now) }
    ensures matched { IfOk result (λ _. IsMatched test.now order.old.order) }
    ensures same { order.new.order ≡ order.old.order }
    ensures looks { order.new.looks ≤ order.old.looks + length order.old.order }
{
    if let Some(stray) = first_stray(shape, slots, came, order) {
        return Err(stray);
    }
    if let Some(e) = first_missing(shape, came) {
        return Err(Breach::Missing(e.core, e.place, e.kind, e.loc));
    }
    let reads = reads_in_order(alloc, shape, came)?;
    Ok(made_entries(alloc, test, &reads)?)
}
