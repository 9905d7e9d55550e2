//! The last write that an entry's own program has before it. A load that passed it in memory order must still return it
//! (forwarding). (Primer, chapter 4; x86-TSO, section 3.)
ghost use Rattle.std.specs.Prelude.{◌≡◌, ◌<◌, ℕ, length, true, IfOk};
ghost use Rattle.tso_terms.specs.ProgramOrder as program_order;
ghost use Rattle.tso_terms.specs.declared.execution.Entry.{Entry};
ghost use Rattle.order_breaches.specs.Entries.{IsExtra, written_value};
ghost use Rattle.order_breaches.specs.inner.Programs.{kept_in};
ghost use Rattle.order_breaches.specs.inner.Slots.{Ascends, EntriesAreWithin, IsIndex};
ghost use Rattle.order_breaches.specs.inner.Sources.{own_write, IsSource, TellsSources, noted_write};

use crate::entries::is_write;
use crate::index::{find, kept};
use std::alloc::Global;
use tso_terms::{Entry, NoMemory};

/// For each entry of the programs the last write to its location that its own program has before
/// it.
///
/// Errors: out of memory only.
pub fn own_writes(
    alloc: Global,
    locations: u8,
    made: &[Entry],
) -> Result<Vec<Option<Entry>>, NoMemory>
    requires ascends { Ascends made.now }
    requires within { (cores : ℕ) × EntriesAreWithin cores locations made.now }
    ensures { IfOk result (λ sources. TellsSources made.now sources.items) }
{
    // The latest write to each location on the way; at first there is none.
    let mut room = vec![in alloc; None; usize::from(locations)]?;
    let latest: &mut [Option<Entry>] = &mut room;
    let mut sources = Vec::new(alloc);
    for e in made {
        sources.push(own_write(latest, e))?;
        note_write(latest, e);
    }
    Ok(sources)
}

/// The latest write to the entry's location, if it is of the entry's core.
fn own_write(latest: &[Option<Entry>], e: &Entry) -> Option<Entry>
    ensures { result ≡ own_write e.now.core.0 (kept_in latest.now e.now.loc.0) }
{
    match kept(latest, usize::from(e.loc.0)) {
        Some(w) if w.core == e.core => Some(w),
        _ => None,
    }
}

/// Notes the entry as the latest write to its location, if it is a write.
fn note_write(latest: &mut [Option<Entry>], e: &Entry)
    requires { program_order.is_write e.now ≡ true → e.now.loc.0 < length latest.old }
    ensures { latest.new ≡ noted_write latest.old e.now }
{
    if is_write(e) {
        latest[usize::from(e.loc.0)] = Some(*e);
    }
}

/// The last write to x's location that its own program has before it.
pub fn source(
    made: &[Entry],
    slots: &[Option<usize>],
    sources: &[Option<Entry>],
    x: &Entry,
) -> Option<Entry>
    requires index { IsIndex made.now slots.now }
    requires sources { TellsSources made.now sources.now }
    ensures { ¬ IsExtra made.now x.now → IsSource made.now x.now result }
{
    match find(made, slots, x) {
        Some(i) => kept(sources, i),
        None => None,
    }
}

/// The value that the programs give the entry.
pub fn program_value(made: &[Entry], slots: &[Option<usize>], x: &Entry) -> u32
    requires index { IsIndex made.now slots.now }
    ensures { ¬ IsExtra made.now x.now → result ≡ written_value made.now x.now }
{
    match find(made, slots, x) {
        Some(i) => made[i].value,
        None => 0,
    }
}
