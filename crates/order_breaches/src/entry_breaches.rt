//! Whether an entry breaks an axiom: a write of another value than its program's, an entry that comes too late, a load part
//! that its store part doesn't follow. (Primer, chapter 4.)
ghost use Rattle.std.specs.Prelude.{◌≡◌, ◌<◌, length, Some, None, if◌then◌else◌, IfSome, IsNone};
ghost use Rattle.tso_terms.specs.ProgramOrder.{IsStorePart};
ghost use Rattle.tso_terms.specs.declared.execution.Kind.TheVariants.{LR};
ghost use Rattle.order_breaches.specs.Entries.{IsExtra, IsWrongWrite};
ghost use Rattle.order_breaches.specs.inner.Slots.{IsIndex};
ghost use Rattle.order_breaches.specs.inner.Progress as progress;
ghost use Rattle.order_breaches.specs.inner.Passing.{NamesWrongWrite};

use crate::entries::{is_store_part, is_write};
use crate::progress::is_late;
use crate::sources::program_value;
use tso_terms::{Entry, Kind};

/// What the programs make, with the tables that go with it.
#[derive(Clone, Copy)]
pub struct Programs<'a> {
    /// The entries with the order's own read values, core by core and in program order.
    pub made: &'a [Entry],
    /// Where the entry of each slot is among them.
    pub slots: &'a [Option<usize>],
    /// For each of them the last write to its location that its own program has before it.
    pub sources: &'a [Option<Entry>],
}

/// A write with the value that its program gives it, where that is another.
pub fn wrong_write(programs: Programs<'_>, x: &Entry) -> Option<(Entry, u32)>
    requires { IsIndex programs.made.now programs.slots.now }
    ensures found { ¬ IsExtra programs.entry.made.now x.now → IfSome result (NamesWrongWrite programs.entry.made.now x.now) }
    ensures none { ¬ IsExtra programs.entry.made.now x.now → IsNone result → ¬ IsWrongWrite programs.entry.made.now 0 x.now }
{
    if !is_write(x) {
        return None;
    }
    let due = program_value(programs.made, programs.slots, x);
    if x.value == due {
        return None;
    }
    Some((*x, due))
}

/// The entry with its place, where it comes late.
pub fn late(reached: &[u32], settled: &[u32], at: usize, x: &Entry) -> Option<(usize, Entry)>
    requires reached { x.now.core.0 < length reached.now }
    requires settled { x.now.core.0 < length settled.now }
    ensures { result ≡ (if progress.is_late reached.now settled.now x.now then Some (at, x.now) else None) }
{
    if is_late(reached, settled, x) {
        Some((at, *x))
    } else {
        None
    }
}

/// The entry where it is a load part and the next one isn't its store part.
pub fn separated(x: &Entry, next: &Entry) -> Option<Entry>
    ensures found { IfSome result (λ p. (p ≡ x.now) × (x.now.kind ≡ LR) × ¬ IsStorePart x.now next.now) }
    ensures none { IsNone result → x.now.kind ≡ LR → IsStorePart x.now next.now }
{
    if x.kind == Kind::LR && !is_store_part(x, next) {
        Some(*x)
    } else {
        None
    }
}
