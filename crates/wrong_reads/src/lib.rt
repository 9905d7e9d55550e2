//! Whether a read of an order has the value that is due to it, with one look at each entry.
//!
//! A read is judged by the last write before it in memory order or in its own program, which may come later in memory order:
//! to look at what is before it in the order alone is wrong. (Primer, chapter 4.)
#![tactic(auto)]

ghost use Rattle.std.specs.Prelude.{◌≡◌, ◌+◌, ◌≤◌, ◌<◌, true, length, slice_get, slice_index, IfSome, IsNone};
ghost use Rattle.std.specs.Option.{unwrap_or};
ghost use Rattle.tso_terms.specs.ProgramOrder as program_order;
ghost use Rattle.order_breaches.specs.Entries.{IsExtra};
ghost use Rattle.order_breaches.specs.inner.Slots.{IsIndex};
ghost use Rattle.order_breaches.specs.inner.Sources.{TellsSources, IsDueFrom, due_from};
ghost use Rattle.order_breaches.specs.inner.Passing.{NamesWrongRead};

use order_breaches::entries::{is_read, rank};
use order_breaches::entry_breaches::Programs;
use order_breaches::sources::source;
use std::sync::ledger::Ledger;
use tso_terms::{Entry, Watched};

/// The entry after this place, or x, the one at this place, where it is the last.
#[inline(always)]
pub fn entry_after<L: Ledger>(order: &mut Watched<'_, L>, at: usize, x: Entry) -> Entry
    requires { at < length order.old.order }
    ensures next { result ≡ unwrap_or (slice_get order.old.order (at + 1)) x }
    ensures same { order.new.order ≡ order.old.order }
    ensures looks { order.new.looks ≤ order.old.looks + 1 }
    ensures last { length order.old.order ≤ at + 1 → order.new.looks ≡ order.old.looks }
{
    if order.len() - at > 1 {
        order.look(at + 1)
    } else {
        x
    }
}

/// A read with the value that is due to it, where that is another: the value of its source where
/// that hasn't come, else the word of its location.
#[inline(always)]
pub fn wrong_read(
    programs: Programs<'_>,
    settled: &[u32],
    words: &[u32],
    x: &Entry,
) -> Option<(Entry, u32)>
    requires index { IsIndex programs.made.now programs.slots.now }
    requires sources { TellsSources programs.made.now programs.sources.now }
    ensures found { ¬ IsExtra programs.entry.made.now x.now
        → IfSome result (NamesWrongRead programs.entry.made.now settled.now words.now x.now) }
    ensures none { ¬ IsExtra programs.entry.made.now x.now → IsNone result → program_order.is_read x.now ≡ true
        → IsDueFrom programs.entry.made.now settled.now words.now x.now x.now.value }
{
    if !is_read(x) {
        return None;
    }
    let source = source(programs.made, programs.slots, programs.sources, x);
    let due = due_value(source, settled, words, x);
    if x.value == due {
        return None;
    }
    Some((*x, due))
}

#[inline(always)]
fn due_value(source: Option<Entry>, settled: &[u32], words: &[u32], x: &Entry) -> u32
    ensures { result ≡ due_from source settled.now words.now x.now }
{
    match source {
        Some(w) if mark_at(settled, usize::from(x.core.0)) <= rank(&w) => w.value,
        _ => mark_at(words, usize::from(x.loc.0)),
    }
}

#[inline(always)]
fn mark_at(marks: &[u32], at: usize) -> u32
    ensures { result ≡ slice_index marks.now at }
{
    if at < marks.len() { marks[at] } else { 0 }
}
