//! The pass over a whole order that looks for breaches of the axioms.
ghost use Rattle.std.specs.Prelude.{◌≡◌, ◌+◌, ◌≤◌, ◌<◌, ℕ, length, slice_index, IfSome};
ghost use Rattle.tso_terms.specs.ProgramOrder as program_order;
ghost use Rattle.order_breaches.specs.inner.Slots.{IsIndex};
ghost use Rattle.order_breaches.specs.inner.Sources.{TellsSources};
ghost use Rattle.order_breaches.specs.inner.Matched.{AreOfPrograms};
ghost use Rattle.order_breaches.specs.inner.Passing.{HasMetFor};

use order_breaches::entry_breaches::{Programs, late, separated, wrong_write};
use order_breaches::met::{Met, first};
use order_breaches::progress::{reach, settle, write};
use std::sync::ledger::Ledger;
use tso_terms::Watched;
use wrong_reads::{entry_after, wrong_read};

/// Goes over an order that holds each action of the programs once, and notes the first wrong value
/// of a write, late entry, separated pair and wrong read that it meets. A wrong read is one only where
/// the order is whole and keeps program order.
pub fn pass<L: Ledger>(
    programs: Programs<'_>,
    reached: &mut [u32],
    settled: &mut [u32],
    words: &mut [u32],
    order: &mut Watched<'_, L>,
) -> Met
    requires index { IsIndex programs.made.now programs.slots.now }
    requires sources { TellsSources programs.made.now programs.sources.now }
    requires of_programs { AreOfPrograms programs.made.now (length reached.old) (length words.old) order.old.order }
    requires settled { length settled.old ≡ length reached.old }
    requires none_yet { (c : ℕ) → (slice_index reached.old c ≡ 0) × (slice_index settled.old c ≡ 0) }
    ensures met { HasMetFor words.old programs.entry.made.now order.old.order result }
    ensures within { IfSome result.late (λ a. a.0 < length order.old.order) }
    ensures same { order.new.order ≡ order.old.order }
    ensures looks { order.new.looks ≤ order.old.looks + length order.old.order }
{
    let mut met = Met {
        wrong_write: None,
        late: None,
        separated: None,
        wrong_read: None,
    };
    if order.len() == 0 {
        return met;
    }
    let mut x = order.look(0);
    for at in 0..order.len() {
        let next = entry_after(order, at, x);
        met = Met {
            wrong_write: first(met.wrong_write, wrong_write(programs, &x)),
            late: first(met.late, late(reached, settled, at, &x)),
            separated: first(met.separated, separated(&x, &next)),
            wrong_read: first(met.wrong_read, wrong_read(programs, settled, words, &x)),
        };
        reach(reached, &x);
        settle(settled, &x);
        write(words, &x);
        x = next;
    }
    met
}
