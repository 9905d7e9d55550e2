//! Which of the programs' entries come in an order, and which don't. A memory order has each entry exactly once and nothing
//! else; one that leaves a store out could keep every other axiom.
ghost use Rattle.std.specs.Prelude.{◌≡◌, ◌+◌, ◌<◌, ◌≤◌, ℕ, List, length, slice_get, Some, None, IfSome, IsNone};
ghost use Rattle.tso_terms.specs.declared.execution.Entry.{Entry};
ghost use Rattle.order_breaches.specs.First.{NoneBefore, IsFirst, IsNowhere};
ghost use Rattle.order_breaches.specs.Entries.{IsStray};
ghost use Rattle.order_breaches.specs.inner.Programs.{kept_in};
ghost use Rattle.order_breaches.specs.inner.Slots.{IsIndex, HasCome, NamesStray, HasNotCome};

use crate::breach::Breach;
use crate::index::{find, kept};
use std::sync::ledger::Ledger;
use tso_terms::{Entry, Watched};

/// The earliest entry of the order that is extra or comes twice. `came` has the value with which
/// each entry of the programs came.
pub fn first_stray<L: Ledger>(
    shape: &[Entry],
    slots: &[Option<usize>],
    came: &mut [Option<u32>],
    order: &mut Watched<'_, L>,
) -> Option<Breach>
    requires index { IsIndex shape.now slots.now }
    requires size { length came.old ≡ length shape.now }
    requires fresh { (i : ℕ) → kept_in came.old i ≡ None }
    ensures found { IfSome result (NamesStray shape.now order.old.order) }
    ensures none { IsNone result → IsNowhere order.old.order (IsStray shape.now order.old.order) }
    ensures came { IsNone result → HasCome shape.now order.old.order (length order.old.order) came.new }
    ensures same { order.new.order ≡ order.old.order }
    ensures looks { order.new.looks ≤ order.old.looks + length order.old.order }
{
    for at in 0..order.len() {
        let x = order.look(at);
        if let Some(stray) = arrive(shape, slots, came, &x) {
            return Some(stray);
        }
    }
    None
}

/// Notes that this entry came, unless it is extra or came before.
fn arrive(
    shape: &[Entry],
    slots: &[Option<usize>],
    came: &mut [Option<u32>],
    x: &Entry,
) -> Option<Breach>
    requires index { IsIndex shape.now slots.now }
    requires size { length came.old ≡ length shape.now }
    ensures size { length came.new ≡ length came.old }
    ensures found { (order : List Entry) (at : ℕ) → slice_get order at ≡ Some x.now → NoneBefore order (IsStray shape.now order) at
        → HasCome shape.now order at came.old → IfSome result (NamesStray shape.now order) }
    ensures none { (order : List Entry) (at : ℕ) → slice_get order at ≡ Some x.now
        → HasCome shape.now order at came.old → IsNone result
        → HasCome shape.now order (at + 1) came.new × ¬ IsStray shape.now order at x.now }
{
    let Some(i) = find(shape, slots, x) else {
        return Some(Breach::Extra(*x));
    };
    if kept(came, i).is_some() {
        return Some(Breach::Twice(*x));
    }
    came[i] = Some(x.value);
    None
}

/// The first entry of the programs that didn't come.
pub fn first_missing(shape: &[Entry], came: &[Option<u32>]) -> Option<Entry>
    ensures found { IfSome result (λ e. (k : ℕ) × IsFirst shape.now (HasNotCome came.now) k e) }
    ensures none { IsNone result → IsNowhere shape.now (HasNotCome came.now) }
{
    for (i, e) in shape.iter().enumerate() {
        if kept(came, i).is_none() {
            return Some(*e);
        }
    }
    None
}
