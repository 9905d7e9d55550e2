//! What a pass over an order met, and the breach that it makes the first.
ghost use Rattle.std.specs.Prelude.{◌≡◌, ◌+◌, ◌≤◌, ◌<◌, length, IfSome, IsNone};
ghost use Rattle.tso_terms.specs.Litmus.{Litmus};
ghost use Rattle.tso_terms.specs.Axioms.{IsTsoExecution};
ghost use Rattle.order_breaches.specs.First.{IsEarliest};
ghost use Rattle.order_breaches.specs.AxiomBreaches.{Overtakes, IsLate};
ghost use Rattle.order_breaches.specs.FirstBreach.{IsFirstBreach};
ghost use Rattle.order_breaches.specs.inner.Matched.{IsMatched};
ghost use Rattle.order_breaches.specs.inner.Passing.{HasMet, first_of_two};

use crate::breach::Breach;
use crate::entries::must_stand_before;
use std::sync::ledger::Ledger;
use tso_terms::{Entry, Watched};

/// The first of each kind of breach that the second pass met.
#[derive(Clone, Copy)]
pub struct Met {
    /// A write of another value than its program's, and that value.
    pub wrong_write: Option<(Entry, u32)>,
    /// An entry that came too late, and its place in the order.
    pub late: Option<(usize, Entry)>,
    /// A load part that isn't followed at once by its store part.
    pub separated: Option<Entry>,
    /// A read of another value than is due, and that value.
    pub wrong_read: Option<(Entry, u32)>,
}

/// The first of the two that is there.
pub fn first<T: Copy>(earlier: Option<T>, later: Option<T>) -> Option<T>
    ensures { result ≡ first_of_two earlier later }
{
    match earlier {
        Some(_) => earlier,
        None => later,
    }
}

/// The first of the axioms' order among what was met.
pub fn first_met<L: Ledger>(met: Met, order: &mut Watched<'_, L>) -> Option<Breach>
    requires { IfSome met.late (λ a. a.0 < length order.old.order) }
    ensures found { (t : Litmus) → IsMatched t order.old.order → HasMet t order.old.order (length order.old.order) met
        → IfSome result (IsFirstBreach t order.old.order) }
    ensures none { (t : Litmus) → IsMatched t order.old.order → HasMet t order.old.order (length order.old.order) met
        → IsNone result → IsTsoExecution t order.old.order }
    ensures same { order.new.order ≡ order.old.order }
    ensures looks { order.new.looks ≤ order.old.looks + length order.old.order }
{
    if let Some((x, due)) = met.wrong_write {
        return Some(Breach::WrongValue(x, due));
    }
    if let Some((at, a)) = met.late {
        return match first_overtaking(order, at, &a) {
            Some(b) => Some(Breach::ProgramOrder(a, b)),
            None => None,
        };
    }
    if let Some(x) = met.separated {
        return Some(Breach::NotAdjacent(x));
    }
    match met.wrong_read {
        Some((x, due)) => Some(Breach::ReadValue(x, due)),
        None => None,
    }
}

/// The earliest entry before this place which its program has after a, and which may not pass it.
pub fn first_overtaking<L: Ledger>(
    order: &mut Watched<'_, L>,
    at: usize,
    a: &Entry,
) -> Option<Entry>
    requires { at ≤ length order.old.order }
    ensures found { IfSome result (λ b. IsEarliest order.old.order (Overtakes at a.now) b) }
    ensures none { IsNone result → ¬ IsLate order.old.order at a.now }
    ensures same { order.new.order ≡ order.old.order }
    ensures looks { order.new.looks ≤ order.old.looks + at }
{
    for j in 0..at {
        let b = order.look(j);
        if must_stand_before(a, &b) {
            return Some(b);
        }
    }
    None
}
