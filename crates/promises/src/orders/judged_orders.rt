//! How often an order is looked at while it is judged: three looks for each entry, so no pair of entries is compared with
//! every other.

ghost use Rattle.std.specs.Prelude.{◌≡◌, ◌≢◌, ◌+◌, ◌*◌, ◌<◌, ◌≤◌, IfErr, IfOk, IsOkUnless, OnOk, length};
ghost use Rattle.tso_terms.specs.Axioms.{IsTsoExecution};
ghost use Rattle.order_breaches.specs.FirstBreach.{IsFirstBreach, IsJudged};

use axiom_checker::{Breach, check_counted, check_order};
use std::alloc::Global;
use std::sync::ledger::{Blank, Ledger};
use tso_terms::{Execution, Test, Watched};

/// Judging an order takes at most three looks for each of its entries.
pub fn three_looks_for_each_entry<L: Ledger>(
    alloc: Global,
    test: &Test,
    order: &mut Watched<'_, L>,
) -> Result<(), Breach>
    ensures looks { order.new.looks ≤ order.old.looks + 3 * length order.old.order }
    ensures same { order.new.order ≡ order.old.order }
{
    check_counted(alloc, test, order)
}

/// The same from the first look on, as `check_order` has an order judged: what was judged, and the order with its looks.
pub fn three_looks_from_the_first<'a, L: Ledger>(
    blank: Blank,
    alloc: Global,
    test: &Test,
    execution: &'a Execution,
) -> (Result<(), Breach>, Watched<'a, L>)
    requires name { blank.name ≡ L.name }
    requires parts { blank.parts ≡ L.parts }
    requires some { 0 < blank.parts }
    ensures judged { IsJudged test.now execution.entry.now.order.items result.0 }
    ensures looks { result.1.looks ≤ 3 * length execution.entry.now.order.items }
{
    let mut order = Watched::<L>::new(blank, execution);
    let judged = check_counted(alloc, test, &mut order);
    (judged, order)
}

/// An order is judged valid exactly where it is a TSO execution, memory aside; any other is answered with its first breach.
pub fn an_order_is_judged(alloc: Global, test: &Test, execution: &Execution) -> Result<(), Breach>
    ensures valid { OnOk result (IsTsoExecution test.now execution.now.order.items) }
    ensures accepted { IsTsoExecution test.now execution.now.order.items → IsOkUnless result Breach.NoMemory }
    ensures first { IfErr result (λ b. b ≢ Breach.NoMemory → IsFirstBreach test.now execution.now.order.items b) }
{
    check_order(alloc, test, execution)
}
