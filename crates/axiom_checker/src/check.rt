//! The judgement of an order: first whether it has each entry once, then the axioms, which mean nothing where it hasn't.
//! (Primer, chapter 4; x86-TSO, section 3.)
ghost use Rattle.std.specs.Prelude.{◌≡◌, ◌+◌, ◌*◌, ◌<◌, ◌≤◌, length, IfOk};
ghost use Rattle.order_breaches.specs.FirstBreach.{IsJudged};
ghost use Rattle.order_breaches.specs.inner.FirstBreach.{TellsFirstBreach};
ghost use Rattle.order_breaches.specs.inner.Laid.{IsLaidOut};

use crate::passing::pass;
use order_breaches::Breach;
use order_breaches::entry_breaches::Programs;
use order_breaches::layout::{Layout, lay_out};
use order_breaches::met::first_met;
use std::alloc::Global;
use std::marker::Brand;
use std::sync::ledger::{Blank, Ledger};
use tso_terms::limits::MAX_CORES;
use tso_terms::{Execution, NoMemory, Test, Watched};

/// Whether the order is a TSO execution of the test: it holds each memory action of the programs
/// exactly once, with the values that the programs give, keeps program order but for a plain store
/// and a later plain load, has the two parts of each locked instruction side by side, and each read
/// has the value of the last write before it in memory order or in program order. (Primer, chapter
/// "Total Store Order".)
///
/// Else the first breach: of the first variant of [`Breach`] that occurs, `Extra` and `Twice` taken
/// as one, and of its entries the earliest. `NoMemory` alone says nothing of the order.
pub fn check_order(alloc: Global, test: &Test, execution: &Execution) -> Result<(), Breach>
    ensures { IsJudged test.now execution.now.order.items result }
{
    check_on::<Brand>(Blank::new(1), alloc, test, execution)
}

/// The same, with the looks counted on a ledger.
fn check_on<L: Ledger>(
    blank: Blank,
    alloc: Global,
    test: &Test,
    execution: &Execution,
) -> Result<(), Breach>
    requires name { blank.name ≡ L.name }
    requires parts { blank.parts ≡ L.parts }
    requires some { 0 < blank.parts }
    ensures { IsJudged test.now execution.now.order.items result }
{
    let mut order = Watched::<L>::new(blank, execution);
    check_counted(alloc, test, &mut order)
}

/// The same as [`check_order`] of a watched order, with at most three looks for each entry: two
/// passes over the order, and one look back for the entry that a late one should have come before.
pub fn check_counted<L: Ledger>(
    alloc: Global,
    test: &Test,
    order: &mut Watched<'_, L>,
) -> Result<(), Breach>
    ensures judged { IsJudged test.now order.old.order result }
    ensures same { order.new.order ≡ order.old.order }
    ensures looks { order.new.looks ≤ order.old.looks + 3 * length order.old.order }
{
    let layout = lay_out(alloc, test, order)?;
    match breach_of_all(alloc, test, &layout, order)? {
        Some(breach) => Err(breach),
        None => Ok(()),
    }
}

/// The first breach of an order that has each action of the programs once.
fn breach_of_all<L: Ledger>(
    alloc: Global,
    test: &Test,
    layout: &Layout,
    order: &mut Watched<'_, L>,
) -> Result<Option<Breach>, NoMemory>
    requires { IsLaidOut test.now order.old.order layout.now }
    ensures breach { IfOk result (TellsFirstBreach test.now order.old.order) }
    ensures same { order.new.order ≡ order.old.order }
    ensures looks { order.new.looks ≤ order.old.looks + 2 * length order.old.order }
{
    let programs = Programs {
        made: &layout.made,
        slots: &layout.slots,
        sources: &layout.sources,
    };
    let mut reached = [0u32; MAX_CORES];
    let mut settled = [0u32; MAX_CORES];
    let mut words = Vec::from_slice(alloc, test.initial_words())?;
    let met = pass(programs, &mut reached, &mut settled, &mut words, order);
    Ok(first_met(met, order))
}
