//! Which write each read of an execution reads from: the last one that counts for it, before it in the order or in its own
//! program.

ghost use Rattle.std.specs.Prelude.{◌≡◌, ◌↔◌, ◌∷◌, ◌++◌, ◌+◌, ◌<◌, IfOk, IsTrue, filter, take, drop, length};
ghost use Rattle.tso_terms.specs.ProgramEntries.{made};
ghost use Rattle.tso_terms.specs.ProgramOrder as program_order;
ghost use Rattle.relational_model.specs.Events.{IsIn};
ghost use Rattle.search_report.specs.inner.ShownExecutions as shown;
ghost use Rattle.search_report.specs.inner.ShownExecutions.{AreIn, ReadsIt, AreReadings};

use crate::shown::Event;
use execution_check::final_state::entries_made;
use refutations::events::{is_before, is_read, writes_to};
use std::alloc::Global;
use tso_terms::{Entry, NoMemory, Test};

/// A read, and the write that it reads from; none is the initial one.
#[derive(Clone, Copy)]
pub struct Reading {
    pub read: Event,
    pub write: Option<Event>,
}

/// An entry of an order as an event, with its own value.
pub fn event_of(e: &Entry) -> Event
    ensures { result ≡ shown.event_of e.now }
{
    Event {
        entry: *e,
        value: Some(e.value),
    }
}

/// The reads of an order, core by core, each with the write that it reads from.
///
/// Errors: out of memory only.
pub fn readings(alloc: Global, test: &Test, order: &[Entry]) -> Result<Vec<Reading>, NoMemory>
    requires { AreIn order.now (made test.now order.now) }
    ensures { IfOk result (λ all. AreReadings order.now (filter program_order.is_read (made test.now order.now)) all.items) }
{
    let entries = entries_made(alloc, test, order)?;
    let mut all = Vec::new(alloc);
    for read in &entries {
        if is_read(read) {
            all.push(Reading {
                read: event_of(read),
                write: source_in(order, read),
            })?;
        }
    }
    Ok(all)
}

/// The write that an entry of the order reads from: the last one that counts for it.
fn source_in(order: &[Entry], read: &Entry) -> Option<Event>
    requires { IsIn order.now read.now }
    ensures { ReadsIt order.now read.now result }
{
    let at = place_in(order, read);
    let mut last = None;
    for e in &order[..at] {
        if writes_to(read.loc.0, e) {
            last = Some(*e);
        }
    }
    for e in &order[at + 1..] {
        if is_before(e, read) && writes_to(read.loc.0, e) {
            last = Some(*e);
        }
    }
    match last {
        None => None,
        Some(write) => Some(event_of(&write)),
    }
}

/// Where an entry of the order is in it.
fn place_in(order: &[Entry], e: &Entry) -> usize
    requires { IsIn order.now e.now }
    ensures within { result < length order.now }
    ensures place { order.now ≡ take result order.now ++ (e.now ∷ drop (result + 1) order.now) }
{
    for at in 0..order.len() {
        if order[at] == *e {
            return at;
        }
    }
    0
}
