//! Which question is best asked next: one that the facts leave open.
ghost use Rattle.reading_tables.specs.inner.Tables.{IsTold};

use reading_tables::orders::comes_before;
use reading_tables::tables::Told;
use refutations::Node;
use refutations::events::{is_write, same_event, writes_to};
use tso_terms::Entry;

/// The read that has the fewest sources of those that have several, if there is one.
fn fewest_sources(told: Told<'_>) -> Option<Entry> {
    let mut read = None;
    let mut fewest = usize::MAX;
    for x in told.readings {
        let sources = x.sources.len();
        if sources > 1 && sources < fewest {
            read = Some(x.read);
            fewest = sources;
        }
    }
    read
}

/// Whether these are two writes to one location, and nothing tells which comes first.
fn is_order_open(told: Told<'_>, w: &Entry, v: &Entry) -> bool
    requires { IsTold told }
{
    is_write(w)
        && writes_to(w.loc.0, v)
        && !same_event(w, v)
        && !comes_before(told, w, v)
        && !comes_before(told, v, w)
}

fn open_order(told: Told<'_>) -> Option<Node>
    requires { IsTold told }
{
    for w in told.events {
        for v in told.events {
            if is_order_open(told, w, v) {
                return Some(Node::ComesFirst(*w, *v));
            }
        }
    }
    None
}

/// A question that is left open: what a read with few sources reads from, or else which of two writes comes first.
pub fn choose_question(told: Told<'_>) -> Option<Node>
    requires { IsTold told }
{
    match fewest_sources(told) {
        Some(read) => Some(Node::ReadsFrom(read)),
        None => open_order(told),
    }
}
