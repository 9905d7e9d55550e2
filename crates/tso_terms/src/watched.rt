//! An order that counts how often an entry of it is looked at. The count exists in contracts alone; by it a clause can say
//! how long a check takes.
ghost use Rattle.std.specs.Prelude.{◌≡◌, ◌+◌, ◌<◌, length, slice_get, Some};
ghost use Rattle.tso_terms.specs.inner.Watched.{watched};

use crate::execution::{Entry, Execution};
use std::marker::Model;
use std::sync::ledger::{Blank, Book, Ledger, Share};

/// An order that shows its entries one at a time and counts how often it was asked. It can't be
/// cloned, and the count takes no bytes: it exists in contracts alone.
#[derive(Drop)]
pub struct Watched<'a, L: Ledger> {
    execution: &'a Execution,
    book: Book<L>,
    share: Share<L>,
}

impl<'a, L: Ledger> Model for Watched<'a, L> {
    ghost use Rattle.std.specs.Prelude.{◌<◌};
    ghost use Rattle.tso_terms.specs.inner.Watched.{WatchedOrder, watched};

    ghost Value = { WatchedOrder };

    ghost view = { λ w. watched w.execution.now.order.items w.book.total };

    ghost invariant = { λ w. 0 < w.share.parts };
}

impl<'a, L: Ledger> Watched<'a, L> {
    ghost use Rattle.tso_terms.specs.inner.Watched.{watched};

    /// Watches an order at which nobody has looked yet. The blank is what the count is kept on: `L`
    /// names it, and `Blank::new(1)` makes one.
    pub fn new(blank: Blank, execution: &'a Execution) -> Self
        requires name { blank.name ≡ L.name }
        requires parts { blank.parts ≡ L.parts }
        requires some { 0 < blank.parts }
        ensures { result ≡ watched execution.entry.now.order.items 0 }
    {
        let (book, share) = blank.open::<L>();
        Watched {
            execution,
            book,
            share,
        }
    }

    /// How many entries the order has.
    pub fn len(&self) -> usize
        ensures { result ≡ length self.now.order }
    {
        self.execution.order.len()
    }

    /// The entry at a place of the order, counted from 0. This is one look.
    pub fn look(&mut self, at: usize) -> Entry
        requires { at < length self.old.order }
        ensures entry { slice_get self.old.order at ≡ Some result }
        ensures counted { self.new ≡ watched self.old.order (self.old.looks + 1) }
    {
        self.book.add(&mut self.share, 1);
        self.execution.order[at]
    }
}
