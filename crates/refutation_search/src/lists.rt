//! Lists that can be asked at any place.

use std::alloc::Global;
use tso_terms::NoMemory;

/// No number, for callers whose numbers have no `Option`.
pub const NONE: usize = usize::MAX;

/// A list that has `none` wherever it has no item. One that was made by `new` notes it where memory is refused, and stays as it is.
#[derive(Drop)]
pub struct List<T: Copy> {
    pub items: Vec<T>,
    none: T,
    /// Whether memory was refused.
    pub is_refused: bool,
}

impl<T: Copy> List<T> {
    /// So many times `none`.
    pub fn new(alloc: Global, count: usize, none: T) -> List<T> {
        let items = vec![in alloc; none; count].unwrap_or(Vec::new(alloc));
        List {
            is_refused: items.len() != count,
            items,
            none,
        }
    }

    /// How many items there are.
    pub fn len(&self) -> usize {
        self.items.len()
    }

    /// The item at a place.
    pub fn at(&self, place: usize) -> T {
        if place < self.items.len() {
            self.items[place]
        } else {
            self.none
        }
    }

    /// Adds an item.
    pub fn push(&mut self, item: T) {
        self.is_refused |= self.items.push(item).is_err();
    }

    /// Takes the last item away.
    pub fn pop(&mut self) -> T {
        self.items.pop().unwrap_or(self.none)
    }

    /// Writes an item at a place that there is.
    pub fn put(&mut self, place: usize, item: T) {
        if place < self.items.len() {
            self.items[place] = item;
        }
    }

    /// Takes away all items from a place on.
    pub fn cut(&mut self, length: usize) {
        self.items.truncate(length);
    }

    /// All items.
    ///
    /// Errors: out of memory only.
    pub fn into_items(self) -> Result<Vec<T>, NoMemory> {
        if self.is_refused {
            return Err(NoMemory);
        }
        Ok(self.items)
    }
}
