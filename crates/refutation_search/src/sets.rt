//! Sets of values: what each event can read or write, at most so many values, or any one.

use crate::lists::List;
use std::alloc::Global;

/// How many values are told at most. More are told as any value.
pub const MOST: usize = 64;

/// What stands where any value can be.
pub const ANY: usize = 255;

/// Sets of values by number.
#[derive(Drop)]
pub struct Values {
    pub values: List<u32>,
    pub counts: List<usize>,
}

impl Values {
    /// So many empty sets.
    pub fn new(alloc: Global, count: usize) -> Values {
        Values {
            values: List::new(alloc, count.wrapping_mul(MOST), 0),
            counts: List::new(alloc, count, 0),
        }
    }

    /// Whether memory was refused.
    pub fn is_refused(&self) -> bool {
        self.values.is_refused | self.counts.is_refused
    }

    /// Makes them the same sets as others.
    pub fn copy_from(&mut self, other: &Values) {
        for set in 0..other.counts.len() {
            self.copy_set(set, other, set);
        }
    }

    /// Makes a set the same as one of others.
    pub fn copy_set(&mut self, set: usize, other: &Values, from: usize) {
        let count = other.counts.at(from);
        self.counts.put(set, count);
        if count != ANY {
            for i in 0..count {
                let value = other.value(from, i);
                self.values
                    .put(set.wrapping_mul(MOST).wrapping_add(i), value);
            }
        }
    }

    /// Makes a set that of any value.
    pub fn put_any(&mut self, set: usize) {
        self.counts.put(set, ANY);
    }

    /// Whether any value can be.
    pub fn is_any(&self, set: usize) -> bool {
        self.counts.at(set) == ANY
    }

    /// How many values a set has; none where any value can be.
    pub fn count(&self, set: usize) -> usize {
        if self.is_any(set) {
            0
        } else {
            self.counts.at(set)
        }
    }

    /// The least value of a set; 0 where it has none.
    pub fn least(&self, set: usize) -> u32 {
        let count = self.count(set);
        let mut least = if count == 0 { 0 } else { u32::MAX };
        for i in 0..count {
            least = least.min(self.value(set, i));
        }
        least
    }

    /// A value of a set.
    pub fn value(&self, set: usize, i: usize) -> u32 {
        self.values.at(set.wrapping_mul(MOST).wrapping_add(i))
    }

    /// Writes a value of a set.
    pub fn put(&mut self, set: usize, i: usize, value: u32) {
        self.values
            .put(set.wrapping_mul(MOST).wrapping_add(i), value);
    }

    /// Whether a set has a value.
    pub fn has(&self, set: usize, value: u32) -> bool {
        if self.is_any(set) {
            return true;
        }
        for i in 0..self.counts.at(set) {
            if self.value(set, i) == value {
                return true;
            }
        }
        false
    }

    /// Whether a value can be this one, or another one.
    pub fn can_be(&self, set: usize, value: u32, truth: bool) -> bool {
        if self.is_any(set) {
            return true;
        }
        for i in 0..self.counts.at(set) {
            if (self.value(set, i) == value) == truth {
                return true;
            }
        }
        false
    }

    /// Takes away all values of a set but those that another set has.
    pub fn keep_common(&mut self, set: usize, others: usize) {
        if self.is_any(others) {
            return;
        }
        if self.is_any(set) {
            let count = self.counts.at(others);
            self.counts.put(set, 0);
            for i in 0..count {
                let value = self.value(others, i);
                add_value(self, set, value);
            }
            return;
        }
        let count = self.counts.at(set);
        self.counts.put(set, 0);
        for i in 0..count {
            let value = self.value(set, i);
            if self.has(others, value) {
                add_value(self, set, value);
            }
        }
    }
}

/// Adds a value to a set; more than so many are told as any value.
pub fn add_value(values: &mut Values, set: usize, value: u32) {
    if values.has(set, value) {
        return;
    }
    let count = values.counts.at(set);
    if count >= MOST {
        values.put_any(set);
        return;
    }
    values
        .values
        .put(set.wrapping_mul(MOST).wrapping_add(count), value);
    values.counts.put(set, count.wrapping_add(1));
}
