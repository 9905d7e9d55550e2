//! Rows of bits: each row is a set of small numbers.

use crate::lists::{List, NONE};
use std::alloc::Global;

/// Rows of bits, all of so many words.
#[derive(Drop)]
pub struct Rows {
    pub words: List<u64>,
    pub width: usize,
}

/// The word in which a number's bit is alone.
pub fn bit(number: usize) -> u64 {
    1u64 << (number % 64)
}

/// The lowest number of a word that isn't empty, where `word` is its place in its row.
fn lowest(word: usize, bits: u64) -> usize {
    word.wrapping_mul(64)
        .wrapping_add(bits.trailing_zeros() as usize)
}

impl Rows {
    /// So many empty rows for numbers below `most`, and none where memory is refused.
    pub fn new(alloc: Global, count: usize, most: usize) -> Rows {
        let width = most / 64 + 1;
        Rows {
            words: List::new(alloc, count.wrapping_mul(width), 0),
            width,
        }
    }

    /// A word of a row, and no bits where there is no such row.
    pub fn word(&self, row: usize, word: usize) -> u64 {
        self.words
            .at(row.wrapping_mul(self.width).wrapping_add(word))
    }

    /// Writes a word of a row.
    pub fn put_word(&mut self, row: usize, word: usize, bits: u64) {
        let place = row.wrapping_mul(self.width).wrapping_add(word);
        self.words.put(place, bits);
    }

    /// Whether a row has the number.
    pub fn has(&self, row: usize, number: usize) -> bool {
        self.word(row, number / 64) & bit(number) != 0
    }

    /// Adds a number to a row.
    pub fn add(&mut self, row: usize, number: usize) {
        let bits = self.word(row, number / 64) | bit(number);
        self.put_word(row, number / 64, bits);
    }

    /// Takes a number out of a row.
    pub fn remove(&mut self, row: usize, number: usize) {
        let bits = self.word(row, number / 64) & !bit(number);
        self.put_word(row, number / 64, bits);
    }

    /// How many numbers a row has.
    pub fn count(&self, row: usize) -> usize {
        let mut sum = 0usize;
        for word in 0..self.width {
            sum = sum.wrapping_add(self.word(row, word).count_ones() as usize);
        }
        sum
    }

    /// The lowest number of a row from this one on, and `NONE` where it has none.
    pub fn next(&self, row: usize, from: usize) -> usize {
        let start = from / 64;
        for word in start..self.width {
            let all = self.word(row, word);
            let bits = if word == start {
                all & !bit(from).wrapping_sub(1)
            } else {
                all
            };
            if bits != 0 {
                return lowest(word, bits);
            }
        }
        NONE
    }

    /// Makes a row empty.
    pub fn clear(&mut self, row: usize) {
        for word in 0..self.width {
            self.put_word(row, word, 0);
        }
    }

    /// Adds to a row all of another one.
    pub fn join_own(&mut self, row: usize, other: usize) {
        for word in 0..self.width {
            let bits = self.word(row, word) | self.word(other, word);
            self.put_word(row, word, bits);
        }
    }

    /// Adds to a row all of a row of others.
    pub fn join(&mut self, row: usize, others: &Rows, other: usize) {
        for word in 0..self.width {
            let bits = self.word(row, word) | others.word(other, word);
            self.put_word(row, word, bits);
        }
    }
}
