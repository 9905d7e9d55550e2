//! The shape of a cache, and where a location is in it. A shape is made only within the limits; the line, its set and
//! the offset in it come from the location alone, so that all cores agree on them.

ghost use Rattle.std.specs.Prelude.{◌≡◌, ◌<◌, ◌≤◌, ◌/◌, ◌%◌, ◌↔◌, IsSome, IfSome};
ghost use Rattle.cache_set.specs.Limits.{most_sets, most_ways, most_words};
ghost use Rattle.cache_set.specs.Geometry.{geometry, IsLineSize, IsShapeWithinLimits};

use crate::MAX_WAYS;
use std::marker::Model;
use tso_terms::{Core, Loc};

/// Maximum number of sets of a cache.
pub const MAX_SETS: u8 = 8;

/// The shape of each core's cache: how many sets it has, for how many lines a set has room (ways), and
/// how many words a line has.
#[derive(Clone, Copy)]
pub struct Shape {
    sets: u8,
    ways: u8,
    words: u8,
}

/// A word of a line, for a core: the line's number, and the word's offset in it.
#[derive(Clone, Copy)]
pub struct Target {
    pub core: usize,
    pub line: u8,
    pub offset: u8,
}

impl Model for Shape {
    ghost use Rattle.cache_set.specs.Geometry.{Geometry, geometry, IsShapeWithinLimits};

    ghost Value = { Geometry };

    ghost view = { λ s. geometry s.sets s.ways s.words };

    ghost inverse = { λ g. record { sets = g.sets; ways = g.ways; words = g.words } };

    ghost invariant = { λ s. IsShapeWithinLimits (geometry s.sets s.ways s.words) };
}

impl Shape {
    /// The shape with so many sets, ways and words of a line. `None` exactly where the sets aren't from
    /// 1 to `MAX_SETS`, the ways aren't from 1 to `MAX_WAYS`, or the words aren't 1, 2 or 4.
    pub fn new(sets: u8, ways: u8, words: u8) -> Option<Shape>
        ensures value { IfSome result (λ s. s ≡ geometry sets ways words) }
        ensures valid { IsSome result ↔ IsShapeWithinLimits (geometry sets ways words) }
    {
        let is_valid = (1..=MAX_SETS).contains(&sets)
            && (1..=MAX_WAYS).contains(&ways)
            && matches!(words, 1 | 2 | 4);
        if is_valid {
            Some(Shape { sets, ways, words })
        } else {
            None
        }
    }

    /// How many sets each cache has.
    pub fn sets(self) -> u8
        ensures value { result ≡ self.sets }
        ensures within { (1 ≤ result) × (result ≤ most_sets) }
    {
        self.sets
    }

    /// For how many lines each set has room.
    pub fn ways(self) -> u8
        ensures value { result ≡ self.ways }
        ensures within { (1 ≤ result) × (result ≤ most_ways) }
    {
        self.ways
    }

    /// How many words each line has.
    pub fn words(self) -> u8
        ensures value { result ≡ self.words }
        ensures within { IsLineSize result }
    {
        self.words
    }

    /// The number of the line in which a location lies. The sizes of a line are told apart here and in `offset_of`: a
    /// division by a number that isn't known costs more than the look-up that follows.
    pub fn line_of(self, loc: Loc) -> u8
        ensures value { result ≡ loc.0 / self.words }
        ensures some { 1 ≤ self.words }
    {
        match self.words {
            1 => loc.0,
            2 => loc.0 / 2,
            _ => loc.0 / 4,
        }
    }

    /// The word at a location, for a core.
    pub fn target_of(self, core: Core, loc: Loc) -> Target
        ensures value { result ≡ record { core = core.0; line = loc.0 / self.words; offset = loc.0 % self.words } }
        ensures within { result.offset < most_words }
    {
        Target {
            core: usize::from(core.0),
            line: self.line_of(loc),
            offset: self.offset_of(loc),
        }
    }

    /// The offset of a location in its line.
    pub fn offset_of(self, loc: Loc) -> u8
        ensures value { result ≡ loc.0 % self.words }
        ensures within { result < most_words }
    {
        match self.words {
            1 => 0,
            2 => loc.0 % 2,
            _ => loc.0 % 4,
        }
    }
}

impl Default for Shape {
    ghost use Rattle.std.specs.Prelude.{◌≡◌};
    ghost use Rattle.cache_set.specs.Geometry.{geometry};

    ghost is_default = { λ s. s ≡ geometry 1 2 1 };

    /// One set of two ways, with lines of one word.
    fn default() -> Shape {
        Shape {
            sets: 1,
            ways: 2,
            words: 1,
        }
    }
}
