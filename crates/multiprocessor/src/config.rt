//! How a machine is built. A configuration is made only within the limits, so that nothing after it has to test them again.
//! Depth 0 is a machine without store buffers, whose runs are sequentially consistent. (Primer, chapter 3.)

ghost use Rattle.std.specs.Prelude.{◌≡◌, ◌≤◌, ◌↔◌, IsSome, IfSome};
ghost use Rattle.cache_set.specs.Geometry.{IsLineSize};
ghost use Rattle.tso_terms.specs.Limits.{most_depth};
ghost use Rattle.multiprocessor.specs.Configuration.{IsConfigurationWithinLimits};

use snoop_bus::Shape;
use snoop_bus::shape::{MAX_SETS, MAX_WAYS};
use std::marker::Model;
use tso_terms::Bus;
use tso_terms::limits::MAX_DEPTH;

/// How a machine is built: how many stores each core's buffer holds, the shape of its cache, and the
/// kind of bus that the caches share. At depth 0 no core has a buffer.
#[derive(Clone, Copy)]
pub struct Config {
    depth: u8,
    shape: Shape,
    bus: Bus,
}

impl Model for Config {
    ghost use Rattle.multiprocessor.specs.Configuration.{Configuration, IsConfigurationWithinLimits};

    ghost Value = { Configuration };

    ghost view = { λ c. record { depth = c.depth; shape = c.shape; bus = c.bus } };

    ghost inverse = { λ v. record { depth = v.depth; shape = v.shape; bus = v.bus } };

    ghost invariant = { λ c. IsConfigurationWithinLimits (record { depth = c.depth; shape = c.shape; bus = c.bus }) };
}

impl Config {
    /// The configuration with buffers of this depth, none at depth 0, and caches of this shape on this
    /// kind of bus. `None` exactly where the depth is over `MAX_DEPTH`.
    pub fn new(depth: u8, shape: Shape, bus: Bus) -> Option<Config>
        ensures value { IfSome result (λ c. c ≡ record { depth = depth; shape = shape; bus = bus }) }
        ensures valid { IsSome result ↔ (depth ≤ most_depth) }
    {
        // These calls have no effect; from them on it is known that the shape is within its limits.
        let _limits = (shape.sets(), shape.ways(), shape.words());
        if depth <= MAX_DEPTH {
            Some(Config { depth, shape, bus })
        } else {
            None
        }
    }

    /// How many stores a core's buffer holds; 0 where it has none.
    pub fn depth(self) -> u8
        ensures value { result ≡ self.depth }
        ensures within { IsConfigurationWithinLimits self }
    {
        self.depth
    }

    /// The kind of bus that the caches share.
    pub fn bus(self) -> Bus
        ensures { result ≡ self.bus }
    {
        self.bus
    }

    /// The shape of a core's cache.
    pub fn shape(self) -> Shape
        ensures { result ≡ self.shape }
    {
        self.shape
    }

    /// How many sets a core's cache has.
    pub fn sets(self) -> u8
        ensures value { result ≡ self.shape.sets }
        ensures within { (1 ≤ result) × (result ≤ MAX_SETS) }
    {
        self.shape.sets()
    }

    /// For how many lines a set of a core's cache has room.
    pub fn ways(self) -> u8
        ensures value { result ≡ self.shape.ways }
        ensures within { (1 ≤ result) × (result ≤ MAX_WAYS) }
    {
        self.shape.ways()
    }

    /// How many words a line has.
    pub fn words(self) -> u8
        ensures value { result ≡ self.shape.words }
        ensures within { IsLineSize result }
    {
        self.shape.words()
    }
}
