//! Which final states are searched for: those at a depth of the store buffers, with a limit on the states kept, since their
//! number can grow beyond any memory; and what is shown of them.

ghost use Rattle.std.specs.Prelude.{◌≡◌, ◌↔◌, IsSome, IfSome};
ghost use Rattle.command_line.specs.Search.{most_states, IsSearchWithinLimits};

use std::marker::Model;
use tso_report::Show;
use tso_terms::limits::MAX_DEPTH;

/// Maximum number of states of the machine that a search may keep.
pub const MAX_STATES: u32 = 10_000_000;

/// The limit is the number that the definitions have: a law, with nothing to run.
pub fn limits_are_as_defined()
    ensures { MAX_STATES ≡ most_states }
{}

/// A search for the final states that a machine can reach whose store buffers have this depth.
#[derive(Clone, Copy)]
pub struct SearchPlan {
    depth: u8,
    states: u32,
    show: Show,
}

impl Model for SearchPlan {
    ghost use Rattle.command_line.specs.Search.{Search, IsSearchWithinLimits};

    ghost Value = { Search };

    ghost view = { λ p. record { depth = p.depth; states = p.states; show = p.show } };

    ghost inverse = { λ v. record { depth = v.depth; states = v.states; show = v.show } };

    ghost invariant = { λ p. IsSearchWithinLimits (record { depth = p.depth; states = p.states; show = p.show }) };
}

impl SearchPlan {
    /// The search at this depth of the store buffers, which keeps at most so many states of the
    /// machine, and shows so much of each final one. `None` exactly where the depth is more than [`MAX_DEPTH`], or there is room for no
    /// state or for more than [`MAX_STATES`].
    pub fn new(depth: u8, states: u32, show: Show) -> Option<SearchPlan>
        ensures value { IfSome result (λ p. p ≡ record { depth = depth; states = states; show = show }) }
        ensures valid { IsSome result ↔ IsSearchWithinLimits (record { depth = depth; states = states; show = show }) }
    {
        if depth <= MAX_DEPTH && (1..=MAX_STATES).contains(&states) {
            Some(SearchPlan {
                depth,
                states,
                show,
            })
        } else {
            None
        }
    }

    /// How many stores each core's buffer holds, 0 to 32.
    pub fn depth(self) -> u8
        ensures value { result ≡ self.depth }
        ensures within { IsSearchWithinLimits self }
    {
        self.depth
    }

    /// How many states of the machine may be kept, 1 to [`MAX_STATES`].
    pub fn states(self) -> u32
        ensures { result ≡ self.states }
    {
        self.states
    }

    /// What is shown of each final state.
    pub fn show(self) -> Show
        ensures { result ≡ self.show }
    {
        self.show
    }
}
