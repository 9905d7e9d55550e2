//! Which reason is looked for: that of a model of memory, with a limit on the cases that are told apart, since their number
//! can grow beyond any time.

ghost use Rattle.std.specs.Prelude.{◌≡◌, ◌↔◌, IsSome, IfSome};
ghost use Rattle.command_line.specs.Explanation.{most_told_apart, IsExplanationWithinLimits};

use refutation_laws::model;
use std::marker::Model;

/// Maximum number of cases that a search for a reason may tell apart.
pub const MAX_CASES: u32 = 1_000_000;

/// The limit is the number that the definitions have: a law, with nothing to run.
pub fn limits_are_as_defined()
    ensures { MAX_CASES ≡ most_told_apart }
{}

/// A search for the reason why what a test asks never is, or for an execution in which it is, under a
/// model of memory.
#[derive(Clone, Copy)]
pub struct ReasonPlan {
    model: model::Model,
    cases: u32,
}

impl Model for ReasonPlan {
    ghost use Rattle.command_line.specs.Explanation.{Explanation, IsExplanationWithinLimits};

    ghost Value = { Explanation };

    ghost view = { λ p. record { model = p.model; cases = p.cases } };

    ghost inverse = { λ v. record { model = v.model; cases = v.cases } };

    ghost invariant = { λ p. IsExplanationWithinLimits (record { model = p.model; cases = p.cases }) };
}

impl ReasonPlan {
    /// The search under this model, which tells at most so many cases apart. `None` exactly where there
    /// is room for no case or for more than [`MAX_CASES`].
    pub fn new(model: model::Model, cases: u32) -> Option<ReasonPlan>
        ensures value { IfSome result (λ p. p ≡ record { model = model; cases = cases }) }
        ensures valid { IsSome result ↔ IsExplanationWithinLimits (record { model = model; cases = cases }) }
    {
        if (1..=MAX_CASES).contains(&cases) {
            Some(ReasonPlan { model, cases })
        } else {
            None
        }
    }

    /// The model of memory.
    pub fn model(self) -> model::Model
        ensures { result ≡ self.model }
    {
        self.model
    }

    /// How many cases may be told apart, 1 to [`MAX_CASES`].
    pub fn cases(self) -> u32
        ensures value { result ≡ self.cases }
        ensures within { IsExplanationWithinLimits self }
    {
        self.cases
    }
}
