//! In how many of the states that are printed the condition's proposition is true, and in how many false. States that look
//! alike count as one: the proposition has one truth in all of them.

ghost use Rattle.std.specs.Prelude.{◌≡◌};
ghost use Rattle.std.specs.Map.{values_of};
ghost use Rattle.tso_terms.specs.Condition.{claim_of};
ghost use Rattle.search_report.specs.Outcomes.{held_in, failed_in};
ghost use Rattle.search_report.specs.inner.ShownOutcomes.{kept_of, AllHave};

use crate::outcomes::Outcomes;
use tso_terms::{Cond, cond_holds};

/// In how many of these states the condition's proposition is true, and in how many it is false.
pub fn counts_of(cond: &Cond, outcomes: &Outcomes) -> (usize, usize)
    requires { AllHave (claim_of cond.now.prop) (values_of (kept_of outcomes.now.entries)) }
    ensures held { result.0 ≡ held_in (claim_of cond.now.prop) (values_of (kept_of outcomes.now.entries)) }
    ensures failed { result.1 ≡ failed_in (claim_of cond.now.prop) (values_of (kept_of outcomes.now.entries)) }
{
    let mut held = 0;
    for state in outcomes.values() {
        if cond_holds(cond, &state.registers, &state.memory) {
            held += 1;
        }
    }
    (held, outcomes.len() - held)
}
