//! The final states that are printed: of those that look alike the first, in ascending order of their values, so that two
//! searches of one test print one list.

ghost use Rattle.std.specs.Prelude.{◌≡◌, [], IfOk, OnOk, All};
ghost use Rattle.search_report.specs.Outcomes.{outcome_of};
ghost use Rattle.search_report.specs.inner.ShownOutcomes.{AreNamesOf, IsOutcomeOf, kept_of, with_outcome, kept_after};

use explorer::FinalState;
use std::alloc::Global;
use std::collections::BTreeMap;
use tso_report::named::{Named, values_at};
use tso_terms::{NoMemory, Test};

/// The values of what is shown, in ascending order, each list with a final state that has them.
pub type Outcomes<'a> = BTreeMap<Vec<u32>, &'a FinalState>;

/// The final states of the test, the first of those that look alike.
///
/// Errors: out of memory only.
pub fn outcomes_of<'a>(
    alloc: Global,
    test: &Test,
    names: &[Named],
    finals: &'a [FinalState],
) -> Result<Outcomes<'a>, NoMemory>
    requires names { AreNamesOf test.now names.now }
    requires finals { All (λ f. IsOutcomeOf test.now (outcome_of f)) finals.now }
    ensures { IfOk result (λ outcomes. kept_of outcomes.entries ≡ kept_after names.now [] finals.now) }
{
    let mut outcomes = BTreeMap::new(alloc);
    for state in finals {
        let values = values_at(alloc, names, &state.registers, &state.memory)?;
        keep_first(&mut outcomes, values, state)?;
    }
    Ok(outcomes)
}

/// The state is kept unless one with these values was.
fn keep_first<'a>(
    outcomes: &mut Outcomes<'a>,
    values: Vec<u32>,
    state: &'a FinalState,
) -> Result<(), NoMemory>
    ensures { OnOk result (kept_of outcomes.new.entries ≡ with_outcome values.items (outcome_of state.now) (kept_of outcomes.old.entries)) }
{
    if !outcomes.contains_key(&values) {
        outcomes.insert(values, state)?;
    }
    Ok(())
}
