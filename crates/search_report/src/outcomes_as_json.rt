//! The final states of a test as JSON, for programs to read. It is one line, and its objects have their keys in the
//! order of their bytes.

ghost use Rattle.std.specs.Prelude.{◌≡◌, IfOk, All, string_bytes, length};
ghost use Rattle.std.specs.Map.{values_of};
ghost use Rattle.serde_json.specs.Data.{object, string};
ghost use Rattle.serde_json.specs.View.{view, members_view};
ghost use Rattle.scheduler.specs.Printed.{printed_choices};
ghost use Rattle.explorer.specs.declared.final_states.FinalState.{FinalState};
ghost use Rattle.tso_report.specs.inner.Tally.{NameExists};
ghost use Rattle.search_report.specs.Outcomes.{outcome_of};
ghost use Rattle.search_report.specs.OutcomesJson.{value_members, state_value, states_value, holds_in, observation_value, outcomes_json};
ghost use Rattle.search_report.specs.inner.ShownOutcomes.{AreNamesOf, IsOutcomeOf, kept_of, AreShown};

use crate::counted_states::counts_of;
use crate::keys::key_text;
use crate::outcomes::Outcomes;
use crate::verdict::{is_met_in, outcomes_verdict_value};
use explorer::FinalState;
use scheduler::choices_text;
use serde_json::Value;
use std::alloc::Global;
use tso_report::arrays::Array;
use tso_report::members::{Datum, object_of, word_value};
use tso_report::named::Named;
use tso_report::objects::Object;
use tso_report::observation::frequency;
use tso_terms::{Choice, NoMemory, Test, cond_holds};

/// The final states of a search that are printed.
#[derive(Clone, Copy)]
pub struct Found<'a, 'b> {
    pub test: &'a Test,
    pub depth: u8,
    /// The registers and locations that are shown.
    pub names: &'a [Named],
    pub outcomes: &'a Outcomes<'b>,
}

/// The final states of a test as JSON: an object of the depth, the observation, the states, the test
/// and the verdict, printed compact, and a line feed.
///
/// Errors: out of memory only.
pub fn outcomes_json(alloc: Global, found: &Found<'_, '_>) -> Result<String, NoMemory>
    requires names { AreNamesOf found.now.test.now found.now.names.now }
    requires shown { AreShown found.now.test.now found.now.names.now (kept_of found.now.outcomes.now.entries) }
    ensures { IfOk result (λ text. string_bytes text
        ≡ outcomes_json found.now.test.now found.now.names.now found.now.depth (values_of (kept_of found.now.outcomes.now.entries))) }
{
    let Found {
        test,
        depth,
        names,
        outcomes,
    } = *found;
    let is_met = is_met_in(test, names, outcomes);
    Object::new(alloc)
        .member("depth", Ok(Value::from(depth)))
        .member(
            "observation",
            observation_value(alloc, test, names, outcomes),
        )
        .member("states", states_value(alloc, test, names, outcomes))
        .member("test", word_value(alloc, test.name()))
        .member("verdict", outcomes_verdict_value(alloc, test, is_met))
        .line()
}

fn observation_value(
    alloc: Global,
    test: &Test,
    names: &[Named],
    outcomes: &Outcomes,
) -> Result<Value, NoMemory>
    requires { AreShown test.now names.now (kept_of outcomes.now.entries) }
    ensures { IfOk result (λ value. view value ≡ observation_value test.now.condition (values_of (kept_of outcomes.now.entries))) }
{
    match test.cond() {
        None => Ok(Value::Null),
        Some(cond) => {
            let (held, failed) = counts_of(cond, outcomes);
            let fields = [
                ("false", Datum::Number(failed as u64)),
                ("true", Datum::Number(held as u64)),
                ("word", Datum::Text(frequency(held, failed))),
            ];
            object_of(alloc, &fields)
        }
    }
}

/// The states, each as an object.
///
/// Errors: out of memory only.
pub fn states_value(
    alloc: Global,
    test: &Test,
    names: &[Named],
    outcomes: &Outcomes,
) -> Result<Value, NoMemory>
    requires names { AreNamesOf test.now names.now }
    requires shown { AreShown test.now names.now (kept_of outcomes.now.entries) }
    ensures { IfOk result (λ value. view value ≡ states_value test.now names.now (values_of (kept_of outcomes.now.entries))) }
{
    let mut states = Array::new(alloc);
    for (values, state) in outcomes.iter() {
        states = states.with(state_value(alloc, test, names, values, state));
    }
    states.value()
}

fn state_value(
    alloc: Global,
    test: &Test,
    names: &[Named],
    values: &[u32],
    state: &FinalState,
) -> Result<Value, NoMemory>
    requires names { AreNamesOf test.now names.now }
    requires values { length values.now ≡ length names.now }
    requires state { IsOutcomeOf test.now (outcome_of state.now) }
    ensures { IfOk result (λ value. view value
        ≡ state_value test.now names.now values.now state.now.choices.items (holds_in test.now.condition (outcome_of state.now))) }
{
    let state_values = Object::new(alloc)
        .member("choices", choices_value(alloc, &state.choices))
        .member("values", values_value(alloc, test, names, values));
    match test.cond() {
        None => state_values.value(),
        Some(cond) => {
            let holds = cond_holds(cond, &state.registers, &state.memory);
            state_values.member("holds", Ok(Value::Bool(holds))).value()
        }
    }
}

/// Choices as one text.
///
/// Errors: out of memory only.
pub fn choices_value(alloc: Global, choices: &[Choice]) -> Result<Value, NoMemory>
    ensures { IfOk result (λ value. view value ≡ string (printed_choices choices.now)) }
{
    Ok(Value::String(choices_text(alloc, choices)?))
}

/// The values of these registers and locations, each under its name.
///
/// Errors: out of memory only.
pub fn values_value(
    alloc: Global,
    test: &Test,
    names: &[Named],
    values: &[u32],
) -> Result<Value, NoMemory>
    requires known { All (NameExists (length test.now.programs) (length test.now.locations)) names.now }
    requires values { length values.now ≡ length names.now }
    ensures { IfOk result (λ value. view value ≡ object (value_members test.now names.now values.now)) }
{
    let mut members = Object::new(alloc);
    for at in (0..names.len()).rev() {
        let key = key_text(alloc, test, names[at])?;
        members = members.member(&key, Ok(Value::from(values[at])));
    }
    members.value()
}
