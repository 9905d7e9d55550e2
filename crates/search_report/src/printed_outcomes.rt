//! All final states of a test as they are printed: lines of text, or a JSON value on one line.

ghost use Rattle.std.specs.Prelude.{◌≡◌, IfOk, string_bytes};
ghost use Rattle.std.specs.Map.{values_of};
ghost use Rattle.explorer.specs.FinalStates.{AreReached};
ghost use Rattle.tso_report.specs.ShownNames as shown;
ghost use Rattle.search_report.specs.PrintedOutcomes.{PrintsOutcomes, outcomes_in};
ghost use Rattle.search_report.specs.inner.ShownOutcomes.{AreNamesOf, AreShown, kept_of};

use crate::outcomes::{Outcomes, outcomes_of};
use crate::outcomes_as_json::{Found, outcomes_json};
use crate::outcomes_as_text::outcomes_text;
use crate::verdict::{is_as_claimed, is_met_in};
use explorer::FinalState;
use std::alloc::Global;
use tso_laws::ended_runs_are_executions;
use tso_report::named::Named;
use tso_report::{Show, names_shown};
use tso_terms::{NoMemory, Test};

/// What is printed of final states, and what they say of the condition.
#[derive(Drop)]
pub struct Printed {
    /// What is printed.
    pub text: String,
    /// Whether the test's condition is as it claims; without a condition it is.
    pub is_as_claimed: bool,
}

/// What is printed of the final states that a search of the test found at this depth: how many look
/// different; each of these once, in ascending order of the values of what is shown, with choices that
/// lead there; and, where the test has a condition, in how many of them its proposition is true and
/// false, in which it is true, and whether the condition is as it claims. Lines of text, or with `json`
/// a JSON value on one line.
///
/// Errors: out of memory only.
pub fn outcomes_report(
    alloc: Global,
    test: &Test,
    depth: u8,
    finals: &[FinalState],
    show: Show,
    json: bool,
) -> Result<Printed, NoMemory>
    requires { AreReached test.now depth finals.now }
    ensures { IfOk result (λ printed. PrintsOutcomes test.now (shown.names_shown show test.now) depth json finals.now
        (string_bytes printed.text) printed.is_as_claimed) }
{
    ended_runs_are_executions();
    test.know_limits();
    let names = names_shown(alloc, test, show)?;
    let outcomes = outcomes_of(alloc, test, &names, finals)?;
    Ok(Printed {
        text: text_of(alloc, test, depth, &names, &outcomes, json)?,
        is_as_claimed: is_as_claimed(test, is_met_in(test, &names, &outcomes)),
    })
}

fn text_of(
    alloc: Global,
    test: &Test,
    depth: u8,
    names: &[Named],
    outcomes: &Outcomes,
    json: bool,
) -> Result<String, NoMemory>
    requires names { AreNamesOf test.now names.now }
    requires shown { AreShown test.now names.now (kept_of outcomes.now.entries) }
    ensures { IfOk result (λ text. string_bytes text ≡ outcomes_in json test.now names.now depth (values_of (kept_of outcomes.now.entries))) }
{
    if json {
        let found = Found {
            test,
            depth,
            names,
            outcomes,
        };
        outcomes_json(alloc, &found)
    } else {
        outcomes_text(alloc, test, depth, names, outcomes)
    }
}
