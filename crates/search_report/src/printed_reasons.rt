//! What is printed of an execution, or of a search that met its limit: lines of text, or a JSON value on one line.

ghost use Rattle.std.specs.Prelude.{◌≡◌, All, IfOk, length, map, string_bytes};
ghost use Rattle.tso_terms.specs.FinalState.{final_registers, final_words};
ghost use Rattle.refutation_laws.specs.Models.{IsExecutionOf};
ghost use Rattle.tso_report.specs.Tally.{shown_value};
ghost use Rattle.tso_report.specs.inner.Tally.{NameExists};
ghost use Rattle.search_report.specs.PrintedReasons.{unfinished_cases_in, ShowsExecution};

use crate::allowed::Shown;
use crate::readings::readings;
use crate::reasons_as_json::{allowed_json, unfinished_reason_json};
use crate::reasons_as_text::{allowed_text, unfinished_text};
use execution_check::final_state::{registers_left, words_left};
use refutation_laws::Model;
use relational_model::{candidates_of_executions_are_allowed, executions_have_candidates};
use std::alloc::Global;
use tso_report::named::{Named, looked_at, values_at};
use tso_terms::{Choice, Entry, Execution, NoMemory, Test};

/// What is printed of an execution of the model in which what the test asks is so, and of choices that lead there, as lines of text
/// or with `json` as a JSON value: what each read reads from, the writes to each location in their order, and the values that are
/// looked at.
///
/// Errors: out of memory only.
pub fn allowed_report(
    alloc: Global,
    test: &Test,
    model: Model,
    execution: &Execution,
    choices: &[Choice],
    json: bool,
) -> Result<String, NoMemory>
    requires { IsExecutionOf model test.now execution.now.order.items }
    ensures { IfOk result (λ text. ShowsExecution json model test.now execution.now.order.items choices.now (string_bytes text)) }
{
    executions_have_candidates();
    candidates_of_executions_are_allowed();
    let order = execution.order.as_slice();
    let readings = readings(alloc, test, order)?;
    let names = looked_at(alloc, test)?;
    let values = values_left(alloc, test, order, &names)?;
    let shown = Shown {
        order,
        readings: &readings,
        names: &names,
        values: &values,
        choices,
    };
    if json {
        allowed_json(alloc, test, model, &shown)
    } else {
        allowed_text(alloc, test, model, &shown)
    }
}

/// The values that an order leaves where these names are.
fn values_left(
    alloc: Global,
    test: &Test,
    order: &[Entry],
    names: &[Named],
) -> Result<Vec<u32>, NoMemory>
    requires { All (NameExists (length test.now.programs) (length test.now.locations)) names.now }
    ensures { IfOk result (λ values. values.items ≡ map (shown_value (final_registers test.now order.now) (final_words test.now order.now)) names.now) }
{
    test.know_limits();
    let registers = registers_left(alloc, test, order)?;
    let words = words_left(alloc, test, order)?;
    values_at(alloc, names, &registers, &words)
}

/// What is printed where the search met its limit, of so many cases: one line with that number, as text or with `json` as a JSON
/// value.
///
/// Errors: out of memory only.
pub fn unfinished_cases_report(
    alloc: Global,
    test: &Test,
    cases: u32,
    json: bool,
) -> Result<String, NoMemory>
    ensures { IfOk result (λ text. string_bytes text ≡ unfinished_cases_in json test.now cases) }
{
    if json {
        unfinished_reason_json(alloc, test, cases)
    } else {
        unfinished_text(alloc, cases)
    }
}
