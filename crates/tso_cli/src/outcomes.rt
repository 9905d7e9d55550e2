//! The answer of `outcomes`: every final state that the flat machine can reach, or that it can reach more states than may
//! be kept, with the final states that were met. A list with a gap must never look like a whole one.

ghost use Rattle.std.specs.Prelude.{◌≡◌, IfOk, string_bytes};
ghost use Rattle.explorer.specs.FinalStates.{AreReached, HasMoreStates};
ghost use Rattle.tso_report.specs.ShownNames.{names_shown};
ghost use Rattle.tso_cli.specs.Outcomes.{IsOutcomesAnswer};
ghost use Rattle.tso_cli.specs.Verdicts.{status_of_met};
ghost use Rattle.tso_cli.specs.inner.Searched.{ShowEveryEnd};

use crate::answer::{Answer, Status};
use crate::unfinished::cause_of_end;
use command_line::SearchPlan;
use explorer::{Extent, FinalState, Watcher, explore_watched};
use hints::Cause;
use search_report::verdict::is_as_claimed;
use search_report::{hidden_registers, outcomes_report, unfinished_report};
use std::alloc::Global;
use tso_terms::{NoMemory, Test};

/// The answer of `outcomes` to a test: every final state that the machine can reach at the depth of
/// the search, with choices that lead there; or that it can reach more states than may be kept, with
/// those final states that were met. The search doesn't tell states apart by registers that aren't shown.
/// With `assert` the status says where the test's condition isn't as it claims. The watcher is told of the search while it goes on, which
/// changes no answer.
///
/// Errors: out of memory only.
pub fn outcomes_answer<W: Watcher>(
    alloc: Global,
    test: &Test,
    search: SearchPlan,
    json: bool,
    assert: bool,
    watcher: &mut W,
) -> Result<Answer, NoMemory>
    ensures { IfOk result (λ a. IsOutcomesAnswer test.now search json assert (string_bytes a.text) a.status) }
{
    let hidden = hidden_registers(alloc, test, search.show())?;
    let met = explore_watched(
        alloc,
        test,
        search.depth(),
        search.states() as usize,
        &hidden,
        watcher,
    )?;
    match met.extent {
        Extent::Whole => found_answer(alloc, test, search, json, assert, &met.final_states),
        Extent::Cut => unfinished_answer(alloc, test, search, json, assert, &met.final_states),
    }
}

fn found_answer(
    alloc: Global,
    test: &Test,
    search: SearchPlan,
    json: bool,
    assert: bool,
    finals: &[FinalState],
) -> Result<Answer, NoMemory>
    requires reached { AreReached test.now search.depth finals.now }
    requires complete { ShowEveryEnd test.now (names_shown search.show test.now) search.depth finals.now }
    ensures { IfOk result (λ a. IsOutcomesAnswer test.now search json assert (string_bytes a.text) a.status) }
{
    let printed = outcomes_report(alloc, test, search.depth(), finals, search.show(), json)?;
    Ok(Answer {
        text: printed.text,
        status: Status::of_verdict(assert, printed.is_as_claimed),
        cause: Cause::Nothing,
    })
}

fn unfinished_answer(
    alloc: Global,
    test: &Test,
    search: SearchPlan,
    json: bool,
    assert: bool,
    finals: &[FinalState],
) -> Result<Answer, NoMemory>
    requires more { HasMoreStates test.now search.depth search.states }
    requires reached { AreReached test.now search.depth finals.now }
    ensures { IfOk result (λ a. IsOutcomesAnswer test.now search json assert (string_bytes a.text) a.status) }
{
    let limit = search.states() as usize;
    let printed = unfinished_report(alloc, test, limit, finals, search.show(), json)?;
    let cause = cause_of_end(alloc, test, search, finals, printed.count)?;
    Ok(Answer {
        text: printed.text,
        status: status_of_met(test, assert, printed.is_met),
        cause,
    })
}

/// The status of a search that met its limit, where what the condition asks for is so in a state that was met, or not.
fn status_of_met(test: &Test, assert: bool, is_met: bool) -> Status
    ensures { result ≡ status_of_met assert test.now.condition is_met }
{
    if assert && is_met {
        Status::of_verdict(true, is_as_claimed(test, true))
    } else {
        Status::Unended
    }
}
