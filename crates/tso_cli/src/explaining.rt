//! The answer of `why`: the reason why what a test asks never is, an execution in which it is, or that the search gave up. A part of a reason
//! must never look like a whole one.

ghost use Rattle.std.specs.Prelude.{◌≡◌, IfOk, string_bytes, true};
ghost use Rattle.tso_terms.specs.Condition.{TruthClaim, claim_of};
ghost use Rattle.tso_cli.specs.Why.{IsWhyAnswer};

use crate::answer::{Answer, Status};
use command_line::ReasonPlan;
use found_reasons::{Reason, choices_to, explain};
use hints::Cause;
use search_report::verdict::is_as_claimed;
use search_report::{allowed_report, refutation_report, unfinished_cases_report};
use std::alloc::Global;
use tso_terms::{NoMemory, Prop, Test};

/// The answer of `why` to a test: a refutation of what it asks, under the plan's model; or an execution
/// in which it is so, with choices that lead there; or that the search gave up.
/// With `assert` the status says where the test's condition isn't as it claims.
///
/// Errors: out of memory only.
pub fn why_answer(
    alloc: Global,
    test: &Test,
    plan: ReasonPlan,
    json: bool,
    assert: bool,
) -> Result<Answer, NoMemory>
    ensures { IfOk result (λ a. IsWhyAnswer test.now plan json assert (string_bytes a.text) a.status) }
{
    let always = Prop::Truth(true);
    reason_answer(alloc, test, &always, plan, json, assert)
}

/// The same, with the proposition that is asked of a test without a condition: one that is always true.
///
/// Errors: out of memory only.
fn reason_answer<'t>(
    alloc: Global,
    test: &'t Test,
    always: &'t Prop,
    plan: ReasonPlan,
    json: bool,
    assert: bool,
) -> Result<Answer, NoMemory>
    requires always { claim_of always.now ≡ TruthClaim true }
    ensures { IfOk result (λ a. IsWhyAnswer test.now plan json assert (string_bytes a.text) a.status) }
{
    let model = plan.model();
    let cases = plan.cases();
    match explain(alloc, test, model, cases as usize)? {
        Reason::Never(lemmas, tree) => {
            let text = refutation_report(alloc, test, always, model, &lemmas, &tree, json)?;
            Ok(Answer {
                text,
                status: Status::of_verdict(assert, is_as_claimed(test, false)),
                cause: Cause::Nothing,
            })
        }
        Reason::Allowed(execution) => {
            let choices = choices_to(alloc, test, model, &execution)?;
            let text = allowed_report(alloc, test, model, &execution, &choices, json)?;
            Ok(Answer {
                text,
                status: Status::of_verdict(assert, is_as_claimed(test, true)),
                cause: Cause::Nothing,
            })
        }
        Reason::TooMany => {
            let text = unfinished_cases_report(alloc, test, cases, json)?;
            Ok(Answer {
                text,
                status: Status::Unended,
                cause: Cause::TooManyCases { most: cases },
            })
        }
    }
}
