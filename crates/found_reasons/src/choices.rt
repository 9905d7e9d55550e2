//! The choices under which the flat machine goes along an execution: with store buffers those of a witness, and without them the
//! steps among these, since a store that nothing passes is then committed as it is made.

ghost use Rattle.std.specs.Prelude.{◌≡◌, IfOk};
ghost use Rattle.tso_terms.specs.Limits.{most_depth};
ghost use Rattle.tso_terms.specs.Axioms.{IsTsoExecution};
ghost use Rattle.tso_laws.specs.Along.{choices_along, LeadTo};
ghost use Rattle.tso_laws.specs.Outcomes.{IsSequentiallyConsistent};
ghost use Rattle.refutation_laws.specs.Models.{IsExecutionOf, depth_of};

use refutation_laws::Model;
use scheduler::{WitnessFault, witness};
use std::alloc::Global;
use tso_laws::{
    most_stores_are_depth_enough, runs_stop_where_they_end, stalls_change_nothing,
    unbuffered_runs_reach_exactly_the_sequentially_consistent,
};
use tso_terms::limits::MAX_DEPTH;
use tso_terms::{Choice, Execution, NoMemory, Test};

/// Choices under which the flat machine ends with the very order of an execution of the model, with
/// store buffers of the greatest depth for x86-TSO and with none for sequential consistency. None of
/// them stalls, and none is left over.
///
/// Errors: out of memory only.
pub fn choices_to(
    alloc: Global,
    test: &Test,
    model: Model,
    execution: &Execution,
) -> Result<Vec<Choice>, NoMemory>
    requires { IsExecutionOf model test.now execution.now.order.items }
    ensures { IfOk result (λ choices. LeadTo test.now (depth_of model) choices.items execution.now.order.items) }
{
    match model {
        Model::Tso => buffered_choices(alloc, test, execution),
        Model::Sequential => unbuffered_choices(alloc, test, execution),
    }
}

/// The choices along the order of a TSO execution.
fn buffered_choices(
    alloc: Global,
    test: &Test,
    execution: &Execution,
) -> Result<Vec<Choice>, NoMemory>
    requires { IsTsoExecution test.now execution.now.order.items }
    ensures along { IfOk result (λ choices. choices.items ≡ choices_along test.now execution.now.order.items) }
    ensures lead { IfOk result (λ choices. LeadTo test.now most_depth choices.items execution.now.order.items) }
{
    test.know_limits();
    most_stores_are_depth_enough();
    match witness(alloc, test, execution, MAX_DEPTH) {
        Ok(choices) => Ok(choices),
        Err(WitnessFault::NoMemory) => Err(NoMemory),
        Err(WitnessFault::Depth(_)) => unreachable!(),
    }
}

/// The steps among these choices, where the order keeps all of program order.
fn unbuffered_choices(
    alloc: Global,
    test: &Test,
    execution: &Execution,
) -> Result<Vec<Choice>, NoMemory>
    requires { IsSequentiallyConsistent test.now execution.now.order.items }
    ensures { IfOk result (λ choices. LeadTo test.now 0 choices.items execution.now.order.items) }
{
    test.know_limits();
    stalls_change_nothing();
    runs_stop_where_they_end();
    unbuffered_runs_reach_exactly_the_sequentially_consistent();
    let choices = buffered_choices(alloc, test, execution)?;
    let mut steps = Vec::new(alloc);
    for choice in &choices {
        if let Choice::Step(_) = choice {
            steps.push(*choice)?;
        }
    }
    Ok(steps)
}
