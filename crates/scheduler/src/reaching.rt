//! The choices that reach an order (a witness): that they are found for every TSO execution shows that the machine leaves
//! out nothing that TSO allows, if its store buffers are deep enough.

ghost use Rattle.std.specs.Prelude.{◌≡◌, ◌≢◌, ◌≤◌, IfOk, IfErr, MatchResult};
ghost use Rattle.tso_terms.specs.Limits.{least_depth, most_depth};
ghost use Rattle.tso_terms.specs.Axioms.{IsTsoExecution};
ghost use Rattle.tso_laws.specs.Along.{choices_along, LeadTo};
ghost use Rattle.tso_laws.specs.Depth.{needed};
ghost use Rattle.tso_laws.specs.Counting.{most_stores};
ghost use Rattle.scheduler.specs.Reach.{NamesDepth, IsOutOfReach};

use crate::depth::needed;
use crate::witness_fault::WitnessFault;
use std::alloc::Global;
use tso_laws::{
    every_execution_is_reached, most_stores_are_depth_enough, smaller_depths_never_reach,
    whole_orders_have_each_entry_once,
};
use tso_terms::{Choice, Execution, Test};
use witnesses::choices_along;

/// The choices under which the flat machine at this depth ends with the very order of a TSO execution of the test; none
/// stalls and none is left over. Going along the order, each entry steps its core only as far as it needs, and a plain
/// store is then drained; at the end the steps that are left are made, core by core.
///
/// - [`WitnessFault::Depth`]: exactly where the order needs a greater depth, which it names. No choices at this depth end
///   with the order then. It never comes where the depth is at least the greatest number of plain stores of a program.
/// - [`WitnessFault::NoMemory`]: only where the allocator refused a growth.
pub fn witness(
    alloc: Global,
    test: &Test,
    execution: &Execution,
    depth: u8,
) -> Result<Vec<Choice>, WitnessFault>
    requires execution { IsTsoExecution test.now execution.now.order.items }
    requires depth { (least_depth ≤ depth) × (depth ≤ most_depth) }

    ensures exact { IfOk result (λ v. v.items ≡ choices_along test.now execution.now.order.items) }
    ensures reaches { IfOk result (λ v. LeadTo test.now depth v.items execution.now.order.items) }
    ensures depth { MatchResult result (λ _. needed execution.now.order.items ≤ depth)
        (λ fault. fault ≢ WitnessFault.NoMemory → NamesDepth depth execution.now.order.items fault) }
    ensures no_smaller { IfErr result (λ fault. fault ≢ WitnessFault.NoMemory
        → IsOutOfReach test.now depth execution.now.order.items) }
    ensures enough { most_stores test.now.programs ≤ depth → IfErr result (λ fault. fault ≡ WitnessFault.NoMemory) }
{
    every_execution_is_reached();
    most_stores_are_depth_enough();
    smaller_depths_never_reach();
    whole_orders_have_each_entry_once();
    let needed = needed(alloc, test.cores(), &execution.order)?;
    if needed > usize::from(depth) {
        return Err(WitnessFault::Depth(needed as u8));
    }
    Ok(choices_along(alloc, test, &execution.order)?)
}
