//! What the choices of a witness lead to, and what a refusal of them says: the very order, or that no choices at this depth
//! reach it.

ghost use Rattle.std.specs.Prelude.{◌≡◌, ◌≢◌, ◌≤◌, true, List, IfOk, IfErr, length};
ghost use Rattle.tso_terms.specs.Axioms.{IsTsoExecution};
ghost use Rattle.tso_terms.specs.Runs.{run, CoresExist};
ghost use Rattle.tso_terms.specs.declared.choice.Choice.{Choice};
ghost use Rattle.tso_laws.specs.Counting.{most_stores};

use scheduler::{WitnessFault, witness};
use std::alloc::Global;
use tso_terms::{Choice, Execution, Test};

/// The choices of a witness end the test with the very order; none stalls, and none is left over. Where it is refused for its
/// depth, no choices at this depth end with the order. That is never so at a depth of as many stores as any program has.
pub fn a_witness_leads_to_its_order(
    alloc: Global,
    test: &Test,
    execution: &Execution,
    depth: u8,
) -> Result<Vec<Choice>, WitnessFault>
    requires execution { IsTsoExecution test.now execution.now.order.items }
    requires depth { (1 ≤ depth) × (depth ≤ 32) }
    ensures cores { IfOk result (λ v. CoresExist (length test.now.programs) v.items) }
    ensures ended { IfOk result (λ v. (run test.now depth v.items).ended ≡ true) }
    ensures order { IfOk result (λ v. (run test.now depth v.items).commits ≡ execution.now.order.items) }
    ensures used { IfOk result (λ v. (run test.now depth v.items).used ≡ length v.items) }
    ensures stalled { IfOk result (λ v. (run test.now depth v.items).stalled ≡ 0) }
    ensures unused { IfOk result (λ v. (run test.now depth v.items).unused ≡ 0) }
    ensures out_of_reach { IfErr result (λ fault. fault ≢ WitnessFault.NoMemory
        → (choices : List Choice) → (run test.now depth choices).commits ≢ execution.now.order.items) }
    ensures enough { most_stores test.now.programs ≤ depth → IfErr result (λ fault. fault ≡ WitnessFault.NoMemory) }
{
    witness(alloc, test, execution, depth)
}
