//! Whether an order is an execution of a model in whose final state what a test asks is true.
ghost use Rattle.std.specs.Prelude.{◌≡◌, ◌↔◌, true, false, IfOk, IsTrue, length};
ghost use Rattle.tso_terms.specs.Condition.{truth_of, NamesExist};
ghost use Rattle.tso_terms.specs.FinalState.{final_registers, final_words};
ghost use Rattle.tso_terms.specs.SequentialConsistency.{KeepsAllOrder};
ghost use Rattle.tso_terms.specs.Axioms.{IsTsoExecution};
ghost use Rattle.refutation_laws.specs.Refutations.{asked_claim};
ghost use Rattle.refutation_laws.specs.Models.{IsExecutionOf, IsMet};
ghost use Rattle.execution_check.specs.inner.Orders as spec;

use crate::final_state::{registers_left, words_left};
use axiom_checker::{Breach, check_order};
use refutation_laws::Model;
use refutations::events::is_before;
use std::alloc::Global;
use tso_terms::{Entry, Execution, NoMemory, Quantifier, Test, cond_holds};

/// Whether one of these entries comes before x in its program.
fn is_preceded_by(x: &Entry, later: &[Entry]) -> bool
    ensures { result ≡ spec.is_preceded_by x.now later.now }
{
    for y in later {
        if is_before(y, x) {
            return true;
        }
    }
    false
}

/// Whether no entry comes after one that comes later in its program.
fn keeps_all_order(order: &[Entry]) -> bool
    ensures { result ≡ spec.keeps order.now }
{
    let mut left = order;
    while let Some((x, rest)) = left.split_first() {
        if is_preceded_by(x, rest) {
            return false;
        }
        left = rest;
    }
    true
}

/// Whether the order is a TSO execution.
fn is_tso_execution(alloc: Global, test: &Test, execution: &Execution) -> Result<bool, NoMemory>
    ensures { IfOk result (λ b. IsTrue b ↔ IsTsoExecution test.now execution.now.order.items) }
{
    match check_order(alloc, test, execution) {
        Ok(()) => Ok(true),
        Err(Breach::NoMemory) => Err(NoMemory),
        Err(_) => Ok(false),
    }
}

#[tactic(auto, using(crate::proofs::Keeping::keeps_all, crate::proofs::Keeping::all_kept))]
fn is_execution(
    alloc: Global,
    test: &Test,
    model: Model,
    execution: &Execution,
) -> Result<bool, NoMemory>
    ensures { IfOk result (λ b. IsTrue b ↔ IsExecutionOf model test.now execution.now.order.items) }
{
    match model {
        Model::Tso => is_tso_execution(alloc, test, execution),
        Model::Sequential => {
            if keeps_all_order(&execution.order) {
                is_tso_execution(alloc, test, execution)
            } else {
                Ok(false)
            }
        }
    }
}

/// Whether what the test asks is true in a state.
fn is_asked_true(test: &Test, registers: &[[u32; 6]], words: &[u32]) -> bool
    requires registers { length registers.now ≡ length test.now.programs }
    requires words { length words.now ≡ length test.now.words }
    ensures { result ≡ truth_of registers.now words.now (asked_claim test.now.condition) }
{
    test.know_limits();
    let Some(cond) = test.cond() else {
        return true;
    };
    let truth = cond_holds(cond, registers, words);
    match cond.quantifier {
        Quantifier::Exists => truth,
        Quantifier::NotExists => truth,
        Quantifier::Forall => !truth,
    }
}

/// Whether the order is an execution of the model in whose final state what the test asks is true.
///
/// Errors: out of memory only.
pub fn is_met(
    alloc: Global,
    test: &Test,
    model: Model,
    execution: &Execution,
) -> Result<bool, NoMemory>
    ensures met { IfOk result (λ b. b ≡ true → IsMet model test.now (asked_claim test.now.condition) execution.now.order.items) }
    ensures unmet { IfOk result (λ b. b ≡ false → ¬ IsMet model test.now (asked_claim test.now.condition) execution.now.order.items) }
{
    if !is_execution(alloc, test, model, execution)? {
        return Ok(false);
    }
    let registers = registers_left(alloc, test, &execution.order)?;
    let words = words_left(alloc, test, &execution.order)?;
    Ok(is_asked_true(test, &registers, &words))
}
