//! The answer of `witness`: the order is judged first, and only a TSO execution gets choices, which `run` follows to that
//! very order.

ghost use Rattle.std.specs.Prelude.{IfOk, string_bytes};
ghost use Rattle.tso_terms.specs.Axioms.{IsTsoExecution};
ghost use Rattle.command_line.specs.Limits.{IsDepth};
ghost use Rattle.tso_cli.specs.Witness.{IsWitness, IsWitnessAnswer};

use crate::answer::{Answer, Status};
use crate::checking::{invalid, refused_order};
use axiom_checker::check_order;
use hints::Cause;
use order_builder::order_texts::order_can_be_printed;
use order_builder::read_order;
use scheduler::{WitnessFault, choices_text, witness};
use std::alloc::Global;
use tso_laws::made_entries_fit_the_test;
use tso_terms::{Execution, NoMemory, Test};

/// The answer of `witness` to a test and the text of an order, for store buffers of this depth (1 to
/// 32): the order is judged first, as `check` does it.
///
/// Errors: out of memory only.
pub fn witness_answer(
    alloc: Global,
    test: &Test,
    depth: u8,
    text: &[u8],
) -> Result<Answer, NoMemory>
    requires { IsDepth depth }
    ensures { IfOk result (λ a. IsWitnessAnswer test.now depth text.now (string_bytes a.text) a.status) }
{
    order_can_be_printed();
    made_entries_fit_the_test();
    test.know_limits();
    match read_order(alloc, test, text) {
        Ok(execution) => match check_order(alloc, test, &execution) {
            Ok(()) => reached(alloc, test, depth, &execution),
            Err(breach) => invalid(alloc, test, breach),
        },
        Err(fault) => refused_order(alloc, test, text, fault),
    }
}

fn reached(alloc: Global, test: &Test, depth: u8, execution: &Execution) -> Result<Answer, NoMemory>
    requires order { IsTsoExecution test.now execution.now.order.items }
    requires depth { IsDepth depth }
    ensures { IfOk result (λ a. IsWitness test.now depth execution.now.order.items (string_bytes a.text) a.status) }
{
    match witness(alloc, test, execution, depth) {
        Ok(choices) => {
            let mut text = choices_text(alloc, &choices)?;
            text.push('\n')?;
            Ok(Answer {
                text,
                status: Status::Good,
                cause: Cause::Nothing,
            })
        }
        Err(WitnessFault::Depth(needed)) => {
            let text = format!(in alloc; "Depth needed={needed}\n")?;
            Ok(Answer {
                text,
                status: Status::Invalid,
                cause: Cause::Nothing,
            })
        }
        Err(WitnessFault::NoMemory) => Err(NoMemory),
    }
}
