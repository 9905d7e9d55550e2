//! The answer of `check`, and the text of a breach. `valid` and the breaches exclude each other: an order gets the one
//! exactly where it gets none of the other. (Primer, chapter 4, for the axioms.)

ghost use Rattle.std.specs.Prelude.{◌≡◌, ◌≢◌, ◌++◌, IfOk, OnOk, string_bytes, codes};
ghost use Rattle.order_builder.specs.PrintedOrder.{printed_entry, HasLocation, IsLocationFor};
ghost use Rattle.tso_cli.specs.CommandAnswers.{IsCheckAnswer};
ghost use Rattle.tso_cli.specs.inner.Answers.{Says};
ghost use Rattle.tso_cli.specs.CheckLines.{order_refusal, missing_action, breach_text, invalid_line};
ghost use Rattle.tso_cli.specs.inner.CheckLines.{CanBeNamed};

use crate::answer::{Answer, Status};
use axiom_checker::{Breach, check_order};
use hints::Cause;
use order_builder::order_texts::order_can_be_printed;
use order_builder::{OrderFault, letters_of, read_order, write_entry};
use std::alloc::Global;
use tso_laws::made_entries_fit_the_test;
use tso_terms::{Core, Entry, Kind, Loc, NoMemory, Test};

/// The answer of `check` to a test and the text of an order.
///
/// Errors: out of memory only.
pub fn check_answer(alloc: Global, test: &Test, text: &[u8]) -> Result<Answer, NoMemory>
    ensures { IfOk result (λ a. IsCheckAnswer test.now text.now (string_bytes a.text) a.status) }
{
    order_can_be_printed();
    made_entries_fit_the_test();
    test.know_limits();
    match read_order(alloc, test, text) {
        Ok(execution) => match check_order(alloc, test, &execution) {
            Ok(()) => Ok(Answer {
                text: String::from_str(alloc, "Check valid\n")?,
                status: Status::Good,
                cause: Cause::Nothing,
            }),
            Err(breach) => invalid(alloc, test, breach),
        },
        Err(fault) => refused_order(alloc, test, text, fault),
    }
}

pub(crate) fn refused_order(
    alloc: Global,
    test: &Test,
    text: &[u8],
    fault: OrderFault,
) -> Result<Answer, NoMemory>
    ensures says { IfOk result (λ a. Says a (order_refusal fault) Status.Refused) }
    ensures real { OnOk result (fault ≢ OrderFault.NoMemory) }
{
    let line = match fault {
        OrderFault::NoOrder => String::from_str(alloc, "Refused order NoOrder\n")?,
        OrderFault::BadLine(line) => format!(in alloc; "Refused order line {line} BadLine\n")?,
        OrderFault::BadCount => String::from_str(alloc, "Refused order BadCount\n")?,
        OrderFault::NoMemory => return Err(NoMemory),
    };
    Ok(Answer {
        text: line,
        status: Status::Refused,
        cause: Cause::of_order(test, text, fault),
    })
}

pub(crate) fn invalid(alloc: Global, test: &Test, breach: Breach) -> Result<Answer, NoMemory>
    requires { CanBeNamed test.now breach }
    ensures says { IfOk result (λ a. Says a (invalid_line test.now breach) Status.Invalid) }
    ensures real { OnOk result (breach ≢ Breach.NoMemory) }
{
    let mut text = String::from_str(alloc, "Check invalid ")?;
    write_breach(&mut text, test, breach)?;
    text.push('\n')?;
    Ok(Answer {
        text,
        status: Status::Invalid,
        cause: Cause::Nothing,
    })
}

fn write_breach(text: &mut String, test: &Test, breach: Breach) -> Result<(), NoMemory>
    requires { CanBeNamed test.now breach }
    ensures text { OnOk result (string_bytes text.new ≡ string_bytes text.old ++ breach_text test.now breach) }
    ensures real { OnOk result (breach ≢ Breach.NoMemory) }
{
    match breach {
        Breach::Extra(entry) => write_after(text, "C1 extra ", test, &entry),
        Breach::Twice(entry) => write_after(text, "C1 twice ", test, &entry),
        Breach::Missing(core, place, kind, loc) => {
            write_missing(text, test, core, place, kind, loc)
        }
        Breach::WrongValue(entry, due) => {
            write_after(text, "C2 ", test, &entry)?;
            write!(text, " due={due}")?;
            Ok(())
        }
        Breach::ProgramOrder(first, second) => {
            write_after(text, "C3 ", test, &first)?;
            write_after(text, " after ", test, &second)
        }
        Breach::NotAdjacent(entry) => write_after(text, "C4 ", test, &entry),
        Breach::ReadValue(entry, due) => {
            write_after(text, "C5 ", test, &entry)?;
            write!(text, " due={due}")?;
            Ok(())
        }
        Breach::NoMemory => Err(NoMemory),
    }
}

/// Writes an entry, and before it what is to be told of it.
fn write_after(text: &mut String, before: &str, test: &Test, entry: &Entry) -> Result<(), NoMemory>
    requires { HasLocation test.now entry.now }
    ensures { OnOk result (string_bytes text.new ≡ string_bytes text.old ++ (before.now ++ printed_entry test.now entry.now)) }
{
    text.push_str(before)?;
    write_entry(text, test, entry)
}

fn write_missing(
    text: &mut String,
    test: &Test,
    core: Core,
    place: u8,
    kind: Kind,
    loc: Loc,
) -> Result<(), NoMemory>
    requires { IsLocationFor test.now kind loc.0 }
    ensures { OnOk result (string_bytes text.new ≡ string_bytes text.old ++ (codes "C1 missing " ++ missing_action test.now core.0 place kind loc.0)) }
{
    let core = core.0;
    let letters = letters_of(kind);
    match kind {
        Kind::F => {
            write!(text, "C1 missing P{core}:{place} {letters}")?;
            Ok(())
        }
        Kind::R | Kind::W | Kind::LR | Kind::LW => {
            let name = test.location_name(loc);
            write!(text, "C1 missing P{core}:{place} {letters} {name}")?;
            Ok(())
        }
    }
}
