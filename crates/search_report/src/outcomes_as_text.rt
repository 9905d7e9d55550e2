//! The final states of a test as lines of text: its values, and the choices that lead there, in the form in which they can
//! be run again; and what they say of the condition.

ghost use Rattle.std.specs.Prelude.{◌≡◌, ◌++◌, IfOk, OnOk, string_bytes, codes};
ghost use Rattle.std.specs.Fmt.{decimal};
ghost use Rattle.tso_terms.specs.Condition.{claim_of};
ghost use Rattle.std.specs.Map.{values_of};
ghost use Rattle.search_report.specs.Outcomes.{outcomes_line, state_line, by_line, printed_numbers, true_in, condition_lines, outcomes_text};
ghost use Rattle.search_report.specs.inner.ShownOutcomes.{AreNamesOf, AllHave, kept_of, AreShown};
ghost use Rattle.search_report.specs.inner.WrittenOutcomes.{kept_lines};

use crate::counted_states::counts_of;
use crate::outcomes::Outcomes;
use crate::verdict::{is_met, write_verdict};
use scheduler::write_after;
use std::alloc::Global;
use tso_report::named::Named;
use tso_report::observation::write_observed;
use tso_report::pieces::{Piece, write_pieces};
use tso_report::printed_values::write_values;
use tso_report::report::write_test;
use tso_terms::{Choice, Cond, NoMemory, Test, cond_holds};

/// The final states of a test as lines: the test; the depth and the number of states; two lines for
/// each state; and, where the test has a condition, in how many of them its proposition is true and
/// false, in which it is true, and whether the condition is as it claims.
///
/// Errors: out of memory only.
pub fn outcomes_text(
    alloc: Global,
    test: &Test,
    depth: u8,
    names: &[Named],
    outcomes: &Outcomes,
) -> Result<String, NoMemory>
    requires names { AreNamesOf test.now names.now }
    requires shown { AreShown test.now names.now (kept_of outcomes.now.entries) }
    ensures { IfOk result (λ text. string_bytes text ≡ outcomes_text test.now names.now depth (values_of (kept_of outcomes.now.entries))) }
{
    let mut text = String::new(alloc);
    write_test(&mut text, test)?;
    write_outcomes(&mut text, depth, outcomes.len())?;
    write_states(&mut text, test, names, outcomes)?;
    write_condition(&mut text, test, names, outcomes)?;
    Ok(text)
}

/// `Outcomes depth=D states=N`.
fn write_outcomes(text: &mut String, depth: u8, states: usize) -> Result<(), NoMemory>
    ensures { OnOk result (string_bytes text.new ≡ string_bytes text.old ++ outcomes_line depth states) }
{
    let pieces = [
        Piece::Text("Outcomes depth="),
        Piece::Number(depth as u64),
        Piece::Text(" states="),
        Piece::Number(states as u64),
        Piece::Text("\n"),
    ];
    write_pieces(text, &pieces)
}

/// Two lines for each state.
///
/// Errors: out of memory only.
pub fn write_states(
    text: &mut String,
    test: &Test,
    names: &[Named],
    outcomes: &Outcomes,
) -> Result<(), NoMemory>
    requires { AreNamesOf test.now names.now }
    ensures { OnOk result (string_bytes text.new ≡ string_bytes text.old ++ kept_lines test.now names.now (kept_of outcomes.now.entries)) }
{
    for (values, state) in outcomes.iter() {
        write_state(text, test, names, values, &state.choices)?;
    }
    Ok(())
}

/// `State 0:EAX=v x=v ..`, and `By 0s 1s 0d ..`.
fn write_state(
    text: &mut String,
    test: &Test,
    names: &[Named],
    values: &[u32],
    choices: &[Choice],
) -> Result<(), NoMemory>
    requires { AreNamesOf test.now names.now }
    ensures { OnOk result (string_bytes text.new
        ≡ string_bytes text.old ++ (state_line test.now names.now values.now ++ by_line choices.now)) }
{
    text.push_str("State")?;
    write_values(text, test, names, values)?;
    text.push_str("\nBy")?;
    write_after(text, choices)?;
    Ok(text.push('\n')?)
}

/// What is said of the condition, where the test has one: `Observation NAME Sometimes P Q`, `True 1 4 7`, and the verdict.
fn write_condition(
    text: &mut String,
    test: &Test,
    names: &[Named],
    outcomes: &Outcomes,
) -> Result<(), NoMemory>
    requires { AreShown test.now names.now (kept_of outcomes.now.entries) }
    ensures { OnOk result (string_bytes text.new ≡ string_bytes text.old
        ++ condition_lines test.now.name test.now.condition (values_of (kept_of outcomes.now.entries))) }
{
    let Some(cond) = test.cond() else {
        return Ok(());
    };
    let (held, failed) = counts_of(cond, outcomes);
    write_observed(text, test.name(), held, failed)?;
    text.push_str("True")?;
    write_numbers(text, cond, outcomes)?;
    text.push('\n')?;
    write_verdict(text, test, is_met(cond.quantifier, held, failed))
}

/// ` 1 4 7`: the numbers of the states, from 1, in which the proposition is true.
fn write_numbers(text: &mut String, cond: &Cond, outcomes: &Outcomes) -> Result<(), NoMemory>
    requires { AllHave (claim_of cond.now.prop) (values_of (kept_of outcomes.now.entries)) }
    ensures { OnOk result (string_bytes text.new ≡ string_bytes text.old
        ++ printed_numbers (true_in (claim_of cond.now.prop) (values_of (kept_of outcomes.now.entries)))) }
{
    let mut number = 0;
    for state in outcomes.values() {
        number += 1;
        if cond_holds(cond, &state.registers, &state.memory) {
            write_number(text, number)?;
        }
    }
    Ok(())
}

fn write_number(text: &mut String, number: usize) -> Result<(), NoMemory>
    ensures { OnOk result (string_bytes text.new ≡ string_bytes text.old ++ (codes " " ++ decimal number)) }
{
    write_pieces(text, &[Piece::Text(" "), Piece::Number(number as u64)])
}
