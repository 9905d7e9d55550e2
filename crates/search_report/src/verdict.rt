//! Whether a test's condition is as it claims, in herd's words.

ghost use Rattle.std.specs.Prelude.{◌≡◌, ◌++◌, IfOk, OnOk, string_bytes};
ghost use Rattle.std.specs.Map.{values_of};
ghost use Rattle.serde_json.specs.View.{view};
ghost use Rattle.search_report.specs.Verdict as spec;
ghost use Rattle.search_report.specs.Outcomes.{is_met_in};
ghost use Rattle.search_report.specs.inner.ShownOutcomes.{AreShown, kept_of};

use crate::counted_states::counts_of;
use crate::outcomes::Outcomes;
use serde_json::Value;
use std::alloc::Global;
use tso_report::members::word_value;
use tso_report::named::Named;
use tso_report::pieces::{Piece, write_pieces};
use tso_terms::{NoMemory, Quantifier, Test};

/// Whether what the test's condition asks for is so in one of the states: of `exists` and `~exists` that its proposition
/// is true, of `forall` that it is false. Without a condition nothing is asked for.
pub fn is_met_in(test: &Test, names: &[Named], outcomes: &Outcomes) -> bool
    requires { AreShown test.now names.now (kept_of outcomes.now.entries) }
    ensures { result ≡ is_met_in test.now.condition (values_of (kept_of outcomes.now.entries)) }
{
    match test.cond() {
        None => false,
        Some(cond) => {
            let (held, failed) = counts_of(cond, outcomes);
            is_met(cond.quantifier, held, failed)
        }
    }
}

/// Whether what a condition asks for is so in one of the states, in so many of which its proposition is true, and in so many false.
pub fn is_met(quantifier: Quantifier, held: usize, failed: usize) -> bool
    ensures { result ≡ spec.is_met quantifier held failed }
{
    match quantifier {
        Quantifier::Exists | Quantifier::NotExists => held != 0,
        Quantifier::Forall => failed != 0,
    }
}

fn is_well(quantifier: Quantifier, allowed: bool) -> bool
    ensures { result ≡ spec.is_well quantifier allowed }
{
    match quantifier {
        Quantifier::Exists => allowed,
        Quantifier::NotExists | Quantifier::Forall => !allowed,
    }
}

/// Whether the test's condition is as it claims, where what it asks for can be, or can't; a test without a condition
/// claims nothing.
pub fn is_as_claimed(test: &Test, allowed: bool) -> bool
    ensures { result ≡ spec.is_as_claimed test.now.condition allowed }
{
    match test.cond() {
        None => true,
        Some(cond) => is_well(cond.quantifier, allowed),
    }
}

/// `Ok` or `No`, where what is asked for can be, or can't.
fn verdict_word(quantifier: Quantifier, allowed: bool) -> &'static str
    ensures { result.now ≡ spec.verdict_word (spec.is_well quantifier allowed) }
{
    if is_well(quantifier, allowed) {
        "Ok"
    } else {
        "No"
    }
}

/// `Verdict Ok`; nothing where the test has no condition.
///
/// Errors: out of memory only.
pub fn write_verdict(text: &mut String, test: &Test, allowed: bool) -> Result<(), NoMemory>
    ensures { OnOk result (string_bytes text.new ≡ string_bytes text.old ++ spec.verdict_line test.now.condition allowed) }
{
    match test.cond() {
        None => Ok(()),
        Some(cond) => {
            let pieces = [
                Piece::Text("Verdict "),
                Piece::Text(verdict_word(cond.quantifier, allowed)),
                Piece::Text("\n"),
            ];
            write_pieces(text, &pieces)
        }
    }
}

/// `Ok` or `No`, or `null` where the test has no condition.
///
/// Errors: out of memory only.
pub fn outcomes_verdict_value(alloc: Global, test: &Test, allowed: bool) -> Result<Value, NoMemory>
    ensures { IfOk result (λ value. view value ≡ spec.outcomes_verdict_value test.now.condition allowed) }
{
    match test.cond() {
        None => Ok(Value::Null),
        Some(cond) => word_value(alloc, verdict_word(cond.quantifier, allowed)),
    }
}
