//! What a test asks, as it is printed.

ghost use Rattle.std.specs.Prelude.{◌≡◌, ◌++◌, IfOk, OnOk, string_bytes};
ghost use Rattle.serde_json.specs.View.{view};
ghost use Rattle.search_report.specs.ReasonText as spec;
ghost use Rattle.search_report.specs.ReasonJson as values;

use refutation_laws::Model;
use serde_json::Value;
use std::alloc::Global;
use tso_report::members::{Datum, object_of};
use tso_report::pieces::{Piece, write_pieces};
use tso_report::report::quantifier_text;
use tso_terms::{NoMemory, Quantifier, Test};

/// The name of a model.
pub fn model_name(model: Model) -> &'static str
    ensures { result.now ≡ spec.model_name model }
{
    match model {
        Model::Tso => "tso",
        Model::Sequential => "sc",
    }
}

/// The truth of its proposition that a condition asks for.
pub fn truth_asked(quantifier: Quantifier) -> bool
    ensures { result ≡ spec.truth_asked quantifier }
{
    match quantifier {
        Quantifier::Exists | Quantifier::NotExists => true,
        Quantifier::Forall => false,
    }
}

/// `Asked exists true`; nothing where the test has no condition.
pub fn write_asked(text: &mut String, test: &Test) -> Result<(), NoMemory>
    ensures { OnOk result (string_bytes text.new ≡ string_bytes text.old ++ spec.asked_line test.now.condition) }
{
    match test.cond() {
        None => Ok(()),
        Some(cond) => {
            let pieces = [
                Piece::Text("Asked "),
                Piece::Text(quantifier_text(cond.quantifier)),
                Piece::Text(" "),
                Piece::Truth(truth_asked(cond.quantifier)),
                Piece::Text("\n"),
            ];
            write_pieces(text, &pieces)
        }
    }
}

/// The quantifier of the condition and the truth that it asks for, or `null`.
///
/// Errors: out of memory only.
pub fn asked_value(alloc: Global, test: &Test) -> Result<Value, NoMemory>
    ensures { IfOk result (λ value. view value ≡ values.asked_value test.now.condition) }
{
    match test.cond() {
        None => Ok(Value::Null),
        Some(cond) => {
            let fields = [
                ("kind", Datum::Text(quantifier_text(cond.quantifier))),
                ("truth", Datum::Truth(truth_asked(cond.quantifier))),
            ];
            object_of(alloc, &fields)
        }
    }
}
