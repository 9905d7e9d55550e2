//! A report as JSON, for programs to read. It is one line, and its objects have their keys in the order of their bytes.

ghost use Rattle.std.specs.Prelude.{◌≡◌, All, IfOk, string_bytes, length};
ghost use Rattle.serde_json.specs.Data.{object, no_members};
ghost use Rattle.serde_json.specs.View.{view};
ghost use Rattle.relational_model.specs.Candidates.{Candidate};
ghost use Rattle.tso_report.specs.Tally.{looked_at};
ghost use Rattle.tso_report.specs.inner.Tally.{NameExists};
ghost use Rattle.search_report.specs.ReasonJson as spec;
ghost use Rattle.search_report.specs.inner.Contents.{with_fields};
ghost use Rattle.search_report.specs.inner.ShownExecutions.{IsShown, reading_value, coherence_members_by};

use crate::allowed::Shown;
use crate::asked::{asked_value, model_name};
use crate::contents::Field;
use crate::contents_as_json::{content_value, writes_value};
use crate::fields::reading_fields;
use crate::items::{Valued, array_of};
use crate::outcomes_as_json::{choices_value, values_value};
use crate::readings::Reading;
use crate::reasons_as_text::has_write;
use crate::verdict::outcomes_verdict_value;
use refutation_laws::Model;
use serde_json::Value;
use std::alloc::Global;
use tso_report::json::unfinished_search_json;
use tso_report::members::word_value;
use tso_report::objects::Object;
use tso_terms::{Entry, Loc, NoMemory, Test};

/// An execution in which what the test asks is so, as JSON: one line.
///
/// Errors: out of memory only.
pub fn allowed_json(
    alloc: Global,
    test: &Test,
    model: Model,
    shown: &Shown<'_>,
) -> Result<String, NoMemory>
    requires known { All (NameExists (length test.now.programs) (length test.now.locations)) shown.now.names.now }
    requires names { shown.now.names.now ≡ looked_at test.now }
    requires values { length shown.now.values.now ≡ length shown.now.names.now }
    ensures { IfOk result (λ text. (c : Candidate) → IsShown test.now shown.now.order.now shown.now.readings.now shown.now.values.now c
        → string_bytes text ≡ spec.allowed_json model test.now c shown.now.choices.now) }
{
    Object::new(alloc)
        .member("answer", word_value(alloc, "allowed"))
        .member("asked", asked_value(alloc, test))
        .member("choices", choices_value(alloc, shown.choices))
        .member("coherence", coherence_value(alloc, test, shown.order))
        .member("model", word_value(alloc, model_name(model)))
        .member("sources", array_of(alloc, test, shown.readings))
        .member("test", word_value(alloc, test.name()))
        .member(
            "values",
            values_value(alloc, test, shown.names, shown.values),
        )
        .member("verdict", outcomes_verdict_value(alloc, test, true))
        .line()
}

/// The line of a search that met its limit, as JSON: the test, and how many cases that is.
///
/// Errors: out of memory only.
pub fn unfinished_reason_json(alloc: Global, test: &Test, limit: u32) -> Result<String, NoMemory>
    ensures { IfOk result (λ line. string_bytes line ≡ spec.unfinished_reason_json test.now limit) }
{
    unfinished_search_json(alloc, test, "cases", limit as u64)
}

/// An object with what is under each of these keys.
fn object_of(alloc: Global, test: &Test, fields: &[Field<'_>]) -> Result<Value, NoMemory>
    ensures { IfOk result (λ value. view value ≡ object (with_fields test.now fields.now no_members)) }
{
    let mut object = Object::new(alloc);
    for (_before, key, content) in fields {
        object = object.member(key, content_value(alloc, test, *content));
    }
    object.value()
}

impl Valued for Reading {
    ghost valued = { reading_value };

    fn value(&self, alloc: Global, test: &Test) -> Result<Value, NoMemory> {
        object_of(alloc, test, &reading_fields(self))
    }
}

/// Under each location to which a write goes, its writes.
fn coherence_value(alloc: Global, test: &Test, order: &[Entry]) -> Result<Value, NoMemory>
    ensures { IfOk result (λ value. view value ≡ object (coherence_members_by test.now order.now 0 test.now.locations)) }
{
    let mut members = Object::new(alloc);
    for number in (0..test.locations()).rev() {
        let loc = Loc(number);
        if has_write(order, loc) {
            let writes = writes_value(alloc, test, order, loc);
            members = members.member(test.location_name(loc), writes);
        }
    }
    members.value()
}
