//! A refutation as JSON, for programs to read. It is one line, and its objects have their keys in the order of their bytes.

ghost use Rattle.std.specs.Prelude.{◌≡◌, IfOk, map, string_bytes};
ghost use Rattle.serde_json.specs.Data.{array, string};
ghost use Rattle.serde_json.specs.View.{items_of, view};
ghost use Rattle.std.specs.Option.{option_map};
ghost use Rattle.search_report.specs.LineJson as spec;
ghost use Rattle.search_report.specs.inner.LineViews.{reason_line_of, shown_facts_of};
ghost use Rattle.search_report.specs.ShownText.{fact_text};
ghost use Rattle.search_report.specs.inner.ShownViews.{shown_closing_of, shown_fact_of};

use crate::asked::{asked_value, model_name};
use crate::contents::Content;
use crate::contents_as_json::content_value;
use crate::items::{Valued, Written, array_of};
use crate::lines::{Answered, Line, leaves_in};
use crate::shown::{Closing, Edge, ShownFact};
use crate::shown_text::text_of;
use crate::verdict::outcomes_verdict_value;
use refutation_laws::Model;
use serde_json::Value;
use std::alloc::Global;
use tso_report::members::word_value;
use tso_report::objects::Object;
use tso_terms::{NoMemory, Test};

/// What is written of an item, as a string.
fn written_value<T: Written>(alloc: Global, test: &Test, item: &T) -> Result<Value, NoMemory>
    ensures { IfOk result (λ value. view value ≡ string (T.written test.now item.now)) }
{
    Ok(Value::String(text_of(alloc, test, item)?))
}

impl Valued for ShownFact {
    ghost valued = { λ t f. string (fact_text t (shown_fact_of f)) };

    fn value(&self, alloc: Global, test: &Test) -> Result<Value, NoMemory> {
        written_value(alloc, test, self)
    }
}

impl Valued for Vec<ShownFact> {
    ghost valued = { λ t facts. spec.facts_value t (shown_facts_of facts) };

    fn value(&self, alloc: Global, test: &Test) -> Result<Value, NoMemory> {
        array_of(alloc, test, self)
    }
}

/// The edges of a cycle, as `cycle` or `uniproc`.
fn cycle_closing(alloc: Global, test: &Test, step: &str, edges: &[Edge]) -> Result<Value, NoMemory>
    ensures { IfOk result (λ value. view value ≡ spec.cycle_closing test.now step.now edges.now) }
{
    Object::new(alloc)
        .member("cycle", array_of(alloc, test, edges))
        .member("step", word_value(alloc, step))
        .value()
}

impl Valued for Closing {
    ghost valued = { λ t c. spec.closing_value t (shown_closing_of c) };

    fn value(&self, alloc: Global, test: &Test) -> Result<Value, NoMemory> {
        match self {
            Closing::Uniproc(edges) => cycle_closing(alloc, test, "uniproc", edges),
            Closing::Cycle(edges) => cycle_closing(alloc, test, "cycle", edges),
            Closing::Between(read, between, write) => {
                Object::new(alloc)
                    .member(
                        "between",
                        content_value(alloc, test, Content::Event(between)),
                    )
                    .member("read", content_value(alloc, test, Content::Event(read)))
                    .member("step", word_value(alloc, "between"))
                    .member("write", content_value(alloc, test, Content::Event(write)))
                    .value()
            }
            Closing::False(places) => {
                Object::new(alloc)
                    .member(
                        "places",
                        content_value(alloc, test, Content::Places(places)),
                    )
                    .member("step", word_value(alloc, "false"))
                    .value()
            }
            Closing::NoAnswer(kind, subject) => {
                Object::new(alloc)
                    .member("of", written_value(alloc, test, subject))
                    .member("question", word_value(alloc, kind))
                    .member("step", word_value(alloc, "none"))
                    .value()
            }
            Closing::ByLemma(number) => {
                Object::new(alloc)
                    .member("lemma", Ok(Value::from(*number)))
                    .member("step", word_value(alloc, "lemma"))
                    .value()
            }
        }
    }
}

/// What closes a case, or `null`.
fn closed_value(alloc: Global, test: &Test, closing: &Option<Closing>) -> Result<Value, NoMemory>
    ensures { IfOk result (λ value. view value ≡ spec.closed_value test.now (option_map shown_closing_of closing.now)) }
{
    match closing {
        None => Ok(Value::Null),
        Some(closing) => closing.value(alloc, test),
    }
}

/// A line of answers, as `case` or `so`.
fn case_value(
    alloc: Global,
    test: &Test,
    step: &str,
    depth: usize,
    answered: &Answered,
) -> Result<Value, NoMemory>
    ensures { IfOk result (λ value. view value ≡ spec.case_value test.now step.now depth answered.now.question.now
        (map shown_facts_of answered.now.answers.items) (option_map shown_closing_of answered.now.closing)) }
{
    Object::new(alloc)
        .member("answers", array_of(alloc, test, &answered.answers))
        .member("closing", closed_value(alloc, test, &answered.closing))
        .member("depth", Ok(Value::from(depth)))
        .member("question", word_value(alloc, answered.question))
        .member("step", word_value(alloc, step))
        .value()
}

impl Valued for Line {
    ghost valued = { λ t line. spec.line_value t (reason_line_of line) };

    fn value(&self, alloc: Global, test: &Test) -> Result<Value, NoMemory> {
        match self {
            Line::Given(facts) => {
                Object::new(alloc)
                    .member("facts", facts.value(alloc, test))
                    .member("step", word_value(alloc, "given"))
                    .value()
            }
            Line::Never(number, facts) => {
                Object::new(alloc)
                    .member("facts", facts.value(alloc, test))
                    .member("lemma", Ok(Value::from(*number)))
                    .member("step", word_value(alloc, "never"))
                    .value()
            }
            Line::Case(depth, answered) => case_value(alloc, test, "case", *depth, answered),
            Line::So(depth, answered) => case_value(alloc, test, "so", *depth, answered),
            Line::Leaf(depth, closing) => {
                Object::new(alloc)
                    .member("closing", closing.value(alloc, test))
                    .member("depth", Ok(Value::from(*depth)))
                    .member("step", word_value(alloc, "leaf"))
                    .value()
            }
            Line::Endcases(depth) => {
                Object::new(alloc)
                    .member("depth", Ok(Value::from(*depth)))
                    .member("step", word_value(alloc, "endcases"))
                    .value()
            }
        }
    }
}

/// A refutation of what the test asks, as JSON: one line.
///
/// Errors: out of memory only.
pub fn never_json(
    alloc: Global,
    test: &Test,
    model: Model,
    lines: &[Line],
) -> Result<String, NoMemory>
    ensures { IfOk result (λ line. string_bytes line ≡ spec.never_json_line model test.now (map reason_line_of lines.now)) }
{
    Object::new(alloc)
        .member("answer", word_value(alloc, "never"))
        .member("asked", asked_value(alloc, test))
        .member("leaves", Ok(Value::from(leaves_in(lines))))
        .member("model", word_value(alloc, model_name(model)))
        .member("steps", array_of(alloc, test, lines))
        .member("test", word_value(alloc, test.name()))
        .member("verdict", outcomes_verdict_value(alloc, test, false))
        .line()
}
