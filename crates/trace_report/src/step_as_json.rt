//! What a choice did as a value: the members of a step, and `null` for what this choice has nothing of, so that each step
//! has all of them.

ghost use Rattle.std.specs.Prelude.{◌≡◌, ◌<◌, IfOk, IfSome, All, map, option_map};
ghost use Rattle.serde_json.specs.Data.{Data};
ghost use Rattle.serde_json.specs.View.{view};
ghost use Rattle.trace_report.specs.Shown.{shown_step};
ghost use Rattle.trace_report.specs.Known.{IsLine, StepNamesExist};
ghost use Rattle.trace_report.specs.Lines.{access_name, stall_name, line_name, printed_core, printed_move, printed_change, printed_request};
ghost use Rattle.trace_report.specs.JsonValues.{text_or_null, array_of_texts};
ghost use Rattle.trace_report.specs.StepJson.{outcome_word, stall_in, step_json};

use crate::names::{access_name, stall_name};
use crate::supplied::source_value;
use crate::text::{write_change, write_line_request};
use crate::texts_as_json::{choice_value, core_name, line_value, text_value};
use crate::{LineRequest, Moved, StateChange, Step};
use serde_json::Value;
use snoop_bus::AccessKind;
use std::alloc::Global;
use tso_report::arrays::Array;
use tso_report::json::order_value;
use tso_report::members::word_value;
use tso_report::objects::Object;
use tso_report::pieces::Piece;
use tso_terms::{Core, NoMemory, Outcome, Test};

/// What a choice did, on caches whose lines have so many words, and this machine after it, if its value could be made.
///
/// Errors: out of memory only.
pub fn step_value(
    alloc: Global,
    test: &Test,
    words: u8,
    step: &Step,
    after: Result<Value, NoMemory>,
) -> Result<Value, NoMemory>
    requires words { 0 < words }
    requires known { StepNamesExist test.now words (shown_step step.now) }
    ensures { (d : Data) → IfOk after (λ value. view value ≡ d)
        → IfOk result (λ value. view value ≡ step_json test.now words (shown_step step.now) step.now.supplied d) }
{
    let outcome = step.outcome;
    Object::new(alloc)
        .member("access", access_value(alloc, step.access))
        .member("after", after)
        .member("choice", choice_value(alloc, step.choice))
        .member("entries", order_value(alloc, test, &step.entries))
        .member("flush", flush_value(alloc, step.flushed))
        .member("forwarded", Ok(Value::Bool(step.forwarded)))
        .member("moved", move_value(alloc, step.moved))
        .member("outcome", word_value(alloc, outcome_word(outcome)))
        .member("stall", stall_value(alloc, outcome))
        .member("states", changes_value(alloc, test, words, &step.changes))
        .member("supplied", source_value(alloc, step.supplied))
        .member(
            "transaction",
            request_value(alloc, test, words, step.request),
        )
        .member(
            "write_back",
            write_back_value(alloc, test, words, step.wrote_back),
        )
        .value()
}

fn access_value(alloc: Global, access: Option<AccessKind>) -> Result<Value, NoMemory>
    ensures { IfOk result (λ value. view value ≡ text_or_null (option_map access_name access)) }
{
    match access {
        None => Ok(Value::Null),
        Some(kind) => word_value(alloc, access_name(kind)),
    }
}

/// The core whose copy was sent to memory, `P1`.
fn flush_value(alloc: Global, flushed: Option<Core>) -> Result<Value, NoMemory>
    ensures { IfOk result (λ value. view value ≡ text_or_null (option_map printed_core flushed)) }
{
    match flushed {
        None => Ok(Value::Null),
        Some(core) => core_name(alloc, core),
    }
}

/// The registers that values were moved to, `EAX=5`.
fn move_value(alloc: Global, moved: Option<Moved>) -> Result<Value, NoMemory>
    ensures { IfOk result (λ value. view value ≡ text_or_null (option_map printed_move moved)) }
{
    match moved {
        None => Ok(Value::Null),
        Some(Moved::One(given)) => {
            let pieces = [
                Piece::Text(given.reg.name()),
                Piece::Text("="),
                Piece::Number(given.value as u64),
            ];
            text_value(alloc, &pieces)
        }
        Some(Moved::Both(given, other)) => {
            let pieces = [
                Piece::Text(given.reg.name()),
                Piece::Text("="),
                Piece::Number(given.value as u64),
                Piece::Text(" "),
                Piece::Text(other.reg.name()),
                Piece::Text("="),
                Piece::Number(other.value as u64),
            ];
            text_value(alloc, &pieces)
        }
    }
}

/// The outcome's word.
fn outcome_word(outcome: Outcome) -> &'static str
    ensures { result.now ≡ outcome_word outcome }
{
    match outcome {
        Outcome::Committed => "committed",
        Outcome::Buffered => "buffered",
        Outcome::Moved => "moved",
        Outcome::Asked => "asked",
        Outcome::Stalled(_) => "stalled",
    }
}

/// Why the choice stalled, if it did.
fn stall_value(alloc: Global, outcome: Outcome) -> Result<Value, NoMemory>
    ensures { IfOk result (λ value. view value ≡ text_or_null (option_map stall_name (stall_in outcome))) }
{
    match outcome {
        Outcome::Stalled(stall) => word_value(alloc, stall_name(stall)),
        Outcome::Committed | Outcome::Buffered | Outcome::Moved | Outcome::Asked => Ok(Value::Null),
    }
}

/// The lines whose state changed, each as `P1.x S>I`.
fn changes_value(
    alloc: Global,
    test: &Test,
    words: u8,
    changes: &[StateChange],
) -> Result<Value, NoMemory>
    requires { All (λ c. IsLine test.now words c.line) changes.now }
    ensures { IfOk result (λ value. view value ≡ array_of_texts (map (printed_change test.now words) changes.now)) }
{
    let mut values = Array::new(alloc);
    for change in changes {
        let mut text = String::new(alloc);
        write_change(&mut text, test, words, *change)?;
        values = values.with(Ok(Value::String(text)));
    }
    values.value()
}

/// What went on the bus, `GetM x`.
fn request_value(
    alloc: Global,
    test: &Test,
    words: u8,
    request: Option<LineRequest>,
) -> Result<Value, NoMemory>
    requires { IfSome request (λ r. IsLine test.now words r.line) }
    ensures { IfOk result (λ value. view value ≡ text_or_null (option_map (printed_request test.now words) request)) }
{
    let Some(request) = request else {
        return Ok(Value::Null);
    };
    let mut text = String::new(alloc);
    write_line_request(&mut text, test, words, request)?;
    Ok(Value::String(text))
}

/// The dirty line that left the core's cache.
fn write_back_value(
    alloc: Global,
    test: &Test,
    words: u8,
    wrote_back: Option<u8>,
) -> Result<Value, NoMemory>
    requires { 0 < words }
    ensures { IfOk result (λ value. view value ≡ text_or_null (option_map (line_name test.now words) wrote_back)) }
{
    let Some(line) = wrote_back else {
        return Ok(Value::Null);
    };
    line_value(alloc, test, words, line)
}
