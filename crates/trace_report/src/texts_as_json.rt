//! Texts as values.

ghost use Rattle.std.specs.Prelude.{◌≡◌, ◌<◌, IfOk};
ghost use Rattle.std.specs.List.{flat_map};
ghost use Rattle.serde_json.specs.Data.{string};
ghost use Rattle.serde_json.specs.View.{view};
ghost use Rattle.scheduler.specs.Printed.{printed_choice};
ghost use Rattle.tso_report.specs.inner.Pieces.{line_piece};
ghost use Rattle.trace_report.specs.Lines.{line_name, printed_core, store_text};

use crate::text::write_line_name;
use serde_json::Value;
use std::alloc::Global;
use tso_report::members::word_value;
use tso_report::pieces::{Piece, write_pieces};
use tso_terms::{Choice, Core, Entry, NoMemory, Test};

/// A text of these pieces, one after the other.
///
/// Errors: out of memory only.
pub fn text_value(alloc: Global, pieces: &[Piece<'_>]) -> Result<Value, NoMemory>
    ensures { IfOk result (λ value. view value ≡ string (flat_map line_piece pieces.now)) }
{
    let mut text = String::new(alloc);
    write_pieces(&mut text, pieces)?;
    Ok(Value::String(text))
}

/// A core by its name, `P1`.
///
/// Errors: out of memory only.
pub fn core_name(alloc: Global, core: Core) -> Result<Value, NoMemory>
    ensures { IfOk result (λ value. view value ≡ string (printed_core core)) }
{
    text_value(alloc, &[Piece::Text("P"), Piece::Number(core.0 as u64)])
}

/// A choice, `0s` or `0d`.
///
/// Errors: out of memory only.
pub fn choice_value(alloc: Global, choice: Choice) -> Result<Value, NoMemory>
    ensures { IfOk result (λ value. view value ≡ string (printed_choice choice)) }
{
    let (core, letter) = match choice {
        Choice::Step(core) => (core, "s"),
        Choice::Drain(core) => (core, "d"),
    };
    text_value(alloc, &[Piece::Number(core.0 as u64), Piece::Text(letter)])
}

/// A line by the locations that it has, `x` or `x+y`, where lines have so many words. It is empty where the test
/// has no such line.
///
/// Errors: out of memory only.
pub fn line_value(alloc: Global, test: &Test, words: u8, line: u8) -> Result<Value, NoMemory>
    requires { 0 < words }
    ensures { IfOk result (λ value. view value ≡ string (line_name test.now words line)) }
{
    if usize::from(line) * usize::from(words) >= usize::from(test.locations()) {
        return word_value(alloc, "");
    }
    let mut name = String::new(alloc);
    write_line_name(&mut name, test, words, line)?;
    Ok(Value::String(name))
}

/// A pending store, `x=1`. The name is empty where the test has no such location.
///
/// Errors: out of memory only.
pub fn store_value(alloc: Global, test: &Test, store: Entry) -> Result<Value, NoMemory>
    ensures { IfOk result (λ value. view value ≡ string (store_text test.now store)) }
{
    let name = if store.loc.0 < test.locations() {
        test.location_name(store.loc)
    } else {
        ""
    };
    let pieces = [
        Piece::Text(name),
        Piece::Text("="),
        Piece::Number(store.value as u64),
    ];
    text_value(alloc, &pieces)
}
