//! The lines of a trace: one for each choice that was used. A line tells what the choice did and nothing that stayed as it
//! was.

ghost use Rattle.std.specs.Prelude.{◌≡◌, ◌++◌, OnOk, All, IfSome, codes, option_map, string_bytes};
ghost use Rattle.order_builder.specs.PrintedOrder.{HasLocation};
ghost use Rattle.trace_report.specs.Shown.{shown_step};
ghost use Rattle.protocol_tables.specs.PrintedTable.{line};
ghost use Rattle.trace_report.specs.Lines.{line_name, entries_text, printed_given, moved_text, access_text, outcome_name, outcome_text};
ghost use Rattle.trace_report.specs.Lines.{bus_traffic_text, changes_text};
ghost use Rattle.trace_report.specs.Lines.{printed_request, printed_change};
ghost use Rattle.trace_report.specs.Lines.{stores_text, buffer_text, done_text};
ghost use Rattle.trace_report.specs.Lines.{trace_step_line, end_line};
ghost use Rattle.trace_report.specs.Known.{IsLine, IsAt, StepNamesExist};
ghost use Rattle.trace_report.specs.Stalls.{stall_line};

use crate::names::{access_name, request_name, stall_name, state_name};
use crate::pieces::{LinePart, write_number, write_pieces};
use crate::step::{Given, LineRequest, Moved, StateChange, Step, core_of};
use order_builder::write_entry;
use snoop_bus::AccessKind;
use tso_terms::{Choice, Core, Entry, Loc, NoMemory, Outcome, Stall, Test};

/// Writes the first line of a trace, `Trace`.
///
/// Errors: out of memory only.
pub fn write_start(text: &mut String) -> Result<(), NoMemory>
    ensures { OnOk result (string_bytes text.new ≡ string_bytes text.old ++ line (codes "Trace")) }
{
    write_pieces(text, &[LinePart::Word("Trace\n")])
}

/// Writes the last line of a trace of so many steps, `Endtrace 6`.
///
/// Errors: out of memory only.
pub fn write_end(text: &mut String, count: usize) -> Result<(), NoMemory>
    ensures { OnOk result (string_bytes text.new ≡ string_bytes text.old ++ end_line count) }
{
    let pieces = [
        LinePart::Word("Endtrace "),
        LinePart::Number(count),
        LinePart::Word("\n"),
    ];
    write_pieces(text, &pieces)
}

/// Writes the line of a step with this number, on caches whose lines have so many words:
/// `5 0d committed P0:0 W x=1 miss GetM x P0.x I>M P1.x S>I P0[]`.
///
/// Errors: out of memory only; the text may have grown then.
pub fn write_step(
    text: &mut String,
    test: &Test,
    words: u8,
    number: usize,
    step: &Step,
) -> Result<(), NoMemory>
    requires { StepNamesExist test.now words (shown_step step.now) }
    ensures { OnOk result (string_bytes text.new ≡ string_bytes text.old ++ trace_step_line test.now words number (shown_step step.now)) }
{
    write_outcome(text, number, step.choice, step.outcome)?;
    write_done(text, test, step)?;
    write_bus_traffic(text, test, words, step)?;
    write_changes(text, test, words, &step.changes)?;
    write_buffer(text, test, core_of(step.choice), &step.buffer)?;
    write_pieces(text, &[LinePart::Word("\n")])
}

/// Writes the line of a step with this number that stalled, `5 0d stalled Empty`: nothing else is told of it.
///
/// Errors: out of memory only; the text may have grown then.
pub fn write_stall(
    text: &mut String,
    number: usize,
    choice: Choice,
    stall: Stall,
) -> Result<(), NoMemory>
    ensures { OnOk result (string_bytes text.new ≡ string_bytes text.old ++ stall_line number choice stall) }
{
    write_outcome(text, number, choice, Outcome::Stalled(stall))?;
    Ok(text.push('\n')?)
}

/// `5 0d committed`. A run may stall at each of its choices, and all that is then written is this: so it is written by itself, which
/// takes less than a list of pieces does.
fn write_outcome(
    text: &mut String,
    number: usize,
    choice: Choice,
    outcome: Outcome,
) -> Result<(), NoMemory>
    ensures { OnOk result (string_bytes text.new ≡ string_bytes text.old ++ outcome_text number choice outcome) }
{
    let (core, letter) = match choice {
        Choice::Step(core) => (core, "s "),
        Choice::Drain(core) => (core, "d "),
    };
    let (name, reason) = outcome_words(outcome);
    write_number(text, number)?;
    text.push(' ')?;
    write_number(text, usize::from(core.0))?;
    text.push_str(letter)?;
    text.push_str(name)?;
    Ok(text.push_str(reason)?)
}

/// `committed`, or `stalled ` and `Full`.
fn outcome_words(outcome: Outcome) -> (&'static str, &'static str)
    ensures { result.0.now ++ result.1.now ≡ outcome_name outcome }
{
    match outcome {
        Outcome::Committed => ("committed", ""),
        Outcome::Buffered => ("buffered", ""),
        Outcome::Moved => ("moved", ""),
        Outcome::Asked => ("asked", ""),
        Outcome::Stalled(stall) => ("stalled ", stall_name(stall)),
    }
}

/// What the choice did to the order and the registers, and by its access.
fn write_done(text: &mut String, test: &Test, step: &Step) -> Result<(), NoMemory>
    requires { All (HasLocation test.now) step.now.entries.items }
    ensures { OnOk result (string_bytes text.new ≡ string_bytes text.old ++ done_text test.now (shown_step step.now)) }
{
    write_entries(text, test, &step.entries)?;
    write_moved(text, step.moved)?;
    if step.forwarded {
        text.push_str(" forwarded")?;
    }
    write_access(text, step.access)
}

fn write_entries(text: &mut String, test: &Test, entries: &[Entry]) -> Result<(), NoMemory>
    requires { All (HasLocation test.now) entries.now }
    ensures { OnOk result (string_bytes text.new ≡ string_bytes text.old ++ entries_text test.now entries.now) }
{
    for entry in entries {
        text.push(' ')?;
        write_entry(text, test, entry)?;
    }
    Ok(())
}

fn write_given(text: &mut String, given: Given) -> Result<(), NoMemory>
    ensures { OnOk result (string_bytes text.new ≡ string_bytes text.old ++ (codes " " ++ printed_given given)) }
{
    let pieces = [
        LinePart::Word(" "),
        LinePart::Word(given.reg.name()),
        LinePart::Word("="),
        LinePart::Number(given.value as usize),
    ];
    write_pieces(text, &pieces)
}

fn write_moved(text: &mut String, moved: Option<Moved>) -> Result<(), NoMemory>
    ensures { OnOk result (string_bytes text.new ≡ string_bytes text.old ++ moved_text moved) }
{
    match moved {
        None => Ok(()),
        Some(Moved::One(given)) => write_given(text, given),
        Some(Moved::Both(given, other)) => {
            write_given(text, given)?;
            write_given(text, other)
        }
    }
}

fn write_access(text: &mut String, access: Option<AccessKind>) -> Result<(), NoMemory>
    ensures { OnOk result (string_bytes text.new ≡ string_bytes text.old ++ access_text access) }
{
    match access {
        None => Ok(()),
        Some(kind) => write_pieces(
            text,
            &[LinePart::Word(" "), LinePart::Word(access_name(kind))],
        ),
    }
}

/// What the choice put on the bus, and what was sent to memory.
fn write_bus_traffic(text: &mut String, test: &Test, words: u8, step: &Step) -> Result<(), NoMemory>
    requires request { IfSome step.now.request (λ r. IsLine test.now words r.line) }
    requires wrote_back { IfSome step.now.wrote_back (IsLine test.now words) }
    ensures { OnOk result (string_bytes text.new ≡ string_bytes text.old ++ bus_traffic_text test.now words (shown_step step.now)) }
{
    if let Some(request) = step.request {
        text.push(' ')?;
        write_line_request(text, test, words, request)?;
    }
    if let Some(core) = step.flushed {
        let number = usize::from(core.0);
        write_pieces(
            text,
            &[LinePart::Word(" flush P"), LinePart::Number(number)],
        )?;
    }
    match step.wrote_back {
        None => Ok(()),
        Some(line) => {
            text.push_str(" write-back ")?;
            write_line_name(text, test, words, line)
        }
    }
}

/// Writes `GetS x`.
///
/// Errors: out of memory only; the text may have grown then.
pub fn write_line_request(
    text: &mut String,
    test: &Test,
    words: u8,
    request: LineRequest,
) -> Result<(), NoMemory>
    requires { IsLine test.now words request.line }
    ensures { OnOk result (string_bytes text.new ≡ string_bytes text.old ++ printed_request test.now words request) }
{
    let name = request_name(request.request);
    write_pieces(text, &[LinePart::Word(name), LinePart::Word(" ")])?;
    write_line_name(text, test, words, request.line)
}

/// Writes the names of the locations of a line, with `+` between them.
///
/// Errors: out of memory only; the text may have grown then.
pub fn write_line_name(
    text: &mut String,
    test: &Test,
    words: u8,
    number: u8,
) -> Result<(), NoMemory>
    requires { IsLine test.now words number }
    ensures { OnOk result (string_bytes text.new ≡ string_bytes text.old ++ line_name test.now words number) }
{
    let locations = test.locations();
    let first = number * words;
    let end = locations.min(first.saturating_add(words));
    text.push_str(test.location_name(Loc(first)))?;
    for loc in first + 1..end {
        let name = test.location_name(Loc(loc));
        write_pieces(text, &[LinePart::Word("+"), LinePart::Word(name)])?;
    }
    Ok(())
}

fn write_changes(
    text: &mut String,
    test: &Test,
    words: u8,
    changes: &[StateChange],
) -> Result<(), NoMemory>
    requires { All (λ c. IsLine test.now words c.line) changes.now }
    ensures { OnOk result (string_bytes text.new ≡ string_bytes text.old ++ changes_text test.now words changes.now) }
{
    for change in changes {
        text.push(' ')?;
        write_change(text, test, words, *change)?;
    }
    Ok(())
}

/// Writes `P1.x S>I`.
///
/// Errors: out of memory only; the text may have grown then.
pub fn write_change(
    text: &mut String,
    test: &Test,
    words: u8,
    change: StateChange,
) -> Result<(), NoMemory>
    requires { IsLine test.now words change.line }
    ensures { OnOk result (string_bytes text.new ≡ string_bytes text.old ++ printed_change test.now words change) }
{
    let core = [
        LinePart::Word("P"),
        LinePart::Number(usize::from(change.core.0)),
        LinePart::Word("."),
    ];
    let states = [
        LinePart::Word(" "),
        LinePart::Word(state_name(change.before)),
        LinePart::Word(">"),
        LinePart::Word(state_name(change.after)),
    ];
    write_pieces(text, &core)?;
    write_line_name(text, test, words, change.line)?;
    write_pieces(text, &states)
}

/// The core's pending stores where they changed, ` P0[x=1 y=2]`.
fn write_buffer(
    text: &mut String,
    test: &Test,
    core: Core,
    buffer: &Option<Vec<Entry>>,
) -> Result<(), NoMemory>
    requires { IfSome buffer.now (λ stores. All (IsAt test.now) stores.items) }
    ensures { OnOk result (string_bytes text.new ≡ string_bytes text.old ++ buffer_text test.now core.0 (option_map (λ stores. stores.items) buffer.now)) }
{
    let Some(stores) = buffer else {
        return Ok(());
    };
    let front = [
        LinePart::Word(" P"),
        LinePart::Number(usize::from(core.0)),
        LinePart::Word("["),
    ];
    write_pieces(text, &front)?;
    write_stores(text, test, stores)?;
    write_pieces(text, &[LinePart::Word("]")])
}

/// `x=1 y=2`
fn write_stores(text: &mut String, test: &Test, stores: &[Entry]) -> Result<(), NoMemory>
    requires { All (IsAt test.now) stores.now }
    ensures { OnOk result (string_bytes text.new ≡ string_bytes text.old ++ stores_text test.now stores.now) }
{
    for (at, store) in stores.iter().enumerate() {
        let space = if at == 0 { "" } else { " " };
        let pieces = [
            LinePart::Word(space),
            LinePart::Word(test.location_name(store.loc)),
            LinePart::Word("="),
            LinePart::Number(store.value as usize),
        ];
        write_pieces(text, &pieces)?;
    }
    Ok(())
}
