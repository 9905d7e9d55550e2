//! A machine between two choices as a value: all that can be seen of it, so that each step can be drawn by itself.

ghost use Rattle.std.specs.Prelude.{◌≡◌, ◌<◌, IfOk, length, option_map};
ghost use Rattle.serde_json.specs.View.{view};
ghost use Rattle.machine_core.specs.Looking.{bus_holder_of};
ghost use Rattle.trace_report.specs.Lines.{transient_name};
ghost use Rattle.trace_report.specs.JsonValues.{text_or_null};
ghost use Rattle.trace_report.specs.MachineJson.{words_in_line, words_on_bus, bus_json, machine_json};
ghost use Rattle.trace_report.specs.inner.Looked.{IsMachineOfTest};

use crate::cores_as_json::cores_value;
use crate::moment::Moment;
use crate::names::transient_name;
use crate::step::core_of;
use crate::texts_as_json::{choice_value, line_value};
use protocol_tables::{Protocol, Transient};
use serde_json::Value;
use std::alloc::Global;
use tso_report::json::memory_value;
use tso_report::members::{numbers_value, word_value};
use tso_report::objects::Object;
use tso_terms::{Loc, NoMemory};

/// A machine at a moment: the bus, the cores, memory, and the words that a program sees.
///
/// Errors: out of memory only.
pub fn machine_value<P: Protocol>(
    alloc: Global,
    moment: &Moment<'_, '_, P>,
) -> Result<Value, NoMemory>
    requires shown { IsMachineOfTest moment.now.test.now moment.now.config moment.now.machine.now }
    requires memory { length moment.now.memory.now ≡ length moment.now.test.now.locations }
    ensures { IfOk result (λ value. view value ≡ machine_json moment.now.machine.now moment.now.memory.now) }
{
    let test = moment.test;
    let mut seen = Vec::new(alloc);
    for loc in 0..test.locations() {
        seen.push(moment.machine.seen(Loc(loc)).unwrap_or(0))?;
    }
    Object::new(alloc)
        .member("bus", bus_value(alloc, moment, &seen))
        .member("cores", cores_value(alloc, moment))
        .member("memory", memory_value(alloc, test, moment.memory))
        .member("seen", memory_value(alloc, test, &seen))
        .value()
}

/// The action that holds the bus: its next choice, its core, its line, what that is in until its words come, and the
/// words that the bus keeps; or `null` where nobody does.
fn bus_value<P: Protocol>(
    alloc: Global,
    moment: &Moment<'_, '_, P>,
    seen: &[u32],
) -> Result<Value, NoMemory>
    requires shown { IsMachineOfTest moment.now.test.now moment.now.config moment.now.machine.now }
    requires seen { seen.now ≡ moment.now.machine.now.state.flat.memory }
    ensures { IfOk result (λ value. view value ≡ bus_json moment.now.machine.now (bus_holder_of moment.now.machine.now)) }
{
    let Some(holder) = moment.machine.bus_holder() else {
        return Ok(Value::Null);
    };
    let words = moment.config.words();
    let line = holder.loc.0 / words;
    let core = Value::from(core_of(holder.choice).0);
    let kept = words_on_bus(holder.transient, words, seen, line);
    Object::new(alloc)
        .member("choice", choice_value(alloc, holder.choice))
        .member("core", Ok(core))
        .member("line", line_value(alloc, moment.test, words, line))
        .member("state", transient_value(alloc, holder.transient))
        .member("words", numbers_value(alloc, kept))
        .value()
}

/// What the holder's line is in until its words come, or `null`.
fn transient_value(alloc: Global, transient: Option<Transient>) -> Result<Value, NoMemory>
    ensures { IfOk result (λ value. view value ≡ text_or_null (option_map transient_name transient)) }
{
    match transient {
        None => Ok(Value::Null),
        Some(transient) => word_value(alloc, transient_name(transient)),
    }
}

/// The words that the bus keeps for its holder: those of the line, which has so many; none where nothing is awaited.
fn words_on_bus(transient: Option<Transient>, words: u8, seen: &[u32], line: u8) -> &[u32]
    ensures { result.now ≡ words_on_bus transient (words_in_line words seen.now line) }
{
    if transient.is_none() {
        return &[];
    }
    let first = usize::from(line) * usize::from(words);
    let end = seen.len().min(first + usize::from(words));
    &seen[first.min(end)..end]
}
