//! The lines of a core's cache as a value, set by set and the most recently used first: so one sees which line would give
//! way next.

ghost use Rattle.std.specs.Prelude.{◌≡◌, ◌<◌, ◌≤◌, IfOk, length};
ghost use Rattle.serde_json.specs.Data.{array};
ghost use Rattle.serde_json.specs.View.{view, items_of};
ghost use Rattle.trace_report.specs.Lines.{names_in_line};
ghost use Rattle.trace_report.specs.MachineJson.{set_json, sets_json};
ghost use Rattle.trace_report.specs.inner.Looked.{IsMachineOfTest};

use crate::moment::Moment;
use crate::names::state_name;
use crate::states::line_state;
use crate::texts_as_json::line_value;
use protocol_tables::Protocol;
use serde_json::Value;
use std::alloc::Global;
use tso_report::arrays::Array;
use tso_report::members::{numbers_value, push_made, word_value};
use tso_report::objects::Object;
use tso_terms::{Core, NoMemory, Test};

/// The lines of a core's cache, by set.
///
/// Errors: out of memory only.
pub fn sets_value<P: Protocol>(
    alloc: Global,
    moment: &Moment<'_, '_, P>,
    core: Core,
) -> Result<Value, NoMemory>
    requires shown { IsMachineOfTest moment.now.test.now moment.now.config moment.now.machine.now }
    requires core { core.0 < length moment.now.test.now.programs }
    ensures { IfOk result (λ value. view value ≡ array (items_of (sets_json moment.now.machine.now core.0 0 moment.now.config.shape.sets))) }
{
    let mut values = Array::new(alloc);
    for set in 0..moment.config.sets() {
        values = values.with(set_value(alloc, moment, core, set));
    }
    values.value()
}

/// The lines of a core's set, the most recently used first: of each its locations, what it is in, and their words.
fn set_value<P: Protocol>(
    alloc: Global,
    moment: &Moment<'_, '_, P>,
    core: Core,
    set: u8,
) -> Result<Value, NoMemory>
    requires shown { IsMachineOfTest moment.now.test.now moment.now.config moment.now.machine.now }
    requires core { core.0 < length moment.now.test.now.programs }
    ensures { IfOk result (λ value. view value ≡ set_json moment.now.machine.now core.0 set) }
{
    let test = moment.test;
    let words = moment.config.words();
    let holder = moment.machine.bus_holder();
    let mut values = Vec::new(alloc);
    while let Some(copy) = moment.machine.cached_line(core, set, values.len()) {
        let state = line_state(moment.machine, holder, words, core, copy.line);
        let count = locations_in(test, words, copy.line);
        let value = Object::new(alloc)
            .member("line", line_value(alloc, test, words, copy.line))
            .member("state", word_value(alloc, state_name(state)))
            .member("words", numbers_value(alloc, &copy.words[..count]))
            .value();
        push_made(&mut values, value)?;
    }
    Ok(Value::Array(values))
}

/// How many locations a line has.
fn locations_in(test: &Test, words: u8, line: u8) -> usize
    ensures value { result ≡ length (names_in_line test.now.locations words line) }
    ensures few { result ≤ words }
{
    let first = usize::from(line) * usize::from(words);
    usize::from(test.locations())
        .saturating_sub(first)
        .min(usize::from(words))
}
