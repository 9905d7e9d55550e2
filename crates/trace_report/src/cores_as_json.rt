//! The cores of a machine as a value: place, registers, store buffer and cache of each, as one who draws them needs.

ghost use Rattle.std.specs.Prelude.{◌≡◌, IfOk, length, map};
ghost use Rattle.serde_json.specs.Data.{array};
ghost use Rattle.serde_json.specs.View.{view, items_of};
ghost use Rattle.tso_terms.specs.FlatMachine.{core_of};
ghost use Rattle.trace_report.specs.Lines.{store_text};
ghost use Rattle.trace_report.specs.JsonValues.{array_of_texts};
ghost use Rattle.trace_report.specs.MachineJson.{cores_json};
ghost use Rattle.trace_report.specs.inner.Looked.{IsMachineOfTest};

use crate::copies_as_json::sets_value;
use crate::moment::Moment;
use crate::texts_as_json::store_value;
use protocol_tables::Protocol;
use serde_json::Value;
use std::alloc::Global;
use tso_report::arrays::Array;
use tso_report::json::registers_value;
use tso_report::members::push_made;
use tso_report::objects::Object;
use tso_terms::{Core, NoMemory};

/// The cores of a machine: of each its pending stores, the lines of its cache, its place and its registers.
///
/// Errors: out of memory only.
pub fn cores_value<P: Protocol>(
    alloc: Global,
    moment: &Moment<'_, '_, P>,
) -> Result<Value, NoMemory>
    requires { IsMachineOfTest moment.now.test.now moment.now.config moment.now.machine.now }
    ensures { IfOk result (λ value. view value
        ≡ array (items_of (cores_json moment.now.machine.now 0 (length moment.now.machine.now.test.programs)))) }
{
    let mut values = Array::new(alloc);
    for core in 0..moment.test.cores() {
        let core = Core(core);
        let place = moment.machine.place(core).unwrap_or(0);
        let registers = moment.machine.registers(core).unwrap_or([0, 0, 0, 0, 0, 0]);
        let value = Object::new(alloc)
            .member("buffer", buffer_value(alloc, moment, core))
            .member("lines", sets_value(alloc, moment, core))
            .member("place", Ok(Value::from(place)))
            .member("registers", registers_value(alloc, &registers))
            .value();
        values = values.with(value);
    }
    values.value()
}

/// A core's pending stores, the oldest first.
fn buffer_value<P: Protocol>(
    alloc: Global,
    moment: &Moment<'_, '_, P>,
    core: Core,
) -> Result<Value, NoMemory>
    ensures { IfOk result (λ value. view value
        ≡ array_of_texts (map (store_text moment.now.test.now) (core_of moment.now.machine.now.state.flat core.0).pending)) }
{
    let mut values = Vec::new(alloc);
    while let Some(store) = moment.machine.pending(core, values.len()) {
        push_made(&mut values, store_value(alloc, moment.test, store))?;
    }
    Ok(Value::Array(values))
}
