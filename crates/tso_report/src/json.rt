//! The report of a run as JSON, for programs to read. It is one line, and its objects have their keys in the order of
//! their bytes.

ghost use Rattle.std.specs.Prelude.{◌≡◌, false, IfOk, All, string_bytes, length};
ghost use Rattle.serde_json.specs.Written.{compact_text, has_float};
ghost use Rattle.serde_json.specs.View.{view, members_view};
ghost use Rattle.order_builder.specs.PrintedOrder.{HasLocation};
ghost use Rattle.tso_report.specs.Shown.{shown_run, IsRunOf};
ghost use Rattle.tso_report.specs.Report.{line};
ghost use Rattle.tso_report.specs.Json.{cache_value, condition_value, machine_value};
ghost use Rattle.tso_report.specs.Json.{memory_value, order_value, registers_value, cores_value};
ghost use Rattle.tso_report.specs.inner.Json.{unfinished_search_value};
ghost use Rattle.tso_report.specs.Json.{run_members, unfinished_members, json_report, json_unfinished};

use crate::arrays::Array;
use crate::members::{Datum, object_of, word_value};
use crate::objects::Object;
use crate::report::quantifier_text;
use crate::run::Run;
use machine_core::{Bus, Config, Counts};
use order_builder::entry_text;
use protocol_tables::ProtocolKind;
use serde_json::{Map, Value};
use std::alloc::Global;
use tso_terms::{Entry, Loc, NoMemory, Reg, Test};

/// The report of a run as JSON: an object of the cache counts, the choices, the condition, the machine, the
/// memory, the order, the registers and the test, printed compact, and a line feed.
///
/// Errors: out of memory only.
pub fn report_json(
    alloc: Global,
    test: &Test,
    protocol: ProtocolKind,
    config: Config,
    run: &Run,
) -> Result<String, NoMemory>
    requires { IsRunOf test.now (shown_run run.now) }
    ensures { IfOk result (λ text. string_bytes text ≡ json_report test.now protocol config (shown_run run.now)) }
{
    Object::from_made(alloc, run_members(alloc, test, protocol, config, run)).line()
}

/// The line of a run that didn't end, as JSON: how many choices were used, and how many of these stalled.
///
/// Errors: out of memory only.
pub fn unfinished_json(alloc: Global, used: usize, stalled: usize) -> Result<String, NoMemory>
    ensures { IfOk result (λ text. string_bytes text ≡ json_unfinished used stalled) }
{
    Object::from_made(alloc, unfinished_members(alloc, used, stalled)).line()
}

/// The compact text of a value that has no float, and a line feed.
///
/// Errors: out of memory only.
pub fn line_of(alloc: Global, value: &Value) -> Result<String, NoMemory>
    requires { has_float (view value.now) ≡ false }
    ensures { IfOk result (λ text. string_bytes text ≡ line (compact_text (view value.now))) }
{
    let mut text = value.to_string(alloc)?;
    text.push('\n')?;
    Ok(text)
}

/// The line of a search that met its limit, as JSON: the test, and under this key how many of them it was.
///
/// Errors: out of memory only.
pub fn unfinished_search_json(
    alloc: Global,
    test: &Test,
    key: &str,
    limit: u64,
) -> Result<String, NoMemory>
    ensures { IfOk result (λ text. string_bytes text ≡ line (compact_text (unfinished_search_value test.now key.now limit))) }
{
    Object::new(alloc)
        .member("test", word_value(alloc, test.name()))
        .member(
            "unfinished",
            object_of(alloc, &[(key, Datum::Number(limit))]),
        )
        .line()
}

/// The members of a run that didn't end: how many choices were used, and how many of these stalled.
///
/// Errors: out of memory only.
pub fn unfinished_members(
    alloc: Global,
    used: usize,
    stalled: usize,
) -> Result<Map<String, Value>, NoMemory>
    ensures { IfOk result (λ members. members_view members.entries ≡ unfinished_members used stalled) }
{
    let counts = [
        ("stalled", Datum::Number(stalled as u64)),
        ("used", Datum::Number(used as u64)),
    ];
    Object::new(alloc)
        .member("unfinished", object_of(alloc, &counts))
        .members()
}

/// The members of the report of a run: the cache counts, the choices, the condition, the machine, the
/// memory, the order, the registers and the test.
///
/// Errors: out of memory only.
pub fn run_members(
    alloc: Global,
    test: &Test,
    protocol: ProtocolKind,
    config: Config,
    run: &Run,
) -> Result<Map<String, Value>, NoMemory>
    requires { IsRunOf test.now (shown_run run.now) }
    ensures { IfOk result (λ members. members_view members.entries ≡ run_members test.now protocol config (shown_run run.now)) }
{
    let left = &run.left;
    let choices = [
        ("stalled", Datum::Number(run.stalled as u64)),
        ("unused", Datum::Number(run.unused as u64)),
        ("used", Datum::Number(run.used as u64)),
    ];
    Object::new(alloc)
        .member("cache", cache_value(alloc, &left.counts))
        .member("choices", object_of(alloc, &choices))
        .member("condition", condition_value(alloc, test, run.holds))
        .member("machine", machine_value(alloc, protocol, config))
        .member("memory", memory_value(alloc, test, &left.state.memory))
        .member("order", order_value(alloc, test, &left.execution.order))
        .member("registers", cores_value(alloc, &left.state.registers))
        .member("test", word_value(alloc, test.name()))
        .members()
}

fn cache_value(alloc: Global, counts: &[Counts]) -> Result<Value, NoMemory>
    ensures { IfOk result (λ value. view value ≡ cache_value counts.now) }
{
    let mut values = Array::new(alloc);
    for counts in counts {
        let numbers = [
            ("flushes", Datum::Number(counts.flushes as u64)),
            ("forwards", Datum::Number(counts.forwards as u64)),
            ("hits", Datum::Number(counts.hits as u64)),
            ("misses", Datum::Number(counts.misses as u64)),
            ("upgrades", Datum::Number(counts.upgrades as u64)),
            ("write_backs", Datum::Number(counts.write_backs as u64)),
        ];
        values = values.with(object_of(alloc, &numbers));
    }
    values.value()
}

fn condition_value(alloc: Global, test: &Test, holds: Option<bool>) -> Result<Value, NoMemory>
    ensures { IfOk result (λ value. view value ≡ condition_value test.now.condition holds) }
{
    match (test.cond(), holds) {
        (Some(cond), Some(holds)) => {
            let fields = [
                ("holds", Datum::Truth(holds)),
                ("kind", Datum::Text(quantifier_text(cond.quantifier))),
            ];
            object_of(alloc, &fields)
        }
        _ => Ok(Value::Null),
    }
}

fn machine_value(alloc: Global, protocol: ProtocolKind, config: Config) -> Result<Value, NoMemory>
    ensures { IfOk result (λ value. view value ≡ machine_value protocol config) }
{
    let fields = [
        ("bus", Datum::Text("split")),
        ("depth", Datum::Number(config.depth() as u64)),
        ("protocol", Datum::Text(protocol.name())),
        ("sets", Datum::Number(config.sets() as u64)),
        ("ways", Datum::Number(config.ways() as u64)),
        ("words", Datum::Number(config.words() as u64)),
    ];
    match config.bus() {
        Bus::Atomic => object_of(alloc, &fields[1..]),
        Bus::Split => object_of(alloc, &fields),
    }
}

/// The words of the test's locations as an object of their names.
///
/// Errors: out of memory only.
pub fn memory_value(alloc: Global, test: &Test, memory: &[u32]) -> Result<Value, NoMemory>
    requires { length memory.now ≡ length test.now.locations }
    ensures { IfOk result (λ value. view value ≡ memory_value test.now memory.now) }
{
    let mut words = Object::new(alloc);
    for loc in (0..test.locations()).rev() {
        let name = test.location_name(Loc(loc));
        let word = memory[loc as usize];
        words = words.member(name, Ok(Value::from(word)));
    }
    words.value()
}

/// Entries as a list of their texts.
///
/// Errors: out of memory only.
pub fn order_value(alloc: Global, test: &Test, order: &[Entry]) -> Result<Value, NoMemory>
    requires { All (HasLocation test.now) order.now }
    ensures { IfOk result (λ value. view value ≡ order_value test.now order.now) }
{
    let mut values = Vec::new(alloc);
    for entry in order {
        let text = entry_text(alloc, test, entry)?;
        values.push(Value::String(text))?;
    }
    Ok(Value::Array(values))
}

fn cores_value(alloc: Global, registers: &[[u32; 6]]) -> Result<Value, NoMemory>
    ensures { IfOk result (λ value. view value ≡ cores_value registers.now) }
{
    let mut values = Array::new(alloc);
    for registers in registers {
        values = values.with(registers_value(alloc, registers));
    }
    values.value()
}

/// The registers of one core as an object of their names.
///
/// Errors: out of memory only.
pub fn registers_value(alloc: Global, registers: &[u32; 6]) -> Result<Value, NoMemory>
    ensures { IfOk result (λ value. view value ≡ registers_value registers.now) }
{
    let [eax, ebx, ecx, edx, esi, edi] = *registers;
    let numbers = [
        ("EAX", Datum::Number(eax as u64)),
        ("EBX", Datum::Number(ebx as u64)),
        ("ECX", Datum::Number(ecx as u64)),
        ("EDI", Datum::Number(edi as u64)),
        ("EDX", Datum::Number(edx as u64)),
        ("ESI", Datum::Number(esi as u64)),
    ];
    object_of(alloc, &numbers)
}
