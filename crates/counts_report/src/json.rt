//! What was counted as one JSON object, for programs to read. It is one line, and its objects have their keys in the order of their
//! bytes.

ghost use Rattle.std.specs.Prelude.{◌≡◌, ◌+◌, ◌*◌, IfOk, string_bytes};
ghost use Rattle.serde_json.specs.Data.{array};
ghost use Rattle.serde_json.specs.View.{items_of, view};
ghost use Rattle.tso_report.specs.Json.{machine_value};
ghost use Rattle.cache_counts.specs.Runs.{runs_counted};
ghost use Rattle.counts_report.specs.Json.{json_counts, runs_value, counted_cores_value, core_values, core_value, spread_value};

use crate::names::{name_at, spread_at};
use cache_counts::one_run::NUMBERS;
use cache_counts::{CountedRuns, Spread};
use machine_core::{Bus, Config};
use protocol_tables::ProtocolKind;
use scheduler::SweepPlan;
use serde_json::Value;
use std::alloc::Global;
use tso_report::arrays::Array;
use tso_report::members::{Datum, object_of, word_value};
use tso_report::objects::Object;
use tso_terms::{NoMemory, Test};

/// What is printed as JSON of the runs of a plan, or of the one run whose choices were given: an object of the cores' numbers, the
/// machine, the runs and the test. Where no run ended, `null` stands for the cores.
///
/// Errors: out of memory only.
pub fn counts_json(
    alloc: Global,
    test: &Test,
    protocol: ProtocolKind,
    config: Config,
    plan: Option<SweepPlan>,
    runs: &CountedRuns,
) -> Result<String, NoMemory>
    ensures { IfOk result (λ text. string_bytes text ≡ json_counts test.now protocol config plan (runs_counted runs.now)) }
{
    Object::new(alloc)
        .member("cores", cores_value(alloc, test, runs))
        .member("machine", machine_value(alloc, protocol, config))
        .member("runs", runs_value(alloc, plan, runs))
        .member("test", word_value(alloc, test.name()))
        .line()
}

fn runs_value(alloc: Global, plan: Option<SweepPlan>, runs: &CountedRuns) -> Result<Value, NoMemory>
    ensures { IfOk result (λ value. view value ≡ runs_value plan (runs_counted runs.now)) }
{
    let (ended, unfinished) = (runs.ended as u64, runs.unfinished as u64);
    match plan {
        None => {
            let fields = [
                ("ended", Datum::Number(ended)),
                ("unfinished", Datum::Number(unfinished)),
            ];
            object_of(alloc, &fields)
        }
        Some(plan) => {
            let fields = [
                ("ended", Datum::Number(ended)),
                ("from", Datum::Number(plan.from() as u64)),
                ("length", Datum::Number(plan.length() as u64)),
                ("seeds", Datum::Number(plan.seeds() as u64)),
                ("unfinished", Datum::Number(unfinished)),
            ];
            object_of(alloc, &fields)
        }
    }
}

fn machine_value(alloc: Global, protocol: ProtocolKind, config: Config) -> Result<Value, NoMemory>
    ensures { IfOk result (λ value. view value ≡ machine_value protocol config) }
{
    let fields = [
        ("bus", Datum::Text("split")),
        ("depth", Datum::Number(config.depth() as u64)),
        ("protocol", Datum::Text(protocol.name())),
        ("sets", Datum::Number(config.sets() as u64)),
        ("ways", Datum::Number(config.ways() as u64)),
        ("words", Datum::Number(config.words() as u64)),
    ];
    match config.bus() {
        Bus::Atomic => object_of(alloc, &fields[1..]),
        Bus::Split => object_of(alloc, &fields),
    }
}

/// The numbers of each core; `null` where no run ended.
fn cores_value(alloc: Global, test: &Test, runs: &CountedRuns) -> Result<Value, NoMemory>
    ensures { IfOk result (λ value. view value ≡ counted_cores_value test.now (runs_counted runs.now)) }
{
    if runs.ended == 0 {
        return Ok(Value::Null);
    }
    core_values(alloc, test.cores(), &runs.spreads)
}

/// The numbers of each of so many cores.
fn core_values(alloc: Global, cores: u8, spreads: &[Spread]) -> Result<Value, NoMemory>
    ensures { IfOk result (λ value. view value ≡ array (items_of (core_values 0 cores spreads.now))) }
{
    let mut values = Array::new(alloc);
    for core in 0..cores {
        values = values.with(core_value(alloc, core, spreads));
    }
    values.value()
}

/// The numbers of a core, each under its name.
fn core_value(alloc: Global, core: u8, spreads: &[Spread]) -> Result<Value, NoMemory>
    ensures { IfOk result (λ value. view value ≡ core_value core spreads.now) }
{
    let first = NUMBERS * core as usize;
    let mut numbers = Object::new(alloc);
    for number in (0..NUMBERS).rev() {
        let spread = spread_at(spreads, first + number);
        numbers = numbers.member(name_at(number), spread_value(alloc, spread));
    }
    numbers.value()
}

/// One number over the runs.
fn spread_value(alloc: Global, spread: Spread) -> Result<Value, NoMemory>
    ensures { IfOk result (λ value. view value ≡ spread_value spread) }
{
    let fields = [
        ("greatest", Datum::Number(spread.greatest as u64)),
        ("least", Datum::Number(spread.least as u64)),
        ("sum", Datum::Number(spread.sum)),
    ];
    object_of(alloc, &fields)
}
