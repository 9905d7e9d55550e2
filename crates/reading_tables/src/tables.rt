//! Tables: what each read can read from and return, and what each write can write.
ghost use Rattle.std.specs.Prelude.{◌≡◌, IfOk};
ghost use Rattle.std.specs.List.{list_all};
ghost use Rattle.tso_terms.specs.Litmus.{Litmus};
ghost use Rattle.refutation_laws.specs.Refutations.{sources_of};
ghost use Rattle.possible_reads.specs.Possible as spec;
ghost use Rattle.reading_tables.specs.Told.{facts_of};
ghost use Rattle.reading_tables.specs.inner.Told.{known_of};
ghost use Rattle.reading_tables.specs.inner.Tables.{IsProblem, IsTold, AreTableValues, readings_of, sources_or, values_or_any, least_or_none};

use crate::amounts::{Bound, make_bounds};
use crate::expressions::{Expressions, Making, Written, make_expressions};
use crate::facts::{Fact, same_source};
use crate::numbers::{number_among, others_first};
use refutations::events::{make_events, same_event, writes_to};
use std::alloc::Global;
use tso_terms::{Entry, NoMemory, Test};

/// A test, with what goes by it alone: its events, what its writes write and its registers hold, and what each write writes at least.
#[derive(Drop)]
pub struct Problem<'t> {
    pub test: &'t Test,
    pub events: Vec<Entry>,
    pub expressions: Expressions,
    /// For each core, how many of the first writes are of other cores.
    pub others_first: Vec<usize>,
    pub bounds: Vec<Bound>,
}

/// A read, what it can read from, what it can return, and the least of that.
#[derive(Drop)]
pub struct Reading {
    pub read: Entry,
    /// None is the initial write.
    pub sources: Vec<Option<Entry>>,
    /// None is any value.
    pub values: Option<Vec<u32>>,
    pub least: u32,
}

/// What each read can read from and return, and by it what each instruction can make and each write can write, and the least of that;
/// the last of the values is that of no write.
#[derive(Drop)]
pub struct Table {
    pub readings: Vec<Reading>,
    pub made: Vec<Option<Vec<u32>>>,
    pub values: Vec<Option<Vec<u32>>>,
    pub least: Vec<u32>,
}

/// What is told of a test: facts, and a table.
#[derive(Clone, Copy)]
pub struct Told<'a> {
    pub test: &'a Test,
    pub events: &'a [Entry],
    pub makings: &'a [Making],
    pub written: &'a [Written],
    pub others_first: &'a [usize],
    pub facts: &'a [Fact<'a>],
    pub readings: &'a [Reading],
    pub made: &'a [Option<Vec<u32>>],
    pub values: &'a [Option<Vec<u32>>],
    pub least: &'a [u32],
}

/// A test, with what goes by it alone.
///
/// Errors: out of memory only.
pub fn make_problem<'t>(alloc: Global, test: &'t Test) -> Result<Problem<'t>, NoMemory>
    ensures { IfOk result (IsProblem test.now) }
{
    let events = make_events(alloc, test)?;
    let expressions = make_expressions(alloc, test)?;
    let others_first = others_first(alloc, &expressions.written)?;
    let bounds = make_bounds(alloc, test, &events, &expressions)?;
    Ok(Problem {
        test,
        events,
        expressions,
        others_first,
        bounds,
    })
}

/// What these facts and this table tell of a test.
pub fn told_by<'a>(problem: &'a Problem<'a>, facts: &'a [Fact<'a>], table: &'a Table) -> Told<'a>
    requires problem { IsProblem problem.now.test.now problem.now }
    requires values { AreTableValues problem.now table.now }
    ensures told { IsTold result }
    ensures test { result.test.now ≡ problem.now.test.now }
    ensures events { result.events.now ≡ problem.now.events.items }
    ensures makings { result.makings.now ≡ problem.now.expressions.makings.items }
    ensures written { result.written.now ≡ problem.now.expressions.written.items }
    ensures facts { result.facts.now ≡ facts.now }
    ensures readings { result.readings.now ≡ table.now.readings.items }
{
    Told {
        test: problem.test,
        events: &problem.events,
        makings: &problem.expressions.makings,
        written: &problem.expressions.written,
        others_first: &problem.others_first,
        facts,
        readings: &table.readings,
        made: &table.made,
        values: &table.values,
        least: &table.least,
    }
}

/// The reading of a read, where there is one.
pub fn reading_for<'a>(readings: &'a [Reading], read: &Entry) -> Option<&'a Reading>
    ensures sources { (t : Litmus) → spec.sources_read t (readings_of readings.now) read.now ≡ sources_or (sources_of t read.now) result }
    ensures values { spec.values_read (readings_of readings.now) read.now ≡ values_or_any result }
    ensures least { spec.least_read (readings_of readings.now) read.now ≡ least_or_none result }
{
    for x in readings {
        if same_event(&x.read, read) {
            return Some(x);
        }
    }
    None
}

/// Whether all of these are this source.
pub fn are_one(source: &Option<Entry>, sources: &[Option<Entry>]) -> bool
    ensures { result ≡ list_all (spec.same_source source.now) sources.now }
{
    for s in sources {
        if !same_source(source, s) {
            return false;
        }
    }
    true
}

/// What this write can write.
pub fn values_written<'a>(told: Told<'a>, write: &Entry) -> &'a Option<Vec<u32>>
    requires { IsTold told }
    ensures { known_of result.now ≡ spec.values_written told.entry.test.now (readings_of told.entry.readings.now) write.now }
{
    &told.values[number_among(told.written, told.others_first, write)]
}
