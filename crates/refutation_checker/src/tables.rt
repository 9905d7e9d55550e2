//! Questions to what the facts of a branch leave possible.
ghost use Rattle.std.specs.Prelude.{◌≡◌, IfOk, Some};
ghost use Rattle.std.specs.List.{list_any};
ghost use Rattle.refutation_laws.specs.Refutations.{sources_of};
ghost use Rattle.possible_reads.specs.Expressions as expressions;
ghost use Rattle.possible_reads.specs.Possible as possible;
ghost use Rattle.reading_tables.specs.inner.Told.{held_of, all_made, known_of};
ghost use Rattle.reading_tables.specs.inner.Tables.{IsProblem, IsTold, readings_of};
ghost use Rattle.refutation_checker.specs.inner.Branches.{IsCase};

use reading_tables::expressions::{Held, held_in};
use reading_tables::facts::same_source;
use reading_tables::rounds::held_values;
use reading_tables::tables::{Problem, Told, reading_for};
use refutations::events::{same_event, writes_to};
use std::alloc::Global;
use tso_terms::{Core, Entry, NoMemory, Reg};

fn is_one_of(source: &Option<Entry>, sources: &[Option<Entry>]) -> bool
    ensures { result ≡ list_any (possible.same_source source.now) sources.now }
{
    for s in sources {
        if same_source(source, s) {
            return true;
        }
    }
    false
}

fn is_written_by(told: Told<'_>, w: &Entry, read: &Entry) -> bool
    requires { IsTold told }
    ensures { result ≡ list_any (possible.same_source (Some w.now)) (sources_of told.entry.test.now read.now) }
{
    for v in told.events {
        if writes_to(read.loc.0, v) && same_event(w, v) {
            return true;
        }
    }
    false
}

fn is_one_at_first(told: Told<'_>, source: &Option<Entry>, read: &Entry) -> bool
    requires { IsTold told }
    ensures { result ≡ list_any (possible.same_source source.now) (sources_of told.entry.test.now read.now) }
{
    match source {
        None => true,
        Some(w) => is_written_by(told, w, read),
    }
}

/// Whether the read can read from this source.
pub fn can_read(told: Told<'_>, source: &Option<Entry>, read: &Entry) -> bool
    requires { IsTold told }
    ensures { result ≡ list_any (possible.same_source source.now) (possible.sources_read told.entry.test.now (readings_of told.entry.readings.now) read.now) }
{
    match reading_for(told.readings, read) {
        Some(x) => is_one_of(source, &x.sources),
        None => is_one_at_first(told, source, read),
    }
}

/// What a register holds at the end; one of a core that isn't there holds 0.
pub fn register_left(problem: &Problem<'_>, core: Core, reg: Reg) -> Held
    requires { IsProblem problem.now.test.now problem.now }
    ensures { held_of (all_made problem.now.expressions.makings.items) result ≡ expressions.register_left problem.now.test.now core.0 reg }
{
    if core.0 < problem.test.cores() {
        held_in(&problem.expressions.registers[usize::from(core.0)], reg)
    } else {
        Held::Number(0)
    }
}

/// What it can hold then.
///
/// Errors: out of memory only.
pub fn values_left(
    alloc: Global,
    problem: &Problem<'_>,
    told: Told<'_>,
    core: Core,
    reg: Reg,
) -> Result<Option<Vec<u32>>, NoMemory>
    requires { IsCase problem.now told }
    ensures { IfOk result (λ v.
        known_of v ≡ possible.values_of (possible.values_read (readings_of told.entry.readings.now))
        (expressions.register_left told.entry.test.now core.0 reg)) }
{
    held_values(
        alloc,
        told.readings,
        told.made,
        register_left(problem, core, reg),
    )
}
