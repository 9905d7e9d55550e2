//! The lines of what was counted.

ghost use Rattle.std.specs.Prelude.{◌≡◌, ◌+◌, ◌*◌, ◌<◌, ◌++◌, IfOk, OnOk, string_bytes, option_map};
ghost use Rattle.tso_terms.specs.Limits.{most_cores};
ghost use Rattle.cache_counts.specs.Runs.{runs_counted};
ghost use Rattle.counts_report.specs.Printed.{count_names, counts_text, runs_line, plan_text, counted_lines, core_lines, core_line};
ghost use Rattle.counts_report.specs.Printed.{spreads_text, spread_text};

use crate::names::{name_at, spread_at};
use cache_counts::one_run::NUMBERS;
use cache_counts::{CountedRuns, Spread};
use machine_core::Config;
use protocol_tables::ProtocolKind;
use scheduler::SweepPlan;
use std::alloc::Global;
use tso_report::head_text;
use tso_report::pieces::{Piece, write_characters, write_pieces};
use tso_terms::{NoMemory, Test};

/// What is printed of the runs of a plan, or of the one run whose choices were given: the test, the machine, how many runs ended,
/// and for each core each of its numbers as its sum, the least and the greatest over the runs that ended. Where none ended, no core
/// has a line.
///
/// Errors: out of memory only.
pub fn counts_text(
    alloc: Global,
    test: &Test,
    protocol: ProtocolKind,
    config: Config,
    plan: Option<SweepPlan>,
    runs: &CountedRuns,
) -> Result<String, NoMemory>
    ensures { IfOk result (λ text. string_bytes text ≡ counts_text test.now protocol config plan (runs_counted runs.now)) }
{
    let mut text = head_text(alloc, test, protocol, config)?;
    write_runs(&mut text, plan, runs)?;
    write_cores(&mut text, test, runs)?;
    Ok(text)
}

/// `Runs from=F seeds=N length=L ended=E unfinished=U`.
fn write_runs(
    text: &mut String,
    plan: Option<SweepPlan>,
    runs: &CountedRuns,
) -> Result<(), NoMemory>
    ensures { OnOk result (string_bytes text.new ≡ string_bytes text.old ++ runs_line plan (runs_counted runs.now)) }
{
    write_characters(text, "Runs")?;
    write_plan(text, plan)?;
    let pieces = [
        Piece::Text(" ended="),
        Piece::Number(runs.ended as u64),
        Piece::Text(" unfinished="),
        Piece::Number(runs.unfinished as u64),
        Piece::Text("\n"),
    ];
    write_pieces(text, &pieces)
}

/// ` from=F seeds=N length=L`; nothing where the choices were given.
fn write_plan(text: &mut String, plan: Option<SweepPlan>) -> Result<(), NoMemory>
    ensures { OnOk result (string_bytes text.new ≡ string_bytes text.old ++ plan_text plan) }
{
    match plan {
        None => Ok(()),
        Some(plan) => {
            let pieces = [
                Piece::Text(" from="),
                Piece::Number(plan.from() as u64),
                Piece::Text(" seeds="),
                Piece::Number(plan.seeds() as u64),
                Piece::Text(" length="),
                Piece::Number(plan.length() as u64),
            ];
            write_pieces(text, &pieces)
        }
    }
}

/// A line for each core, where a run ended.
fn write_cores(text: &mut String, test: &Test, runs: &CountedRuns) -> Result<(), NoMemory>
    ensures { OnOk result (string_bytes text.new ≡ string_bytes text.old ++ counted_lines test.now (runs_counted runs.now)) }
{
    if runs.ended == 0 {
        return Ok(());
    }
    write_core_lines(text, test.cores(), &runs.spreads)
}

/// A line for each of so many cores.
fn write_core_lines(text: &mut String, cores: u8, spreads: &[Spread]) -> Result<(), NoMemory>
    ensures { OnOk result (string_bytes text.new ≡ string_bytes text.old ++ core_lines 0 cores spreads.now) }
{
    for core in 0..cores {
        write_core(text, core, spreads)?;
    }
    Ok(())
}

/// `Counts Pc hits=SUM/LEAST/GREATEST misses=..`.
fn write_core(text: &mut String, core: u8, spreads: &[Spread]) -> Result<(), NoMemory>
    ensures { OnOk result (string_bytes text.new ≡ string_bytes text.old ++ core_line core spreads.now) }
{
    write_pieces(text, &[Piece::Text("Counts P"), Piece::Number(core as u64)])?;
    write_spreads(text, core, spreads)?;
    write_characters(text, "\n")
}

/// The numbers of a core, each after its name.
fn write_spreads(text: &mut String, core: u8, spreads: &[Spread]) -> Result<(), NoMemory>
    ensures { OnOk result (string_bytes text.new ≡ string_bytes text.old ++ spreads_text (12 * core) count_names spreads.now) }
{
    let first = NUMBERS * core as usize;
    for number in 0..NUMBERS {
        write_spread(text, name_at(number), spread_at(spreads, first + number))?;
    }
    Ok(())
}

/// ` hits=SUM/LEAST/GREATEST`.
fn write_spread(text: &mut String, name: &str, spread: Spread) -> Result<(), NoMemory>
    ensures { OnOk result (string_bytes text.new ≡ string_bytes text.old ++ spread_text name.now spread) }
{
    let pieces = [
        Piece::Text(" "),
        Piece::Text(name),
        Piece::Text("="),
        Piece::Number(spread.sum),
        Piece::Text("/"),
        Piece::Number(spread.least as u64),
        Piece::Text("/"),
        Piece::Number(spread.greatest as u64),
    ];
    write_pieces(text, &pieces)
}
