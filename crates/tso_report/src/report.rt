//! The report of a run, line by line. The order is in it as it is read again, so that a report can be checked by
//! itself.

ghost use Rattle.std.specs.Prelude.{◌≡◌, ◌++◌, IfOk, OnOk, string_bytes, length, All};
ghost use Rattle.order_builder.specs.PrintedOrder.{HasWord};
ghost use Rattle.tso_report.specs.Shown.{shown_run, IsRunOf};
ghost use Rattle.tso_report.specs.Report.{report, head, body, test_line, bus_text, register_lines};
ghost use Rattle.tso_report.specs.Report.{memory_line, condition_line, printed_quantifier, cache_lines};

use crate::pieces::{Piece, write_characters, write_named, write_pieces};
use crate::run::Run;
use machine_core::{Bus, Config, Counts};
use order_builder::write_order;
use protocol_tables::ProtocolKind;
use std::alloc::Global;
use tso_terms::{Loc, NoMemory, Quantifier, Reg, Test};

/// The report of a run: the test, the machine with its protocol, the order in which memory saw the run, the final
/// state, the verdict, the counts of choices and those of each core's cache, each on lines of its own.
/// That the values of the order are words is told along with it, for those who read the text again.
///
/// Errors: out of memory only.
pub fn report_text(
    alloc: Global,
    test: &Test,
    protocol: ProtocolKind,
    config: Config,
    run: &Run,
) -> Result<String, NoMemory>
    requires { IsRunOf test.now (shown_run run.now) }
    ensures text { IfOk result (λ text. string_bytes text ≡ report test.now protocol config (shown_run run.now)) }
    ensures words { OnOk result (All HasWord run.now.left.execution.order.items) }
{
    let mut text = head_text(alloc, test, protocol, config)?;
    write_body(&mut text, test, run)?;
    Ok(text)
}

/// Writes what a report has after its first two lines, from `Order` on. That the values of the order are words is told along
/// with it.
///
/// Errors: out of memory only; the text may have grown then.
pub fn write_body(text: &mut String, test: &Test, run: &Run) -> Result<(), NoMemory>
    requires { IsRunOf test.now (shown_run run.now) }
    ensures text { OnOk result (string_bytes text.new ≡ string_bytes text.old ++ body test.now (shown_run run.now)) }
    ensures words { OnOk result (All HasWord run.now.left.execution.order.items) }
{
    write_order(text, test, &run.left.execution)?;
    write_registers(text, &run.left.state.registers)?;
    write_memory(text, test, &run.left.state.memory)?;
    write_condition(text, test, run.holds)?;
    let choices = [
        Piece::Text("Choices used="),
        Piece::Number(run.used as u64),
        Piece::Text(" stalled="),
        Piece::Number(run.stalled as u64),
        Piece::Text(" unused="),
        Piece::Number(run.unused as u64),
        Piece::Text("\n"),
    ];
    write_pieces(text, &choices)?;
    write_caches(text, &run.left.counts)
}

/// The first two lines of a report, and of what is printed of many runs: the test, and the machine with
/// its protocol.
///
/// Errors: out of memory only.
pub fn head_text(
    alloc: Global,
    test: &Test,
    protocol: ProtocolKind,
    config: Config,
) -> Result<String, NoMemory>
    ensures { IfOk result (λ text. string_bytes text ≡ head test.now protocol config) }
{
    let mut text = String::new(alloc);
    write_test(&mut text, test)?;
    let pieces = [
        Piece::Text("Machine "),
        Piece::Text(protocol.name()),
        Piece::Text(" depth="),
        Piece::Number(config.depth() as u64),
        Piece::Text(" sets="),
        Piece::Number(config.sets() as u64),
        Piece::Text(" ways="),
        Piece::Number(config.ways() as u64),
        Piece::Text(" words="),
        Piece::Number(config.words() as u64),
        Piece::Text(bus_text(config.bus())),
        Piece::Text("\n"),
    ];
    write_pieces(&mut text, &pieces)?;
    Ok(text)
}

/// `Test NAME`.
///
/// Errors: out of memory only.
pub fn write_test(text: &mut String, test: &Test) -> Result<(), NoMemory>
    ensures { OnOk result (string_bytes text.new ≡ string_bytes text.old ++ test_line test.now) }
{
    let pieces = [
        Piece::Text("Test "),
        Piece::Text(test.name()),
        Piece::Text("\n"),
    ];
    write_pieces(text, &pieces)
}

/// ` bus=split`; the atomic bus isn't named.
fn bus_text(bus: Bus) -> &'static str
    ensures { result.now ≡ bus_text bus }
{
    match bus {
        Bus::Atomic => "",
        Bus::Split => " bus=split",
    }
}

fn write_registers(text: &mut String, registers: &[[u32; 6]]) -> Result<(), NoMemory>
    ensures { OnOk result (string_bytes text.new ≡ string_bytes text.old ++ register_lines 0 registers.now) }
{
    for (core, values) in registers.iter().enumerate() {
        let [eax, ebx, ecx, edx, esi, edi] = *values;
        let pieces = [
            Piece::Text("Registers P"),
            Piece::Number(core as u64),
            Piece::Text(" EAX="),
            Piece::Number(eax as u64),
            Piece::Text(" EBX="),
            Piece::Number(ebx as u64),
            Piece::Text(" ECX="),
            Piece::Number(ecx as u64),
            Piece::Text(" EDX="),
            Piece::Number(edx as u64),
            Piece::Text(" ESI="),
            Piece::Number(esi as u64),
            Piece::Text(" EDI="),
            Piece::Number(edi as u64),
            Piece::Text("\n"),
        ];
        write_pieces(text, &pieces)?;
    }
    Ok(())
}

fn write_memory(text: &mut String, test: &Test, memory: &[u32]) -> Result<(), NoMemory>
    requires { length memory.now ≡ length test.now.locations }
    ensures { OnOk result (string_bytes text.new ≡ string_bytes text.old ++ memory_line test.now memory.now) }
{
    write_characters(text, "Memory")?;
    for loc in 0..test.locations() {
        write_named(text, test.location_name(Loc(loc)), memory[loc as usize])?;
    }
    write_characters(text, "\n")
}

fn write_condition(text: &mut String, test: &Test, holds: Option<bool>) -> Result<(), NoMemory>
    ensures { OnOk result (string_bytes text.new ≡ string_bytes text.old ++ condition_line test.now holds) }
{
    match (test.cond(), holds) {
        (Some(cond), Some(holds)) => {
            let pieces = [
                Piece::Text("Condition "),
                Piece::Text(quantifier_text(cond.quantifier)),
                Piece::Text(" "),
                Piece::Truth(holds),
                Piece::Text("\n"),
            ];
            write_pieces(text, &pieces)
        }
        _ => write_characters(text, "Condition none\n"),
    }
}

/// The word that a quantifier is written with.
pub fn quantifier_text(quantifier: Quantifier) -> &'static str
    ensures { result.now ≡ printed_quantifier quantifier }
{
    match quantifier {
        Quantifier::Exists => "exists",
        Quantifier::NotExists => "~exists",
        Quantifier::Forall => "forall",
    }
}

fn write_caches(text: &mut String, counts: &[Counts]) -> Result<(), NoMemory>
    ensures { OnOk result (string_bytes text.new ≡ string_bytes text.old ++ cache_lines 0 counts.now) }
{
    for (core, counts) in counts.iter().enumerate() {
        let pieces = [
            Piece::Text("Cache P"),
            Piece::Number(core as u64),
            Piece::Text(" hits="),
            Piece::Number(counts.hits as u64),
            Piece::Text(" misses="),
            Piece::Number(counts.misses as u64),
            Piece::Text(" upgrades="),
            Piece::Number(counts.upgrades as u64),
            Piece::Text(" forwards="),
            Piece::Number(counts.forwards as u64),
            Piece::Text(" write_backs="),
            Piece::Number(counts.write_backs as u64),
            Piece::Text(" flushes="),
            Piece::Number(counts.flushes as u64),
            Piece::Text("\n"),
        ];
        write_pieces(text, &pieces)?;
    }
    Ok(())
}
