//! What a command writes, what it takes of its streams, and what is told of its end: the headline, and each fault of a
//! device.

ghost use Rattle.std.specs.Prelude.{ℕ, ◌≡◌, ◌+◌, ◌-◌, ◌^◌, ◌<◌, ◌≤◌, ◌↔◌, ◌⊎◌, List, [], Ok, Err, IfOk, true, false, length, string_bytes};
ghost use Rattle.std.specs.Io.KnownBytes.{Keeps};
ghost use Rattle.tso_terms.specs.Litmus.{Litmus};
ghost use Rattle.tso_terms.specs.Runs.{run};
ghost use Rattle.tso_terms.specs.declared.choice.Choice.{Choice};
ghost use Rattle.litmus_reader.specs.Spelling.{SpellsTest};
ghost use Rattle.scheduler.specs.Grammar.{SpellsChoices};
ghost use Rattle.scheduler.specs.WordOfChoice.{IsWordOfChoice};
ghost use Rattle.scheduler.specs.declared.fault.ChoiceFault.TheVariants.{TooMany};
ghost use Rattle.command_line.specs.Limits.{HasDepth};
ghost use Rattle.tso_cli.specs.Answers.{IsAnswer};
ghost use Rattle.tso_cli.specs.Headline.{Headline};
ghost use Rattle.tso_cli.specs.Hints.{IsTold, IsHintWithRuns, is_searched};
ghost use Rattle.tso_cli.specs.Lines.{choices_refusal};
ghost use Rattle.tso_cli.specs.Dividing.{parts_of};
ghost use Rattle.tso_cli.specs.SplitRun.{split_run};
ghost use Rattle.tso_cli.specs.TraceHeadline.{PrintsTrace, PrintsTracedObject};
ghost use Rattle.tso_cli.specs.Streams.{Writes, WritesAnswer, WritesBeginning};
ghost use Rattle.counted_io.specs.Streams.{ConsumesAtMost};

use machine_core::{Bus, Config};
use protocol_tables::ProtocolKind;
use std::alloc::Global;
use std::io::{Read, Write};
use tso_cli::{
    Answer, Counted, Instructions, RunFault, Settings, Status, answer_to, hint, run_command,
};
use tso_terms::NoMemory;

/// What a command writes is the answer to what its reader has, and keeps the headline.
///
/// `Device` is answered exactly where a call of a stream failed, and at most one does, on either side. Nothing is written
/// where that was the reader's, or where memory ran out; a beginning of the answer is, where it was the writer's.
pub fn a_command_answers<R: Read, W: Write>(
    alloc: Global,
    reader: &mut Counted<R>,
    writer: &mut Counted<W>,
    settings: &Settings,
) -> Result<Status, RunFault>
    requires depth { HasDepth settings.now }
    requires reader { reader.old.1 ≡ 0 }
    requires writer { writer.old.1 ≡ 0 }
    ensures exact { IfOk result (WritesAnswer W.contents writer.old.0 writer.new.0 (IsAnswer settings.now (R.remaining reader.old.0))) }
    ensures headline { IfOk result (λ _. Writes W.contents writer.old.0 writer.new.0 (Headline settings.now (R.remaining reader.old.0))) }
    ensures device { (result ≡ Err RunFault.Device) ↔ ((0 < reader.new.1) ⊎ (0 < writer.new.1)) }
    ensures once { reader.new.1 + writer.new.1 ≤ 1 }
    ensures no_memory { result ≡ Err RunFault.NoMemory → Keeps (W.contents writer.old.0) (W.contents writer.new.0) }
    ensures reader_fault { reader.new.1 ≡ 1 → Keeps (W.contents writer.old.0) (W.contents writer.new.0) }
    ensures writer_fault { writer.new.1 ≡ 1
        → WritesBeginning W.contents writer.old.0 writer.new.0 (IsAnswer settings.now (R.remaining reader.old.0)) }
{
    run_command(alloc, reader, writer, settings)
}

/// `tables` takes no byte of its reader.
pub fn tables_reads_nothing<R: Read, W: Write>(
    alloc: Global,
    reader: &mut Counted<R>,
    writer: &mut Counted<W>,
    kind: ProtocolKind,
) -> Result<Status, RunFault>
    requires reader { reader.old.1 < 2 ^ 32 - 1 }
    requires writer { writer.old.1 < 2 ^ 32 - 1 }
    ensures { ConsumesAtMost (R.remaining reader.old.0) (R.remaining reader.new.0) 0 }
{
    run_command(alloc, reader, writer, &Settings::Tables(kind))
}

/// `check` takes at most one byte more than an input may have.
pub fn check_reads_one_byte_too_many<R: Read, W: Write>(
    alloc: Global,
    reader: &mut Counted<R>,
    writer: &mut Counted<W>,
    instructions: Instructions,
) -> Result<Status, RunFault>
    requires reader { reader.old.1 < 2 ^ 32 - 1 }
    requires writer { writer.old.1 < 2 ^ 32 - 1 }
    ensures { ConsumesAtMost (R.remaining reader.old.0) (R.remaining reader.new.0) 1048577 }
{
    run_command(alloc, reader, writer, &Settings::Check { instructions })
}

/// What `trace` writes of choices that end the test has the trace of these very choices after the first two lines of a report;
/// these lines and what is after the trace are the report of an execution. Of choices that don't end it, the line that says how
/// far the run came is after the trace.
pub fn a_trace_stands_in_a_report(
    alloc: Global,
    protocol: ProtocolKind,
    config: Config,
    instructions: Instructions,
    input: &[u8],
) -> Result<Answer, NoMemory>
    ensures atomic { config.bus ≡ Bus.Atomic → length input.now ≤ 1048576 → IfOk result (λ a. (t : Litmus) (choices : List Choice)
        → SpellsTest instructions (parts_of input.now).test t → SpellsChoices (length t.programs) (parts_of input.now).rest choices
        → PrintsTrace t protocol config choices (run t config.depth choices) (string_bytes a.text)) }
    ensures split { config.bus ≡ Bus.Split → length input.now ≤ 1048576 → IfOk result (λ a. (t : Litmus) (choices : List Choice)
        → SpellsTest instructions (parts_of input.now).test t → SpellsChoices (length t.programs) (parts_of input.now).rest choices
        → PrintsTrace t protocol config choices (split_run t protocol config choices) (string_bytes a.text)) }
{
    let json = false;
    let settings = Settings::Trace {
        protocol,
        config,
        instructions,
        json,
    };
    answer_to(alloc, &settings, input)
}

/// What `trace --json` writes of choices of which at most 1,000 are used is the object that `run --json` prints: that of an
/// execution, or of how far the choices came; with the programs, the proposition and the trace of these very choices
/// beside. Where more are used, the text is refused by the word that says the 1,001st.
pub fn a_trace_stands_in_an_object(
    alloc: Global,
    protocol: ProtocolKind,
    config: Config,
    instructions: Instructions,
    input: &[u8],
) -> Result<Answer, NoMemory>
    ensures atomic { config.bus ≡ Bus.Atomic → length input.now ≤ 1048576 → IfOk result (λ a. (t : Litmus) (choices : List Choice)
        → SpellsTest instructions (parts_of input.now).test t → SpellsChoices (length t.programs) (parts_of input.now).rest choices
        → (run t config.depth choices).used ≤ 1000
        → PrintsTracedObject t protocol config choices (run t config.depth choices) (string_bytes a.text)) }
    ensures split { config.bus ≡ Bus.Split → length input.now ≤ 1048576 → IfOk result (λ a. (t : Litmus) (choices : List Choice)
        → SpellsTest instructions (parts_of input.now).test t → SpellsChoices (length t.programs) (parts_of input.now).rest choices
        → (split_run t protocol config choices).used ≤ 1000
        → PrintsTracedObject t protocol config choices (split_run t protocol config choices) (string_bytes a.text)) }
    ensures long_on_atomic { config.bus ≡ Bus.Atomic → length input.now ≤ 1048576 → IfOk result (λ a. (t : Litmus) (choices : List Choice)
        → SpellsTest instructions (parts_of input.now).test t → SpellsChoices (length t.programs) (parts_of input.now).rest choices
        → 1000 < (run t config.depth choices).used
        → (word : ℕ) × IsWordOfChoice (length t.programs) (parts_of input.now).rest 1000 word
        × (string_bytes a.text ≡ choices_refusal (TooMany word))) }
    ensures long_on_split { config.bus ≡ Bus.Split → length input.now ≤ 1048576 → IfOk result (λ a. (t : Litmus) (choices : List Choice)
        → SpellsTest instructions (parts_of input.now).test t → SpellsChoices (length t.programs) (parts_of input.now).rest choices
        → 1000 < (split_run t protocol config choices).used
        → (word : ℕ) × IsWordOfChoice (length t.programs) (parts_of input.now).rest 1000 word
        × (string_bytes a.text ≡ choices_refusal (TooMany word))) }
{
    let json = true;
    let settings = Settings::Trace {
        protocol,
        config,
        instructions,
        json,
    };
    answer_to(alloc, &settings, input)
}

/// A hint is told where an input was refused or a run didn't end, may be told beside final states in lines that people
/// read, and has at most 256 bytes; where `outcomes` didn't end, a line of at most 2,048 bytes may follow. None is told of a
/// judged order.
pub fn a_hint_is_told(
    alloc: Global,
    settings: &Settings,
    answer: &Answer,
    input: &[u8],
) -> Result<String, NoMemory>
    ensures told { IfOk result (λ text. IsTold settings.now answer.now.status (string_bytes text)) }
    ensures refused { answer.now.status ≡ Status.Refused → IfOk result (λ text. length (string_bytes text) ≤ 256) }
    ensures unended { answer.now.status ≡ Status.Unended → is_searched settings.now ≡ false → IfOk result (λ text. length (string_bytes text) ≤ 256) }
    ensures searched { answer.now.status ≡ Status.Unended → is_searched settings.now ≡ true → IfOk result (λ text. IsHintWithRuns (string_bytes text)) }
    ensures invalid { answer.now.status ≡ Status.Invalid → IfOk result (λ text. string_bytes text ≡ []) }
    ensures valid { (set : Instructions) → settings.now ≡ Settings.Check set → answer.now.status ≡ Status.Good → IfOk result (λ text. string_bytes text ≡ []) }
{
    hint(alloc, settings, answer, input)
}
