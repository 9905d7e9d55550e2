//! A command from its streams' bytes to its status. The answer is made whole before its first byte is written: a command
//! that runs out of memory has written nothing.

ghost use Rattle.std.specs.Prelude.{◌≡◌, ◌+◌, ◌-◌, ◌^◌, ◌<◌, ◌≤◌, ◌↔◌, ◌⊎◌, IfOk, Err, string_bytes};
ghost use Rattle.std.specs.Io.KnownBytes.{Keeps};
ghost use Rattle.tso_cli.specs.Streams.{Writes, WritesAnswer, WritesBeginning};
ghost use Rattle.counted_io.specs.Streams.{ConsumesAtMost};
ghost use Rattle.counted_io.specs.inner.Streams.{CountsReadFaults};
ghost use Rattle.tso_cli.specs.Answers.{IsAnswer, most_read};
ghost use Rattle.tso_cli.specs.Headline.{Headline};
ghost use Rattle.command_line.specs.Limits.{HasDepth};

use crate::answer::{Answer, Status};
use crate::answering::answer_watched;
use command_line::Settings;
use explorer::{Unwatched, Watcher};
use std::alloc::Global;
use std::io::{Read, Write};
use tso_io::{Counted, READ_LIMIT, RunFault, read_input, write_output};

/// The status of what [`answer_command`] answers, where nobody watches.
///
/// Errors: as those of [`answer_command`].
pub fn run_command<R: Read, W: Write>(
    alloc: Global,
    reader: &mut Counted<R>,
    writer: &mut Counted<W>,
    settings: &Settings,
) -> Result<Status, RunFault>
    requires depth { HasDepth settings.now }
    requires reader { reader.old.1 < 2 ^ 32 - 1 }
    requires writer { writer.old.1 < 2 ^ 32 - 1 }
    ensures exact { IfOk result (WritesAnswer W.contents writer.old.0 writer.new.0 (IsAnswer settings.now (R.remaining reader.old.0))) }
    ensures headline { IfOk result (λ _. Writes W.contents writer.old.0 writer.new.0 (Headline settings.now (R.remaining reader.old.0))) }
    ensures device { (result ≡ Err RunFault.Device) ↔ ((reader.old.1 < reader.new.1) ⊎ (writer.old.1 < writer.new.1)) }
    ensures once { reader.new.1 + writer.new.1 ≤ reader.old.1 + writer.old.1 + 1 }
    ensures no_memory { result ≡ Err RunFault.NoMemory → Keeps (W.contents writer.old.0) (W.contents writer.new.0) }
    ensures reader_fault { reader.old.1 < reader.new.1 → Keeps (W.contents writer.old.0) (W.contents writer.new.0) }
    ensures writer_fault { writer.old.1 < writer.new.1
        → WritesBeginning W.contents writer.old.0 writer.new.0 (IsAnswer settings.now (R.remaining reader.old.0)) }
    ensures most { ConsumesAtMost (R.remaining reader.old.0) (R.remaining reader.new.0) (most_read settings.now) }
{
    match answer_command(alloc, reader, writer, settings, &mut Unwatched) {
        Ok(answered) => Ok(answered.answer.status),
        Err(fault) => Err(fault),
    }
}

/// What a command read, and its answer, which is written. A hint is made of both.
#[derive(Drop)]
pub struct Answered {
    pub input: Vec<u8>,
    pub answer: Answer,
}

/// Reads an input, and writes the answer to it under these settings and nothing else; what was read and what was
/// written is answered. The answer is made whole before its first byte is written. At most one byte more than
/// [`MAX_INPUT`] is read, and none for `tables`; no call of the reader or the writer is tried again, and the writer
/// isn't flushed. The depth of a witness is 1 to 32, as `settings_of` has it. The watcher is told of a search for final states
/// while it goes on; whatever it does, the answer is the same.
///
/// `Device` exactly where a call of the reader or the writer failed: of the reader, and nothing was
/// written; of the writer, and a beginning of the answer was taken. `NoMemory` where the allocator
/// refused a growth, and nothing was written.
pub fn answer_command<R: Read, W: Write, S: Watcher>(
    alloc: Global,
    reader: &mut Counted<R>,
    writer: &mut Counted<W>,
    settings: &Settings,
    watcher: &mut S,
) -> Result<Answered, RunFault>
    requires depth { HasDepth settings.now }
    requires reader { reader.old.1 < 2 ^ 32 - 1 }
    requires writer { writer.old.1 < 2 ^ 32 - 1 }

    // What is written is the answer to the bytes that the reader has, with its status.
    ensures exact { IfOk result (λ a. WritesAnswer W.contents writer.old.0 writer.new.0 (IsAnswer settings.now (R.remaining reader.old.0)) a.answer.status) }
    ensures headline { IfOk result (λ _. Writes W.contents writer.old.0 writer.new.0 (Headline settings.now (R.remaining reader.old.0))) }

    // Faults come from the devices, and are told.
    ensures device { (result ≡ Err RunFault.Device) ↔ ((reader.old.1 < reader.new.1) ⊎ (writer.old.1 < writer.new.1)) }
    // At most one call fails; that none is made after it can't be said here.
    ensures once { reader.new.1 + writer.new.1 ≤ reader.old.1 + writer.old.1 + 1 }
    ensures no_memory { result ≡ Err RunFault.NoMemory → Keeps (W.contents writer.old.0) (W.contents writer.new.0) }
    ensures reader_fault { reader.old.1 < reader.new.1 → Keeps (W.contents writer.old.0) (W.contents writer.new.0) }
    ensures writer_fault { writer.old.1 < writer.new.1
        → WritesBeginning W.contents writer.old.0 writer.new.0 (IsAnswer settings.now (R.remaining reader.old.0)) }

    ensures most { ConsumesAtMost (R.remaining reader.old.0) (R.remaining reader.new.0) (most_read settings.now) }
{
    let input = read_input(alloc, reader, most_read(settings))?;
    let answer = answer_watched(alloc, settings, &input, watcher)?;
    write_output(writer, answer.text.as_bytes())?;
    Ok(Answered { input, answer })
}

/// Maximum number of bytes that a command reads.
fn most_read(settings: &Settings) -> usize
    ensures { result ≡ most_read settings.now }
{
    match settings {
        Settings::Run { .. }
        | Settings::Trace { .. }
        | Settings::Sweep { .. }
        | Settings::Counts { .. }
        | Settings::Outcomes { .. }
        | Settings::Why { .. }
        | Settings::Check { .. }
        | Settings::Witness { .. } => READ_LIMIT,
        Settings::Tables(_) => 0,
    }
}
