//! What is counted of a stream: each call that failed, a flush too. And what the command that the program calls writes, and
//! takes of its streams.

ghost use Rattle.std.specs.Prelude.{Err, IfOk, ◌+◌, ◌-◌, ◌<◌, ◌^◌, ◌↔◌, ◌≡◌, ◌≤◌, ◌⊎◌};
ghost use Rattle.counted_io.specs.inner.Streams.{counts_error};
ghost use Rattle.command_line.specs.Limits.{HasDepth};
ghost use Rattle.std.specs.Io.KnownBytes.{Keeps};
ghost use Rattle.tso_cli.specs.Answers.{IsAnswer, most_read};
ghost use Rattle.tso_cli.specs.Headline.{Headline};
ghost use Rattle.tso_cli.specs.Streams.{Writes, WritesAnswer, WritesBeginning};
ghost use Rattle.counted_io.specs.Streams.{ConsumesAtMost};

use std::alloc::Global;
use std::io;
use std::io::{Read, Write};
use tso_cli::{
    Answered, Counted, RunFault, Settings, Status, Watcher, answer_command, run_command,
};

/// A flush is counted where it fails.
pub fn a_flush_is_counted<W: Write>(writer: &mut Counted<W>) -> io::Result<()>
    ensures { writer.new.1 ≡ counts_error result writer.old.1 }
{
    writer.flush()
}

/// How many calls failed is told.
pub fn the_failures_are_told<T>(counted: &Counted<T>) -> u32
    ensures { result ≡ counted.now.1 }
{
    counted.failures()
}

/// Whoever watches, what the program writes is the answer, and keeps the headline; each fault of a device is told, and nothing or a beginning is
/// written then.
pub fn a_command_is_answered<R: Read, W: Write, S: Watcher>(
    alloc: Global,
    reader: &mut Counted<R>,
    writer: &mut Counted<W>,
    settings: &Settings,
    watcher: &mut S,
) -> Result<Answered, RunFault>
    requires depth { HasDepth settings.now }
    requires reader { reader.old.1 < 2 ^ 32 - 1 }
    requires writer { writer.old.1 < 2 ^ 32 - 1 }
    ensures exact { IfOk result (λ a. WritesAnswer W.contents writer.old.0 writer.new.0 (IsAnswer settings.now (R.remaining reader.old.0)) a.answer.status) }
    ensures headline { IfOk result (λ _. Writes W.contents writer.old.0 writer.new.0 (Headline settings.now (R.remaining reader.old.0))) }
    ensures device { (result ≡ Err RunFault.Device) ↔ ((reader.old.1 < reader.new.1) ⊎ (writer.old.1 < writer.new.1)) }
    ensures once { reader.new.1 + writer.new.1 ≤ reader.old.1 + writer.old.1 + 1 }
    ensures no_memory { result ≡ Err RunFault.NoMemory → Keeps (W.contents writer.old.0) (W.contents writer.new.0) }
    ensures reader_fault { reader.old.1 < reader.new.1 → Keeps (W.contents writer.old.0) (W.contents writer.new.0) }
    ensures writer_fault { writer.old.1 < writer.new.1
        → WritesBeginning W.contents writer.old.0 writer.new.0 (IsAnswer settings.now (R.remaining reader.old.0)) }
    ensures most { ConsumesAtMost (R.remaining reader.old.0) (R.remaining reader.new.0) (most_read settings.now) }
{
    answer_command(alloc, reader, writer, settings, watcher)
}

/// Of a command that is run, at most one call of its streams fails.
pub fn a_command_fails_once<R: Read, W: Write>(
    alloc: Global,
    reader: &mut Counted<R>,
    writer: &mut Counted<W>,
    settings: &Settings,
) -> Result<Status, RunFault>
    requires depth { HasDepth settings.now }
    requires reader { reader.old.1 < 2 ^ 32 - 1 }
    requires writer { writer.old.1 < 2 ^ 32 - 1 }
    ensures once { reader.new.1 + writer.new.1 ≤ reader.old.1 + writer.old.1 + 1 }
{
    run_command(alloc, reader, writer, settings)
}

/// A stream is counted from zero on.
pub fn a_new_count_is_zero<T>(inner: T) -> Counted<T>
    ensures inner { result.0 ≡ inner }
    ensures failures { result.1 ≡ 0 }
{
    Counted::new(inner)
}
