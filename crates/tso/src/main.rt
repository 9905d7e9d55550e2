//! `tso`: runs x86 litmus tests on a simulated multiprocessor under total store order.
//!
//! The command reads standard input and writes standard output. What it answers is proved of
//! `tso_cli::run_command` and `answer_command`; here stand the streams, the words of the line and the exit status.
//!
//! Only `main` and what comes before [`run`] have the runtime. From there on the reader and the writer are all that is read and
//! written, but for standard error, and so a contract can say which bytes are written, and which status they have.
#![tactic(auto)]

ghost use Rattle.std.specs.Prelude.{◌≡◌, ◌-◌, ◌^◌, ◌<◌, ◌↔◌, ◌⊎◌, Err, IfErr, IfOk};
ghost use Rattle.std.specs.Io.KnownBytes.{Keeps};
ghost use Rattle.command_line.specs.Limits.{HasDepth};
ghost use Rattle.tso_cli.specs.Answers.{IsAnswer};
ghost use Rattle.tso_cli.specs.Streams.{WritesAnswer, WritesBeginning};
ghost use Rattle.tso.specs.ExitStatus.{exit_code};

mod searching;

use searching::Teller;
use std::alloc::{AllocError, Global};
use std::io::{IsTerminal, Read, Write};
use std::process::ExitCode;
use std::rt::Stderr;
use std::{env, io};
use tso_cli::{
    Answered, Counted, LineFault, RunFault, Settings, Status, answer_command, hint, line_hint,
    run_command, settings_of,
};

/// The exit status of a line that is refused; `--help` is such a line too.
const BAD_LINE: u8 = 2;

/// The exit status where memory or a device failed.
const FAULT: u8 = 5;

/// What is likely where standard input can't be read.
const INPUT_HINT: &str =
    "hint: standard input can't be read: is it closed, a folder, open for writing alone, or a stream that doesn't block?";

/// What is likely where standard output can't be written.
const OUTPUT_HINT: &str =
    "hint: standard output can't be written: is it closed, is the disk full, has the reader of the pipe left, or is it a stream that doesn't block?";

fn main(rt: HostRuntime) -> ExitCode {
    let status = match settings_of_line(&rt) {
        Ok(settings) => run_on_standard_streams(&rt, &settings),
        Err(status) => status,
    };
    ExitCode::from(status)
}

/// The settings that the process's words give, or the exit status of a line that is refused.
fn settings_of_line(rt: &HostRuntime) -> Result<Settings, u8>
    ensures depth { IfOk result HasDepth }
    ensures refused { IfErr result (λ code. (code ≡ 2) ⊎ (code ≡ 5)) }
{
    match settings_of_arguments(rt) {
        Ok(settings) => Ok(settings),
        Err(LineError::Refused { fault, hint }) => {
            tell_refusal(rt.stderr(), &fault);
            tell(rt.stderr(), &hint);
            Err(BAD_LINE)
        }
        Err(LineError::NotText) => {
            tell_line(rt.stderr(), "fault range");
            Err(BAD_LINE)
        }
        Err(LineError::NoMemory) => {
            tell_line(rt.stderr(), "fault memory");
            Err(FAULT)
        }
    }
}

/// Tells why a line is refused.
fn tell_refusal(errors: Stderr, refusal: &LineFault) {
    match refusal {
        LineFault::Words(error) => {
            let _ = errors.print(error);
        }
        LineFault::Range => tell_line(errors, "fault range"),
    }
}

#[derive(Debug, Drop)]
enum LineError {
    Refused {
        fault: LineFault,
        hint: Option<String>,
    },
    NotText,
    NoMemory,
}

impl From<AllocError> for LineError {
    fn from(_: AllocError) -> LineError {
        LineError::NoMemory
    }
}

impl From<io::Error> for LineError {
    fn from(error: io::Error) -> LineError {
        match error.kind() {
            io::ErrorKind::OutOfMemory => LineError::NoMemory,
            _ => LineError::NotText,
        }
    }
}

/// The settings that the process's words give. Whatever name the program's file has, it is called `tso`.
fn settings_of_arguments(rt: &HostRuntime) -> Result<Settings, LineError>
    ensures { IfOk result HasDepth }
{
    let mut lines = Vec::new(rt.alloc());
    for word in env::args(rt)? {
        lines.push(word).map_err(AllocError::from)?;
    }
    let mut words = Vec::new(rt.alloc());
    for word in &lines {
        let word = if words.is_empty() {
            "tso"
        } else {
            word.as_str()
        };
        words.push(word).map_err(AllocError::from)?;
    }
    match settings_of(rt.alloc(), &words) {
        Ok(settings) => Ok(settings),
        Err(fault) => Err(LineError::Refused {
            fault,
            hint: line_hint(rt.alloc(), &words).unwrap_or(None),
        }),
    }
}

/// Runs the command over the standard streams, and answers the exit status.
fn run_on_standard_streams(rt: &HostRuntime, settings: &Settings) -> u8
    requires { HasDepth settings.now }
{
    // What is read is gathered anyway: a reader with a buffer of its own would fill one for nothing.
    let mut reader = Counted::new(rt.stdin());
    let mut writer = Counted::new(io::writer(rt));
    let mut teller = Teller::new(rt.stdin().is_terminal(), rt.stderr());
    match run(rt.alloc(), &mut reader, &mut writer, &mut teller, settings) {
        Ok(status) => match writer.flush() {
            Ok(()) => exit_status(status),
            Err(_) => device_fault(rt.stderr(), OUTPUT_HINT),
        },
        Err(RunFault::Device) if reader.failures() > 0 => device_fault(rt.stderr(), INPUT_HINT),
        Err(RunFault::Device) => device_fault(rt.stderr(), OUTPUT_HINT),
        Err(RunFault::NoMemory) => memory_fault(rt.stderr(), teller.kept()),
    }
}

/// Runs the command over a reader and a writer, and answers its status: that of the answer to what the reader has. The answer is all that
/// is written. It has no runtime, and of the standard streams it gets standard error alone, so it writes nowhere else.
///
/// Errors: as those of `answer_command`.
pub fn run<R: Read, W: Write>(
    alloc: Global,
    reader: &mut Counted<R>,
    writer: &mut Counted<W>,
    teller: &mut Teller,
    settings: &Settings,
) -> Result<Status, RunFault>
    requires depth { HasDepth settings.now }
    requires reader { reader.old.1 < 2 ^ 32 - 1 }
    requires writer { writer.old.1 < 2 ^ 32 - 1 }
    ensures exact { IfOk result (WritesAnswer W.contents writer.old.0 writer.new.0 (IsAnswer settings.now (R.remaining reader.old.0))) }
    ensures device { (result ≡ Err RunFault.Device) ↔ ((reader.old.1 < reader.new.1) ⊎ (writer.old.1 < writer.new.1)) }
    ensures no_memory { result ≡ Err RunFault.NoMemory → Keeps (W.contents writer.old.0) (W.contents writer.new.0) }
    ensures reader_fault { reader.old.1 < reader.new.1 → Keeps (W.contents writer.old.0) (W.contents writer.new.0) }
    ensures writer_fault { writer.old.1 < writer.new.1
        → WritesBeginning W.contents writer.old.0 writer.new.0 (IsAnswer settings.now (R.remaining reader.old.0)) }
{
    match settings {
        // Nothing is read, so there is nothing to wait for, to watch or to hint at.
        Settings::Tables(_) => run_command(alloc, reader, writer, settings),
        _ => answer_input(alloc, reader, writer, teller, settings),
    }
}

/// Answers what the reader has, and tells on standard error how far a search is, and the hint of the answer.
fn answer_input<R: Read, W: Write>(
    alloc: Global,
    reader: &mut Counted<R>,
    writer: &mut Counted<W>,
    teller: &mut Teller,
    settings: &Settings,
) -> Result<Status, RunFault>
    requires depth { HasDepth settings.now }
    requires reader { reader.old.1 < 2 ^ 32 - 1 }
    requires writer { writer.old.1 < 2 ^ 32 - 1 }
    ensures exact { IfOk result (WritesAnswer W.contents writer.old.0 writer.new.0 (IsAnswer settings.now (R.remaining reader.old.0))) }
    ensures device { (result ≡ Err RunFault.Device) ↔ ((reader.old.1 < reader.new.1) ⊎ (writer.old.1 < writer.new.1)) }
    ensures no_memory { result ≡ Err RunFault.NoMemory → Keeps (W.contents writer.old.0) (W.contents writer.new.0) }
    ensures reader_fault { reader.old.1 < reader.new.1 → Keeps (W.contents writer.old.0) (W.contents writer.new.0) }
    ensures writer_fault { writer.old.1 < writer.new.1
        → WritesBeginning W.contents writer.old.0 writer.new.0 (IsAnswer settings.now (R.remaining reader.old.0)) }
{
    teller.tell_reading();
    match answer_command(alloc, reader, writer, settings, teller) {
        Ok(answered) => {
            tell_hint(alloc, teller.errors(), settings, &answered);
            Ok(answered.answer.status)
        }
        Err(fault) => Err(fault),
    }
}

/// Tells the hint of an answer on standard error, if there is one, and memory for it.
fn tell_hint(alloc: Global, errors: Stderr, settings: &Settings, answered: &Answered) {
    if let Ok(hint) = hint(alloc, settings, &answered.answer, &answered.input) {
        if !hint.is_empty() {
            let _ = errors.print(hint.as_str());
        }
    }
}

/// Tells the hint of a line that is refused, if there is one.
fn tell(errors: Stderr, hint: &Option<String>) {
    if let Some(hint) = hint {
        let _ = errors.print(hint.as_str());
    }
}

/// The exit status of a command that came to an answer.
pub fn exit_status(status: Status) -> u8
    ensures { result ≡ exit_code status }
{
    match status {
        Status::Good => 0,
        Status::Refused => 1,
        Status::Unended => 3,
        Status::Invalid | Status::NotAsClaimed => 4,
    }
}

/// Tells on standard error that a device failed, and of which one what is likely; answers the exit status.
fn device_fault(errors: Stderr, hint: &str) -> u8
    ensures { result ≡ 5 }
{
    tell_line(errors, "fault device");
    tell_line(errors, hint);
    FAULT
}

/// Tells on standard error that memory was refused, and of a search how many states it had kept; answers the exit status.
fn memory_fault(errors: Stderr, kept: usize) -> u8
    ensures { result ≡ 5 }
{
    tell_line(errors, "fault memory");
    if kept > 0 {
        let _ = println!(errors;
            "hint: states that were kept when memory was refused: {kept}; lower --depth, name fewer atoms in the condition, or use why, which keeps none"
        );
    }
    FAULT
}

/// Tells a line on standard error; nothing can be done where that fails too.
fn tell_line(errors: Stderr, line: &str) {
    let _ = errors.println(line);
}
