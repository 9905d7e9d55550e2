//! The answer to an input: its size first, then the test, then the second part. What comes first in the text is judged
//! first, so that an input with several faults gets one refusal, and always the same.

ghost use Rattle.std.specs.Prelude.{Some, IfOk, string_bytes};
ghost use Rattle.tso_cli.specs.Answers.{IsTableAnswer, IsAnswerTo, IsInputAnswer, IsAnswer};
ghost use Rattle.tso_cli.specs.Headline.{Headline};
ghost use Rattle.command_line.specs.Limits.{HasDepth};

use crate::answer::{Answer, Status, refused_input, refused_test};
use crate::answers::answers_meet_the_headline;
use crate::checking::check_answer;
use crate::counting::counts_answer;
use crate::dividing::parts_of;
use crate::explaining::why_answer;
use crate::hinting::may_mislead;
use crate::listing::left_out;
use crate::outcomes::outcomes_answer;
use crate::running::run_answer;
use crate::sweeping::sweep_answer;
use crate::tracing::trace_answer;
use crate::witnessing::witness_answer;
use command_line::Settings;
use explorer::{Unwatched, Watcher};
use hints::{Cause, Reader, Request};
use litmus_reader::{ReadError, test_or_fault_in};
use protocol_tables::{ProtocolKind, table_text};
use std::alloc::Global;
use tso_io::MAX_INPUT;
use tso_terms::{NoMemory, Test};

/// The answer of a command to an input: its size is judged first, then the test that is its first part,
/// then the second part; `tables` looks at none of it. The depth of a witness is 1 to 32.
///
/// Errors: out of memory only.
pub fn answer_to(alloc: Global, settings: &Settings, input: &[u8]) -> Result<Answer, NoMemory>
    requires { HasDepth settings.now }
    ensures exact { IfOk result (λ a. IsAnswer settings.now (Some input.now) (string_bytes a.text) a.status) }
    ensures headline { IfOk result (λ a. Headline settings.now (Some input.now) (string_bytes a.text)) }
{
    answer_watched(alloc, settings, input, &mut Unwatched)
}

/// As [`answer_to`], watched: the watcher is told of a search for final states while it goes on. Whatever it does, the
/// answer is the same.
///
/// Errors: out of memory only.
pub fn answer_watched<S: Watcher>(
    alloc: Global,
    settings: &Settings,
    input: &[u8],
    watcher: &mut S,
) -> Result<Answer, NoMemory>
    requires { HasDepth settings.now }
    ensures exact { IfOk result (λ a. IsAnswer settings.now (Some input.now) (string_bytes a.text) a.status) }
    ensures headline { IfOk result (λ a. Headline settings.now (Some input.now) (string_bytes a.text)) }
{
    answers_meet_the_headline();
    settings.know_limits();
    match settings {
        Settings::Run { .. }
        | Settings::Trace { .. }
        | Settings::Sweep { .. }
        | Settings::Counts { .. }
        | Settings::Outcomes { .. }
        | Settings::Why { .. }
        | Settings::Check { .. }
        | Settings::Witness { .. } => judged_answer(alloc, settings, input, watcher),
        Settings::Tables(kind) => table_answer(alloc, *kind),
    }
}

fn judged_answer<S: Watcher>(
    alloc: Global,
    settings: &Settings,
    input: &[u8],
    watcher: &mut S,
) -> Result<Answer, NoMemory>
    requires { HasDepth settings.now }
    ensures { IfOk result (λ a. IsInputAnswer settings.now input.now (string_bytes a.text) a.status) }
{
    if input.len() > MAX_INPUT {
        return refused_input(alloc);
    }
    let parts = parts_of(input);
    match test_or_fault_in(alloc, settings.instructions(), parts.test) {
        Ok(test) => told_answer(alloc, settings, &test, parts.test, parts.rest, watcher),
        Err(ReadError::Fault(fault)) => refused_test(alloc, asked(settings), parts.test, fault),
        Err(ReadError::NoMemory) => Err(NoMemory),
    }
}

/// The answer to a test, which `spelling` spells, and to the second part; where that may mislead, with what is to be told
/// of it.
fn told_answer<S: Watcher>(
    alloc: Global,
    settings: &Settings,
    test: &Test,
    spelling: &[u8],
    text: &[u8],
    watcher: &mut S,
) -> Result<Answer, NoMemory>
    requires { HasDepth settings.now }
    ensures { IfOk result (λ a. IsAnswerTo settings.now test.now text.now (string_bytes a.text) a.status) }
{
    let answer = answer_of(alloc, settings, test, text, watcher)?;
    match warning_of(alloc, settings, test, spelling, answer.status)? {
        Some(cause) => Ok(Answer {
            text: answer.text,
            status: answer.status,
            cause,
        }),
        None => Ok(answer),
    }
}

/// What is to be told of an answer of this status before all else, where it may mislead: what the test's condition or its
/// names say; or that its states leave out what the test lists.
fn warning_of(
    alloc: Global,
    settings: &Settings,
    test: &Test,
    spelling: &[u8],
    status: Status,
) -> Result<Option<Cause>, NoMemory> {
    match status {
        Status::Good | Status::NotAsClaimed if may_mislead(settings) => {
            match Cause::of_names(alloc, test, spelling)? {
                Some(cause) => Ok(Some(cause)),
                None => match settings {
                    Settings::Outcomes { search, .. } => {
                        left_out(alloc, test, spelling, search.show())
                    }
                    _ => Ok(None),
                },
            }
        }
        _ => Ok(None),
    }
}

fn answer_of<S: Watcher>(
    alloc: Global,
    settings: &Settings,
    test: &Test,
    text: &[u8],
    watcher: &mut S,
) -> Result<Answer, NoMemory>
    requires { HasDepth settings.now }
    ensures { IfOk result (λ a. IsAnswerTo settings.now test.now text.now (string_bytes a.text) a.status) }
{
    match settings {
        Settings::Run {
            protocol,
            config,
            json,
            ..
        } => run_answer(alloc, test, *protocol, *config, *json, text),
        Settings::Trace {
            protocol,
            config,
            json,
            ..
        } => trace_answer(alloc, test, *protocol, *config, *json, text),
        Settings::Sweep {
            protocol,
            config,
            plan,
            ..
        } => sweep_answer(alloc, test, *protocol, *config, *plan),
        Settings::Counts {
            protocol,
            config,
            plan,
            json,
            ..
        } => counts_answer(alloc, test, *protocol, *config, *plan, *json, text),
        Settings::Outcomes {
            search,
            json,
            assert,
            ..
        } => outcomes_answer(alloc, test, *search, *json, *assert, watcher),
        Settings::Why {
            plan,
            json,
            assert,
            ..
        } => why_answer(alloc, test, *plan, *json, *assert),
        Settings::Check { .. } => check_answer(alloc, test, text),
        Settings::Witness { depth, .. } => witness_answer(alloc, test, *depth, text),
        Settings::Tables(kind) => table_answer(alloc, *kind),
    }
}

/// The answer of `tables`.
fn table_answer(alloc: Global, kind: ProtocolKind) -> Result<Answer, NoMemory>
    ensures { IfOk result (λ a. IsTableAnswer kind (string_bytes a.text) a.status) }
{
    let text = table_text(alloc, kind)?;
    Ok(Answer {
        text,
        status: Status::Good,
        cause: Cause::Nothing,
    })
}

/// What reads the test; `tables` reads none.
fn asked(settings: &Settings) -> Request {
    Request {
        reader: reader_of(settings),
        instructions: settings.instructions(),
    }
}

/// The command that reads the test; `tables` reads none.
fn reader_of(settings: &Settings) -> Reader {
    match settings {
        Settings::Run { .. } | Settings::Tables(_) => Reader::Run,
        Settings::Trace { .. } => Reader::Trace,
        Settings::Sweep { .. } => Reader::Sweep,
        Settings::Counts { .. } => Reader::Counts,
        Settings::Outcomes { .. } => Reader::Outcomes,
        Settings::Why { .. } => Reader::Why,
        Settings::Check { .. } => Reader::Check,
        Settings::Witness { .. } => Reader::Witness,
    }
}
