//! The answers of `tso` for the page: numbers and bytes in; an answer's bytes, the hint beside it and the exit status out.
//! The page's module exports the call by the C convention, with the contract that it has here.
#![tactic(auto)]

ghost use Rattle.std.specs.Prelude.{◌≡◌, ◌≢◌, ◌<◌, ◌⊎◌, ◌↔◌, true, false, take, length, string_bytes, IfOk};
ghost use Rattle.command_line.specs.Limits.{HasDepth};
ghost use Rattle.page_exports.specs.Questions.{AnswersAsked, IsAnswerToQuestion, IsAskable, TellsOf, TellsOfAsked};
ghost use Rattle.page_exports.specs.inner.Questions.{HasDepthFor};

mod page_answers;
mod question;

pub use question::Numbers;
use question::{Question, question_of, status_number};
use std::alloc::Global;
use tso_cli::{Answer, Settings, answer_to, hint, step_answer};
use tso_terms::NoMemory;

/// The status where the numbers ask for nothing that there is, as the program's for a command line that is refused.
pub const NOTHING_ASKED: u8 = 2;

/// The status where memory was refused.
pub const NO_MEMORY: u8 = 5;

/// How an answer came out.
#[repr(C)]
#[derive(Clone, Copy)]
pub struct AnswerLengths {
    /// How many bytes the answer has.
    pub length: usize,
    /// How many bytes the hint beside it has; often none.
    pub hint_length: usize,
    /// The command's exit status; [`NOTHING_ASKED`] and [`NO_MEMORY`] where there is no answer.
    pub status: u8,
    /// Whether answer and hint stand whole at the start of the rooms that were given for them.
    pub is_whole: bool,
}

/// Answers what is asked of an input, as the program with these settings answers it on its standard input: the answer
/// into one room, the hint beside it into another. What a room holds after them is left open. Of a trace the last step
/// alone is answered too, with the status and the hint of the trace: all choices are made anew for it, and what is handed
/// over is one step, however many there are.
///
/// `told` has the status [`NOTHING_ASKED`] where the numbers ask for nothing that there is, [`NO_MEMORY`] where memory
/// was refused, and else the command's own. Where there is an answer, its length and that of its hint are told, whether
/// they fit or not. It isn't whole where there is no answer, and where a room is shorter than the length that is told: a
/// call with that much room answers.
pub fn page_answer(
    alloc: Global,
    asked: &Numbers,
    input: &[u8],
    output: &mut [u8],
    hint_output: &mut [u8],
    told: &mut AnswerLengths,
)
    ensures answered { told.new.is_whole ≡ true → AnswersAsked asked.now input.now (take told.new.length output.new)
        (take told.new.hint_length hint_output.new) told.new.status }
    ensures lengths { told.new.status ≢ 2 → told.new.status ≢ 5
        → TellsOfAsked asked.now input.now output.new hint_output.new told.new }
    ensures refused { (told.new.status ≡ 2) ↔ ¬ (IsAskable asked.now) }
    ensures whole { told.new.is_whole ≡ false → (told.new.status ≡ 2) ⊎ (told.new.status ≡ 5)
        ⊎ (length output.old < told.new.length) ⊎ (length hint_output.old < told.new.hint_length) }
{
    *told = match question_of(asked) {
        Some(question) => match told_of(alloc, &question, input, output, hint_output) {
            Ok(told) => told,
            Err(NoMemory) => nothing(NO_MEMORY),
        },
        None => nothing(NOTHING_ASKED),
    };
}

fn nothing(status: u8) -> AnswerLengths
    ensures whole { result.is_whole ≡ false }
    ensures status { result.status ≡ status }
{
    AnswerLengths {
        length: 0,
        hint_length: 0,
        status,
        is_whole: false,
    }
}

/// The answer to a question about an input.
///
/// Errors: out of memory only.
fn answer_of(alloc: Global, question: &Question, input: &[u8]) -> Result<Answer, NoMemory>
    requires { HasDepthFor question.now }
    ensures { IfOk result (λ a. IsAnswerToQuestion question.now input.now (string_bytes a.text) a.status) }
{
    match question {
        Question::Command(settings) => answer_to(alloc, settings, input),
        Question::Step {
            protocol,
            config,
            instructions,
        } => step_answer(alloc, *protocol, *config, *instructions, input),
    }
}

/// Answers a question, and tells what fitted into the rooms.
///
/// Errors: out of memory only.
fn told_of(
    alloc: Global,
    question: &Question,
    input: &[u8],
    output: &mut [u8],
    hint_output: &mut [u8],
) -> Result<AnswerLengths, NoMemory>
    requires { HasDepthFor question.now }
    ensures tells { IfOk result (TellsOf question.now input.now output.new hint_output.new) }
    ensures command { IfOk result (λ t. t.status ≢ 2) }
    ensures whole { IfOk result (λ t. t.is_whole ≡ false
        → (length output.old < t.length) ⊎ (length hint_output.old < t.hint_length)) }
{
    let answer = answer_of(alloc, question, input)?;
    let hint = hint(alloc, &question.settings(), &answer, input)?;
    let (text, hint) = (answer.text.as_bytes(), hint.as_bytes());
    let has_text = put(text, output);
    let has_hint = put(hint, hint_output);
    Ok(AnswerLengths {
        length: text.len(),
        hint_length: hint.len(),
        status: status_number(answer.status),
        is_whole: has_text && has_hint,
    })
}

/// Puts a text at the start of a room, if it has room for all of it.
#[tactic(auto, using(crate::proofs::Takes::taken_front))]
fn put(text: &[u8], room: &mut [u8]) -> bool
    ensures put { result ≡ true → take (length text.now) room.new ≡ text.now }
    ensures full { result ≡ false → length room.old < length text.now }
{
    if room.len() < text.len() {
        return false;
    }
    let (front, _) = room.split_at_mut(text.len());
    front.copy_from_slice(text);
    true
}
