//! What holds of the page's calls, in plain numbers. Nothing here is exported: each function's contract is what it is for.

ghost use Rattle.std.specs.Prelude.{◌≡◌, ◌≢◌, ◌≤◌, true, take, length};
ghost use Rattle.page_exports.specs.Questions.{AnswersAsked};
ghost use Rattle.page_exports.specs.inner.Laws.{SevenAsksForAStep, NoHintStandsBesideAStep, TellsLengths};

use crate::{AnswerLengths, Numbers, page_answer};
use std::alloc::Global;

/// The number 7 asks for the last step of a trace, wherever there are a machine and a set of instructions that the numbers ask for, and for nothing
/// else.
pub fn seven_asks_for_a_step()
    ensures { SevenAsksForAStep }
{}

/// Beside the last step of a trace of a run that ended no hint stands.
pub fn no_hint_stands_beside_a_step()
    ensures { NoHintStandsBesideAStep }
{}

/// Rooms that are as long as what is told are filled: but where the numbers ask for nothing, 2, or memory was refused, 5,
/// they begin with an answer to what is asked and with its hint.
pub fn rooms_that_long_are_filled(
    alloc: Global,
    asked: &Numbers,
    input: &[u8],
    output: &mut [u8],
    hint_output: &mut [u8],
    told: &mut AnswerLengths,
)
    ensures { told.new.status ≢ 2 → told.new.status ≢ 5 → told.new.length ≤ length output.old → told.new.hint_length ≤ length hint_output.old
        → AnswersAsked asked.now input.now (take told.new.length output.new) (take told.new.hint_length hint_output.new) told.new.status }
{
    page_answer(alloc, asked, input, output, hint_output, told);
}

/// But where the numbers ask for nothing, 2, or memory was refused, 5, the lengths that are told are those of an answer to
/// what is asked and of its hint, whether these fit or not; and what is told to be whole is as long as that.
pub fn lengths_are_those_of_an_answer(
    alloc: Global,
    asked: &Numbers,
    input: &[u8],
    output: &mut [u8],
    hint_output: &mut [u8],
    told: &mut AnswerLengths,
)
    ensures lengths { told.new.status ≢ 2 → told.new.status ≢ 5 → TellsLengths asked.now input.now told.new }
    ensures whole { told.new.status ≢ 2 → told.new.status ≢ 5 → told.new.is_whole ≡ true
        → length (take told.new.length output.new) ≡ told.new.length }
    ensures whole_hint { told.new.status ≢ 2 → told.new.status ≢ 5 → told.new.is_whole ≡ true
        → length (take told.new.hint_length hint_output.new) ≡ told.new.hint_length }
{
    page_answer(alloc, asked, input, output, hint_output, told);
}
