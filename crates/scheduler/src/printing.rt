//! Choices as they are printed: `0s 1d`. It is the form in which they are read.

ghost use Rattle.std.specs.Prelude.{◌≡◌, ◌++◌, IfOk, OnOk, string_bytes};
ghost use Rattle.scheduler.specs.Printed.{printed_choice, printed_after, printed_choices};

use std::alloc::Global;
use tso_terms::{Choice, NoMemory};

/// The text of choices in their order, with single spaces between them: the number of the core, and
/// `s` for a step or `d` for a drain. The text of no choices is empty.
///
/// Errors: out of memory only.
pub fn choices_text(alloc: Global, choices: &[Choice]) -> Result<String, NoMemory>
    ensures { IfOk result (λ text. string_bytes text ≡ printed_choices choices.now) }
{
    let mut text = String::new(alloc);
    if let Some((first, others)) = choices.split_first() {
        write_choice(&mut text, *first)?;
        write_after(&mut text, others)?;
    }
    Ok(text)
}

/// ` 0s 1d ..`: choices that come after something else, each after a space.
///
/// Errors: out of memory only.
pub fn write_after(text: &mut String, choices: &[Choice]) -> Result<(), NoMemory>
    ensures { OnOk result (string_bytes text.new ≡ string_bytes text.old ++ printed_after choices.now) }
{
    for choice in choices {
        text.push(' ')?;
        write_choice(text, *choice)?;
    }
    Ok(())
}

fn write_choice(text: &mut String, choice: Choice) -> Result<(), NoMemory>
    ensures { OnOk result (string_bytes text.new ≡ string_bytes text.old ++ printed_choice choice) }
{
    let (core, letter) = match choice {
        Choice::Step(core) => (core.0, "s"),
        Choice::Drain(core) => (core.0, "d"),
    };
    write!(text, "{core}{letter}")?;
    Ok(())
}
