//! The hint of an input that was refused, of a run or a search that didn't end, and of what may mislead: each cause has its
//! words, and one of which nothing more is known has some too.

ghost use Rattle.std.specs.Prelude.{◌≡◌, IfOk, string_bytes};
ghost use Rattle.hints.specs.Hint.{IsHint};

use crate::cause::Cause;
use crate::choices::{say_choices, too_many_steps};
use crate::divider::Asked;
use crate::faults::say_fault;
use crate::line::Line;
use crate::never_true::never_both;
use crate::orders::say_order;
use crate::place::Place;
use crate::printing::printed;
use crate::quotes::{first_bytes, last_bytes};
use crate::search_end::search_ends;
use crate::unended::{MORE_CASES, NO_CHOICES, choices_end, never_seen};
use crate::unused::{UNUSED, say_alike, say_named};
use crate::unwritten::{keeps_location, keeps_register};
use std::alloc::Global;
use tso_terms::NoMemory;

/// What is said where nothing more is known.
pub const NOTHING_KNOWN: &str = "standard output tells where the fault is";

/// The hint of an answer to an input, by its cause.
///
/// Errors: out of memory only.
pub fn hint_of(alloc: Global, cause: &Cause, input: &[u8]) -> Result<String, NoMemory>
    ensures { IfOk result (λ text. IsHint (string_bytes text)) }
{
    let mut line = Line::new();
    say_cause(alloc, &mut line, cause, input)?;
    printed(alloc, line.words())
}

fn say_cause(alloc: Global, line: &mut Line, cause: &Cause, input: &[u8]) -> Result<(), NoMemory> {
    match cause {
        Cause::Nothing => line.say(NOTHING_KNOWN),
        Cause::Size { most } => {
            line.say_number("an input has at most {} bytes", *most);
        }
        Cause::Test {
            asked,
            length,
            fault,
        } => {
            let asked = Asked {
                reader: asked.reader,
                instructions: asked.instructions,
                is_divided: *length < input.len(),
            };
            let place = Place::new(first_bytes(input, *length), fault.remaining);
            return say_fault(alloc, line, asked, &place, fault.why);
        }
        Cause::Choices {
            length,
            cores,
            fault,
        } => say_choices(line, *cores, last_bytes(input, *length), *fault),
        Cause::TooManySteps { length, word, most } => {
            too_many_steps(line, last_bytes(input, *length), *word, *most);
        }
        Cause::Order {
            length,
            from_line,
            unknown_location,
            fault,
        } => {
            let text = last_bytes(input, *length);
            say_order(
                line,
                *unknown_location,
                text,
                last_bytes(input, *from_line),
                *fault,
            );
        }
        Cause::NoChoices => line.say(NO_CHOICES),
        Cause::TooFewChoices {
            steps,
            drains,
            stalls,
        } => choices_end(line, *steps, *drains, stalls),
        Cause::ShortSeeds { length, none_ended } => {
            let sentence = if *none_ended {
                "no run ended, so nothing was seen: raise --length, which is {}"
            } else {
                "some runs didn't end: raise --length, which is {}"
            };
            line.say_number(sentence, *length as usize);
        }
        Cause::NeverSeen { runs, depth } => never_seen(line, *runs, *depth),
        Cause::UnusedLocation { first, length } => {
            say_named(line, UNUSED, input, *first, *length);
        }
        Cause::UnwrittenRegister {
            first,
            core,
            reg,
            value,
        } => keeps_register(line, input, *first, (*core, *reg), *value),
        Cause::UnwrittenLocation {
            first,
            length,
            value,
        } => keeps_location(line, input, *first, *length, *value),
        Cause::NeverTrue {
            first,
            length,
            register,
            values,
        } => never_both(line, input, (*first, *length), *register, *values),
        Cause::AlikeNames { firsts, length } => say_alike(line, input, *firsts, *length),
        Cause::LeftOut {
            first,
            length,
            is_register,
        } => {
            let sentence = if *is_register {
                "line {}: locations lists {}, which the states leave out: --show registers shows it"
            } else {
                "line {}: locations lists {}, which the states leave out: --show all shows it"
            };
            say_named(line, sentence, input, *first, *length);
        }
        Cause::TooManyStates(end) => search_ends(line, end),
        Cause::TooManyCases { most } => line.say_number(MORE_CASES, *most as usize),
    }
    Ok(())
}
