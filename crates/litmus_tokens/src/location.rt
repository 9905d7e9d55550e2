//! Locations by their names, each with its number: by first appearance in the text. One over the limit is refused where it
//! appears.

ghost use Rattle.std.specs.Prelude.{◌≡◌};
ghost use Rattle.litmus_tokens.specs.Faults.{Gives};
ghost use Rattle.litmus_tokens.specs.Locations as spec;
ghost use Rattle.litmus_tokens.specs.Locations.{texts};
ghost use Rattle.litmus_tokens.specs.GrammarNames as grammar;

use crate::fault::{Fault, ReadError, Why};
use tso_terms::Loc;
use tso_terms::limits::MAX_LOCATIONS;

/// The number of a name: its own, or the next. The names are few, so each is looked at.
fn number_of(names: &[&[u8]], name: &[u8]) -> usize
    ensures { result ≡ grammar.number_of (texts names.now) name.now }
{
    for number in 0..names.len() {
        if name == names[number] {
            return number;
        }
    }
    names.len()
}

/// The location of a name, which is put after the other names where it is new.
///
/// `TooLarge` at `remaining` for one location too many.
#[tactic(auto, using(crate::proofs::Numbering::noted_new, crate::proofs::Numbering::noted_known), unfolding(crate::specs::Locations::located))]
pub fn located<'a>(
    names: &mut Vec<&'a [u8]>,
    remaining: usize,
    name: &'a [u8],
) -> Result<Loc, ReadError>
    ensures { Gives (λ loc. (loc, texts names.new.items)) result (spec.located remaining (texts names.old.items) name.now) }
{
    let number = number_of(names, name);
    if number >= MAX_LOCATIONS {
        return Err(ReadError::Fault(Fault {
            why: Why::TooLarge,
            remaining,
        }));
    }
    if number == names.len() {
        names.push(name)?;
    }
    Ok(Loc(number as u8))
}
