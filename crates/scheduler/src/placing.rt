//! The word of a choice text that says a choice: what is told to a person names the word that is there to be seen; the
//! choices of `seed N M` all have one.

ghost use Rattle.std.specs.Prelude.{◌≡◌, ◌<◌, ℕ, List, Some, IfSome, IsSome, length};
ghost use Rattle.tso_terms.specs.declared.choice.Choice.{Choice};
ghost use Rattle.scheduler.specs.Limits.{most_choices};
ghost use Rattle.scheduler.specs.Grammar.{SpellsChoices};
ghost use Rattle.scheduler.specs.WordOfChoice.{IsWordOfChoice};
ghost use Rattle.scheduler.specs.inner.TooMany.{too_many_at};

use crate::fault::ChoiceFault;
use crate::item::read_item;
use crate::words::first_word;

/// The word at which the item begins that passes the limit, if that is the fault.
fn too_many_at(fault: ChoiceFault) -> Option<usize>
    ensures { result ≡ too_many_at fault }
{
    match fault {
        ChoiceFault::TooMany(word) => Some(word),
        ChoiceFault::BadWord(_) | ChoiceFault::NoSuchCore(_) | ChoiceFault::NoMemory => None,
    }
}

/// The number of the word that says the choice at this place, counted from 0, in a test with so many cores
/// (1 or more): the first word of its item, so of `seed N M` the word `seed`. Words are numbered from 1.
///
/// `None` where the text has no item with that choice, or has an item at fault before it. The choices after it
/// aren't looked at.
pub fn word_of_choice(cores: u8, place: usize, text: &[u8]) -> Option<usize>
    requires some { 0 < cores }
    requires within { place < most_choices }

    // What is answered is that word, and a text that has it is answered with it.
    ensures found { IfSome result (λ number. IsWordOfChoice cores text.now place number) }
    ensures only { (number : ℕ) → IsWordOfChoice cores text.now place number → result ≡ Some number }

    // A text that spells more choices than come before this place has it.
    ensures there { (choices : List Choice) → SpellsChoices cores text.now choices → place < length choices → IsSome result }
{
    // So many choices come between the items that were read and this one.
    let mut room = place;
    let mut text = text;
    let mut words = 0;
    while let Some((word, after)) = first_word(text) {
        match read_item(cores, room, words + 1, word, after) {
            Ok(read) => {
                room -= read.item.choices();
                words += read.item.words();
                text = read.after;
            }
            Err(fault) => return too_many_at(fault),
        }
    }
    None
}
