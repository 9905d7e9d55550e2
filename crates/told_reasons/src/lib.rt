//! What the printed lines of a refutation tell.
#![tactic(auto)]

ghost use Rattle.told_reasons.specs.ListedValues.{ListedValuesAreAllLeft};
ghost use Rattle.told_reasons.specs.ShownLines.{DataAreOfTheFormat, PrintedReasonsAreTold, TextsAreOfTheFormat};

use locked_laws::{no_two_read_one_source, reads_add_up, words_add_up};

/// The text of a refutation tells all that it shows: the test's name, the model, how many lines close a case, what is asked, each line,
/// and the verdict.
pub fn printed_reasons_are_told()
    ensures { PrintedReasonsAreTold }
{}

/// The text of each line, and its JSON data, are of one format.
pub fn lines_are_of_one_format()
    ensures texts { TextsAreOfTheFormat }
    ensures objects { DataAreOfTheFormat }
{}

/// The values beside a place of a line `False` are all that is left there. Take an allowed candidate that meets the facts on events of
/// the line's case, and each read of which returns what they leave it, whatever is asked of the final state. At its end the place has
/// one of these values.
pub fn listed_values_are_all_left()
    ensures { ListedValuesAreAllLeft }
{
    no_two_read_one_source();
    words_add_up();
    reads_add_up();
}
