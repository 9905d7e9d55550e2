//! In how many final states, or runs, the condition's proposition was true and false: the line `Observation` of herd and
//! litmus7.

ghost use Rattle.std.specs.Prelude.{◌≡◌, ◌++◌, OnOk, string_bytes};
ghost use Rattle.tso_report.specs.Tally.{frequency, observed_line};

use crate::pieces::{Piece, write_pieces};
use tso_terms::NoMemory;

/// `Observation NAME Sometimes P Q`, the line of a test of this name whose proposition was true in
/// `held` of them and false in `failed`.
///
/// Errors: out of memory only.
pub fn write_observed<'a>(
    text: &mut String,
    name: &'a str,
    held: usize,
    failed: usize,
) -> Result<(), NoMemory>
    ensures { OnOk result (string_bytes text.new ≡ string_bytes text.old ++ observed_line name.now held failed) }
{
    let pieces = [
        Piece::Text("Observation "),
        Piece::Text(name),
        Piece::Text(" "),
        Piece::Text(frequency(held, failed)),
        Piece::Text(" "),
        Piece::Number(held as u64),
        Piece::Text(" "),
        Piece::Number(failed as u64),
        Piece::Text("\n"),
    ];
    write_pieces(text, &pieces)
}

/// In which of them the proposition was true: in none, in all, or in some.
pub fn frequency(held: usize, failed: usize) -> &'static str
    ensures { result.now ≡ frequency held failed }
{
    if held == 0 {
        "Never"
    } else if failed == 0 {
        "Always"
    } else {
        "Sometimes"
    }
}
