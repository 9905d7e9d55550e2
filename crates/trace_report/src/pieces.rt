//! What a line of a trace shows, piece by piece.

ghost use Rattle.std.specs.Prelude.{◌≡◌, ◌++◌, OnOk, string_bytes};
ghost use Rattle.std.specs.Fmt.{decimal};
ghost use Rattle.std.specs.List.{flat_map};
ghost use Rattle.trace_report.specs.inner.Pieces.{trace_piece};

use itoa::Buffer;
use tso_terms::NoMemory;

/// A piece of a line.
#[derive(Clone, Copy)]
pub enum LinePart<'a> {
    /// These characters.
    Word(&'a str),
    /// A number.
    Number(usize),
}

/// Adds pieces to a text, one after the other.
///
/// Errors: out of memory only; the text may have grown then.
pub fn write_pieces(text: &mut String, pieces: &[LinePart<'_>]) -> Result<(), NoMemory>
    ensures { OnOk result (string_bytes text.new ≡ string_bytes text.old ++ flat_map trace_piece pieces.now) }
{
    for piece in pieces {
        match piece {
            LinePart::Word(word) => text.push_str(word)?,
            LinePart::Number(number) => write_number(text, *number)?,
        }
    }
    Ok(())
}

/// Adds a number, in decimal. It goes past `write!`, which would take longer for it than the rest of a short line does.
#[tactic(auto, using(std::proofs::lemmas::Fmt::decimal_digit))]
pub fn write_number(text: &mut String, number: usize) -> Result<(), NoMemory>
    ensures { OnOk result (string_bytes text.new ≡ string_bytes text.old ++ decimal number) }
{
    if number < 10 {
        text.push(char::from(b'0' + number as u8))?;
        return Ok(());
    }
    let mut digits = Buffer::new();
    Ok(text.push_str(digits.format(number))?)
}
