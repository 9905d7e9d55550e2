//! What a line of text shows, piece by piece.

ghost use Rattle.std.specs.Prelude.{◌≡◌, ◌++◌, OnOk, codes, string_bytes};
ghost use Rattle.std.specs.Fmt.{decimal};
ghost use Rattle.std.specs.List.{flat_map};
ghost use Rattle.tso_report.specs.inner.Pieces.{line_piece};

use tso_terms::NoMemory;

/// A piece of a line.
#[derive(Clone, Copy)]
pub enum Piece<'a> {
    /// These characters.
    Text(&'a str),
    /// A number.
    Number(u64),
    /// A truth: `true` or `false`.
    Truth(bool),
}

/// Adds pieces to a text, one after the other.
///
/// Errors: out of memory only; the text may have grown then.
pub fn write_pieces(text: &mut String, pieces: &[Piece<'_>]) -> Result<(), NoMemory>
    ensures { OnOk result (string_bytes text.new ≡ string_bytes text.old ++ flat_map line_piece pieces.now) }
{
    for piece in pieces {
        match piece {
            Piece::Text(characters) => text.push_str(characters)?,
            Piece::Number(number) => write!(text, "{number}")?,
            Piece::Truth(true) => text.push_str("true")?,
            Piece::Truth(false) => text.push_str("false")?,
        }
    }
    Ok(())
}

/// Adds ` x=v`: a name and its value.
///
/// Errors: out of memory only; the text may have grown then.
pub fn write_named(text: &mut String, name: &str, value: u32) -> Result<(), NoMemory>
    ensures { OnOk result (string_bytes text.new ≡ string_bytes text.old ++ (codes " " ++ (name.now ++ (codes "=" ++ decimal value)))) }
{
    let pieces = [
        Piece::Text(" "),
        Piece::Text(name),
        Piece::Text("="),
        Piece::Number(value as u64),
    ];
    write_pieces(text, &pieces)
}

/// Adds these characters.
///
/// Errors: out of memory only.
pub fn write_characters(text: &mut String, characters: &str) -> Result<(), NoMemory>
    ensures { OnOk result (string_bytes text.new ≡ string_bytes text.old ++ characters.now) }
{
    Ok(text.push_str(characters)?)
}
