//! The values of a final state as they are printed, each with the register or the location that it is of: one form for a
//! sweep's states and for those that a search found.

ghost use Rattle.std.specs.Prelude.{◌≡◌, ◌++◌, OnOk, All, string_bytes, length};
ghost use Rattle.tso_report.specs.Tally.{printed_values};
ghost use Rattle.tso_report.specs.inner.Tally.{NameExists};

use crate::named::Named;
use crate::pieces::{Piece, write_named, write_pieces};
use tso_terms::{NoMemory, Test};

/// ` 0:EAX=v x=v ..`: for each of the names its value; a name or a value that is alone is left out.
///
/// Errors: out of memory only.
pub fn write_values(
    text: &mut String,
    test: &Test,
    names: &[Named],
    values: &[u32],
) -> Result<(), NoMemory>
    requires { All (NameExists (length test.now.programs) (length test.now.locations)) names.now }
    ensures { OnOk result (string_bytes text.new ≡ string_bytes text.old ++ printed_values test.now names.now values.now) }
{
    for at in 0..names.len().min(values.len()) {
        match names[at] {
            Named::Register(core, reg) => {
                let pieces = [
                    Piece::Text(" "),
                    Piece::Number(core.0 as u64),
                    Piece::Text(":"),
                    Piece::Text(reg.name()),
                    Piece::Text("="),
                    Piece::Number(values[at] as u64),
                ];
                write_pieces(text, &pieces)?;
            }
            Named::Location(loc) => write_named(text, test.location_name(loc), values[at])?,
        }
    }
    Ok(())
}
