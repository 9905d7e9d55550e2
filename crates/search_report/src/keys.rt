//! The keys of registers and locations, as JSON has them and lines of text too.

ghost use Rattle.std.specs.Prelude.{◌≡◌, ◌++◌, [], IfOk, OnOk, string_bytes, slice_index_or};
ghost use Rattle.search_report.specs.OutcomesJson.{key_of};

use std::alloc::Global;
use tso_report::named::Named;
use tso_report::pieces::{Piece, write_characters, write_pieces};
use tso_terms::{Loc, NoMemory, Test};

/// The name of a location; nothing, where the test doesn't have it.
pub fn name_of(test: &Test, loc: Loc) -> &str
    ensures { result.now ≡ slice_index_or test.now.locations loc.0 [] }
{
    if loc.0 < test.locations() {
        test.location_name(loc)
    } else {
        ""
    }
}

/// Adds `c:EAX`, or `x`.
///
/// Errors: out of memory only; the text may have grown then.
pub fn write_key(text: &mut String, test: &Test, named: Named) -> Result<(), NoMemory>
    ensures { OnOk result (string_bytes text.new ≡ string_bytes text.old ++ key_of test.now named) }
{
    match named {
        Named::Register(core, reg) => {
            let pieces = [
                Piece::Number(core.0 as u64),
                Piece::Text(":"),
                Piece::Text(reg.name()),
            ];
            write_pieces(text, &pieces)
        }
        Named::Location(loc) => write_characters(text, name_of(test, loc)),
    }
}

/// `c:EAX`, or `x`.
///
/// Errors: out of memory only.
pub fn key_text(alloc: Global, test: &Test, named: Named) -> Result<String, NoMemory>
    ensures { IfOk result (λ text. string_bytes text ≡ key_of test.now named) }
{
    let mut text = String::new(alloc);
    write_key(&mut text, test, named)?;
    Ok(text)
}
