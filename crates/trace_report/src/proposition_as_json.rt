//! The proposition of a condition as a text, with brackets only where it would be read in another way without.

ghost use Rattle.std.specs.Prelude.{◌≡◌, ◌<◌, ◌++◌, IfOk, OnOk, length, string_bytes};
ghost use Rattle.serde_json.specs.View.{view};
ghost use Rattle.tso_terms.specs.Condition.{NamesExist};
ghost use Rattle.tso_terms.specs.Condition.{claim_of};
ghost use Rattle.trace_report.specs.PropositionJson.{is_or, is_joined, bracketed_text, proposition_text, proposition_value};

use serde_json::Value;
use std::alloc::Global;
use tso_report::pieces::{Piece, write_characters, write_pieces};
use tso_terms::{Core, NoMemory, Prop, Reg, Test};

/// The proposition of the test's condition as a text, `0:EAX=0 /\ 1:EAX=0`; `null` where it has none.
///
/// Errors: out of memory only.
pub fn proposition_value(alloc: Global, test: &Test) -> Result<Value, NoMemory>
    ensures { IfOk result (λ value. view value ≡ proposition_value test.now) }
{
    match test.cond() {
        None => Ok(Value::Null),
        Some(cond) => {
            let mut text = String::new(alloc);
            write_proposition(&mut text, test, &cond.prop)?;
            Ok(Value::String(text))
        }
    }
}

/// Writes a proposition.
///
/// Errors: out of memory only; the text may have grown then.
#[cycle(proposition)]
fn write_proposition(text: &mut String, test: &Test, prop: &Prop) -> Result<(), NoMemory>
    requires { NamesExist (length test.now.programs) (length test.now.locations) (claim_of prop.now) }
    ensures { OnOk result (string_bytes text.new ≡ string_bytes text.old ++ proposition_text test.now (claim_of prop.now)) }
{
    match prop {
        Prop::Truth(true) => write_characters(text, "true"),
        Prop::Truth(false) => write_characters(text, "false"),
        Prop::RegIs(core, reg, value) => {
            let pieces = [
                Piece::Number(core.0 as u64),
                Piece::Text(":"),
                Piece::Text(reg.name()),
                Piece::Text("="),
                Piece::Number(*value as u64),
            ];
            write_pieces(text, &pieces)
        }
        Prop::LocIs(loc, value) => {
            let pieces = [
                Piece::Text(test.location_name(*loc)),
                Piece::Text("="),
                Piece::Number(*value as u64),
            ];
            write_pieces(text, &pieces)
        }
        Prop::Not(inner) => write_part(text, test, "~", inner, is_joined(inner)),
        Prop::And(left, right) => {
            write_part(text, test, "", left, is_or(left))?;
            write_part(text, test, " /\\ ", right, is_joined(right))
        }
        Prop::Or(left, right) => {
            write_proposition(text, test, left)?;
            write_part(text, test, " \\/ ", right, is_or(right))
        }
    }
}

/// Writes a part of a proposition after these characters, in brackets where it is to have them.
#[cycle(proposition)]
fn write_part(
    text: &mut String,
    test: &Test,
    before: &str,
    part: &Prop,
    in_brackets: bool,
) -> Result<(), NoMemory>
    requires { NamesExist (length test.now.programs) (length test.now.locations) (claim_of part.now) }
    ensures { OnOk result (string_bytes text.new ≡ string_bytes text.old
        ++ (before.now ++ bracketed_text in_brackets (proposition_text test.now (claim_of part.now)))) }
{
    text.push_str(before)?;
    if in_brackets {
        text.push('(')?;
        write_proposition(text, test, part)?;
        write_characters(text, ")")
    } else {
        write_proposition(text, test, part)
    }
}

fn is_or(prop: &Prop) -> bool
    ensures { result ≡ is_or (claim_of prop.now) }
{
    matches!(prop, Prop::Or(..))
}

fn is_joined(prop: &Prop) -> bool
    ensures { result ≡ is_joined (claim_of prop.now) }
{
    matches!(prop, Prop::And(..) | Prop::Or(..))
}
