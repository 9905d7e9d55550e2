//! A report as lines of text.

ghost use Rattle.std.specs.Prelude.{◌≡◌, ◌++◌, ◌∷◌, [], All, OnOk, IfOk, string_bytes, length};
ghost use Rattle.std.specs.List.{flat_map, list_any};
ghost use Rattle.tso_terms.specs.ProgramOrder as program_order;
ghost use Rattle.relational_model.specs.Candidates.{Candidate};
ghost use Rattle.tso_report.specs.Tally.{looked_at};
ghost use Rattle.tso_report.specs.inner.Tally.{NameExists};
ghost use Rattle.search_report.specs.ReasonText as spec;
ghost use Rattle.search_report.specs.inner.Contents.{field_text};
ghost use Rattle.search_report.specs.inner.ShownExecutions.{IsShown, reading_line, coherence_by};

use crate::allowed::Shown;
use crate::asked::{model_name, write_asked};
use crate::contents::Field;
use crate::contents_as_text::{write_shown, write_writes};
use crate::fields::reading_fields;
use crate::items::{Written, write_each};
use crate::readings::Reading;
use crate::verdict::write_verdict;
use refutation_laws::Model;
use refutations::events::writes_to;
use scheduler::write_after;
use std::alloc::Global;
use tso_report::pieces::{Piece, write_characters, write_pieces};
use tso_report::printed_values::write_values;
use tso_terms::{Entry, Loc, NoMemory, Test};

/// An execution in which what the test asks is so, as lines of text: the test; the model; what is asked; what each read reads from; the
/// writes to each location in their order; choices that lead there; the values at the end; and herd's verdict.
///
/// Errors: out of memory only.
pub fn allowed_text(
    alloc: Global,
    test: &Test,
    model: Model,
    shown: &Shown<'_>,
) -> Result<String, NoMemory>
    requires known { All (NameExists (length test.now.programs) (length test.now.locations)) shown.now.names.now }
    requires names { shown.now.names.now ≡ looked_at test.now }
    ensures { IfOk result (λ text. (c : Candidate) → IsShown test.now shown.now.order.now shown.now.readings.now shown.now.values.now c
        → string_bytes text ≡ spec.allowed_text model test.now c shown.now.choices.now) }
{
    let mut text = String::new(alloc);
    write_allowed(&mut text, test, model, shown)?;
    Ok(text)
}

fn write_allowed(
    text: &mut String,
    test: &Test,
    model: Model,
    shown: &Shown<'_>,
) -> Result<(), NoMemory>
    requires known { All (NameExists (length test.now.programs) (length test.now.locations)) shown.now.names.now }
    requires names { shown.now.names.now ≡ looked_at test.now }
    ensures { OnOk result ((c : Candidate) → IsShown test.now shown.now.order.now shown.now.readings.now shown.now.values.now c
        → string_bytes text.new ≡ string_bytes text.old ++ spec.allowed_text model test.now c shown.now.choices.now) }
{
    let head = [
        Piece::Text("Test "),
        Piece::Text(test.name()),
        Piece::Text("\nAllowed "),
        Piece::Text(model_name(model)),
        Piece::Text("\n"),
    ];
    write_pieces(text, &head)?;
    write_asked(text, test)?;
    write_each(text, test, "", shown.readings)?;
    write_coherence(text, test, shown.order)?;
    write_characters(text, "By")?;
    write_after(text, shown.choices)?;
    write_characters(text, "\nState")?;
    write_values(text, test, shown.names, shown.values)?;
    write_characters(text, "\n")?;
    write_verdict(text, test, true)
}

/// The line of a search that met its limit.
///
/// Errors: out of memory only.
pub fn unfinished_text(alloc: Global, limit: u32) -> Result<String, NoMemory>
    ensures { IfOk result (λ text. string_bytes text ≡ spec.unfinished_reason_line limit) }
{
    let pieces = [
        Piece::Text("Unfinished cases="),
        Piece::Number(limit as u64),
        Piece::Text("\n"),
    ];
    let mut text = String::new(alloc);
    write_pieces(&mut text, &pieces)?;
    Ok(text)
}

/// Adds a line: what is shown, each time after what comes before it.
fn write_line(text: &mut String, test: &Test, fields: &[Field<'_>]) -> Result<(), NoMemory>
    ensures { OnOk result (string_bytes text.new ≡ string_bytes text.old ++ (flat_map (field_text test.now) fields.now ++ (10 ∷ []))) }
{
    for (before, _key, content) in fields {
        write_characters(text, before)?;
        write_shown(text, test, *content)?;
    }
    write_characters(text, "\n")
}

impl Written for Reading {
    ghost written = { reading_line };

    fn write(&self, text: &mut String, test: &Test) -> Result<(), NoMemory> {
        write_line(text, test, &reading_fields(self))
    }
}

/// `Coherence x P0:0 W x=1 ..` for each location to which a write goes.
fn write_coherence(text: &mut String, test: &Test, order: &[Entry]) -> Result<(), NoMemory>
    ensures { OnOk result (string_bytes text.new ≡ string_bytes text.old ++ coherence_by test.now order.now 0 test.now.locations) }
{
    for number in 0..test.locations() {
        let loc = Loc(number);
        if has_write(order, loc) {
            let head = [
                Piece::Text("Coherence "),
                Piece::Text(test.location_name(loc)),
            ];
            write_pieces(text, &head)?;
            write_writes(text, test, order, loc)?;
            write_characters(text, "\n")?;
        }
    }
    Ok(())
}

/// Whether an entry of the order writes to the location.
pub fn has_write(order: &[Entry], loc: Loc) -> bool
    ensures { result ≡ list_any (program_order.writes_to loc.0) order.now }
{
    for e in order {
        if writes_to(loc.0, e) {
            return true;
        }
    }
    false
}
