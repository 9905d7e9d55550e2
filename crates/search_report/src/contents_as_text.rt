//! What lines show as text: events, cycles, places and the like.

ghost use Rattle.std.specs.Prelude.{◌≡◌, ◌++◌, OnOk, codes, filter, string_bytes};
ghost use Rattle.std.specs.Fmt.{decimal};
ghost use Rattle.std.specs.List.{flat_map};
ghost use Rattle.tso_terms.specs.ProgramOrder as program_order;
ghost use Rattle.tso_terms.specs.declared.execution.Entry as declared;
ghost use Rattle.order_builder.specs.PrintedOrder.{printed_entry};
ghost use Rattle.search_report.specs.ReasonText as spec;
ghost use Rattle.search_report.specs.inner.Contents.{content_text};
ghost use Rattle.search_report.specs.inner.Views.{hop_end, place_end};

use crate::contents::Content;
use crate::items::{Written, write_each, write_separated};
use crate::keys::{name_of, write_key};
use crate::readings::event_of;
use crate::shown::{Edge, Event, Place};
use order_builder::letters_of;
use refutation_laws::Relation;
use refutations::events::writes_to;
use tso_report::pieces::{Piece, write_characters, write_named, write_pieces};
use tso_terms::{Entry, Kind, Loc, NoMemory, Test};

/// Adds what is shown to a line.
///
/// Errors: out of memory only; the text may have grown then.
pub fn write_shown(text: &mut String, test: &Test, content: Content<'_>) -> Result<(), NoMemory>
    ensures { OnOk result (string_bytes text.new ≡ string_bytes text.old ++ content_text test.now content.entry) }
{
    match content {
        Content::Word(characters, _) => write_characters(text, characters),
        Content::Depth(depth) => {
            for _deeper in 0..depth {
                write_characters(text, " ")?;
            }
            Ok(())
        }
        Content::Event(event) => write_event(text, test, event),
        Content::Source(write) => write.write(text, test),
        Content::Cycle(edges) => {
            let Some((first, _)) = edges.split_first() else {
                return Ok(());
            };
            write_characters(text, " ")?;
            write_event(text, test, &first.source)?;
            write_each(text, test, " ", edges)
        }
        Content::Places(places) => write_each(text, test, " ", places),
    }
}

/// A write, or `initial`.
impl Written for Option<Event> {
    ghost written = { spec.source_text };

    fn write(&self, text: &mut String, test: &Test) -> Result<(), NoMemory> {
        match self {
            None => write_characters(text, "initial"),
            Some(event) => write_event(text, test, event),
        }
    }
}

/// `po P0:1 W y=1`
impl Written for Edge {
    ghost written = { hop_end };

    fn write(&self, text: &mut String, test: &Test) -> Result<(), NoMemory> {
        write_characters(text, relation_text(self.relation))?;
        write_characters(text, " ")?;
        write_event(text, test, &self.target)
    }
}

/// The name that a relation has between the events of a cycle. An edge of no relation has none.
pub fn relation_text(relation: Option<Relation>) -> &'static str
    ensures { result.now ≡ spec.relation_text relation }
{
    match relation {
        None => "",
        Some(Relation::Po) | Some(Relation::PoLoc) | Some(Relation::PoGhb) => "po",
        Some(Relation::Mfence) => "mfence",
        Some(Relation::Implied) => "implied",
        Some(Relation::Rf) | Some(Relation::Rfe) => "rf",
        Some(Relation::Co) => "co",
        Some(Relation::Fr) => "fr",
    }
}

/// `1:EAX=0`, or `x=1|2`
impl Written for Place {
    ghost written = { place_end };

    fn write(&self, text: &mut String, test: &Test) -> Result<(), NoMemory> {
        write_key(text, test, self.named)?;
        write_characters(text, "=")?;
        write_separated(text, test, "|", &self.values)
    }
}

impl Written for u32 {
    ghost written = { λ _ value. decimal value };

    fn write(&self, text: &mut String, _test: &Test) -> Result<(), NoMemory> {
        write_pieces(text, &[Piece::Number(*self as u64)])
    }
}

/// ` P0:0 W x=1 ..`: the writes to a location among these entries.
///
/// Errors: out of memory only; the text may have grown then.
pub fn write_writes(
    text: &mut String,
    test: &Test,
    order: &[Entry],
    loc: Loc,
) -> Result<(), NoMemory>
    ensures { OnOk result (string_bytes text.new ≡ string_bytes text.old
        ++ flat_map (λ (v : declared.Entry). codes " " ++ printed_entry test.now v) (filter (program_order.writes_to loc.0) order.now)) }
{
    for entry in order {
        if writes_to(loc.0, entry) {
            write_characters(text, " ")?;
            write_event(text, test, &event_of(entry))?;
        }
    }
    Ok(())
}

/// An event, as `P0:1 R y=0`; `P0:1 R y` where its value isn't known, `P1:2 F` for a fence.
fn write_event(text: &mut String, test: &Test, event: &Event) -> Result<(), NoMemory>
    ensures { OnOk result (string_bytes text.new ≡ string_bytes text.old ++ spec.event_text test.now event.now) }
{
    let entry = &event.entry;
    let pieces = [
        Piece::Text("P"),
        Piece::Number(entry.core.0 as u64),
        Piece::Text(":"),
        Piece::Number(entry.place as u64),
        Piece::Text(" "),
        Piece::Text(letters_of(entry.kind)),
    ];
    write_pieces(text, &pieces)?;
    if let Kind::F = entry.kind {
        return Ok(());
    }
    let name = name_of(test, entry.loc);
    match event.value {
        None => write_pieces(text, &[Piece::Text(" "), Piece::Text(name)]),
        Some(value) => write_named(text, name, value),
    }
}
