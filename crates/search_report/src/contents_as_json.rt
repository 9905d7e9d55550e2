//! What lines show as JSON values: events, cycles, places and the like.

ghost use Rattle.std.specs.Prelude.{◌≡◌, IfOk, OnOk, filter, map};
ghost use Rattle.serde_json.specs.Data.{array, string};
ghost use Rattle.serde_json.specs.View.{view, members_view, items_of};
ghost use Rattle.tso_terms.specs.ProgramOrder as program_order;
ghost use Rattle.order_builder.specs.PrintedOrder.{printed_entry};
ghost use Rattle.search_report.specs.ReasonJson as spec;
ghost use Rattle.search_report.specs.inner.Contents as contents;

use crate::contents::Content;
use crate::contents_as_text::{relation_text, write_shown};
use crate::items::{Valued, array_of};
use crate::keys::key_text;
use crate::readings::event_of;
use crate::shown::Edge;
use refutations::events::writes_to;
use serde_json::Value;
use std::alloc::Global;
use tso_report::arrays::Array;
use tso_report::members::{numbers_value, word_value};
use tso_report::objects::Object;
use tso_terms::{Entry, Loc, NoMemory, Test};

/// What is under a key.
///
/// Errors: out of memory only.
pub fn content_value(alloc: Global, test: &Test, content: Content<'_>) -> Result<Value, NoMemory>
    ensures { IfOk result (λ value. view value ≡ contents.content_value test.now content.entry) }
{
    match content {
        Content::Word(_, word) => word_value(alloc, word),
        Content::Depth(depth) => Ok(Value::from(depth)),
        Content::Event(_) | Content::Source(_) => text_value(alloc, test, content),
        Content::Cycle(edges) => array_of(alloc, test, edges),
        Content::Places(places) => {
            let mut members = Object::new(alloc);
            for at in (0..places.len()).rev() {
                let place = &places[at];
                let key = key_text(alloc, test, place.named)?;
                members = members.member(&key, numbers_value(alloc, &place.values));
            }
            members.value()
        }
    }
}

/// The writes to a location among these entries.
///
/// Errors: out of memory only.
pub fn writes_value(
    alloc: Global,
    test: &Test,
    order: &[Entry],
    loc: Loc,
) -> Result<Value, NoMemory>
    ensures { IfOk result (λ value. view value
        ≡ array (items_of (map (λ v. string (printed_entry test.now v)) (filter (program_order.writes_to loc.0) order.now)))) }
{
    let mut values = Array::new(alloc);
    for entry in order {
        if writes_to(loc.0, entry) {
            let write = event_of(entry);
            values = values.with(text_value(alloc, test, Content::Event(&write)));
        }
    }
    values.value()
}

/// What is shown as it is in a line, as a string.
fn text_value(alloc: Global, test: &Test, content: Content<'_>) -> Result<Value, NoMemory>
    ensures { IfOk result (λ value. view value ≡ string (contents.content_text test.now content.entry)) }
{
    let mut text = String::new(alloc);
    write_shown(&mut text, test, content)?;
    Ok(Value::String(text))
}

impl Valued for Edge {
    ghost valued = { spec.edge_value };

    fn value(&self, alloc: Global, test: &Test) -> Result<Value, NoMemory> {
        let relation = relation_text(self.relation);
        let relation = Content::Word(relation, relation);
        Object::new(alloc)
            .member(
                "from",
                text_value(alloc, test, Content::Event(&self.source)),
            )
            .member("relation", text_value(alloc, test, relation))
            .member("to", text_value(alloc, test, Content::Event(&self.target)))
            .value()
    }
}
