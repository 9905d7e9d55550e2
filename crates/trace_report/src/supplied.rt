//! Where the word that a choice reads is found, as its access says, or on a split bus its request. Whoever looked for it later
//! would find other copies; and who supplies a line, the protocol's table says and not a copy's state. (Primer, chapters 6 and 7.)

ghost use Rattle.std.specs.Prelude.{◌≡◌, ◌<◌, IfOk, length, option_map};
ghost use Rattle.serde_json.specs.View.{view};
ghost use Rattle.tso_terms.specs.Actions.{action_of};
ghost use Rattle.tso_terms.specs.FlatMachine.{chosen};
ghost use Rattle.trace_report.specs.Supplied.{action_reads, found_by, reads_from, source_by, source_in, source_of, source_without};
ghost use Rattle.trace_report.specs.Supplied.{supplier_text};
ghost use Rattle.trace_report.specs.JsonValues.{text_or_null};

use crate::texts_as_json::core_name;
use machine_core::CacheUse;
use serde_json::Value;
use snoop_bus::{AccessKind, BusRequest, Supplier};
use std::alloc::Global;
use tso_report::members::word_value;
use tso_terms::{Action, Choice, Core, Instr, NoMemory, Test};

/// Where a core finds a word that it reads.
#[derive(Clone, Copy)]
pub enum Source {
    /// The newest of its own pending stores to the location.
    Buffer,
    /// Its own cache.
    Cache,
    /// Another core's cache, whose copy supplies the line.
    Other(Core),
    /// The bus, which keeps the words of the line that the core has asked for.
    Bus,
    /// Memory, which has the line where no cache supplies it.
    Memory,
}

/// Where the word is found that a choice at this place of its core's program reads, which had this to do with the caches.
/// `None` where it reads none.
pub fn found_by(test: &Test, place: u8, choice: Choice, cache_use: CacheUse) -> Option<Source>
    requires { chosen choice < length test.now.programs }
    ensures { result ≡ found_by test.now place choice cache_use }
{
    if reads_from(test, place, choice) {
        source_in(cache_use)
    } else {
        None
    }
}

/// Whether a choice at this place of its core's program reads a word.
fn reads_from(test: &Test, place: u8, choice: Choice) -> bool
    requires { chosen choice < length test.now.programs }
    ensures { result ≡ reads_from test.now place choice }
{
    match choice {
        Choice::Drain(_) => false,
        Choice::Step(core) => match test.program(core).get(usize::from(place)) {
            None => false,
            Some(instr) => reads_word(*instr),
        },
    }
}

/// Whether an instruction reads a word: a load does, and a locked instruction.
fn reads_word(instr: Instr) -> bool
    ensures { result ≡ action_reads (action_of instr) }
{
    match instr.action() {
        Action::Load(..) | Action::Lock(..) => true,
        Action::Store(..) | Action::Move(..) | Action::Fence => false,
    }
}

/// Where the word was found that a choice with this use of the caches read. One that asks without a request is a write
/// access that hits, so that its core has the line.
fn source_in(cache_use: CacheUse) -> Option<Source>
    ensures { result ≡ source_in cache_use }
{
    match cache_use {
        CacheUse::Unused => None,
        CacheUse::Forwarded => Some(Source::Buffer),
        CacheUse::Asked(request) => Some(source_by(Source::Cache, request)),
        CacheUse::Through(report) => {
            let otherwise = source_without(report.access.kind);
            Some(source_by(otherwise, report.request))
        }
    }
}

/// Who supplied the line by what went on the bus; this where nothing did.
fn source_by(otherwise: Source, request: Option<BusRequest>) -> Source
    ensures { result ≡ source_by otherwise request }
{
    match request {
        None => otherwise,
        Some(request) => source_of(request.supplier),
    }
}

/// Where an access finds its words for which nothing goes on the bus now: a line that comes in has been asked for before.
fn source_without(kind: AccessKind) -> Source
    ensures { result ≡ source_without kind }
{
    match kind {
        AccessKind::Hit | AccessKind::Upgrade => Source::Cache,
        AccessKind::Miss => Source::Bus,
    }
}

/// Who supplied a line; where no words were moved the core had them.
fn source_of(supplier: Option<Supplier>) -> Source
    ensures { result ≡ source_of supplier }
{
    match supplier {
        None => Source::Cache,
        Some(Supplier::Cache(core)) => Source::Other(core),
        Some(Supplier::Memory) => Source::Memory,
    }
}

/// The name of where a word is found, `memory` or `P1`, or `null`.
///
/// Errors: out of memory only.
pub fn source_value(alloc: Global, supplied: Option<Source>) -> Result<Value, NoMemory>
    ensures { IfOk result (λ value. view value ≡ text_or_null (option_map supplier_text supplied)) }
{
    match supplied {
        None => Ok(Value::Null),
        Some(Source::Buffer) => word_value(alloc, "buffer"),
        Some(Source::Cache) => word_value(alloc, "cache"),
        Some(Source::Other(core)) => core_name(alloc, core),
        Some(Source::Bus) => word_value(alloc, "bus"),
        Some(Source::Memory) => word_value(alloc, "memory"),
    }
}
