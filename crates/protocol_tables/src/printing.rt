//! The text of a protocol's table, made of what the caches themselves ask the protocol: what is printed can't differ from
//! what is run.

ghost use Rattle.std.specs.Prelude.{◌≡◌, ◌++◌, Some, IfOk, OnOk, codes, string_bytes};
ghost use Rattle.protocol_tables.specs.Names.{protocol_name};
ghost use Rattle.protocol_tables.specs.Tables.{table_of, by_kind};
ghost use Rattle.protocol_tables.specs.PrintedTable.{letter, yes_or_no, printed_write, printed_evict, printed_snoop};
ghost use Rattle.protocol_tables.specs.PrintedTable.{row_if_reached, rows, reaches, is_owned, is_exclusive, strongest_first};
ghost use Rattle.protocol_tables.specs.PrintedTable.{name_line, fill_line, printed_table};

use crate::kind::ProtocolKind;
use crate::protocol::Protocol;
use crate::state::{Snoop, State};
use crate::tables::{Mesi, Moesi, Mosi, Msi};
use std::alloc::Global;
use std::fmt;
use tso_terms::NoMemory;

/// The protocol's table as text: its name, the states that loads fill in, and a row for each state
/// that it reaches, M first, then O, E and S.
///
/// Errors: out of memory only.
pub fn table_text(alloc: Global, kind: ProtocolKind) -> Result<String, NoMemory>
    ensures table { IfOk result (λ text. string_bytes text ≡ printed_table (protocol_name kind) (table_of kind)) }
    ensures shown { IfOk result (λ text. string_bytes text ≡ by_kind kind
        (printed_table (⟦<Msi as Protocol>⟧.called record {}) (⟦<Msi as Protocol>⟧.table record {}))
        (printed_table (⟦<Mesi as Protocol>⟧.called record {}) (⟦<Mesi as Protocol>⟧.table record {}))
        (printed_table (⟦<Moesi as Protocol>⟧.called record {}) (⟦<Moesi as Protocol>⟧.table record {}))
        (printed_table (⟦<Mosi as Protocol>⟧.called record {}) (⟦<Mosi as Protocol>⟧.table record {}))) }
{
    match kind {
        ProtocolKind::Msi => text_of(alloc, &Msi),
        ProtocolKind::Mesi => text_of(alloc, &Mesi),
        ProtocolKind::Moesi => text_of(alloc, &Moesi),
        ProtocolKind::Mosi => text_of(alloc, &Mosi),
    }
}

#[tactic(auto, unfolding(crate::specs::PrintedTable::printed_table, crate::specs::PrintedTable::fill_line, crate::specs::PrintedTable::strongest_first))]
fn text_of<P: Protocol>(alloc: Global, protocol: &P) -> Result<String, NoMemory>
    ensures { IfOk result (λ text. string_bytes text ≡ printed_table (P.called protocol.now) (P.table protocol.now)) }
{
    let mut text = String::new(alloc);
    let name = protocol.name();
    write!(text, "Protocol {name}\n")?;
    let alone = protocol.filled(false);
    let shared = protocol.filled(true);
    write!(text, "Fill alone={alone} shared={shared}\n")?;
    write_rows(
        &mut text,
        protocol,
        &[State::M, State::O, State::E, State::S],
    )?;
    Ok(text)
}

fn write_rows<P: Protocol>(
    text: &mut String,
    protocol: &P,
    states: &[State],
) -> Result<(), NoMemory>
    ensures { OnOk result (string_bytes text.new ≡ string_bytes text.old ++ rows (P.table protocol.now) states.now) }
{
    for state in states {
        write_row_if_reached(text, protocol, *state)?;
    }
    Ok(())
}

fn is_reached<P: Protocol>(protocol: &P, state: State) -> bool
    ensures { result ≡ reaches (P.table protocol.now) state }
{
    match state {
        State::M | State::S => true,
        State::O => matches!(protocol.on_get_s(State::M).next, State::O),
        State::E => matches!(protocol.filled(false), State::E),
        State::I => false,
    }
}

fn write_row_if_reached<P: Protocol>(
    text: &mut String,
    protocol: &P,
    state: State,
) -> Result<(), NoMemory>
    ensures { OnOk result (string_bytes text.new ≡ string_bytes text.old ++ row_if_reached (P.table protocol.now) state) }
{
    if !is_reached(protocol, state) {
        return Ok(());
    }
    let get_s = protocol.on_get_s(state);
    let get_m = protocol.on_get_m(state);
    write!(text, "{state} GetS={get_s} GetM={get_m}")?;
    let write = write_text(protocol.written(state));
    let evict = evict_text(protocol.evicts_dirty(state));
    write!(text, " write={write} evict={evict}\n")?;
    Ok(())
}

fn write_text(written: Option<State>) -> &'static str
    ensures { result.now ≡ printed_write written }
{
    match written {
        Some(next) => next.letter(),
        None => "bus",
    }
}

fn evict_text(dirty: bool) -> &'static str
    ensures { result.now ≡ printed_evict dirty }
{
    if dirty { "dirty" } else { "clean" }
}

impl State {
    fn letter(self) -> &'static str
        ensures { result.now ≡ letter self }
    {
        match self {
            State::M => "M",
            State::O => "O",
            State::E => "E",
            State::S => "S",
            State::I => "I",
        }
    }
}

impl fmt::Display for State {
    ghost output = { λ s. Some (letter s) };

    fn fmt<W: fmt::Write>(&self, f: &mut fmt::Formatter<W>) -> fmt::Result {
        f.write_str(self.letter())
    }
}

impl fmt::Display for Snoop {
    ghost output = { λ s. Some (printed_snoop s) };

    fn fmt<W: fmt::Write>(&self, f: &mut fmt::Formatter<W>) -> fmt::Result {
        let next = self.next;
        let supplies = yes_no(self.supplies);
        let to_memory = yes_no(self.to_memory);
        write!(f, "{next} supplies={supplies} memory={to_memory}")
    }
}

fn yes_no(flag: bool) -> &'static str
    ensures { result.now ≡ yes_or_no flag }
{
    if flag { "yes" } else { "no" }
}
