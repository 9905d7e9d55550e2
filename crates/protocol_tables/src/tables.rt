//! The tables of the protocols: MSI, MESI, MOESI and MOSI, each with its laws proved. All caches of a machine follow one of
//! them; a cell that is wrong loses a store or reads a stale word. (Primer, chapter 7.)

ghost use Rattle.std.specs.Prelude.{◌≡◌, true, false};
ghost use Rattle.std.proofs.Common.{rules};
ghost use Rattle.protocol_tables.specs.declared.kind.ProtocolKind.TheVariants.{Msi as KindMsi, Mesi as KindMesi};
ghost use Rattle.protocol_tables.specs.declared.kind.ProtocolKind.TheVariants.{Moesi as KindMoesi, Mosi as KindMosi};
ghost use Rattle.protocol_tables.specs.declared.kind.ProtocolKind.{ProtocolKind};
ghost use Rattle.protocol_tables.specs.Names.{protocol_name};
ghost use Rattle.protocol_tables.specs.Tables.{table_of};
ghost use Rattle.protocol_tables.specs.Tables.{snoop, filled_by_sharing, get_s_flushing, get_s_owning, get_m, written_in_place, is_written_back};

use crate::kind::ProtocolKind;
use crate::protocol::Protocol;
use crate::state::{Snoop, State};

/// Modified, shared, invalid: the least that a write-back cache needs.
#[derive(Clone, Copy)]
pub struct Msi;

/// MSI and exclusive copies: a line that no other cache holds is written without the bus.
#[derive(Clone, Copy)]
pub struct Mesi;

/// MESI and owned copies: a modified line is shared without being sent to memory.
#[derive(Clone, Copy)]
pub struct Moesi;

/// MSI and owned copies: MOESI without exclusive copies.
#[derive(Clone, Copy)]
pub struct Mosi;

/// A type that stands for one of the protocols, by its kind. Its table is that kind's, so the laws are proved
/// of all four tables at once.
pub trait Kind: Drop {
    ghost KIND: { ProtocolKind };

    const KIND: ProtocolKind;
}

impl Kind for Msi {
    ghost KIND = { KindMsi };

    const KIND: ProtocolKind = ProtocolKind::Msi;
}

impl Kind for Mesi {
    ghost KIND = { KindMesi };

    const KIND: ProtocolKind = ProtocolKind::Mesi;
}

impl Kind for Moesi {
    ghost KIND = { KindMoesi };

    const KIND: ProtocolKind = ProtocolKind::Moesi;
}

impl Kind for Mosi {
    ghost KIND = { KindMosi };

    const KIND: ProtocolKind = ProtocolKind::Mosi;
}

impl<K: Kind> Protocol for K {
    ghost table = { λ _. table_of K.KIND };

    ghost called = { λ _. protocol_name K.KIND };

    fn filled(&self, shared: bool) -> State {
        filled(K::KIND, shared)
    }

    fn on_get_s(&self, state: State) -> Snoop {
        get_s(K::KIND, state)
    }

    fn on_get_m(&self, state: State) -> Snoop {
        get_m(state)
    }

    fn written(&self, state: State) -> Option<State> {
        written_in_place(state)
    }

    fn evicts_dirty(&self, state: State) -> bool {
        is_written_back(state)
    }

    fn name(&self) -> &str {
        K::KIND.name()
    }

    ghost fills_exclusive_only_alone = { λ _. Prim.search rules };

    ghost shares = { λ _. Prim.search rules };

    ghost cleans_by_memory = { λ _. Prim.search rules };

    ghost supplies_to_readers = { λ _. Prim.search rules };

    ghost supplies_to_writers = { λ _. Prim.search rules };

    ghost gives_up = { λ _. Prim.search rules };

    ghost writes_in_place = { λ _. Prim.search rules };

    ghost writes_back_dirty = { λ _. Prim.search rules };
}

/// The state that a load fills in: E where the protocol has exclusive copies, and no other cache holds the line.
fn filled(kind: ProtocolKind, shared: bool) -> State
    ensures { result ≡ (table_of kind).filled shared }
{
    match kind {
        ProtocolKind::Msi | ProtocolKind::Mosi => State::S,
        ProtocolKind::Mesi | ProtocolKind::Moesi => filled_by_sharing(shared),
    }
}

/// What GetS does to a copy: a modified one is sent to memory, or stays dirty where the protocol has owned copies.
fn get_s(kind: ProtocolKind, state: State) -> Snoop
    ensures { result ≡ (table_of kind).on_get_s state }
{
    match kind {
        ProtocolKind::Msi | ProtocolKind::Mesi => get_s_flushing(state),
        ProtocolKind::Moesi | ProtocolKind::Mosi => get_s_owning(state),
    }
}

fn filled_by_sharing(shared: bool) -> State
    ensures { result ≡ filled_by_sharing shared }
{
    if shared { State::S } else { State::E }
}

/// What GetS does where a modified copy is sent to memory.
fn get_s_flushing(state: State) -> Snoop
    ensures { result ≡ get_s_flushing state }
{
    match state {
        State::M => sent_to_memory(State::S),
        State::O => supplied(State::O),
        State::E => supplied(State::S),
        State::S => silent(State::S),
        State::I => silent(State::I),
    }
}

/// What GetS does where a modified copy stays dirty, as owned.
fn get_s_owning(state: State) -> Snoop
    ensures { result ≡ get_s_owning state }
{
    match state {
        State::M | State::O => supplied(State::O),
        State::E => supplied(State::S),
        State::S | State::I => silent(state),
    }
}

fn get_m(state: State) -> Snoop
    ensures { result ≡ get_m state }
{
    match state {
        State::M | State::O | State::E => supplied(State::I),
        State::S | State::I => silent(State::I),
    }
}

fn silent(next: State) -> Snoop
    ensures { result ≡ snoop next false false }
{
    Snoop {
        next,
        supplies: false,
        to_memory: false,
    }
}

fn supplied(next: State) -> Snoop
    ensures { result ≡ snoop next true false }
{
    Snoop {
        next,
        supplies: true,
        to_memory: false,
    }
}

fn sent_to_memory(next: State) -> Snoop
    ensures { result ≡ snoop next true true }
{
    Snoop {
        next,
        supplies: true,
        to_memory: true,
    }
}

fn written_in_place(state: State) -> Option<State>
    ensures { result ≡ written_in_place state }
{
    match state {
        State::M | State::E => Some(State::M),
        State::O | State::S | State::I => None,
    }
}

fn is_written_back(state: State) -> bool
    ensures { result ≡ is_written_back state }
{
    matches!(state, State::M | State::O)
}
