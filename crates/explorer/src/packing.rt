//! Packs a state as a string of bytes: memory, and then each core. A number is short where it is small, as nearly all are.
ghost use Rattle.std.specs.Prelude.{◌≡◌, OnOk, length, map};
ghost use Rattle.flat_machine.specs.State.{state_of_snapshot, core_of_processor};
ghost use Rattle.explorer.specs.inner.Packed.{Packs, number_bytes, kind_byte, all_bytes, list_bytes, entry_bytes, core_bytes, state_bytes};
ghost use Rattle.explorer.specs.inner.Packed.{read_number, read_word, read_all, read_list, read_entry, read_registers, read_core};
ghost use Rattle.explorer.specs.inner.Packed.{state_of_packed};

use crate::packed::Packed;
use flat_machine::{Processor, Snapshot};
use tso_terms::{Entry, Kind, NoMemory};

/// Stands before a number that isn't one byte.
const MARK: u8 = 255;

/// Appends a number.
///
/// Errors: out of memory only.
fn push_number(bytes: &mut Vec<u8>, number: u64) -> Result<(), NoMemory>
    ensures { OnOk result (Packs number_bytes read_number number bytes.old.items bytes.new.items) }
{
    if number < MARK as u64 {
        bytes.push(number as u8)?;
        return Ok(());
    }
    bytes.push(MARK)?;
    bytes.extend_from_slice(&number.to_le_bytes())?;
    Ok(())
}

/// Appends a word.
///
/// Errors: out of memory only.
fn push_word(bytes: &mut Vec<u8>, word: u32) -> Result<(), NoMemory>
    ensures { OnOk result (Packs number_bytes read_word word bytes.old.items bytes.new.items) }
{
    push_number(bytes, u64::from(word))
}

/// Appends words.
///
/// Errors: out of memory only.
fn push_words(bytes: &mut Vec<u8>, words: &[u32]) -> Result<(), NoMemory>
    ensures { OnOk result (Packs (all_bytes number_bytes) (read_all read_word (length words.now)) words.now bytes.old.items bytes.new.items) }
{
    for word in words {
        push_word(bytes, *word)?;
    }
    Ok(())
}

/// The byte of a kind.
#[tactic(auto, unfolding(crate::specs::inner::Packed::kind_byte))]
fn byte_of_kind(kind: Kind) -> u8
    ensures { result ≡ kind_byte kind }
{
    match kind {
        Kind::R => 0,
        Kind::W => 1,
        Kind::F => 2,
        Kind::LR => 3,
        Kind::LW => 4,
    }
}

/// Appends how many stores are pending, and then each.
///
/// Errors: out of memory only.
fn push_pending(bytes: &mut Vec<u8>, pending: &[Entry]) -> Result<(), NoMemory>
    ensures { OnOk result (Packs (list_bytes entry_bytes) (read_list read_entry) pending.now bytes.old.items bytes.new.items) }
{
    push_number(bytes, pending.len() as u64)?;
    for entry in pending {
        let kind = byte_of_kind(entry.kind);
        bytes.extend_from_slice(&[entry.core.0, entry.place, kind, entry.loc.0])?;
        push_word(bytes, entry.value)?;
    }
    Ok(())
}

/// Appends how many cores there are, and then each. How many registers one has isn't told: they are always six.
///
/// Errors: out of memory only.
fn push_cores(bytes: &mut Vec<u8>, cores: &[Processor]) -> Result<(), NoMemory>
    ensures { OnOk result (Packs (list_bytes core_bytes) (read_list read_core) (map core_of_processor cores.now) bytes.old.items bytes.new.items) }
{
    push_number(bytes, cores.len() as u64)?;
    for core in cores {
        bytes.push(core.place)?;
        push_words(bytes, &core.registers)?;
        push_pending(bytes, &core.pending)?;
    }
    Ok(())
}

/// Packs a state, in the memory that the bytes have.
///
/// Errors: out of memory only.
pub fn pack(state: &Snapshot, packed: &mut Packed) -> Result<(), NoMemory>
    ensures bytes { OnOk result (packed.new.bytes.items ≡ state_bytes (state_of_snapshot state.now)) }
    ensures state { OnOk result (state_of_packed packed.new ≡ state_of_snapshot state.now) }
{
    packed.bytes.clear();
    push_number(&mut packed.bytes, state.memory.len() as u64)?;
    push_words(&mut packed.bytes, &state.memory)?;
    push_cores(&mut packed.bytes, &state.cores)
}
