//! Reads a state from its string of bytes. What is left of the bytes is handed on from one part to the next.
ghost use Rattle.std.specs.Prelude.{◌≡◌, IfOk, OnOk, length};
ghost use Rattle.flat_machine.specs.State.{state_of_snapshot};
ghost use Rattle.explorer.specs.inner.Packed.{read_byte, read_long, read_number, word_or_zero, read_word, kind_of_byte, read_list};
ghost use Rattle.explorer.specs.inner.Packed.{read_entry, read_registers, state_of_packed};

use crate::packed::Packed;
use flat_machine::Snapshot;
use tso_terms::{Core, Entry, Kind, Loc, NoMemory};

/// A byte from the front, and the rest.
#[tactic(auto, unfolding(crate::specs::inner::Packed::read_byte))]
fn take_byte(bytes: &[u8]) -> (u8, &[u8])
    ensures { (result.0, result.1.now) ≡ read_byte bytes.now }
{
    match bytes.split_first() {
        None => (0, bytes),
        Some((byte, rest)) => (*byte, rest),
    }
}

/// A number, and the rest.
#[tactic(auto, unfolding(crate::specs::inner::Packed::read_number, crate::specs::inner::Packed::read_long))]
fn take_number(bytes: &[u8]) -> (u64, &[u8])
    ensures { (result.0, result.1.now) ≡ read_number bytes.now }
{
    match bytes.split_first() {
        None => (0, bytes),
        Some((byte, rest)) if *byte < 255 => (u64::from(*byte), rest),
        Some((_mark, long)) => match long.split_first_chunk::<8>() {
            None => (0, long),
            Some((number, rest)) => (u64::from_le_bytes(*number), rest),
        },
    }
}

/// A word, and the rest. A number that is too great for one is read as 0.
#[tactic(auto, unfolding(crate::specs::inner::Packed::read_word, crate::specs::inner::Packed::word_or_zero))]
fn take_word(bytes: &[u8]) -> (u32, &[u8])
    ensures { (result.0, result.1.now) ≡ read_word bytes.now }
{
    let (number, rest) = take_number(bytes);
    if number <= 4_294_967_295 {
        (number as u32, rest)
    } else {
        (0, rest)
    }
}

/// The kind of a byte.
#[tactic(auto, unfolding(crate::specs::inner::Packed::kind_of_byte))]
fn kind_of_byte(byte: u8) -> Kind
    ensures { result ≡ kind_of_byte byte }
{
    match byte {
        0 => Kind::R,
        1 => Kind::W,
        2 => Kind::F,
        3 => Kind::LR,
        _ => Kind::LW,
    }
}

/// A pending store, and the rest.
#[tactic(auto, unfolding(crate::specs::inner::Packed::read_entry))]
fn take_entry(bytes: &[u8]) -> (Entry, &[u8])
    ensures { (result.0, result.1.now) ≡ read_entry bytes.now }
{
    let (core, rest) = take_byte(bytes);
    let (place, rest) = take_byte(rest);
    let (kind, rest) = take_byte(rest);
    let (loc, rest) = take_byte(rest);
    let (value, rest) = take_word(rest);
    let entry = Entry {
        core: Core(core),
        place,
        kind: kind_of_byte(kind),
        loc: Loc(loc),
        value,
    };
    (entry, rest)
}

/// Reads words into memory, in the room that it has, and answers the rest.
///
/// Errors: out of memory only.
fn unpack_memory<'a>(bytes: &'a [u8], memory: &mut Vec<u32>) -> Result<&'a [u8], NoMemory>
    ensures { IfOk result (λ rest. (memory.new.items, rest.now) ≡ read_list read_word bytes.now) }
{
    memory.clear();
    let (count, mut rest) = take_number(bytes);
    for _at in 0..count {
        let (word, later) = take_word(rest);
        memory.push(word)?;
        rest = later;
    }
    Ok(rest)
}

/// Reads registers, and answers the rest.
fn unpack_registers<'a>(bytes: &'a [u8], registers: &mut [u32; 6]) -> &'a [u8]
    ensures { (registers.new, result.now) ≡ read_registers bytes.now }
{
    let mut rest = bytes;
    for at in 0..6 {
        let (word, later) = take_word(rest);
        registers[at] = word;
        rest = later;
    }
    rest
}

/// Reads pending stores, in the room that there is, and answers the rest.
///
/// Errors: out of memory only.
fn unpack_pending<'a>(bytes: &'a [u8], pending: &mut Vec<Entry>) -> Result<&'a [u8], NoMemory>
    ensures { IfOk result (λ rest. (pending.new.items, rest.now) ≡ read_list read_entry bytes.now) }
{
    pending.clear();
    let (count, mut rest) = take_number(bytes);
    for _at in 0..count {
        let (entry, later) = take_entry(rest);
        pending.push(entry)?;
        rest = later;
    }
    Ok(rest)
}

/// Makes a state, with as many cores, the packed one, in the memory that it has.
///
/// Errors: out of memory only.
pub fn unpack(packed: &Packed, state: &mut Snapshot) -> Result<(), NoMemory>
    requires { length state.old.cores.items ≡ length (state_of_packed packed.now).cores }
    ensures value { OnOk result (state_of_snapshot state.new ≡ state_of_packed packed.now) }
    ensures cores { OnOk result (length state.new.cores.items ≡ length state.old.cores.items) }
{
    let bytes = unpack_memory(&packed.bytes, &mut state.memory)?;
    let (_, mut rest) = take_number(bytes);
    for at in 0..state.cores.len() {
        let core = &mut state.cores[at];
        let (place, later) = take_byte(rest);
        core.place = place;
        let later = unpack_registers(later, &mut core.registers);
        rest = unpack_pending(later, &mut core.pending)?;
    }
    Ok(())
}
