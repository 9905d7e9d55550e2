//! What is said of an instruction in an assembler's language, in AT&T's syntax or in Intel's: the cells that do the same here. It is said
//! only where all of the instruction is known; a guess could turn a load into a store.

use crate::assembled::{Instruction, Order, Pair, alone_in, instruction_in, pair_in};
use crate::computed::{says_changed, says_combined, says_compare_exchange};
use crate::line::{Filling, Line};
use crate::mnemonics::{Kind, kind_of, larger_of};
use crate::moves::{STACK, location_of, says_address, says_locked, says_locked_fence, says_move};
use crate::operand::{Operand, operand_in};
use crate::operands::said_of_sum;
use crate::quotes::{digits_and_letters, up_to};
use crate::registers::{is_stack_pointer, parent_of};
use crate::tables::{begins_with_one_of, is_one_of};
use tso_terms::names::continues_name;

const COPIES: &str =
    "{} copies words whose addresses are in registers: for each word write a load, as MOV EAX,[x], and in the next cell a store, as MOV [y],EAX";

const FILLS: &str =
    "{} stores words whose addresses are in a register: for each word write a store, as MOV [x],EAX";

const READS: &str =
    "{} loads words whose addresses are in registers: for each word write a load, as MOV EAX,[x]";

const NOTHING: &str = "{} isn't read: it changes no final state, so leave it out";

const LEFT_OUT: &str = "{} changes no final state: leave it out, with what stands beside it";

const COMPARES_LOCATION: &str =
    "{} isn't read: a program has no compares: load the location here, as MOV EAX,[{}], and join what it has: 0:EAX=1 /\\ .. in exists and ~exists, ~(0:EAX=1) \\/ .. in forall; tools/compiled --object FILE.s P0 P1 reads it";

const COMPUTES: &str =
    "{} isn't read: leave it out, and where its result is used write the number that is meant, as MOV [x],$2";

const LOADS_AND_COMPUTES: &str =
    "{} isn't read: write a load, as MOV EAX,[{}] with a free register for EAX, and where the result is used the number that is meant, as MOV [y],$2";

const LOCKED_STORE: &str =
    "{}: LOCK doesn't go with MOV: a store that is a fence too is XCHG [{}],{}";

const ADDRESS: &str =
    "{}: in AT&T's syntax a number without $ is an address, and none is read: write $ before a value, and a location by its name, as [x]";

const SEGMENT: &str =
    "{}: there are no segments: write the location's name alone, as [x]; for what each core has of its own take a location for each core";

/// Says of the instruction of a cell, if all of it is known, what does the same here. Whether it is known.
pub fn says_instruction(line: &mut Line, cell: &[u8]) -> bool {
    let instruction = instruction_in(cell);
    let kind = kind_of(instruction.name);
    if has_segment(instruction.operands) {
        line.say_of(SEGMENT, instruction.cell);
        return true;
    }
    match pair_in(&instruction) {
        None => says_one(line, kind, &instruction),
        Some(pair) => says_pair(line, kind, &pair),
    }
}

/// Whether a segment that each core has of its own stands in operands.
fn has_segment(operands: &[u8]) -> bool {
    let mut is_at_start = true;
    for at in 0..operands.len() {
        if is_at_start && begins_with_segment(&operands[at..]) {
            return true;
        }
        is_at_start = !continues_name(operands[at]);
    }
    false
}

/// Whether a text begins with such a segment.
fn begins_with_segment(text: &[u8]) -> bool {
    let name = digits_and_letters(text);
    is_one_of("FS GS", name) && matches!(text.get(name.len()), Some(b':'))
}

/// Of an instruction with two operands. Whether it is known what does the same.
fn says_pair(line: &mut Line, kind: Kind, pair: &Pair<'_>) -> bool {
    match kind {
        Kind::Other => false,
        _ if pair.has_bare_number => {
            line.say_of(ADDRESS, pair.cell);
            true
        }
        Kind::Move if pair.is_locked => says_locked_store(line, pair) || says_move(line, pair),
        Kind::Move => says_move(line, pair),
        Kind::Exchange => says_locked(line, pair, false),
        Kind::Add => says_addition(line, pair),
        Kind::CompareExchange => says_compare_exchange(line, pair),
        Kind::Combine => says_combined(line, pair),
        Kind::Compute if pair.is_locked => says_locked_fence(line, pair),
        Kind::Address => says_address(line, pair) || says_sum(line, pair),
        Kind::Compare => says_compare(line, pair),
        Kind::Compute => says_computed(line, pair),
        _ => false,
    }
}

/// Of a move to a location that is locked: the exchange that has the order of a fence. Whether its operands are known.
fn says_locked_store(line: &mut Line, pair: &Pair<'_>) -> bool {
    let Some(to) = location_of(pair.to) else {
        return false;
    };
    if pair.is_narrow || !to.holder.is_empty() || matches!(pair.order, Order::Mixed) {
        return false;
    }
    let reg = match pair.from {
        Operand::Number(_) => Some("EAX"),
        Operand::Register(reg) => parent_of(reg),
        _ => None,
    };
    let Some(reg) = reg else {
        return false;
    };
    line.say_with(
        LOCKED_STORE,
        &[
            Filling::Named(pair.cell),
            Filling::Shown(to.name),
            Filling::Text(reg),
        ],
    );
    match pair.from {
        Operand::Number(value) => line.say_number(", with {} in EAX", value as usize),
        _ => line.say_with(", where {} gets the old word", &[Filling::Text(reg)]),
    }
    true
}

/// Of an addition with an exchange, which is read with LOCK alone. Whether it is known what does the same.
fn says_addition(line: &mut Line, pair: &Pair<'_>) -> bool {
    let is_known = says_locked(line, pair, true);
    let has_location = location_of(pair.to).is_some() || location_of(pair.from).is_some();
    if is_known && has_location && !pair.is_locked {
        line.say("; without LOCK it isn't read");
    }
    is_known
}

/// Of a compare with a location. Whether it is one.
fn says_compare(line: &mut Line, pair: &Pair<'_>) -> bool {
    match (pair.to, pair.from) {
        (Operand::Word(loc) | Operand::Bare(loc), _) | (_, Operand::Word(loc)) => line.say_with(
            COMPARES_LOCATION,
            &[Filling::Named(pair.name), Filling::Shown(loc)],
        ),
        _ => return false,
    }
    true
}

/// Of other arithmetic in a register. Whether its operands are known.
fn says_computed(line: &mut Line, pair: &Pair<'_>) -> bool {
    match (pair.to, pair.from) {
        (Operand::Register(reg), Operand::Number(_)) if is_stack_pointer(reg) => {
            line.say_of(STACK, pair.cell);
        }
        (Operand::Register(_), Operand::Register(_) | Operand::Number(_)) => {
            line.say_of(COMPUTES, pair.name);
        }
        (Operand::Register(_), Operand::Word(loc) | Operand::Bare(loc)) => line.say_with(
            LOADS_AND_COMPUTES,
            &[Filling::Named(pair.name), Filling::Shown(loc)],
        ),
        _ => return false,
    }
    true
}

/// Of an address that is put into a register as a sum. Whether it is one.
fn says_sum(line: &mut Line, pair: &Pair<'_>) -> bool {
    let is_sum = matches!(
        (pair.to, pair.from),
        (Operand::Register(_), Operand::Computed)
    );
    if is_sum {
        line.say_of(said_of_sum(pair.cell), pair.cell);
    }
    is_sum
}

/// Of an instruction with one operand or none. Whether it is known what does the same.
fn says_one(line: &mut Line, kind: Kind, instruction: &Instruction<'_>) -> bool {
    let (name, operand) = (instruction.name, operand_in(instruction.operands));
    match (kind, operand) {
        (Kind::Push, _) => line.say_of(STACK, instruction.cell),
        (Kind::Strings, _) => line.say_of(said_of_strings(name), instruction.cell),
        _ if is_one_of("MOVSD MOVSW", name) && instruction.operands.is_empty() => {
            line.say_of(COPIES, instruction.cell);
        }
        (Kind::Nothing, _) if instruction.operands.is_empty() => line.say_of(
            if larger_of(name).is_some() {
                LEFT_OUT
            } else {
                NOTHING
            },
            name,
        ),
        (Kind::Change, _) => return says_changed(line, &alone_in(instruction)),
        (Kind::Compute, Operand::Register(_)) => line.say_of(COMPUTES, name),
        (Kind::Compute, _) if begins_with_register(instruction.operands) => {
            line.say_of(COMPUTES, name);
        }
        _ if is_one_of("MFENCE", name) && instruction.operands.is_empty() => {
            line.say_of("{}: write MFENCE", instruction.cell);
        }
        _ => return false,
    }
    true
}

/// What is said of an instruction on strings, by its name.
fn said_of_strings(name: &[u8]) -> &'static str {
    if begins_with_one_of("MOVS", name) {
        COPIES
    } else if begins_with_one_of("STOS", name) {
        FILLS
    } else {
        READS
    }
}

/// Whether the first of several operands is a register.
fn begins_with_register(operands: &[u8]) -> bool {
    matches!(operand_in(up_to(operands, b',')), Operand::Register(_))
}
