//! What is said of moves, exchanges and locked additions in an assembler's language: the cell that does the same here.

use crate::assembled::{Order, Pair};
use crate::instructions::SUM_OF_REGISTERS;
use crate::line::{Filling, Line};
use crate::operand::Operand;
use crate::operands::said_of_sum;
use crate::quotes::{digits_and_letters, has};
use crate::registers::{NARROW, is_of_others, is_stack, is_stack_pointer, parent_of};
use crate::tables::is_one_of;
use crate::target::{Target, say_copy, say_set, say_target};
use tso_terms::names::continues_name;

/// Of the stack.
pub const STACK: &str =
    "{}: there is no stack: leave the cell empty, or write a location for what is kept there, as [s]";

const MIXED: &str =
    "{} mixes two orders of operands, so it may be a store or a load: a store is MOV [x],EAX, a load MOV EAX,[x]";

const PERCENT: &str =
    "{} has a %, which no register has here, and mixes two orders of operands: a load is ";

const STACK_WORD: &str = "{}: there is no stack: write a location for what is kept there, as [s]";

const NO_ADDRESS: &str =
    "{}: no register can hold an address here: leave the cell empty, and write [{}] in each instruction that uses the register";

const NO_POINTER: &str = "{}: a location holds a number here, and no address of another location";

const NO_BRACKETS: &str = "{}: no register can hold an address; for the location's word write ";

const ITSELF: &str = "{}: leave it out: a register has no parts here, so it moves one to itself";

const DOLLAR: &str =
    "{}: $ stands before numbers alone: for a constant write its number; for a location's word write ";

const NO_ADDRESS_THEN: &str =
    "; for its address leave the cell empty, and write [{}] in each instruction that uses the register";

/// A location in memory: its name, or `x` where a register has its address; and that register, or no bytes.
#[derive(Clone, Copy)]
pub struct Location<'a> {
    pub name: &'a [u8],
    pub holder: &'a [u8],
}

/// The location that an operand is.
pub fn location_of<'a>(operand: Operand<'a>) -> Option<Location<'a>> {
    match operand {
        Operand::Word(name) | Operand::Bare(name) => Some(Location { name, holder: &[] }),
        Operand::Through(holder) if !is_stack(holder) => Some(Location { name: b"x", holder }),
        _ => None,
    }
}

/// Of a move. Whether it is known what does the same.
pub fn says_move(line: &mut Line, pair: &Pair<'_>) -> bool {
    let is_turned = matches!(pair.order, Order::SourceFirst);
    if matches!(pair.order, Order::Mixed) {
        let is_known = !matches!(pair.to, Operand::Unknown)
            && !matches!(pair.from, Operand::Unknown);
        if is_known {
            say_mixed(line, pair);
        }
        return is_known;
    }
    if !is_turned && (is_part(pair.to) || is_part(pair.from)) {
        return false;
    }
    if let (Operand::Bare(reg), Operand::Number(value)) = (pair.to, pair.from)
        && pair.cell.contains(&b'#')
        && is_of_others(reg)
    {
        say_cell(line, pair, &[], Target::SetNumber(reg, value));
        return true;
    }
    if let Some(to) = location_of(pair.to) {
        return says_store(line, pair, to);
    }
    match (pair.to, pair.from) {
        (Operand::Register(reg), Operand::Bare(name)) if !is_turned => {
            line.say_of(NO_BRACKETS, pair.cell);
            say_target(line, Target::Load(reg, name));
            true
        }
        (Operand::Register(reg), from)
            if !is_stack_pointer(reg) || matches!(from, Operand::Word(_)) => {
            says_load(line, pair, reg, from)
        }
        _ => says_no_place(line, pair),
    }
}

/// Of a move whose operands have signs of both orders: the load and the store that it may be.
fn say_mixed(line: &mut Line, pair: &Pair<'_>) {
    let (reg, name) = match (pair.to, pair.from) {
        _ if pair.is_narrow => return line.say_of(MIXED, pair.cell),
        (Operand::Register(reg), Operand::Word(name)) if parent_of(reg).is_some() => (reg, name),
        (Operand::Word(name), Operand::Register(reg)) if parent_of(reg).is_some() => (reg, name),
        _ => return line.say_of(MIXED, pair.cell),
    };
    line.say_of(
        if pair.cell.contains(&b'%') {
            PERCENT
        } else {
            "{} mixes two orders of operands: a load is "
        },
        pair.cell,
    );
    say_target(line, Target::Load(reg, name));
    line.say(", a store ");
    say_target(line, Target::StoreRegister(name, reg));
}

/// Whether an operand is a part of a register.
fn is_part(operand: Operand<'_>) -> bool {
    match operand {
        Operand::Register(name) => is_one_of(NARROW, name),
        _ => false,
    }
}

/// Of a move to a location. Whether it is known what does the same.
fn says_store(line: &mut Line, pair: &Pair<'_>, to: Location<'_>) -> bool {
    match pair.from {
        Operand::Number(value) => {
            say_cell(line, pair, to.holder, Target::StoreNumber(to.name, value));
        }
        Operand::Register(reg) => {
            say_cell(line, pair, to.holder, Target::StoreRegister(to.name, reg));
        }
        Operand::Word(from) if matches!(pair.to, Operand::Word(_)) => {
            return says_copy(line, pair, to.name, from);
        }
        Operand::Bare(from) if matches!(pair.to, Operand::Bare(_)) => {
            return says_copy(line, pair, to.name, from);
        }
        Operand::Address(name) if has_address_by_dollar(pair) => {
            line.say_of(DOLLAR, pair.cell);
            say_copy(line, to.name, name);
            line.say("; no location can hold an address");
        }
        Operand::Address(_) => line.say_of(NO_POINTER, pair.cell),
        _ => return says_no_place(line, pair),
    }
    true
}

/// Of a move from one location to another. Whether it is known which of the two is the destination.
fn says_copy(line: &mut Line, pair: &Pair<'_>, to: &[u8], from: &[u8]) -> bool {
    let is_turned = matches!(pair.order, Order::SourceFirst);
    let is_clear = (is_one_of("MOV", pair.name) && !is_turned)
        || (is_one_of("MOVL MOVQ", pair.name) && is_turned);
    if is_clear {
        line.say_of("{}: write ", pair.cell);
        say_copy(line, to, from);
    }
    is_clear
}

/// Of a move to a register. Whether it is known what does the same.
fn says_load(line: &mut Line, pair: &Pair<'_>, reg: &[u8], from: Operand<'_>) -> bool {
    if let Some(location) = location_of(from) {
        say_cell(
            line,
            pair,
            location.holder,
            Target::Load(reg, location.name),
        );
        return true;
    }
    match from {
        Operand::Number(value) => say_cell(line, pair, &[], Target::SetNumber(reg, value)),
        Operand::Register(other) if is_part_of(other, reg) => line.say_of(ITSELF, pair.cell),
        Operand::Register(other) if !is_stack_pointer(other) => {
            say_cell(line, pair, &[], Target::SetRegister(reg, other));
        }
        Operand::Address(name) if pair.cell.contains(&b'&') || has_address_by_dollar(pair) => {
            line.say_of(
                if pair.cell.contains(&b'&') {
                    NO_BRACKETS
                } else {
                    DOLLAR
                },
                pair.cell,
            );
            say_target(line, Target::Load(reg, name));
            line.say_with(NO_ADDRESS_THEN, &[Filling::Shown(name)]);
        }
        Operand::Address(_) => return says_address(line, pair),
        _ => return says_no_place(line, pair),
    }
    true
}

/// Whether a word names a part of 8 or 16 bits of this register.
fn is_part_of(word: &[u8], reg: &[u8]) -> bool {
    match (parent_of(word), parent_of(reg)) {
        (Some(one), Some(two)) => one == two && is_one_of(NARROW, word),
        _ => false,
    }
}

/// Whether an address may also be meant as a value: in the order of operands that is read here a `$` stands before it.
fn has_address_by_dollar(pair: &Pair<'_>) -> bool {
    matches!(pair.order, Order::DestinationFirst) && pair.cell.contains(&b'$')
}

/// Of an operand on the stack, or of an address that is computed. Whether there is one.
pub fn says_no_place(line: &mut Line, pair: &Pair<'_>) -> bool {
    match (pair.to, pair.from) {
        (Operand::Through(reg) | Operand::Register(reg), _)
        | (_, Operand::Through(reg) | Operand::Register(reg))
            if is_stack(reg) => line.say_of(STACK, pair.cell),
        (Operand::Computed, _) | (_, Operand::Computed) if names_stack(pair.cell) => {
            line.say_of(STACK_WORD, pair.cell);
        }
        (Operand::Computed, _) | (_, Operand::Computed) => {
            line.say_of(said_of_sum(pair.cell), pair.cell);
        }
        _ => return false,
    }
    true
}

/// Whether a register of the stack stands in a cell.
fn names_stack(cell: &[u8]) -> bool {
    let mut is_at_start = true;
    for at in 0..cell.len() {
        if is_at_start && is_stack(digits_and_letters(&cell[at..])) {
            return true;
        }
        is_at_start = !continues_name(cell[at]);
    }
    false
}

/// Of an address that is put into a register. Whether an operand is one.
pub fn says_address(line: &mut Line, pair: &Pair<'_>) -> bool {
    match (pair.to, pair.from) {
        (
            Operand::Register(_),
            Operand::Address(name) | Operand::Word(name) | Operand::Bare(name),
        ) => line.say_with(
            NO_ADDRESS,
            &[Filling::Named(pair.cell), Filling::Shown(name)],
        ),
        _ => return false,
    }
    true
}

/// Of an exchange, whose two operands have no order, or of `LOCK XADD`. Whether it is known what does the same.
pub fn says_locked(line: &mut Line, pair: &Pair<'_>, is_addition: bool) -> bool {
    let (place, other) = match location_of(pair.to) {
        Some(to) => (Some(to), pair.from),
        None => (location_of(pair.from), pair.to),
    };
    let Some(place) = place else {
        return match (pair.to, pair.from) {
            (Operand::Register(one), Operand::Register(other)) if !is_addition => {
                says_registers(line, pair, one, other)
            }
            (Operand::Register(_), Operand::Register(_)) => {
                line.say(SUM_OF_REGISTERS);
                line.say_option();
                true
            }
            _ => says_no_place(line, pair),
        };
    };
    let target = match (other, is_addition) {
        (Operand::Register(reg), false) => Target::Exchange(place.name, reg),
        (Operand::Register(reg), true) => Target::Add(place.name, reg),
        (Operand::Number(value), false) => Target::ExchangeNumber(place.name, value),
        (Operand::Number(value), true) => Target::AddNumber(place.name, value),
        (Operand::Word(source) | Operand::Bare(source), _) => {
            say_two_places(line, pair, place.name, source, is_addition);
            return true;
        }
        _ => return false,
    };
    say_cell(line, pair, place.holder, target);
    true
}

/// Of an exchange of two locations, or of a location that is added to another.
fn say_two_places(line: &mut Line, pair: &Pair<'_>, to: &[u8], from: &[u8], is_addition: bool) {
    line.say_with(
        if is_addition {
            "{}: write MOV EAX,[{}], and in the next cell LOCK XADD [{}],EAX, with a free register for EAX"
        } else {
            "{}: write three cells, one below the other: MOV EAX,[{}]  XCHG [{}],EAX  MOV [{}],EAX, with a free register for EAX; together they aren't one step"
        },
        &[
            Filling::Named(pair.cell),
            Filling::Shown(from),
            Filling::Shown(to),
            Filling::Shown(from),
        ],
    );
}

/// Of an exchange of two registers, which does nothing where they are one.
fn says_registers(line: &mut Line, pair: &Pair<'_>, one: &[u8], other: &[u8]) -> bool {
    if one.eq_ignore_ascii_case(other) {
        line.say_of("{}: leave it out: it changes nothing", pair.cell);
    } else if is_stack_pointer(one) || is_stack_pointer(other) {
        line.say_of(STACK, pair.cell);
    } else {
        let target = Target::CombineRegister("XCHG", one, other);
        say_cell(line, pair, &[], target);
    }
    true
}

/// Of a locked instruction that leaves the word at the top of the stack as it was. Whether it is one.
pub fn says_locked_fence(line: &mut Line, pair: &Pair<'_>) -> bool {
    let is_of_stack = has(pair.cell, b"sp)") || has(pair.cell, b"sp]") || has(pair.cell, b"SP]");
    if !is_of_stack || !matches!(pair.from, Operand::Number(_)) {
        return false;
    }
    line.say_of("{} is locked for its order alone: write MFENCE", pair.cell);
    true
}

/// Says the cell that does the same, and the option if it is of the larger set.
pub fn say_cell(line: &mut Line, pair: &Pair<'_>, holder: &[u8], target: Target<'_>) {
    say_cell_alone(line, pair, holder, target);
    say_set(line, target);
}

/// Says the cell that does the same, why the instruction isn't read as it stands, and which register had an address, if one had.
pub fn say_cell_alone(line: &mut Line, pair: &Pair<'_>, holder: &[u8], target: Target<'_>) {
    let sentence = if !holder.is_empty() {
        "{}: no register can hold an address: write "
    } else if pair.is_narrow {
        "{} isn't an access to a whole word of 32 bits; if that will do, write "
    } else if pair.is_wide && target.is_computed() {
        "{} computes with 64 bits, and words have 32 here; if that will do, write "
    } else if matches!(pair.order, Order::SourceFirst) && pair.is_wide {
        "{} is AT&T's order, source first; here the destination stands first, and words have 32 bits: write "
    } else if matches!(pair.order, Order::SourceFirst) {
        "{} is AT&T's order, source first; here the destination stands first: write "
    } else if pair.is_wide {
        "{}: registers and locations have 32 bits: write "
    } else {
        "{}: write "
    };
    line.say_of(sentence, pair.cell);
    say_target(line, target);
    if !holder.is_empty() {
        say_holder(line, holder, target);
    }
}

/// Says that a register had the address of a location, which is written `x`.
fn say_holder(line: &mut Line, holder: &[u8], target: Target<'_>) {
    let sentence = match target {
        // The tool import makes no second instruction of one.
        Target::ExchangeNumber(..)
        | Target::AddNumber(..)
        | Target::CompareExchangeNumber(..)
        | Target::CombineLocation(..)
        | Target::LockLocation(..) => { ", where x is the location whose address is in {}" }
        _ => {
            ", where x is the location whose address is in {} (the tool import finds it by an item 0:{}=x)"
        }
    };
    line.say_with(sentence, &[Filling::Shown(holder); 2]);
}
