//! An instruction in an assembler's language in its parts, and which of its two operands is the destination.

use crate::mnemonics::{is_narrow_name, is_wide_name};
use crate::operand::{Operand, is_narrow, is_wide, operand_in};
use crate::quotes::{last_bytes, word};
use crate::tables::is_one_of;

/// Words before an instruction that change nothing of what it leaves behind.
const PREFIXES: &str = "XACQUIRE XRELEASE NOTRACK DATA16 BND REP REPE REPZ REPNE REPNZ";

/// An instruction as it is written.
#[derive(Clone, Copy)]
pub struct Instruction<'a> {
    /// All of it, without a comment.
    pub cell: &'a [u8],
    pub name: &'a [u8],
    pub is_locked: bool,
    pub operands: &'a [u8],
}

/// Signs by which the order of two operands is known.
#[derive(Clone, Copy)]
pub enum Order {
    DestinationFirst,
    SourceFirst,
    /// Signs of both.
    Mixed,
}

/// An instruction with two operands.
#[derive(Clone, Copy)]
pub struct Pair<'a> {
    pub cell: &'a [u8],
    pub name: &'a [u8],
    pub is_locked: bool,
    pub order: Order,
    /// Whether it is of less than 32 bits.
    pub is_narrow: bool,
    /// Whether it is of 64 bits.
    pub is_wide: bool,
    /// Whether a number stands without `$` beside signs of AT&T's syntax, where it is an address.
    pub has_bare_number: bool,
    pub to: Operand<'a>,
    pub from: Operand<'a>,
}

/// A cell without the comment at its end.
pub fn without_comment(cell: &[u8]) -> &[u8] {
    let cell = cell.trim_ascii();
    for at in 0..cell.len() {
        let rest = &cell[at..];
        if rest.starts_with(b"(*")
            || rest.starts_with(b"//")
            || rest.starts_with(b"/*")
            || rest.starts_with(b" -- ")
            || begins_comment(rest)
        {
            return cell[..at].trim_ascii_end();
        }
    }
    cell
}

/// Whether a comment begins with `#` there: a number after it is a value instead.
fn begins_comment(text: &[u8]) -> bool {
    match text {
        [b' ' | b'\t', b'#', next, ..] => !next.is_ascii_digit(),
        _ => false,
    }
}

/// The instruction of a cell.
pub fn instruction_in(cell: &[u8]) -> Instruction<'_> {
    let cell = without_comment(cell);
    let mut is_locked = false;
    let mut rest = cell;
    for _ in 0..3 {
        let first = word(rest);
        if is_one_of("LOCK", first) {
            is_locked = true;
        } else if !is_one_of(PREFIXES, first) {
            break;
        }
        rest = last_bytes(rest, rest.len().saturating_sub(first.len())).trim_ascii_start();
    }
    let name = word(rest);
    Instruction {
        cell,
        name,
        is_locked,
        operands: last_bytes(rest, rest.len().saturating_sub(name.len())).trim_ascii_start(),
    }
}

/// The operand at the front: a comma in brackets doesn't end it.
fn first_operand(text: &[u8]) -> &[u8] {
    let mut open = 0usize;
    for at in 0..text.len() {
        match text[at] {
            b'(' | b'[' => open = open.saturating_add(1),
            b')' | b']' => open = open.saturating_sub(1),
            b',' if open == 0 => return &text[..at],
            _ => {}
        }
    }
    text
}

/// An instruction with its two operands, if it has no third.
pub fn pair_in<'a>(instruction: &Instruction<'a>) -> Option<Pair<'a>> {
    let operands = instruction.operands;
    let first = first_operand(operands);
    let rest = last_bytes(operands, operands.len().saturating_sub(first.len()));
    let Some(second) = rest.strip_prefix(b",") else {
        return None;
    };
    if first_operand(second).len() < second.len() {
        return None;
    }
    let order = if is_of_two_orders(first, second) {
        Order::Mixed
    } else if copies_by_size(instruction.name, first, second) {
        Order::SourceFirst
    } else {
        order_of(operands, operand_in(first), operand_in(second))
    };
    let (to, from) = match order {
        Order::SourceFirst => (second, first),
        Order::DestinationFirst | Order::Mixed => (first, second),
    };
    Some(Pair {
        cell: instruction.cell,
        name: instruction.name,
        is_locked: instruction.is_locked,
        order,
        is_narrow: is_narrow(first) || is_narrow(second) || is_narrow_name(instruction.name),
        is_wide: is_wide(first) || is_wide(second) || is_wide_name(instruction.name),
        has_bare_number: operands.contains(&b'%')
            && (is_bare_number(first) || is_bare_number(second)),
        to: operand_in(to),
        from: operand_in(from),
    })
}

/// An instruction with one operand, as one whose second operand isn't known.
pub fn alone_in<'a>(instruction: &Instruction<'a>) -> Pair<'a> {
    let operand = instruction.operands;
    Pair {
        cell: instruction.cell,
        name: instruction.name,
        is_locked: instruction.is_locked,
        order: Order::DestinationFirst,
        is_narrow: is_narrow(operand) || is_narrow_name(instruction.name),
        is_wide: is_wide(operand) || is_wide_name(instruction.name),
        has_bare_number: false,
        to: operand_in(operand),
        from: Operand::Unknown,
    }
}

/// Whether a register without `%` stands beside a place with one.
fn is_of_two_orders(first: &[u8], second: &[u8]) -> bool {
    match (operand_in(first), operand_in(second)) {
        (Operand::Register(_), Operand::Word(_) | Operand::Through(_)) => {
            !first.contains(&b'%') && second.contains(&b'%')
        }
        (Operand::Word(_) | Operand::Through(_), Operand::Register(_)) => {
            first.contains(&b'%') && !second.contains(&b'%')
        }
        _ => false,
    }
}

/// Whether two locations stand without square brackets behind a name with the size of its operands, as in AT&T's syntax.
fn copies_by_size(name: &[u8], first: &[u8], second: &[u8]) -> bool {
    is_one_of("MOVL MOVQ XADDL XADDQ", name)
        && !first.contains(&b'[')
        && !second.contains(&b'[')
        && matches!(operand_in(first), Operand::Bare(_) | Operand::Word(_))
        && matches!(operand_in(second), Operand::Bare(_) | Operand::Word(_))
}

/// Whether an operand is a number without `$`.
fn is_bare_number(operand: &[u8]) -> bool {
    !operand.contains(&b'$') && matches!(operand_in(operand), Operand::Number(_))
}

/// The order of two operands, as they and the signs in them tell.
fn order_of(operands: &[u8], first: Operand<'_>, second: Operand<'_>) -> Order {
    let has_percent = operands.contains(&b'%');
    match (first, second) {
        // A number or an address is no destination.
        (Operand::Number(_) | Operand::Address(_), _) => Order::SourceFirst,
        (_, Operand::Number(_) | Operand::Address(_)) if !has_percent => Order::DestinationFirst,
        _ if has_percent && operands.contains(&b'[') => Order::Mixed,
        _ if has_percent => Order::SourceFirst,
        _ if operands.contains(&b'(') => Order::Mixed,
        _ => Order::DestinationFirst,
    }
}
