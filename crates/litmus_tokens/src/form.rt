//! The forms of instructions, as cells spell them. A form has its location by name and its number by digits; what they come
//! to is judged after it.

ghost use Rattle.std.specs.Prelude.{◌≡◌};
ghost use Rattle.std.specs.Option.{option_map};
ghost use Rattle.tso_terms.specs.Registers.{same_letters};
ghost use Rattle.litmus_tokens.specs.inner.Pieces.{pieces};
ghost use Rattle.litmus_tokens.specs.inner.Arguments.{argument_of};
ghost use Rattle.litmus_tokens.specs.Forms as spec;
ghost use Rattle.litmus_tokens.specs.inner.Forms.{shape_of};

use crate::argument::{Argument, one_argument, two_arguments};
use crate::front::name_at;
use crate::instructions::Instructions;
use crate::numeral::Numeral;
use crate::token::Token;
use tso_terms::{Operator, Reg};

/// How an instruction with a register uses a location.
#[derive(Clone, Copy)]
pub enum Use {
    Store,
    Load,
    Xchg,
    Xadd,
    CompareExchange,
}

/// A number of an instruction.
#[derive(Clone, Copy)]
pub enum Constant<'a> {
    /// As its cell spells it.
    Spelled(Numeral<'a>),
    /// As its mnemonic means it: INC adds 1.
    Meant(u32),
}

/// An instruction as it is spelled: a location is its name.
#[derive(Clone, Copy)]
pub enum Form<'a> {
    StoreImm(&'a [u8], Constant<'a>),
    SetImm(Reg, Constant<'a>),
    SetReg(Reg, Reg),
    Fence,
    At(Use, &'a [u8], Reg),
    LockedImm(Operator, &'a [u8], Constant<'a>),
    LockedReg(Operator, &'a [u8], Reg),
    LockedNegate(&'a [u8]),
    CombineImm(Operator, Reg, Constant<'a>),
    CombineReg(Operator, Reg, Reg),
    Negate(Reg),
    Swap(Reg, Reg),
    Nothing,
}

fn is_word(name: &[u8], word: &[u8]) -> bool
    ensures { result ≡ same_letters name.now word.now }
{
    name.eq_ignore_ascii_case(word)
}

fn mov_of<'a>(first: Argument<'a>, second: Argument<'a>) -> Option<Form<'a>>
    ensures { option_map shape_of result ≡ spec.mov_of (argument_of first.entry, argument_of second.entry) }
{
    match (first, second) {
        (Argument::Location(name), Argument::Number(value)) => {
            Some(Form::StoreImm(name, Constant::Spelled(value)))
        }
        (Argument::Location(name), Argument::Register(reg)) => Some(Form::At(
            Use::Store,
            name,
            reg,
        )),
        (Argument::Register(reg), Argument::Location(name)) => Some(Form::At(Use::Load, name, reg)),
        (Argument::Register(reg), Argument::Number(value)) => {
            Some(Form::SetImm(reg, Constant::Spelled(value)))
        }
        (Argument::Register(reg), Argument::Register(other)) => Some(Form::SetReg(reg, other)),
        _ => None,
    }
}

fn xchg_of<'a>(first: Argument<'a>, second: Argument<'a>) -> Option<Form<'a>>
    ensures { option_map shape_of result ≡ spec.xchg_of (argument_of first.entry, argument_of second.entry) }
{
    match (first, second) {
        (Argument::Location(name), Argument::Register(reg)) => Some(Form::At(Use::Xchg, name, reg)),
        (Argument::Register(reg), Argument::Location(name)) => Some(Form::At(Use::Xchg, name, reg)),
        _ => None,
    }
}

fn xadd_of<'a>(first: Argument<'a>, second: Argument<'a>) -> Option<Form<'a>>
    ensures { option_map shape_of result ≡ spec.xadd_of (argument_of first.entry, argument_of second.entry) }
{
    match (first, second) {
        (Argument::Location(name), Argument::Register(reg)) => Some(Form::At(Use::Xadd, name, reg)),
        _ => None,
    }
}

fn swap_of<'a>(first: Argument<'a>, second: Argument<'a>) -> Option<Form<'a>>
    ensures { option_map shape_of result ≡ spec.swap_of (argument_of first.entry, argument_of second.entry) }
{
    match (first, second) {
        (Argument::Register(reg), Argument::Register(other)) => Some(Form::Swap(reg, other)),
        _ => None,
    }
}

fn exchange_of<'a>(set: Instructions, first: Argument<'a>, second: Argument<'a>) -> Option<Form<'a>>
    ensures { option_map shape_of result ≡ spec.exchange_of set (argument_of first.entry, argument_of second.entry) }
{
    if let Some(form) = xchg_of(first, second) {
        return Some(form);
    }
    match set {
        Instructions::Basic => None,
        Instructions::All => swap_of(first, second),
    }
}

fn cmpxchg_of<'a>(first: Argument<'a>, second: Argument<'a>) -> Option<Form<'a>>
    ensures { option_map shape_of result ≡ spec.cmpxchg_of (argument_of first.entry, argument_of second.entry) }
{
    match (first, second) {
        (Argument::Location(name), Argument::Register(reg)) => {
            Some(Form::At(Use::CompareExchange, name, reg))
        }
        _ => None,
    }
}

fn operator_named(word: &[u8]) -> Option<Operator>
    ensures { result ≡ spec.operator_named word.now }
{
    if is_word(word, b"ADD") {
        Some(Operator::Add)
    } else if is_word(word, b"SUB") {
        Some(Operator::Subtract)
    } else if is_word(word, b"AND") {
        Some(Operator::And)
    } else if is_word(word, b"OR") {
        Some(Operator::Or)
    } else if is_word(word, b"XOR") {
        Some(Operator::Xor)
    } else {
        None
    }
}

fn step_named(word: &[u8]) -> Option<(Operator, u32)>
    ensures { result ≡ spec.step_named word.now }
{
    if is_word(word, b"INC") {
        Some((Operator::Add, 1))
    } else if is_word(word, b"DEC") {
        Some((Operator::Subtract, 1))
    } else if is_word(word, b"NOT") {
        Some((Operator::Xor, 4_294_967_295))
    } else {
        None
    }
}

fn locked_of<'a>(operator: Operator, first: Argument<'a>, second: Argument<'a>) -> Option<Form<'a>>
    ensures { option_map shape_of result ≡ spec.locked_of operator (argument_of first.entry, argument_of second.entry) }
{
    match (first, second) {
        (Argument::Location(name), Argument::Number(value)) => {
            Some(Form::LockedImm(operator, name, Constant::Spelled(value)))
        }
        (Argument::Location(name), Argument::Register(reg)) => {
            Some(Form::LockedReg(operator, name, reg))
        }
        _ => None,
    }
}

fn combine_of<'a>(operator: Operator, first: Argument<'a>, second: Argument<'a>) -> Option<Form<'a>>
    ensures { option_map shape_of result ≡ spec.combine_of operator (argument_of first.entry, argument_of second.entry) }
{
    match (first, second) {
        (Argument::Register(reg), Argument::Number(value)) => {
            Some(Form::CombineImm(operator, reg, Constant::Spelled(value)))
        }
        (Argument::Register(reg), Argument::Register(other)) => {
            Some(Form::CombineReg(operator, reg, other))
        }
        _ => None,
    }
}

/// What may stand after `LOCK` in the larger set.
fn locked_more<'a>(word: &[u8], rest: &[Token<'a>]) -> Option<Form<'a>>
    ensures { option_map shape_of result ≡ spec.locked_more (word.now, pieces rest.now) }
{
    if is_word(word, b"CMPXCHG") {
        let (first, second) = two_arguments(rest)?;
        return cmpxchg_of(first, second);
    }
    if is_word(word, b"NEG") {
        return match one_argument(rest)? {
            Argument::Location(name) => Some(Form::LockedNegate(name)),
            _ => None,
        };
    }
    if let Some(operator) = operator_named(word) {
        let (first, second) = two_arguments(rest)?;
        return locked_of(operator, first, second);
    }
    let (operator, value) = step_named(word)?;
    match one_argument(rest)? {
        Argument::Location(name) => Some(Form::LockedImm(operator, name, Constant::Meant(value))),
        _ => None,
    }
}

fn is_no_operation(word: &[u8]) -> bool
    ensures { result ≡ spec.is_no_operation word.now }
{
    is_word(word, b"NOP")
        || is_word(word, b"PAUSE")
        || is_word(word, b"LFENCE")
        || is_word(word, b"SFENCE")
}

/// The mnemonics of the larger set.
fn more_by<'a>(word: &[u8], rest: &[Token<'a>]) -> Option<Form<'a>>
    ensures { option_map shape_of result ≡ spec.more_by (word.now, pieces rest.now) }
{
    if is_no_operation(word) {
        return if rest.is_empty() {
            Some(Form::Nothing)
        } else {
            None
        };
    }
    if is_word(word, b"NEG") {
        return match one_argument(rest)? {
            Argument::Register(reg) => Some(Form::Negate(reg)),
            _ => None,
        };
    }
    if let Some(operator) = operator_named(word) {
        let (first, second) = two_arguments(rest)?;
        return combine_of(operator, first, second);
    }
    let (operator, value) = step_named(word)?;
    match one_argument(rest)? {
        Argument::Register(reg) => Some(Form::CombineImm(operator, reg, Constant::Meant(value))),
        _ => None,
    }
}

/// What may come after `LOCK`.
#[tactic(auto, unfolding(crate::specs::Forms::locked_at))]
fn locked_form<'a>(set: Instructions, tokens: &[Token<'a>]) -> Option<Form<'a>>
    ensures { option_map shape_of result ≡ spec.locked_at set (pieces tokens.now) }
{
    let (word, rest) = name_at(tokens)?;
    if is_word(word, b"XCHG") {
        let (first, second) = two_arguments(rest)?;
        return xchg_of(first, second);
    }
    if is_word(word, b"XADD") {
        let (first, second) = two_arguments(rest)?;
        return xadd_of(first, second);
    }
    match set {
        Instructions::Basic => None,
        Instructions::All => locked_more(word, rest),
    }
}

/// The instruction that a whole cell spells.
#[tactic(auto, unfolding(crate::specs::Forms::spelled_in))]
pub fn form_of<'a>(set: Instructions, cell: &[Token<'a>]) -> Option<Form<'a>>
    ensures { option_map shape_of result ≡ spec.spelled_in set (pieces cell.now) }
{
    let Some((word, rest)) = name_at(cell) else {
        return None;
    };
    if is_word(word, b"LOCK") {
        return locked_form(set, rest);
    }
    if is_word(word, b"MFENCE") {
        return if rest.is_empty() {
            Some(Form::Fence)
        } else {
            None
        };
    }
    if is_word(word, b"MOV") {
        let (first, second) = two_arguments(rest)?;
        return mov_of(first, second);
    }
    if is_word(word, b"XCHG") {
        let (first, second) = two_arguments(rest)?;
        return exchange_of(set, first, second);
    }
    match set {
        Instructions::Basic => None,
        Instructions::All => more_by(word, rest),
    }
}
