//! Bytes to tokens, one after the other. A byte that begins no token stops the list and fails nothing: it is a fault only
//! if the readers come that far, so the first fault of a text stays the first.

ghost use Rattle.std.specs.Prelude.{◌≡◌, ◌≤◌, ◌<◌, ◌==◌, length, IfOk, IfSome, Ok, true, drop, slice_index};
ghost use Rattle.std.specs.Option.{option_map};
ghost use Rattle.std.specs.List.{prefix_len};
ghost use Rattle.std.specs.Char as char;
ghost use Rattle.tso_terms.specs.Limits.{longest_name};
ghost use Rattle.tso_terms.specs.Names as names;
ghost use Rattle.litmus_tokens.specs.inner.Mapped.{mapped};
ghost use Rattle.litmus_tokens.specs.Terms as terms;
ghost use Rattle.litmus_tokens.specs.inner.SymbolSteps as steps;
ghost use Rattle.tso_terms.specs.Decimals.{decimal_value};
ghost use Rattle.litmus_tokens.specs.Terms.{word_of};
ghost use Rattle.litmus_tokens.specs.inner.Terms.{term_of};
ghost use Rattle.litmus_tokens.specs.Pieces as spec;
ghost use Rattle.litmus_tokens.specs.Pieces.{pieces_of};
ghost use Rattle.litmus_tokens.specs.inner.Pieces.{piece_of, pieces};

use crate::gap::after_gap;
use crate::instructions::Instructions;
use crate::token::{Lexeme, Stop, Symbol, Token, Tokens};
use std::alloc::Global;
use tso_terms::NoMemory;
use tso_terms::decimals::number_up_to;
use tso_terms::names::{begins_name, continues_name};

/// Maximum length of a name, in bytes.
pub const MAX_NAME: usize = tso_terms::limits::MAX_NAME;

/// The limit is the number that the definitions have: a law, with nothing to run.
pub fn limits_are_as_defined()
    ensures { MAX_NAME ≡ longest_name }
{}

/// How many digits a number has with which the bytes begin.
fn digits_len(bytes: &[u8]) -> usize
    requires some { 0 < length bytes.now }
    requires begins { char.is_ascii_digit (slice_index bytes.now 0) ≡ true }
    ensures value { result ≡ prefix_len char.is_ascii_digit bytes.now }
    ensures within { result ≤ length bytes.now }
    ensures some { 0 < result }
{
    for at in 1..bytes.len() {
        if !bytes[at].is_ascii_digit() {
            return at;
        }
    }
    bytes.len()
}

fn zeros_in_front(digits: &[u8]) -> usize
    ensures value { result ≡ prefix_len (λ d. d == 48) digits.now }
    ensures within { result ≤ length digits.now }
{
    for at in 0..digits.len() {
        if digits[at] != b'0' {
            return at;
        }
    }
    digits.len()
}

fn without_zeros(digits: &[u8]) -> &[u8]
    ensures { result.now ≡ terms.without_zeros digits.now }
{
    let (_, rest) = digits.split_at(zeros_in_front(digits));
    rest
}

/// Whether a name can begin with this byte.
fn begins(byte: u8) -> bool
    ensures { result ≡ names.begins_name byte }
{
    // Most symbols are smaller than any letter, and need no second look.
    byte >= b'A' && begins_name(byte)
}

/// Whether a name can go on with this byte.
fn goes_on(byte: u8) -> bool
    ensures { result ≡ names.continues_name byte }
{
    // Most bytes of a name are letters, and need no second look.
    byte.is_ascii_alphabetic() || continues_name(byte)
}

/// How many bytes a name has with which the bytes begin.
fn name_len(bytes: &[u8]) -> usize
    requires some { 0 < length bytes.now }
    requires begins { names.continues_name (slice_index bytes.now 0) ≡ true }
    ensures value { result ≡ prefix_len names.continues_name bytes.now }
    ensures within { result ≤ length bytes.now }
    ensures some { 0 < result }
{
    for at in 1..bytes.len() {
        if !goes_on(bytes[at]) {
            return at;
        }
    }
    bytes.len()
}

/// The number that digits say, if a word of 32 bits has room for it.
#[tactic(auto, using(crate::proofs::Words::word_up_to))]
pub fn word(digits: &[u8]) -> Option<u32>
    ensures { result ≡ word_of (decimal_value digits.now) }
{
    let Some(number) = number_up_to(u64::from(u32::MAX), digits) else {
        return None;
    };
    Some(number as u32)
}

#[inline(always)]
#[tactic(auto, unfolding(crate::specs::inner::SymbolSteps::single))]
fn single(byte: u8) -> Option<Symbol>
    ensures { result ≡ steps.single byte }
{
    match byte {
        b'=' => Some(Symbol::Equals),
        b';' => Some(Symbol::Semicolon),
        b':' => Some(Symbol::Colon),
        b'[' => Some(Symbol::OpenSquare),
        b']' => Some(Symbol::CloseSquare),
        b'{' => Some(Symbol::OpenCurly),
        b'}' => Some(Symbol::CloseCurly),
        b'|' => Some(Symbol::Bar),
        b',' => Some(Symbol::Comma),
        b'$' => Some(Symbol::Dollar),
        b'~' => Some(Symbol::Tilde),
        b'(' => Some(Symbol::OpenRound),
        b')' => Some(Symbol::CloseRound),
        _ => None,
    }
}

/// The symbol at the very front, and what comes after it.
#[inline(always)]
fn symbol_of(bytes: &[u8]) -> Option<(Symbol, &[u8])>
    ensures value { option_map (λ x. (x.0, x.1.now)) result ≡ terms.symbol_of bytes.now }
    ensures shorter { IfSome result (λ x. length x.1.now < length bytes.now) }
{
    let Some((first, rest)) = bytes.split_first() else {
        return None;
    };
    if let Some(symbol) = single(*first) {
        return Some((symbol, rest));
    }
    let Some((second, past)) = rest.split_first() else {
        return None;
    };
    if *first == b'/' && *second == b'\\' {
        Some((Symbol::And, past))
    } else if *first == b'\\' && *second == b'/' {
        Some((Symbol::Or, past))
    } else {
        None
    }
}

/// Whether these begin with `0x` and a hexadecimal digit.
fn begins_hexadecimal(bytes: &[u8]) -> bool
    ensures { result ≡ terms.begins_hexadecimal bytes.now }
{
    let Some((zero, rest)) = bytes.split_first() else {
        return false;
    };
    let Some((sign, rest)) = rest.split_first() else {
        return false;
    };
    let Some((digit, _)) = rest.split_first() else {
        return false;
    };
    *zero == b'0' && (*sign == b'x' || *sign == b'X') && digit.is_ascii_hexdigit()
}

/// How many hexadecimal digits the bytes begin with.
fn hexadecimal_len(bytes: &[u8]) -> usize
    ensures value { result ≡ prefix_len char.is_ascii_hexdigit bytes.now }
    ensures within { result ≤ length bytes.now }
{
    for at in 0..bytes.len() {
        if !bytes[at].is_ascii_hexdigit() {
            return at;
        }
    }
    bytes.len()
}

/// Whether these begin with a hexadecimal number.
#[inline(always)]
fn is_hexadecimal(set: Instructions, bytes: &[u8]) -> bool
    ensures { result ≡ terms.is_hexadecimal set bytes.now }
{
    match set {
        Instructions::Basic => false,
        Instructions::All => begins_hexadecimal(bytes),
    }
}

/// The hexadecimal number with which the bytes begin, and what stands after it.
fn hexadecimal_at(bytes: &[u8]) -> (Lexeme<'_>, &[u8])
    requires { terms.begins_hexadecimal bytes.now ≡ true }
    ensures value { Ok (term_of result.0, result.1.now)
        ≡ terms.hexadecimal_term (terms.run_of char.is_ascii_hexdigit (drop 2 bytes.now)) }
    ensures shorter { length result.1.now < length bytes.now }
{
    let (_, digits) = bytes.split_at(2);
    let (digits, rest) = digits.split_at(hexadecimal_len(digits));
    (Lexeme::Hexadecimal(digits), rest)
}

/// The decimal number with which the bytes begin, and what stands after it.
#[inline(always)]
fn decimal_at(bytes: &[u8]) -> (Lexeme<'_>, &[u8])
    requires some { 0 < length bytes.now }
    requires begins { char.is_ascii_digit (slice_index bytes.now 0) ≡ true }
    ensures value { Ok (term_of result.0, result.1.now) ≡ terms.number_term (terms.run_of char.is_ascii_digit bytes.now) }
    ensures shorter { length result.1.now < length bytes.now }
{
    let (digits, rest) = bytes.split_at(digits_len(bytes));
    (Lexeme::Number(without_zeros(digits)), rest)
}

/// The number with which the bytes begin, and what stands after it.
#[inline(always)]
fn number_at_front(set: Instructions, bytes: &[u8]) -> (Lexeme<'_>, &[u8])
    requires some { 0 < length bytes.now }
    requires begins { char.is_ascii_digit (slice_index bytes.now 0) ≡ true }
    ensures value { Ok (term_of result.0, result.1.now) ≡ terms.numeral_term set bytes.now }
    ensures shorter { length result.1.now < length bytes.now }
{
    if is_hexadecimal(set, bytes) {
        hexadecimal_at(bytes)
    } else {
        decimal_at(bytes)
    }
}

/// Whether this is a sign.
fn is_minus(set: Instructions, byte: u8) -> bool
    ensures { result ≡ terms.is_minus set byte }
{
    match set {
        Instructions::Basic => false,
        Instructions::All => byte == b'-',
    }
}

/// The token at the very front, and what comes after it.
#[inline(always)]
fn lexeme_at(set: Instructions, bytes: &[u8]) -> Result<(Lexeme<'_>, &[u8]), Stop>
    ensures value { mapped (λ x. (term_of x.0, x.1.now)) result ≡ terms.term_at set bytes.now }
    ensures shorter { IfOk result (λ x. length x.1.now < length bytes.now) }
{
    let Some(first) = bytes.first() else {
        return Err(Stop::End);
    };
    if first.is_ascii_digit() {
        return Ok(number_at_front(set, bytes));
    }
    if begins(*first) {
        let (name, rest) = bytes.split_at(name_len(bytes));
        if name.len() > MAX_NAME {
            return Err(Stop::BadToken(bytes.len()));
        }
        return Ok((Lexeme::Name(name), rest));
    }
    if is_minus(set, *first) {
        let (_, past) = bytes.split_at(1);
        return Ok((Lexeme::Symbol(Symbol::Minus), past));
    }
    match symbol_of(bytes) {
        Some((symbol, rest)) => Ok((Lexeme::Symbol(symbol), rest)),
        None => Err(Stop::BadToken(bytes.len())),
    }
}

/// The next token after white space and comments, and what comes after it.
///
/// The stop says why no token is there.
#[inline(always)]
#[tactic(auto, unfolding(crate::specs::Pieces::piece_at))]
pub fn token_at(set: Instructions, bytes: &[u8]) -> Result<(Token<'_>, &[u8]), Stop>
    ensures value { mapped (λ x. (piece_of x.0, x.1.now)) result ≡ spec.piece_at set bytes.now }
    ensures shorter { IfOk result (λ x. length x.1.now < length bytes.now) }
{
    let rest = after_gap(bytes)?;
    let (lexeme, after) = lexeme_at(set, rest)?;
    let remaining = rest.len();
    Ok((Token { remaining, lexeme }, after))
}

/// The tokens of a text, or of its end from some place on, and why there are no more.
///
/// Errors: out of memory only. A lexical fault ends the list, and counts where a reader wants a token
/// more.
pub fn tokens_of(alloc: Global, set: Instructions, bytes: &[u8]) -> Result<Tokens<'_>, NoMemory>
    ensures { IfOk result (λ found. (pieces found.items.items, found.stop) ≡ pieces_of set bytes.now) }
{
    let mut items = Vec::new(alloc);
    let mut rest = bytes;
    loop {
        match token_at(set, rest) {
            Ok((token, after)) => {
                items.push(token)?;
                rest = after;
            }
            Err(stop) => return Ok(Tokens { items, stop }),
        }
    }
}
