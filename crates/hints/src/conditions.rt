//! What is said of a fault in a condition, or after the end of a test: signs and words of other languages have the form that
//! stands for them here.

use crate::body::{body_of, ending_of};
use crate::cycles::is_edge_name;
use crate::divider::{Asked, says_missing_divider};
use crate::faults::{
    COMMENT, EQUIVALENCE, IMPLICATION, LEAVE_OUT, NO_ARRAYS, NO_VALUE, ONLY_ROUND,
    says_digit_first, unfit,
};
use crate::items::{is_no_number, says_foreign_register};
use crate::keywords::begins_instruction;
use crate::line::{Filling, Line};
use crate::near::near_word;
use crate::place::Place;
use crate::points::{CORE_AND_REGISTER, is_of_core};
use crate::quotes::{
    digits_and_letters, first_bytes, is_all_digits, is_bare, is_choice, last_bytes, up_to, word,
};
use crate::registers::is_register;
use crate::signs::DIVIDER;
use crate::tables::{Alike, is_exactly_one_of, is_one_of, said_of};
use crate::values::{EQUAL, VALUES, said_of_further_value, says_equal_places, says_unequal};
use litmus_tokens::{Instructions, Symbol, is_symbol, line_of, tokens_of};
use std::alloc::Global;
use tso_terms::names::is_location_name;
use tso_terms::{NoMemory, Reg};

/// The form of conditions.
const CONDITION: &str =
    ": a condition is exists, ~exists or forall, and then atoms as 0:EAX=1, x=1 or true, joined by /\\ and \\/";

const JOIN: &str = "{}: parts of a condition are joined by /\\ for and, \\/ for or";

const NO_EQUALS: &str = "{}: an atom has = between a place and one number, as 0:EAX=1 or x=1";

const REGISTER_ALONE: &str = "{}: a register is written after its core and a colon, as 0:EAX";

const SECOND: &str =
    "a second condition begins here: a test has one, so leave one of them out; parts of one are joined by /\\ and \\/";

const EDGE: &str = "{} is an edge: a condition asks for the values that show it, as 0:EAX=0 or x=1";

/// What is said of a word that compares.
static COMPARISONS: [Alike; 3] = [
    Alike("in", VALUES),
    Alike("is eq equals equal", "{}: write =, as x=1"),
    Alike(
        "ne neq isnt",
        "{}: that 0:EAX isn't 1 is written ~(0:EAX=1)",
    ),
];

/// What is said of a token that comes after the end of a condition.
static AFTER: [Alike; 5] = [
    Alike(
        "locations location",
        "{} stands after the condition: write locations [ .. ] before it",
    ),
    Alike("exists forall", SECOND),
    Alike("not xor implies iff", JOIN),
    Alike(
        "filter when where with given",
        "{} isn't read: join what it asks to the condition by /\\, as exists ((A) /\\ (B))",
    ),
    Alike(
        "Order Observation State States Outcomes Machine Verdict Test Registers Memory Endorder Sweep \
         Ok No Witnesses Positive Hash Time Generated Histogram Condition",
        "{} begins a line of a report, which is no part of a test: leave out from here on",
    ),
];

/// Of a condition.
///
/// Errors: out of memory only.
pub fn bad_condition(alloc: Global, line: &mut Line, place: &Place<'_>) -> Result<(), NoMemory> {
    if says_joint(line, place) {
        return Ok(());
    }
    if place.rest.is_empty() || (place.is_first_on_line() && is_choice(word(place.rest))) {
        if let Some(number) = line_of_open_bracket(alloc, place)? {
            line.say_number("no ) closes the ( of line {}", number);
            return Ok(());
        }
    }
    if is_of_core(place) {
        line.say_of(CORE_AND_REGISTER, place.token);
    } else if !says_foreign_form(line, place)
        && !says_foreign_register(line, place)
        && !says_misfit(line, place)
    {
        unfit(line, place, "the test ends within its condition", CONDITION);
    }
    Ok(())
}

/// Says of a joint of two atoms after which none stands. Whether one does.
fn says_joint(line: &mut Line, place: &Place<'_>) -> bool {
    let before = place.before.trim_ascii_end();
    let is_joint = before.ends_with(b"/\\") || before.ends_with(b"\\/");
    if is_joint && (place.rest.is_empty() || place.rest.starts_with(b")")) {
        line.say_with(
            "no atom stands after {}: write one, as x=1, or leave {} out",
            &[Filling::Shown(last_bytes(before, 2)); 2],
        );
        return true;
    }
    let begins = before.ends_with(b"(") || is_one_of("exists forall", place.last_word);
    let sentence = if place.rest.starts_with(b")") && before.ends_with(b"(") {
        "no atom stands in ( ): write one, as x=1, or true"
    } else if !place.rest.starts_with(b"/\\") && !place.rest.starts_with(b"\\/") {
        return false;
    } else if is_joint {
        "{} stands beside another one: one of them joins two atoms"
    } else if begins {
        "{} stands before the first atom: leave it out"
    } else {
        return false;
    };
    line.say_of(sentence, place.token);
    true
}

/// The line of the last `(` before a place that no `)` closes, if there is one.
///
/// Errors: out of memory only.
fn line_of_open_bracket(alloc: Global, place: &Place<'_>) -> Result<Option<usize>, NoMemory> {
    let body = body_of(place.before);
    let tokens = tokens_of(alloc, Instructions::All, body)?;
    let ending = tokens_of(alloc, Instructions::All, ending_of(body, &tokens))?;
    let mut closed = 0usize;
    for at in (0..ending.items.len()).rev() {
        let token = &ending.items[at];
        if is_symbol(Symbol::CloseRound, token) {
            closed = closed.saturating_add(1);
        } else if is_symbol(Symbol::OpenRound, token) {
            if closed == 0 {
                return Ok(Some(line_of(place.before, token.remaining)));
            }
            closed = closed.saturating_sub(1);
        }
    }
    Ok(None)
}

/// Says of a number, a value or a connective of another form, within a condition or after it. Whether one is there.
fn says_foreign_form(line: &mut Line, place: &Place<'_>) -> bool {
    if says_digit_first(line, place) || says_equal_places(line, place) {
        return true;
    }
    let Some(said) = said_of_connective(place).or(said_of_further_value(place)) else {
        return false;
    };
    line.say_of(said, place.token);
    true
}

/// What is said of a sign or a word that joins two claims in other languages.
fn said_of_connective(place: &Place<'_>) -> Option<&'static str> {
    let token = place.token;
    if place.rest.starts_with(b"=>")
        || place.rest.starts_with(b"==>")
        || is_one_of("implies", token)
    {
        Some(IMPLICATION)
    } else if is_one_of("iff", token) {
        Some(EQUIVALENCE)
    } else if is_one_of("xor", token) {
        Some("{}: that one of a and b alone is so is written (a /\\ ~(b)) \\/ (~(a) /\\ b)")
    } else {
        None
    }
}

/// Says of a token that doesn't fit, by what comes before it, where that tells what was meant. Whether it does.
fn says_misfit(line: &mut Line, place: &Place<'_>) -> bool {
    let (token, last) = (place.token, place.last_word);
    let is_unequal = is_one_of("ne neq isnt", token) || place.rest.starts_with(b"~=");
    if is_unequal && says_unequal(line, place, token.len().max(2)) {
        return true;
    }
    let (sentence, named) = match token.first() {
        Some(b',' | b';') => (JOIN, token),
        Some(b':') if is_one_of("exists forall", last) => (LEAVE_OUT, token),
        Some(b':') if is_bare(last) && is_register(digits_and_letters(place.after_token())) => (
            "{}: a core is its number alone here, as in 0:EAX",
            last,
        ),
        Some(b':') if is_bare(last) => (NO_EQUALS, token),
        Some(b'=') if is_all_digits(last) => (
            "{}: an atom has its place first and its number last, as x=1",
            token,
        ),
        Some(b'=') if is_one_of("exists forall", last) => (LEAVE_OUT, token),
        Some(b'=') if is_in_square(place) => (
            "{}: [ ] stand around a location's name alone, if at all: write x=1 or [x]=1",
            token,
        ),
        Some(b':') if is_exactly_one_of(":", last) => (
            "{} stands twice: one stands between a core and its register, as 0:EAX",
            token,
        ),
        Some(b'~') if place.after_token().starts_with(b"=") => (
            "~=: that 0:EAX isn't 1 is written ~(0:EAX=1)",
            token,
        ),
        Some(b'(') if is_one_of("fault", last) => (
            "{} isn't read: no access fails here; an atom is x=1 or 0:EAX=1",
            last,
        ),
        Some(b'(') if is_exactly_one_of("=", last) => (
            "{}: a number stands without brackets, as x=1",
            token,
        ),
        Some(b'(') if is_edge_name(last) => (EDGE, last),
        Some(b'(') if is_bare(last) && !is_one_of("exists forall not", last) => (
            "{} can't be asked for: an atom is a place and its value, as 0:EAX=1 or x=1",
            last,
        ),
        Some(b'[') if is_location_name(last) => (NO_ARRAYS, token),
        Some(b'[') if is_exactly_one_of("=", last) => (EQUAL, token),
        Some(b'{' | b'[') if is_one_of("exists forall", last) => (ONLY_ROUND, token),
        Some(b'$') => ("{}: a number stands without $ in a condition", token),
        Some(b'(') if is_exactly_one_of("~", last) => ("write ~exists in place of ~ alone", token),
        Some(b')' | b'/' | b'\\') => return says_valueless(line, last),
        Some(b'[') if is_exactly_one_of(":", last) => {
            ("{}: a location stands without a core, as x=1", token)
        }
        Some(first) if first.is_ascii_alphabetic() || *first == b'_' => return says_misplaced_name(
            line, place,
        ),
        Some(first) if first.is_ascii_digit() && is_exactly_one_of("[", last) => {
            (
                "[ stands before {}: only ( ) stand around parts of a condition",
                token,
            )
        }
        Some(first) if first.is_ascii_digit() && is_place(last) => (NO_EQUALS, token),
        Some(b'0') if is_hexadecimal_before_equals(place) => (
            "{}: an atom has its place first and its number last, as x=1",
            place.number_or_token(),
        ),
        Some(first) if first.is_ascii_digit() && is_all_digits(last) => (JOIN, token),
        Some(_) => return false,
        None => return says_valueless(line, last),
    };
    line.say_of(sentence, named);
    true
}

/// Whether `=` stands behind a number that isn't decimal.
fn is_hexadecimal_before_equals(place: &Place<'_>) -> bool {
    let number = place.number_or_token();
    let behind = last_bytes(place.rest, place.rest.len().saturating_sub(number.len()));
    number.len() > place.token.len() && behind.trim_ascii_start().starts_with(b"=")
}

/// Says of a name without a value before an end, or of a truth in capitals. Whether that is what is there.
fn says_valueless(line: &mut Line, last: &[u8]) -> bool {
    if let Some(meant) = near_word("true false", last) {
        line.say_with(
            "{} is no atom: write {}",
            &[Filling::Named(last), Filling::Text(meant)],
        );
        return true;
    }
    let sentence = if is_one_of("true false", last) {
        "{}: true and false are written in small letters"
    } else if is_exactly_one_of("=", last) {
        "no number stands after {}: an atom is x=1 or 0:EAX=1"
    } else if is_bare(last) && !is_one_of("exists forall not", last) {
        "{} has no value: an atom is x=1 or 0:EAX=1"
    } else {
        return false;
    };
    line.say_of(sentence, last);
    true
}

/// Says of a name that doesn't fit. Whether it is known what was meant.
fn says_misplaced_name(line: &mut Line, place: &Place<'_>) -> bool {
    let (token, last) = (place.token, place.last_word);
    let Some(said) = said_of_word(token, last).or(said_of_name(token, last)) else {
        return false;
    };
    line.say_of(said, token);
    true
}

/// What is said of an edge or a word that doesn't fit behind this one, where its meaning tells.
fn said_of_word(token: &[u8], last: &[u8]) -> Option<&'static str> {
    if is_edge_name(token) {
        Some(EDGE)
    } else if is_place(last) && said_of(&COMPARISONS, token).is_some() {
        said_of(&COMPARISONS, token)
    } else if is_one_of("forall", token) && is_exactly_one_of("~", last) {
        Some("~{} isn't read: write exists, and ~( ) around what follows")
    } else if is_one_of("exists forall", token) {
        Some("{} begins a second condition: a test has one, whose parts are joined by /\\ and \\/")
    } else if is_exactly_one_of("~", last) && near_word("exists", token).is_some() {
        Some("{}: write exists")
    } else {
        None
    }
}

/// What is said of a name that doesn't fit behind a word, by its place.
fn said_of_name(token: &[u8], last: &[u8]) -> Option<&'static str> {
    if is_exactly_one_of("=", last) {
        Some(said_of_value(token))
    } else if is_register(token) {
        Some(REGISTER_ALONE)
    } else if is_all_digits(last) {
        Some(JOIN)
    } else {
        None
    }
}

/// What is said of a name in the place of a number.
fn said_of_value(token: &[u8]) -> &'static str {
    if is_one_of("O", token) {
        "{} is a letter: write the digit 0"
    } else if is_one_of("l I", token) {
        "{} is a letter: write the digit 1"
    } else if is_no_number(token) {
        NO_VALUE
    } else {
        EQUAL
    }
}

/// Whether `[` stands before the name before a place.
fn is_in_square(place: &Place<'_>) -> bool {
    let before = place.before.trim_ascii_end();
    let before = first_bytes(before, before.len().saturating_sub(place.last_word.len()));
    before.trim_ascii_end().ends_with(b"[")
}

/// Whether a word may end a place in a condition: a location's name, a register's, or a bracket behind a name.
fn is_place(word: &[u8]) -> bool {
    is_location_name(word) || Reg::from_name(word).is_some() || is_exactly_one_of("]", word)
}

/// Of what comes after the end of a test.
pub fn trailing(line: &mut Line, asked: Asked, place: &Place<'_>) {
    if says_missing_divider(line, asked, place) || says_foreign_form(line, place) {
        return;
    }
    let token = place.token;
    let first = token.first().copied().unwrap_or(b' ');
    let is_own_line = place.is_first_on_line();
    if is_own_line && (place.rest.starts_with(b"~~") || token.starts_with(b"__")) {
        line.say(DIVIDER);
    } else if let Some(said) = said_of(&AFTER, token) {
        line.say_of(said, token);
    } else if first == b'~' && begins_condition(place.after_token()) {
        line.say(SECOND);
    } else if first == b';' {
        line.say_of(said_of_end(place), token);
    } else if begins_instruction(token) {
        line.say_of(
            "{} stands after the condition, which comes last: write the condition below all rows",
            token,
        );
    } else if matches!(first, b'(' | b',' | b'[' | b'~') || first.is_ascii_digit() {
        line.say_of(JOIN, token);
    } else if !is_own_line && is_location_name(token) {
        line.say_with(
            "{} stands after the end of the condition: join a further atom by /\\ or \\/, and leave other words out",
            &[Filling::Named(token)],
        );
    } else {
        let sentence = if is_own_line && is_bare(token) && !asked.is_divided {
            "{} stands after the end of the test: leave out from here on, or put a line ==== above it if choices begin here"
        } else if is_own_line && !is_one_of(") } ]", token) {
            "{} begins a line after the end of the test: leave out from here on"
        } else {
            "{} stands after the end of the test: leave it out"
        };
        line.say_of(sentence, token);
    }
}

/// Whether a text begins with a word that begins a condition.
fn begins_condition(text: &[u8]) -> bool {
    is_one_of("exists forall", digits_and_letters(text))
}

/// What is said of `;` after a condition, by what stands behind it on its line.
fn said_of_end(place: &Place<'_>) -> &'static str {
    let after = up_to(place.after_token(), b'\n').trim_ascii();
    if after.contains(&b'=') {
        JOIN
    } else if is_bare(digits_and_letters(after)) {
        COMMENT
    } else {
        "{} stands after the end of the test: leave it out"
    }
}
