//! What is said of a row that is none: a condition in other words, or a comment in another form. Where a row may stand, the
//! reader takes all that begins no condition for a row.

use crate::faults::COMMENT;
use crate::instructions::{FORMS, SIZED, UNLOCKED};
use crate::line::{Filling, Line};
use crate::mnemonics::larger_of;
use crate::near::near_word;
use crate::place::Place;
use crate::quotes::{begins_with_letter, digits_and_letters};
use crate::signs::is_core;
use crate::tables::{Alike, is_exactly_one_of, is_one_of, said_of};

const NEVER: &str =
    "{} begins no condition: write ~exists before what must never be, or exists before what may be";

const ALWAYS: &str = "{} begins no condition: write forall before what must always be";

const SOMETIMES: &str =
    "{} begins no condition: write exists, or ~exists before what must never be";

const LISTED: &str = "{} is no instruction: write locations, and [ .. ] after it";

/// Words that come after the rows of a test as it isn't read.
static KEYWORDS: [Alike; 11] = [
    Alike(
        "exists exsist exisist exitst",
        "{} is no instruction: write exists",
    ),
    Alike("forall", "{} is no instruction: write forall"),
    Alike("locations location locs", LISTED),
    Alike(
        "never forbidden notexists not_exists nexists noexists impossible no disallowed \
         prohibited",
        NEVER,
    ),
    Alike(
        "always invariant all required require requires must ensure ensures",
        ALWAYS,
    ),
    Alike(
        "assert assertion assume verify",
        "{} begins no condition: write ~exists before what must never be, or forall before what must always be",
    ),
    Alike(
        "allowed allow sometimes possible maybe may can condition cond expect expected \
         result results outcome there check query E",
        SOMETIMES,
    ),
    Alike(
        "observed observe show print output",
        "{} isn't read: ask for values by exists, as exists (0:EAX=0), or leave it out: tso outcomes --show all shows all values",
    ),
    Alike(
        "filter when where given",
        "{} isn't read: of {} A and exists B make exists ((A) /\\ (B)), and of {} A and forall B make forall (~(A) \\/ (B))",
    ),
    Alike(
        "final with",
        "{} isn't read: leave it out; a condition begins with exists, ~exists or forall",
    ),
    Alike(
        "Observation State States Order Machine Outcomes Verdict Positive Witnesses Hash \
         Histogram Ok",
        "{} begins a line of a report, which is no part of a test: leave out from here on",
    ),
];

/// Says of the row at a place that it is a condition in other words. Whether it is.
pub fn says_condition(line: &mut Line, place: &Place<'_>) -> bool {
    let token = place.token;
    if begins_statement(place.after_token())
        || is_exactly_one_of("exists forall locations", token)
    {
        return false;
    }
    if is_one_of("exit", token) && place.whole_line().contains(&b'=') {
        line.say_of("{} is no instruction: write exists", token);
        return true;
    }
    if is_one_of("final", token) && !begins_quantifier(place.after_token()) {
        line.say("final begins no condition: write exists, ~exists or forall in its place");
        return true;
    }
    if is_of_report(token) && has_condition(place.rest) {
        line.say_of(
            "{} begins a line of a report, which is no part of a test: leave out the lines from here to the condition",
            token,
        );
        return true;
    }
    if let Some(said) = said_of_keyword(token) {
        line.say_with(said, &[Filling::Named(token); 3]);
        return true;
    }
    if is_exactly_one_of("not", token) && place.after_token().starts_with(b"(") {
        line.say("not begins no condition: write ~exists in its place");
        return true;
    }
    is_one_of("not for", token)
        && says_of_two_words(line, token, digits_and_letters(place.after_token()))
}

/// Whether a word begins a line of a report that may stand in the place of a row.
fn is_of_report(word: &[u8]) -> bool {
    is_exactly_one_of(
        "Observation State States Order Machine Outcomes Verdict Positive Witnesses Hash Histogram Ok",
        word,
    )
}

/// Whether a condition begins a later line of a text.
fn has_condition(text: &[u8]) -> bool {
    for row in text.split(|byte| *byte == b'\n') {
        let first = row.trim_ascii_start();
        let first = first.strip_prefix(b"~").unwrap_or(first).trim_ascii_start();
        if is_exactly_one_of("exists forall", digits_and_letters(first)) {
            return true;
        }
    }
    false
}

/// Whether a text begins with a word that begins a condition, perhaps behind a colon.
fn begins_quantifier(text: &[u8]) -> bool {
    let text = text.strip_prefix(b":").unwrap_or(text).trim_ascii_start();
    text.starts_with(b"~") || is_exactly_one_of("exists forall", digits_and_letters(text))
}

/// What is said of a word that stands for one of a condition, or is written almost as one.
fn said_of_keyword(word: &[u8]) -> Option<&'static str> {
    let meant = match near_word("exists forall locations", word) {
        Some(meant) => meant.as_bytes(),
        None => word,
    };
    said_of(&KEYWORDS, meant)
}

/// Whether what stands after a word makes a cell or a statement of it, and no condition.
fn begins_statement(after: &[u8]) -> bool {
    match after.first() {
        Some(first) => b"|=+-.".contains(first),
        None => false,
    }
}

/// Says of the row at a place that it is a condition in other words, or a comment. Whether that is known.
pub fn says_no_row(line: &mut Line, place: &Place<'_>) -> bool {
    let (token, rest) = (place.token, place.after_token());
    if says_condition(line, place) {
        return true;
    }
    if is_core(token) && !rest.starts_with(b":") {
        line.say_of(
            "{} begins no row: one row names all cores: P0 | P1 ;",
            token,
        );
    } else if follows_row(place) && begins_with_letter(token) && !is_instruction(token) {
        line.say(COMMENT);
    } else {
        return false;
    }
    true
}

/// Says of a quantifier that is written as two words. Whether these are such words.
fn says_of_two_words(line: &mut Line, first: &[u8], second: &[u8]) -> bool {
    let sentence = if is_one_of("for", first) && is_one_of("all", second) {
        "for all is one word here: write forall"
    } else if is_one_of("not", first) && is_one_of("exists exist", second) {
        "not exists isn't read: write ~exists"
    } else if is_one_of("not", first) && is_one_of("forall", second) {
        "not forall isn't read: write exists, and ~( ) around what follows"
    } else {
        return false;
    };
    line.say(sentence);
    true
}

/// Whether the end of a row comes before a place on its line.
fn follows_row(place: &Place<'_>) -> bool {
    place.line_before().ends_with(b";")
}

/// Whether a word is an instruction's name, of one that is read or not.
pub fn is_instruction(word: &[u8]) -> bool {
    begins_instruction(word) || larger_of(word).is_some() || said_of(&UNLOCKED, word).is_some()
}

/// The instruction that is read of which a word is almost the name.
pub fn near_instruction(word: &[u8]) -> Option<&'static str> {
    near_word("MOV MFENCE XCHG XADD LOCK", word)
}

/// The instruction of the larger set of which a word is almost the name.
pub fn near_larger(word: &[u8]) -> Option<&'static str> {
    near_word(
        "ADD SUB AND OR XOR INC DEC NEG NOT CMPXCHG PAUSE LFENCE SFENCE",
        word,
    )
}

/// Whether an instruction that is read begins with this word, perhaps with the size of its operands. Of those that are words of English
/// too, none does.
pub fn begins_instruction(word: &[u8]) -> bool {
    is_one_of("LOCK MFENCE", word)
        || said_of(&FORMS, word).is_some()
        || said_of(&SIZED, word).is_some()
        || (larger_of(word).is_some() && !is_one_of("AND OR NOT ADD PAUSE", word))
}
