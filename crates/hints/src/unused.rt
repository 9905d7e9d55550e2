//! A location that a condition names, and that nothing else of its test does. Its name is probably misspelt: its word is
//! then 0 in every run, and the answer says nothing.

ghost use Rattle.std.specs.Prelude.{◌<◌, IfSome, length};

use crate::body::is_name;
use crate::cause::Cause;
use crate::line::{Filling, Line};
use crate::place::Place;
use crate::quotes::first_bytes;
use litmus_tokens::{Symbol, Token, is_symbol};
use tso_terms::{Action, Core, Loc, Test};

/// Of a location that nothing but the condition names.
pub const UNUSED: &str =
    "line {}: the condition names {}, which no program uses and no initial state sets: it stays 0; write a name that a program has";

/// The place after so many bytes of an input.
pub fn place_in(input: &[u8], first: usize) -> Place<'_> {
    Place::new(input, input.len().saturating_sub(first))
}

/// Says a sentence of a name, which is so many bytes of an input, after so many others, with its line.
pub fn say_named(line: &mut Line, sentence: &str, input: &[u8], first: usize, length: usize) {
    let place = place_in(input, first);
    let name = first_bytes(place.rest, length);
    line.say_with(
        sentence,
        &[Filling::Number(place.line()), Filling::Named(name)],
    );
}

/// The location of a test that has this name.
pub fn location_named(test: &Test, name: &[u8]) -> Option<Loc>
    ensures { IfSome result (λ loc. loc.0 < length test.now.locations) }
{
    for loc in 0..test.locations() {
        if test.location_name(Loc(loc)).as_bytes() == name {
            return Some(Loc(loc));
        }
    }
    None
}

/// That a test has a location that no program uses and no initial state sets: the first, and where its condition names it in the test's
/// text, by these tokens of the test's body, and these of its end.
pub fn first_unused(
    test: &Test,
    text: &[u8],
    body: &[Token<'_>],
    ending: &[Token<'_>],
) -> Option<Cause> {
    for loc in 0..test.locations() {
        let name = test.location_name(Loc(loc)).as_bytes();
        if is_used(test, Loc(loc)) || is_set(body, name) {
            continue;
        }
        return match first_of_name(ending, name) {
            Some(remaining) => Some(Cause::UnusedLocation {
                first: text.len().saturating_sub(remaining),
                length: name.len(),
            }),
            None => None,
        };
    }
    None
}

/// Whether two locations of a test have names that differ in case alone.
pub fn has_alike_names(test: &Test) -> bool {
    for loc in 0..test.locations() {
        if name_like(test, loc).is_some() {
            return true;
        }
    }
    false
}

/// The name of the first location before this one that differs from its own in case alone.
fn name_like(test: &Test, loc: u8) -> Option<&[u8]>
    requires { loc < length test.now.locations }
{
    let name = test.location_name(Loc(loc)).as_bytes();
    for other in 0..loc {
        let before = test.location_name(Loc(other)).as_bytes();
        if before.eq_ignore_ascii_case(name) {
            return Some(before);
        }
    }
    None
}

/// That a test has two locations whose names differ in case alone, and where these tokens of the test's body first have each.
pub fn first_alike(test: &Test, text: &[u8], body: &[Token<'_>]) -> Option<Cause> {
    for loc in 0..test.locations() {
        let name = test.location_name(Loc(loc)).as_bytes();
        if let Some(other) = name_like(test, loc)
            && let Some(at) = first_of_name(body, name)
            && let Some(before) = first_of_name(body, other)
        {
            return Some(Cause::AlikeNames {
                firsts: (
                    text.len().saturating_sub(before),
                    text.len().saturating_sub(at),
                ),
                length: name.len(),
            });
        }
    }
    None
}

/// How many bytes stand from the first token with this name on.
fn first_of_name(tokens: &[Token<'_>], name: &[u8]) -> Option<usize> {
    for token in tokens {
        if is_name(token, name) {
            return Some(token.remaining);
        }
    }
    None
}

/// Says of two names, each of so many bytes of an input, after so many others, that they differ in case alone.
pub fn say_alike(line: &mut Line, input: &[u8], firsts: (usize, usize), length: usize) {
    line.say_with(
        "{} and {} are two locations, whose names differ in case alone: write one of them where one is meant",
        &[
            Filling::Shown(first_bytes(place_in(input, firsts.0).rest, length)),
            Filling::Shown(first_bytes(place_in(input, firsts.1).rest, length)),
        ],
    );
}

/// Whether each location is used by a program.
pub fn uses_all_locations(test: &Test) -> bool {
    for loc in 0..test.locations() {
        if !is_used(test, Loc(loc)) {
            return false;
        }
    }
    true
}

/// Whether a program uses a location.
fn is_used(test: &Test, loc: Loc) -> bool {
    for core in 0..test.cores() {
        for instr in test.program(Core(core)) {
            match instr.action() {
                Action::Store(other, _) | Action::Load(_, other) | Action::Lock(other, _, _) => {
                    if other == loc {
                        return true;
                    }
                }
                Action::Move(..) | Action::Fence => {}
            }
        }
    }
    false
}

/// Whether the initial state, with which these tokens begin, sets a location of this name.
fn is_set(tokens: &[Token<'_>], name: &[u8]) -> bool {
    for token in tokens {
        if is_symbol(Symbol::CloseCurly, token) {
            return false;
        }
        if is_name(token, name) {
            return true;
        }
    }
    false
}
