//! Conditions: atoms, units, propositions and quantifiers. The units that may be open at once are limited: recursion is no
//! deeper than that, and the stack stays small.

ghost use Rattle.std.specs.Prelude.{◌≡◌, ◌≤◌, ◌<◌, ◌+◌, length, codes, Some, None, Ok, IfOk, IfSome};
ghost use Rattle.std.specs.Option.{option_map};
ghost use Rattle.tso_terms.specs.Limits.{most_cores};
ghost use Rattle.tso_terms.specs.Condition.{claim_of, condition_of};
ghost use Rattle.litmus_tokens.specs.inner.Pieces.{pieces};
ghost use Rattle.litmus_tokens.specs.Faults.{Gives};
ghost use Rattle.litmus_tokens.specs.Locations.{texts};
ghost use Rattle.litmus_reader.specs.inner.Settings.{setting_of};
ghost use Rattle.litmus_reader.specs.inner.Conditions as spec;
ghost use Rattle.litmus_reader.specs.Conditions as inner;
ghost use Rattle.litmus_tokens.specs.inner.Returned.{GivesNamed};
ghost use Rattle.litmus_reader.specs.inner.Propositions as parts;
ghost use Rattle.litmus_reader.specs.inner.Propositions.{GivesNext, IsNoLonger};
ghost use Rattle.litmus_reader.specs.inner.Returned.{GivesClaim, GivesCondition};

use crate::fault::{part_of, remaining_of};
use crate::keyword::after_word;
use crate::limits::MAX_OPEN;
use crate::setting::{SpelledSetting, core_of, setting_at};
use litmus_cells::{Fault, ReadError, Why, located, word_at};
use litmus_tokens::{Stop, Symbol, Token, after_symbol};
use std::alloc::Global;
use tso_terms::limits::MAX_ATOMS;
use tso_terms::{Cond, Prop, Quantifier};

/// The proposition of an atom.
///
/// `NoSuchCore`, then `BadNumber`, then `TooLarge` for a location too many, at `remaining`.
#[tactic(auto, unfolding(crate::specs::Conditions::claim_in))]
fn prop_of<'a>(
    cores: usize,
    remaining: usize,
    names: &mut Vec<&'a [u8]>,
    item: SpelledSetting<'a>,
) -> Result<Prop, ReadError>
    requires { cores ≤ most_cores }
    ensures { GivesNamed (λ p. claim_of p) result names.new.items (inner.claim_in cores remaining (texts names.old.items) (setting_of item.entry)) }
{
    match item {
        SpelledSetting::Register(digits, reg, value) => {
            let core = core_of(cores, remaining, digits)?;
            let value = word_at(remaining, value)?;
            Ok(Prop::RegIs(core, reg, value))
        }
        SpelledSetting::Location(name, value) => {
            let value = word_at(remaining, value)?;
            let loc = located(names, remaining, name)?;
            Ok(Prop::LocIs(loc, value))
        }
    }
}

/// This atom and the tokens after it, with the atom counted; `TooLarge` at `remaining` for one too
/// many.
#[inline(always)]
fn counted<'a, 'b>(
    remaining: usize,
    atoms: &mut usize,
    atom: Prop,
    rest: &'b [Token<'a>],
) -> Result<(Prop, &'b [Token<'a>]), ReadError>
    ensures count { Gives (λ _. atoms.new) result (inner.one_more remaining atoms.old) }
    ensures atom { IfOk result (λ x. claim_of x.0 ≡ claim_of atom) }
    ensures rest { IfOk result (λ x. x.1.now ≡ rest.now) }
{
    if *atoms >= MAX_ATOMS {
        return Err(ReadError::Fault(Fault {
            why: Why::TooLarge,
            remaining,
        }));
    }
    *atoms += 1;
    Ok((atom, rest))
}

/// The atom at the front, after so many others, and the tokens after it.
///
/// `BadCondition` at a token that doesn't fit; then, at the atom's first token, `NoSuchCore`,
/// `BadNumber`, and `TooLarge` for a location or an atom too many.
#[tactic(auto, unfolding(crate::specs::Conditions::atom_at, crate::specs::Conditions::truth_at, crate::specs::Conditions::setting_atom))]
fn atom_at<'a, 'b>(
    stop: Stop,
    cores: usize,
    atoms: &mut usize,
    names: &mut Vec<&'a [u8]>,
    tokens: &'b [Token<'a>],
) -> Result<(Prop, &'b [Token<'a>]), ReadError>
    requires { cores ≤ most_cores }
    ensures value { GivesClaim (inner.atom_at stop cores) atoms.old names.old.items tokens.now result atoms.new names.new.items }
    ensures shorter { IfOk result (λ x. length x.1.now < length tokens.now) }
{
    let remaining = remaining_of(tokens);
    if let Some(rest) = after_word(b"true", tokens) {
        return counted(remaining, atoms, Prop::Truth(true), rest);
    }
    if let Some(rest) = after_word(b"false", tokens) {
        return counted(remaining, atoms, Prop::Truth(false), rest);
    }
    let (setting, rest) = setting_at(part_of(Why::BadCondition, stop), tokens)?;
    let prop = prop_of(cores, remaining, names, setting)?;
    counted(remaining, atoms, prop, rest)
}

/// What begins a unit in which others stand.
#[derive(Clone, Copy)]
enum Opening {
    Negation,
    Bracket,
}

/// The `~`, the `not` or the `(` at the front, and the tokens after it.
#[tactic(auto, unfolding(crate::specs::Conditions::negation_at))]
fn opening_at<'a, 'b>(tokens: &'b [Token<'a>]) -> Option<(Opening, &'b [Token<'a>])>
    ensures value { option_map (λ x. (x.0, pieces x.1.now)) result ≡ parts.opening_at (pieces tokens.now) }
    ensures shorter { IfSome result (λ x. length x.1.now < length tokens.now) }
{
    if let Some(inside) = after_symbol(Symbol::Tilde, tokens) {
        return Some((Opening::Negation, inside));
    }
    if let Some(inside) = after_word(b"not", tokens) {
        return Some((Opening::Negation, inside));
    }
    if let Some(inside) = after_symbol(Symbol::OpenRound, tokens) {
        return Some((Opening::Bracket, inside));
    }
    None
}

// What was read goes to the next three functions as it is, a refusal too: where a proposition is
// read, no other one has then to be let go.

/// The negation of what was read, and the tokens after it.
fn negated<'a, 'b>(
    alloc: Global,
    read: Result<(Prop, &'b [Token<'a>]), ReadError>,
) -> Result<(Prop, &'b [Token<'a>]), ReadError>
    ensures value { GivesNext parts.as_negation read.entry result }
    ensures shorter { IsNoLonger read.entry result }
{
    match read {
        Ok((inner, rest)) => Ok((Prop::Not(Box::new(alloc, inner)?), rest)),
        Err(error) => Err(error),
    }
}

/// What was read after a `(`, and the tokens after its `)`.
fn closed<'a, 'b>(
    stop: Stop,
    read: Result<(Prop, &'b [Token<'a>]), ReadError>,
) -> Result<(Prop, &'b [Token<'a>]), ReadError>
    ensures value { GivesNext (parts.closed stop) read.entry result }
    ensures shorter { IsNoLonger read.entry result }
{
    match read {
        Ok((prop, inside)) => match after_symbol(Symbol::CloseRound, inside) {
            Some(rest) => Ok((prop, rest)),
            None => Err(ReadError::Fault(part_of(Why::BadCondition, stop).unfit(inside))),
        },
        Err(error) => Err(error),
    }
}

/// What comes between two propositions.
#[derive(Clone, Copy)]
enum Joint {
    And,
    Or,
}

/// A proposition and what was read after it, with this between them, and the tokens after both.
#[inline(always)]
fn joined<'a, 'b>(
    alloc: Global,
    joint: Joint,
    left: Prop,
    read: Result<(Prop, &'b [Token<'a>]), ReadError>,
) -> Result<(Prop, &'b [Token<'a>]), ReadError>
    ensures value { GivesNext (parts.joined_to joint (claim_of left)) read.entry result }
    ensures shorter { IsNoLonger read.entry result }
{
    match read {
        Ok((right, rest)) => {
            let left = Box::new(alloc, left)?;
            let right = Box::new(alloc, right)?;
            let whole = match joint {
                Joint::And => Prop::And(left, right),
                Joint::Or => Prop::Or(left, right),
            };
            Ok((whole, rest))
        }
        Err(error) => Err(error),
    }
}

/// What stands around a condition: what the tokens after it end with, and the cores of its test.
#[derive(Clone, Copy)]
struct Surroundings {
    stop: Stop,
    cores: usize,
}

/// The unit of this opening, after which `inside` stands, and the tokens after the unit. So many more negations and brackets
/// may be open in it at once.
#[cycle(condition)]
fn opened_at<'a, 'b>(
    alloc: Global,
    around: Surroundings,
    opening: Opening,
    opens: usize,
    atoms: &mut usize,
    names: &mut Vec<&'a [u8]>,
    inside: &'b [Token<'a>],
) -> Result<(Prop, &'b [Token<'a>]), ReadError>
    requires { around.cores ≤ most_cores }
    ensures value { GivesClaim (parts.opened_at opening around.stop around.cores opens) atoms.old names.old.items inside.now result atoms.new names.new.items }
    ensures shorter { IfOk result (λ x. length x.1.now < length inside.now) }
{
    match opening {
        Opening::Negation => {
            let read = unit_at(alloc, around, opens, atoms, names, inside);
            negated(alloc, read)
        }
        Opening::Bracket => {
            let read = proposition_at(alloc, around, opens, atoms, names, inside);
            closed(around.stop, read)
        }
    }
}

/// The unit at the front, in which so many negations and brackets may be open at once, and the
/// tokens after it.
///
/// `TooLarge` at a negation or a bracket too many.
#[cycle(condition)]
fn unit_at<'a, 'b>(
    alloc: Global,
    around: Surroundings,
    opens: usize,
    atoms: &mut usize,
    names: &mut Vec<&'a [u8]>,
    tokens: &'b [Token<'a>],
) -> Result<(Prop, &'b [Token<'a>]), ReadError>
    requires { around.cores ≤ most_cores }
    ensures value { GivesClaim (inner.unit_at around.stop around.cores opens) atoms.old names.old.items tokens.now result atoms.new names.new.items }
    ensures shorter { IfOk result (λ x. length x.1.now < length tokens.now) }
{
    let Some((opening, inside)) = opening_at(tokens) else {
        return atom_at(around.stop, around.cores, atoms, names, tokens);
    };
    if opens == 0 {
        return Err(ReadError::Fault(Fault {
            why: Why::TooLarge,
            remaining: remaining_of(tokens),
        }));
    }
    opened_at(alloc, around, opening, opens - 1, atoms, names, inside)
}

/// Units joined by `/\`, and the tokens after them.
#[inline(always)]
#[cycle(condition)]
fn conjunction_at<'a, 'b>(
    alloc: Global,
    around: Surroundings,
    opens: usize,
    atoms: &mut usize,
    names: &mut Vec<&'a [u8]>,
    tokens: &'b [Token<'a>],
) -> Result<(Prop, &'b [Token<'a>]), ReadError>
    requires { around.cores ≤ most_cores }
    ensures value { GivesClaim (spec.conjunction_at around.stop around.cores opens) atoms.old names.old.items tokens.now result atoms.new names.new.items }
    ensures shorter { IfOk result (λ x. length x.1.now < length tokens.now) }
{
    let (mut prop, mut rest) = unit_at(alloc, around, opens, atoms, names, tokens)?;
    while let Some(next) = after_symbol(Symbol::And, rest) {
        let unit = unit_at(alloc, around, opens, atoms, names, next);
        let (whole, after) = joined(alloc, Joint::And, prop, unit)?;
        prop = whole;
        rest = after;
    }
    Ok((prop, rest))
}

/// Conjunctions joined by `\/`, and the tokens after them.
#[cycle(condition)]
fn proposition_at<'a, 'b>(
    alloc: Global,
    around: Surroundings,
    opens: usize,
    atoms: &mut usize,
    names: &mut Vec<&'a [u8]>,
    tokens: &'b [Token<'a>],
) -> Result<(Prop, &'b [Token<'a>]), ReadError>
    requires { around.cores ≤ most_cores }
    ensures value { GivesClaim (spec.proposition_at around.stop around.cores opens) atoms.old names.old.items tokens.now result atoms.new names.new.items }
    ensures shorter { IfOk result (λ x. length x.1.now < length tokens.now) }
{
    let (mut prop, mut rest) = conjunction_at(alloc, around, opens, atoms, names, tokens)?;
    while let Some(next) = after_symbol(Symbol::Or, rest) {
        let conjunction = conjunction_at(alloc, around, opens, atoms, names, next);
        let (whole, after) = joined(alloc, Joint::Or, prop, conjunction)?;
        prop = whole;
        rest = after;
    }
    Ok((prop, rest))
}

/// The condition, if there is one, and the tokens after it.
///
/// What is in a condition and doesn't fit is `BadCondition`.
#[tactic(auto, unfolding(crate::specs::Conditions::condition_at, crate::specs::Conditions::quantified))]
pub fn condition_at<'a, 'b>(
    alloc: Global,
    stop: Stop,
    cores: usize,
    names: &mut Vec<&'a [u8]>,
    tokens: &'b [Token<'a>],
) -> Result<(Option<Cond>, &'b [Token<'a>]), ReadError>
    requires { cores ≤ most_cores }
    ensures { GivesCondition result names.new.items (inner.condition_at stop cores (texts names.old.items) (pieces tokens.now)) }
{
    let (quantifier, rest) = if let Some(rest) = after_word(b"exists", tokens) {
        (Quantifier::Exists, rest)
    } else if let Some(rest) = after_word(b"forall", tokens) {
        (Quantifier::Forall, rest)
    } else if let Some(after) = after_symbol(Symbol::Tilde, tokens) {
        let Some(rest) = after_word(b"exists", after) else {
            return Err(ReadError::Fault(part_of(Why::BadCondition, stop).unfit(after)));
        };
        (Quantifier::NotExists, rest)
    } else {
        return Ok((None, tokens));
    };
    let mut atoms = 0;
    let around = Surroundings { stop, cores };
    let (prop, rest) = proposition_at(alloc, around, MAX_OPEN, &mut atoms, names, rest)?;
    Ok((Some(Cond { quantifier, prop }), rest))
}
