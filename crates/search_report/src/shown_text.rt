//! What is shown of a branch, as text: facts, and why the branch is closed.

ghost use Rattle.std.specs.Prelude.{◌≡◌, ◌++◌, IfOk, OnOk, string_bytes};
ghost use Rattle.tso_terms.specs.Condition.{claim_of};
ghost use Rattle.search_report.specs.ReasonText.{event_text};
ghost use Rattle.search_report.specs.ClaimText as claims;
ghost use Rattle.search_report.specs.ShownText as spec;
ghost use Rattle.search_report.specs.inner.ShownViews.{shown_closing_of, shown_fact_of, subject_of};
ghost use Rattle.search_report.specs.inner.LineViews.{shown_facts_of};

use crate::contents::Content;
use crate::contents_as_text::write_shown;
use crate::items::{Written, write_separated};
use crate::keys::write_key;
use crate::shown::{Closing, Event, ShownFact, Subject};
use std::alloc::Global;
use tso_report::named::Named;
use tso_report::pieces::{Piece, write_characters, write_pieces};
use tso_terms::{NoMemory, Prop, Test};

// ---- propositions

/// `=1`, or ` not 1`
fn write_value(text: &mut String, value: u32, truth: bool) -> Result<(), NoMemory>
    ensures { OnOk result (string_bytes text.new ≡ string_bytes text.old ++ claims.value_text value truth) }
{
    let before = if truth { "=" } else { " not " };
    write_pieces(text, &[Piece::Text(before), Piece::Number(value as u64)])
}

/// `0:EAX=1`, or `x not 1`
fn write_atom(
    text: &mut String,
    test: &Test,
    named: Named,
    value: u32,
    truth: bool,
) -> Result<(), NoMemory>
    ensures { OnOk result (string_bytes text.new ≡ string_bytes text.old ++ claims.atom_text test.now named value truth) }
{
    write_key(text, test, named)?;
    write_value(text, value, truth)
}

/// A proposition as conditions have it, with brackets around each one that is joined.
fn write_claim(text: &mut String, test: &Test, prop: &Prop) -> Result<(), NoMemory>
    ensures { OnOk result (string_bytes text.new ≡ string_bytes text.old ++ claims.claim_text test.now (claim_of prop.now)) }
{
    match prop {
        Prop::Truth(truth) => write_pieces(text, &[Piece::Truth(*truth)]),
        Prop::RegIs(core, reg, value) => {
            write_atom(text, test, Named::Register(*core, *reg), *value, true)
        }
        Prop::LocIs(loc, value) => write_atom(text, test, Named::Location(*loc), *value, true),
        Prop::Not(inner) => {
            write_characters(text, "~")?;
            write_claim(text, test, inner)
        }
        Prop::And(left, right) | Prop::Or(left, right) => {
            let between = if matches!(prop, Prop::And(..)) {
                " /\\ "
            } else {
                " \\/ "
            };
            write_characters(text, "(")?;
            write_claim(text, test, left)?;
            write_characters(text, between)?;
            write_claim(text, test, right)?;
            write_characters(text, ")")
        }
    }
}

/// That a proposition is true, or false.
fn write_holds(text: &mut String, test: &Test, prop: &Prop, truth: bool) -> Result<(), NoMemory>
    ensures { OnOk result (string_bytes text.new ≡ string_bytes text.old ++ claims.holds_text test.now (claim_of prop.now) truth) }
{
    match prop {
        Prop::RegIs(core, reg, value) => {
            write_atom(text, test, Named::Register(*core, *reg), *value, truth)
        }
        Prop::LocIs(loc, value) => write_atom(text, test, Named::Location(*loc), *value, truth),
        _ => {
            write_characters(text, if truth { "" } else { "~" })?;
            write_claim(text, test, prop)
        }
    }
}

/// That a proposition is true, or false, as a text.
///
/// Errors: out of memory only.
pub fn holds_text(alloc: Global, test: &Test, prop: &Prop, truth: bool) -> Result<String, NoMemory>
    ensures { IfOk result (λ text. string_bytes text ≡ claims.holds_text test.now (claim_of prop.now) truth) }
{
    let mut text = String::new(alloc);
    write_holds(&mut text, test, prop, truth)?;
    Ok(text)
}

// ---- facts

fn write_event(text: &mut String, test: &Test, event: &Event) -> Result<(), NoMemory>
    ensures { OnOk result (string_bytes text.new ≡ string_bytes text.old ++ event_text test.now event.now) }
{
    write_shown(text, test, Content::Event(event))
}

fn not_text(truth: bool) -> &'static str
    ensures { result.now ≡ spec.not_text truth }
{
    if truth { "" } else { " not" }
}

/// `P0:1 R x=0 from initial`, `P0:0 W x=1 not last`
impl Written for ShownFact {
    ghost written = { λ t f. spec.fact_text t (shown_fact_of f) };

    fn write(&self, text: &mut String, test: &Test) -> Result<(), NoMemory> {
        match self {
            ShownFact::From(read, write, truth) => {
                write_event(text, test, read)?;
                write_characters(text, not_text(*truth))?;
                write_characters(text, " from ")?;
                write.write(text, test)
            }
            ShownFact::Before(first, second) => {
                write_event(text, test, first)?;
                write_characters(text, " before ")?;
                write_event(text, test, second)
            }
            ShownFact::Last(write, truth) => {
                write_event(text, test, write)?;
                write_characters(text, not_text(*truth))?;
                write_characters(text, " last")
            }
            ShownFact::Returns(read, value, truth) => {
                write_event(text, test, read)?;
                write_value(text, *value, *truth)
            }
            ShownFact::Holds(holds) => write_characters(text, holds),
        }
    }
}

/// Facts, with `, ` between them.
impl Written for Vec<ShownFact> {
    ghost written = { λ t facts. spec.facts_text t (shown_facts_of facts) };

    fn write(&self, text: &mut String, test: &Test) -> Result<(), NoMemory> {
        write_separated(text, test, ", ", self)
    }
}

// ---- why a branch is closed

/// `P0:0 LR x=0`, `x initial`, or `x`
impl Written for Subject {
    ghost written = { λ t s. spec.subject_text t (subject_of s) };

    fn write(&self, text: &mut String, test: &Test) -> Result<(), NoMemory> {
        match self {
            Subject::OfEvent(event) => write_event(text, test, event),
            Subject::OfInitial(loc) => {
                write_key(text, test, Named::Location(*loc))?;
                write_characters(text, " initial")
            }
            Subject::OfLocation(loc) => write_key(text, test, Named::Location(*loc)),
        }
    }
}

/// `Cycle P0:0 W x=1 po ..`, `No source P0:0 LR x=0`
impl Written for Closing {
    ghost written = { λ t c. spec.closing_text t (shown_closing_of c) };

    fn write(&self, text: &mut String, test: &Test) -> Result<(), NoMemory> {
        match self {
            Closing::Uniproc(edges) => {
                write_characters(text, "Uniproc")?;
                write_shown(text, test, Content::Cycle(edges))
            }
            Closing::Cycle(edges) => {
                write_characters(text, "Cycle")?;
                write_shown(text, test, Content::Cycle(edges))
            }
            Closing::Between(read, between, write) => {
                write_characters(text, "Between ")?;
                write_event(text, test, read)?;
                write_characters(text, " ")?;
                write_event(text, test, between)?;
                write_characters(text, " ")?;
                write_event(text, test, write)
            }
            Closing::False(places) => {
                write_characters(text, "False")?;
                write_shown(text, test, Content::Places(places))
            }
            Closing::NoAnswer(kind, subject) => {
                write_pieces(
                    text,
                    &[Piece::Text("No "), Piece::Text(kind), Piece::Text(" ")],
                )?;
                subject.write(text, test)
            }
            Closing::ByLemma(number) => {
                write_pieces(
                    text,
                    &[Piece::Text("By lemma "), Piece::Number(*number as u64)],
                )
            }
        }
    }
}

/// What is written of an item, by itself.
///
/// Errors: out of memory only.
pub fn text_of<T: Written>(alloc: Global, test: &Test, item: &T) -> Result<String, NoMemory>
    ensures { IfOk result (λ text. string_bytes text ≡ T.written test.now item.now) }
{
    let mut text = String::new(alloc);
    item.write(&mut text, test)?;
    Ok(text)
}
