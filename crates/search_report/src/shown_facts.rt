//! Facts as they are shown.

ghost use Rattle.std.specs.Prelude.{◌≡◌, ◌++◌, IfOk, None, OnOk, map, true};
ghost use Rattle.std.specs.Option.{option_map};
ghost use Rattle.reading_tables.specs.Told.{fact_of, facts_of};
ghost use Rattle.reading_tables.specs.inner.Tables.{IsTold};
ghost use Rattle.lemma_refutations.specs.Refutations.{known_from};
ghost use Rattle.refutation_checker.specs.inner.Branches.{knowledge_of};
ghost use Rattle.search_report.specs.Shown as spec;
ghost use Rattle.search_report.specs.inner.ShownViews.{shown_anywhere as spec_shown_anywhere, shown_fact_of};

use crate::shown::{Event, ShownFact};
use crate::shown_events::{event_at, source_at};
use crate::shown_text::holds_text;
use reading_tables::facts::Fact;
use reading_tables::tables::Told;
use std::alloc::Global;
use tso_terms::{Entry, NoMemory, Prop, Test};

/// What a read returns, or doesn't.
fn shown_value(read: &Entry, value: u32, truth: bool) -> ShownFact
    ensures { shown_fact_of result ≡ spec.Returns (record { entry = read.now; value = None }) value truth }
{
    let read = Event {
        entry: *read,
        value: None,
    };
    ShownFact::Returns(read, value, truth)
}

/// A fact that is shown alike wherever it stands, since what is told of the values of events doesn't count.
///
/// Errors: out of memory only.
fn shown_anywhere(
    alloc: Global,
    test: &Test,
    fact: &Fact<'_>,
) -> Result<Option<ShownFact>, NoMemory>
    ensures { IfOk result (λ shown. option_map shown_fact_of shown ≡ spec_shown_anywhere test.now (fact_of fact.now)) }
{
    match fact {
        Fact::From(..) | Fact::Before(..) | Fact::Last(..) => Ok(None),
        Fact::Returns(read, value, truth) => Ok(Some(shown_value(read, *value, *truth))),
        Fact::Holds(prop, truth) => {
            Ok(Some(ShownFact::Holds(holds_text(alloc, test, prop, *truth)?)))
        }
    }
}

/// A fact, with its events as they are shown.
///
/// Errors: out of memory only.
fn shown_at(alloc: Global, told: Told<'_>, fact: &Fact<'_>) -> Result<ShownFact, NoMemory>
    requires { IsTold told }
    ensures { IfOk result (λ shown. shown_fact_of shown ≡ spec.shown_at told.entry.test.now (knowledge_of told.entry) (fact_of fact.now)) }
{
    let shown = match fact {
        Fact::From(read, write, truth) => {
            ShownFact::From(event_at(told, read), source_at(told, write), *truth)
        }
        Fact::Before(first, second) => {
            ShownFact::Before(event_at(told, first), event_at(told, second))
        }
        Fact::Last(write, truth) => ShownFact::Last(event_at(told, write), *truth),
        Fact::Returns(read, value, truth) => shown_value(read, *value, *truth),
        Fact::Holds(prop, truth) => ShownFact::Holds(holds_text(alloc, told.test, prop, *truth)?),
    };
    Ok(shown)
}

/// Adds all these facts, as they are shown.
///
/// Errors: out of memory only.
pub fn add_all(
    alloc: Global,
    shown: &mut Vec<ShownFact>,
    told: Told<'_>,
    facts: &[Fact<'_>],
) -> Result<(), NoMemory>
    requires { IsTold told }
    ensures { OnOk result (map shown_fact_of shown.new.items ≡ map shown_fact_of shown.old.items
        ++ map (spec.shown_at told.entry.test.now (knowledge_of told.entry)) (facts_of facts.now)) }
{
    for fact in facts {
        shown.push(shown_at(alloc, told, fact)?)?;
    }
    Ok(())
}

/// Whether it is what a register holds at the end, and the fact that it gives comes next.
fn is_said_next(fact: &Fact<'_>, rest: &[Fact<'_>]) -> bool
    ensures { result ≡ spec.is_said_next (fact_of fact.now) (facts_of rest.now) }
{
    matches!(
        (fact, rest.first()),
        (Fact::Holds(Prop::RegIs(..), _), Some(Fact::Returns(..)))
    )
}

/// Adds facts that the claim gives, or that answer a question, as they are shown.
///
/// Errors: out of memory only.
pub fn add_shown(
    alloc: Global,
    shown: &mut Vec<ShownFact>,
    told: Told<'_>,
    facts: &[Fact<'_>],
) -> Result<(), NoMemory>
    requires { IsTold told }
    ensures { OnOk result (map shown_fact_of shown.new.items ≡ map shown_fact_of shown.old.items
        ++ spec.shown_facts told.entry.test.now (knowledge_of told.entry) (facts_of facts.now)) }
{
    for at in 0..facts.len() {
        let fact = &facts[at];
        if !is_said_next(fact, &facts[at + 1..]) {
            shown.push(shown_at(alloc, told, fact)?)?;
        }
    }
    Ok(())
}

/// Adds facts that the claim gives, as they are shown, as long as each is shown alike wherever it stands: whether all are.
///
/// Errors: out of memory only.
pub fn add_shown_anywhere(
    alloc: Global,
    shown: &mut Vec<ShownFact>,
    test: &Test,
    facts: &[Fact<'_>],
) -> Result<bool, NoMemory>
    ensures { IfOk result (λ all. all ≡ true → map shown_fact_of shown.new.items ≡ map shown_fact_of shown.old.items
        ++ spec.shown_facts test.now (known_from test.now (facts_of facts.now)) (facts_of facts.now)) }
{
    for at in 0..facts.len() {
        let fact = &facts[at];
        if !is_said_next(fact, &facts[at + 1..]) {
            let Some(fact) = shown_anywhere(alloc, test, fact)? else {
                return Ok(false);
            };
            shown.push(fact)?;
        }
    }
    Ok(true)
}
