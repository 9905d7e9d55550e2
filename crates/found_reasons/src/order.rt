//! The order of a full case that no leaf closes: its events in a row, with their values.
ghost use Rattle.std.specs.Prelude.{◌≡◌, IfOk, map};
ghost use Rattle.refutation_laws.specs.Known.{events_of};
ghost use Rattle.refutation_laws.specs.inner.Orders as spec;
ghost use Rattle.refutations.specs.inner.Trees.{known_of};
ghost use Rattle.refutations.specs.inner.Facts.{AreFacts};
ghost use Rattle.refutation_laws.specs.Refutations.{asked_claim};
ghost use Rattle.refutation_laws.specs.Models.{IsMet};
ghost use Rattle.refutation_laws.specs.inner.FullCases.{IsFull, IsSound};
ghost use Rattle.found_reasons.specs.inner.Cases.{IsAllowedCase};

use crate::sorting::{Precedence, sort};
use refutation_laws::Model;
use refutations::events::{are_parts, is_access};
use refutations::{Answers, Branch, Facts, known_facts, value_known};
use std::alloc::Global;
use tso_terms::{Entry, Kind, NoMemory, Test};

/// The event with its value; a fence has 0.
fn valued(test: &Test, events: &[Entry], answers: &Answers, facts: &Facts, e: &Entry) -> Entry
    requires events { events.now ≡ events_of test.now }
    requires facts { AreFacts test.now (known_of answers.now) facts.now }
    ensures { result ≡ spec.valued test.now (known_of answers.now) e.now }
{
    let value = if is_access(e) {
        value_known(test, events, answers, facts, e).unwrap_or(0)
    } else {
        0
    };
    Entry { value, ..*e }
}

/// A row with each load part directly before its store part, and with the values of all.
fn order_along(
    alloc: Global,
    test: &Test,
    events: &[Entry],
    answers: &Answers,
    facts: &Facts,
    row: &[Entry],
) -> Result<Vec<Entry>, NoMemory>
    requires events { events.now ≡ events_of test.now }
    requires facts { AreFacts test.now (known_of answers.now) facts.now }
    ensures { IfOk result (λ o. o.items ≡ map (spec.valued test.now (known_of answers.now)) (spec.with_loads events.now row.now)) }
{
    let mut order = Vec::new(alloc);
    for x in row {
        for r in events {
            if are_parts(r, x) {
                order.push(valued(test, events, answers, facts, r))?;
            }
        }
        order.push(valued(test, events, answers, facts, x))?;
    }
    Ok(order)
}

/// The order of a full case that no leaf closes.
///
/// Errors: out of memory only.
pub fn make_order(
    alloc: Global,
    test: &Test,
    events: &[Entry],
    model: Model,
    answers: &Answers,
) -> Result<Vec<Entry>, NoMemory>
    requires events { events.now ≡ events_of test.now }
    requires full { IsFull test.now (known_of answers.now) }
    requires sound { IsSound test.now (known_of answers.now) }
    requires allowed { IsAllowedCase model test.now (known_of answers.now) }
    ensures { IfOk result (λ o. IsMet model test.now (asked_claim test.now.condition) o.items) }
{
    test.know_limits();
    // All events but load parts.
    let mut others = Vec::new(alloc);
    for e in events {
        if e.kind != Kind::LR {
            others.push(*e)?;
        }
    }
    let branch = Branch {
        test,
        events,
        answers,
    };
    let sorted = sort(alloc, Precedence::Order(branch, model), &others)?;
    let facts = known_facts(alloc, test, events, answers)?;
    order_along(alloc, test, events, answers, &facts, &sorted.row)
}
