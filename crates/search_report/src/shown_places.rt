//! The places by which a part of what is asked is false, and what can stand there at the end.

ghost use Rattle.std.specs.Prelude.{◌≡◌, [], IfOk, OnOk, filter, map};
ghost use Rattle.std.specs.List.{list_any};
ghost use Rattle.tso_terms.specs.Condition.{claim_of};
ghost use Rattle.reading_tables.specs.Told.{fact_of, facts_of};
ghost use Rattle.possible_reads.specs.Possible as possible;
ghost use Rattle.reading_tables.specs.inner.Tables.{IsTold, readings_of};
ghost use Rattle.reading_tables.specs.inner.Told.{known_of};
ghost use Rattle.refutation_checker.specs.inner.Branches.{IsCase, knowledge_of};
ghost use Rattle.search_report.specs.Places as places;
ghost use Rattle.search_report.specs.Shown as spec;
ghost use Rattle.search_report.specs.inner.Views.{place_of};

use crate::shown::Place;
use reading_tables::ends::last_words;
use reading_tables::facts::Fact;
use reading_tables::tables::{Problem, Told};
use refutation_checker::claims::allows;
use refutation_checker::tables::values_left;
use std::alloc::Global;
use tso_report::named::Named;
use tso_terms::{NoMemory, Prop};

/// Whether both are one register, or one location.
fn is_same_place(one: Named, other: Named) -> bool
    ensures { result ≡ places.is_same_place one other }
{
    match (one, other) {
        (Named::Register(core, reg), Named::Register(further, named)) => {
            core.0 == further.0 && reg.index() == named.index()
        }
        (Named::Location(loc), Named::Location(named)) => loc.0 == named.0,
        _ => false,
    }
}

fn is_among(names: &[Named], named: Named) -> bool
    ensures { result ≡ list_any (places.is_same_place named) names.now }
{
    for name in names {
        if is_same_place(named, *name) {
            return true;
        }
    }
    false
}

/// Adds a register or location, if it isn't there yet.
fn add_name(names: &mut Vec<Named>, named: Named) -> Result<(), NoMemory>
    ensures { OnOk result (names.new.items ≡ spec.with_named named names.old.items) }
{
    if !is_among(names, named) {
        names.push(named)?;
    }
    Ok(())
}

/// Adds the registers and locations that a proposition names.
fn add_names(names: &mut Vec<Named>, prop: &Prop) -> Result<(), NoMemory>
    ensures { OnOk result (names.new.items ≡ spec.with_names_of (claim_of prop.now) names.old.items) }
{
    match prop {
        Prop::Truth(_) => Ok(()),
        Prop::RegIs(core, reg, _) => add_name(names, Named::Register(*core, *reg)),
        Prop::LocIs(loc, _) => add_name(names, Named::Location(*loc)),
        Prop::Not(inner) => add_names(names, inner),
        Prop::And(left, right) | Prop::Or(left, right) => {
            add_names(names, left)?;
            add_names(names, right)
        }
    }
}

fn is_on_events(fact: &Fact<'_>) -> bool
    ensures { result ≡ spec.is_on_events (fact_of fact.now) }
{
    match fact {
        Fact::Holds(_, _) => false,
        _ => true,
    }
}

fn facts_on_events<'a>(alloc: Global, facts: &[Fact<'a>]) -> Result<Vec<Fact<'a>>, NoMemory>
    ensures { IfOk result (λ kept. facts_of kept.items ≡ filter spec.is_on_events (facts_of facts.now)) }
{
    let mut kept = Vec::new(alloc);
    for fact in facts {
        if is_on_events(fact) {
            kept.push(*fact)?;
        }
    }
    Ok(kept)
}

/// What the last write to a location can leave there, whatever is asked of the final state.
fn words_by_events(alloc: Global, told: Told<'_>, loc: u8) -> Result<Option<Vec<u32>>, NoMemory>
    requires { IsTold told }
    ensures { IfOk result (λ v. known_of v ≡ possible.last_words told.entry.test.now
        (filter spec.is_on_events (facts_of told.entry.facts.now)) (readings_of told.entry.readings.now) loc) }
{
    let facts = facts_on_events(alloc, told.facts)?;
    let by_events = Told {
        test: told.test,
        events: told.events,
        makings: told.makings,
        written: told.written,
        others_first: told.others_first,
        facts: &facts,
        readings: told.readings,
        made: told.made,
        values: told.values,
        least: told.least,
    };
    last_words(alloc, by_events, loc)
}

/// The same, and by what is asked too where that can be any value.
fn words_left_at(alloc: Global, told: Told<'_>, loc: u8) -> Result<Option<Vec<u32>>, NoMemory>
    requires { IsTold told }
    ensures { IfOk result (λ v. known_of v ≡ spec.words_left_at told.entry.test.now (knowledge_of told.entry) loc) }
{
    match words_by_events(alloc, told, loc)? {
        Some(words) => Ok(Some(words)),
        None => last_words(alloc, told, loc),
    }
}

/// What a register can hold at the end, or what the last write to a location can leave there.
fn values_left_at(
    alloc: Global,
    problem: &Problem<'_>,
    told: Told<'_>,
    named: Named,
) -> Result<Option<Vec<u32>>, NoMemory>
    requires { IsCase problem.now told }
    ensures { IfOk result (λ v. known_of v ≡ spec.values_left_at told.entry.test.now (knowledge_of told.entry) named) }
{
    match named {
        Named::Register(core, reg) => values_left(alloc, problem, told, core, reg),
        Named::Location(loc) => words_left_at(alloc, told, loc.0),
    }
}

/// The places that a proposition names, with what can stand there, where it is known.
fn places_in(
    alloc: Global,
    problem: &Problem<'_>,
    told: Told<'_>,
    prop: &Prop,
) -> Result<Vec<Place>, NoMemory>
    requires { IsCase problem.now told }
    ensures { IfOk result (λ places. map place_of places.items
        ≡ spec.places_at told.entry.test.now (knowledge_of told.entry) (spec.with_names_of (claim_of prop.now) [])) }
{
    let mut names = Vec::new(alloc);
    add_names(&mut names, prop)?;
    let mut places = Vec::new(alloc);
    for named in &names {
        if let Some(values) = values_left_at(alloc, problem, told, *named)? {
            places.push(Place {
                named: *named,
                values,
            })?;
        }
    }
    Ok(places)
}

/// The places of the first fact of the branch that can't be so.
///
/// Errors: out of memory only.
pub fn places_false(
    alloc: Global,
    problem: &Problem<'_>,
    told: Told<'_>,
) -> Result<Vec<Place>, NoMemory>
    requires { IsCase problem.now told }
    ensures { IfOk result (λ places. map place_of places.items
        ≡ spec.places_false told.entry.test.now (knowledge_of told.entry) (facts_of told.entry.facts.now)) }
{
    for fact in told.facts {
        if let Fact::Holds(prop, truth) = fact {
            if !allows(alloc, problem, told, prop, *truth)? {
                return places_in(alloc, problem, told, prop);
            }
        }
    }
    Ok(Vec::new(alloc))
}
