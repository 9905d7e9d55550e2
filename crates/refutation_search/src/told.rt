//! Facts, nodes and lemmas as the checker has them.

use crate::edges::Acyclic;
use crate::facts::{Fact, Question};
use crate::leaves::Leaf;
use crate::lists::List;
use crate::replay::{Node, Sheet};
use crate::setting::Setting;
use crate::state::State;
use reading_tables::facts::Fact as Told;
use reading_tables::rounds::make_table;
use reading_tables::tables::{Problem, make_problem, reading_for};
use refutation_checker::Node as Checked;
use std::alloc::Global;
use tso_terms::{Entry, Loc, NoMemory};

fn entry(setting: &Setting<'_>, a: usize) -> Entry {
    setting.events.at(a).entry
}

fn source(setting: &Setting<'_>, s: usize) -> Option<Entry> {
    if s < setting.locations {
        None
    } else {
        Some(entry(setting, s))
    }
}

/// The location with this number.
fn location(x: usize) -> Loc {
    Loc(u8::try_from(x).unwrap_or(u8::MAX))
}

/// A fact as the checker has it; none where it names no part of what is asked.
pub fn told_fact<'t>(setting: &Setting<'t>, fact: Fact) -> Option<Told<'t>> {
    match fact {
        Fact::From(r, s, truth) => Some(Told::From(entry(setting, r), source(setting, s), truth)),
        Fact::Before(w, v) => Some(Told::Before(entry(setting, w), entry(setting, v))),
        Fact::Last(w, truth) => Some(Told::Last(entry(setting, w), truth)),
        Fact::Returns(r, value, truth) => Some(Told::Returns(entry(setting, r), value, truth)),
        Fact::Holds(part, truth) => match setting.parts.at(part).prop {
            Some(prop) => Some(Told::Holds(prop, truth)),
            None => None,
        },
        Fact::Given(..) => None,
    }
}

/// Adds facts as the checker has them.
pub fn add_told<'t>(
    setting: &Setting<'t>,
    facts: &List<Fact>,
    told: &mut Vec<Told<'t>>,
) -> Result<(), NoMemory> {
    for i in 0..facts.len() {
        if let Some(fact) = told_fact(setting, facts.at(i)) {
            told.push(fact)?;
        }
    }
    Ok(())
}

/// The values of a read in the checker's order.
fn told_values(
    setting: &Setting<'_>,
    problem: &Problem<'_>,
    state: &State,
    r: usize,
    answers: &mut List<Fact>,
) -> Result<(), NoMemory> {
    let mut facts = Vec::new(setting.alloc);
    for i in (0..state.facts.len()).rev() {
        if let Some(fact) = told_fact(setting, state.facts.at(i)) {
            facts.push(fact)?;
        }
    }
    // Its own, of which it is known that it fits the test.
    let whole = make_problem(setting.alloc, problem.test)?;
    let table = make_table(setting.alloc, &whole, &facts)?;
    if let Some(reading) = reading_for(&table.readings, &entry(setting, r)) {
        if let Some(values) = &reading.values {
            for value in values {
                answers.push(Fact::Returns(r, *value, true));
            }
        }
    }
    Ok(())
}

/// Adds the values that a read can return, in the checker's order.
pub fn told_answers(
    setting: &Setting<'_>,
    problem: &Problem<'_>,
    state: &State,
    r: usize,
    answers: &mut List<Fact>,
) {
    answers.is_refused |= told_values(setting, problem, state, r, answers).is_err();
}

fn told_cycle(
    setting: &Setting<'_>,
    events: &List<usize>,
    start: usize,
    length: usize,
) -> Result<Vec<Entry>, NoMemory> {
    let mut cycle = Vec::new(setting.alloc);
    for i in 0..length {
        let a = events.at(start.wrapping_add(i));
        cycle.push(entry(setting, a))?;
    }
    Ok(cycle)
}

fn told_question<'t>(setting: &Setting<'t>, question: Question, number: usize) -> Checked<'t> {
    match question {
        Question::ReadsFrom(r) => Checked::ReadsFrom(entry(setting, r)),
        Question::ReadsValue(r) => Checked::ReadsValue(entry(setting, r)),
        Question::ComesFirst(a, b) => {
            Checked::Asks(Told::Before(entry(setting, a), entry(setting, b)))
        }
        Question::IsReadBy(x, s) => { Checked::IsReadBy(location(x), source(setting, s)) }
        Question::ComesLast(x) => Checked::ComesLast(location(x)),
        Question::HasCase(..) => Checked::HasCase(number),
        Question::IsSo(fact) => match told_fact(setting, fact) {
            Some(told) => Checked::Asks(told),
            None => Checked::FalseClaim,
        },
        Question::Nothing => Checked::FalseClaim,
    }
}

/// A leaf as the checker has it; lemmas have the numbers that `numbers` says.
fn told_leaf<'t>(
    setting: &Setting<'t>,
    events: &List<usize>,
    numbers: &List<usize>,
    leaf: Leaf,
) -> Result<Checked<'t>, NoMemory> {
    Ok(match leaf {
        Leaf::NoSource(r) => Checked::ReadsFrom(entry(setting, r)),
        Leaf::NoValue(r) => Checked::ReadsValue(entry(setting, r)),
        Leaf::NoReader(x, s) => { Checked::IsReadBy(location(x), source(setting, s)) }
        Leaf::NoLast(x) => Checked::ComesLast(location(x)),
        Leaf::Between(r, v) => Checked::Between(
            entry(setting, r),
            entry(setting, v),
            entry(setting, r.wrapping_add(1)),
        ),
        Leaf::Cycle(acyclic, start, length) => {
            let cycle = told_cycle(setting, events, start, length)?;
            match acyclic {
                Acyclic::OnLocation => Checked::OnLocation(cycle),
                Acyclic::Globally => Checked::Globally(cycle),
            }
        }
        Leaf::ByLemma(lemma) => Checked::ByLemma(numbers.at(lemma)),
        Leaf::False | Leaf::Nothing => Checked::FalseClaim,
    })
}

/// The nodes of a sheet from this one on, up to another one, as the checker has them.
pub fn told_nodes<'t>(
    alloc: Global,
    setting: &Setting<'t>,
    sheet: &Sheet,
    numbers: &List<usize>,
    from: usize,
    to: usize,
) -> Result<Vec<Checked<'t>>, NoMemory> {
    let mut nodes = Vec::new(alloc);
    for i in from..to {
        nodes.push(match sheet.nodes.at(i) {
            Node::Asks(question, _, number) => told_question(setting, question, number),
            Node::Ends(leaf) => told_leaf(setting, &sheet.events, numbers, leaf)?,
        })?;
    }
    Ok(nodes)
}
