//! How the search reached a state: from which one, by which choices, and by which exchanges of alike cores after them. Back
//! along the links are the choices that lead to each final state; an exchange is made in all those before it.
ghost use Rattle.std.specs.Prelude.{◌≡◌, ◌<◌, ◌++◌, length, map, IfOk};
ghost use Rattle.explorer.specs.declared.link.Turn.{Turn};
ghost use Rattle.explorer.specs.inner.Settled.{GoBack, IsPath};

use crate::exchange::exchange_choices;
use std::alloc::Global;
use tso_laws::{alike_cores_are_exchangeable, dead_registers_change_nothing};
use tso_terms::{Choice, NoMemory};

/// What leads on from a state: a choice, or an exchange of two cores that are alike. Both are told in one
/// list, since as many of these are kept as there are states.
#[derive(Clone, Copy)]
pub enum Turn {
    Made(Choice),
    Exchanged((u8, u8)),
}

/// How a state was reached: from which one, by its number, and by which choices and exchanges. The
/// first was reached from the beginning of the test, and its `from` says nothing.
#[derive(Drop)]
pub struct Link {
    pub from: usize,
    pub turns: Vec<Turn>,
}

/// These choices and then these exchanges, with no room to spare.
///
/// Errors: out of memory only.
pub fn turns_of(
    alloc: Global,
    choices: &[Choice],
    exchanges: &[(u8, u8)],
) -> Result<Vec<Turn>, NoMemory>
    ensures { IfOk result (λ turns. turns.items ≡ map Turn.Made choices.now ++ map Turn.Exchanged exchanges.now) }
{
    let count = choices.len().saturating_add(exchanges.len());
    let mut turns = Vec::with_capacity(alloc, count)?;
    for choice in choices {
        turns.push(Turn::Made(*choice))?;
    }
    for pair in exchanges {
        turns.push(Turn::Exchanged(*pair))?;
    }
    Ok(turns)
}

/// The choices that lead from the beginning of the test to the state of this number: an exchange is made in all choices before it.
///
/// Errors: out of memory only.
pub fn path(alloc: Global, links: &[Link], at: usize) -> Result<Vec<Choice>, NoMemory>
    requires at { at < length links.now }
    requires back { GoBack links.now }
    ensures { IfOk result (λ choices. IsPath links.now at choices.items) }
{
    alike_cores_are_exchangeable();
    dead_registers_change_nothing();
    let mut choices = Vec::new(alloc);
    if at > 0 {
        choices = path(alloc, links, links[at].from)?;
    }
    for turn in &links[at].turns {
        match *turn {
            Turn::Made(choice) => choices.push(choice)?,
            Turn::Exchanged(pair) => exchange_choices(&mut choices, pair),
        }
    }
    Ok(choices)
}
