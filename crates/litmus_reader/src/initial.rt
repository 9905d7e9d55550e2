//! The initial state: its items, and the first words that they give. A core that it names may not exist, which is known
//! only after the header row: so such words are kept with their places.

ghost use Rattle.litmus_tokens.specs.inner.Pieces.{pieces};
ghost use Rattle.std.specs.Prelude.{◌≡◌, ◌≤◌, ◌<◌, [], length, map, replicate, IfOk, OnOk};
ghost use Rattle.tso_terms.specs.Limits.{most_cores};
ghost use Rattle.litmus_tokens.specs.Faults.{Gives};
ghost use Rattle.litmus_tokens.specs.Locations.{texts};
ghost use Rattle.litmus_reader.specs.inner.Settings.{setting_of};
ghost use Rattle.litmus_reader.specs.Initial as inner;
ghost use Rattle.litmus_reader.specs.inner.Initial.{given_of, KnowsGiven};
ghost use Rattle.litmus_reader.specs.inner.Returned.{GivesJudged, GivesItem, GivesInitial, so_far};
ghost use Rattle.litmus_reader.specs.inner.Sections.{tokens_in, stop_of};
ghost use Rattle.litmus_reader.specs.Places as places;

use crate::fault::{Part, at_stop, remaining_of};
use crate::section::{after_opening, read_item_tokens};
use crate::setting::{SpelledSetting, core_of, setting_at};
use indexmap::IndexSet;
use litmus_cells::{Fault, ReadError, Why, located, word_at};
use litmus_tokens::{Instructions, Stop, Symbol, Token, after_symbol};
use std::alloc::Global;
use tso_terms::{NoMemory, Reg};

/// A register's first word, and the place of the item that gives it. The core is its digits: it may
/// be one that the test hasn't.
#[derive(Clone, Copy)]
pub struct RegisterWord<'a> {
    pub remaining: usize,
    pub core: &'a [u8],
    pub reg: Reg,
    pub value: u32,
}

/// What the initial state gives.
#[derive(Drop)]
pub struct Initial<'a> {
    /// The words of the locations that it names, by their numbers.
    pub words: Vec<u32>,
    pub registers: Vec<RegisterWord<'a>>,
    /// Which registers these are, so that one is found among many at once: the digits of the core, and
    /// the register's number.
    given: IndexSet<(&'a [u8], usize)>,
}

/// Notes an item whose first token is at `remaining`.
///
/// `BadNumber`, then `TooLarge` for a location too many, then `TwiceInit`, all at `remaining`.
#[tactic(auto, using(crate::proofs::Listed::judged_twice, crate::proofs::Listed::judged_new), unfolding(crate::specs::Initial::judged))]
fn note_item<'a>(
    remaining: usize,
    state: &mut Initial<'a>,
    names: &mut Vec<&'a [u8]>,
    item: SpelledSetting<'a>,
) -> Result<(), ReadError>
    requires { KnowsGiven state.old }
    ensures knows { OnOk result (KnowsGiven state.new) }
    ensures value { GivesJudged remaining (setting_of item.entry) names.old.items state.old result names.new.items state.new }
{
    let twice = Fault {
        why: Why::TwiceInit,
        remaining,
    };
    match item {
        SpelledSetting::Register(core, reg, numeral) => {
            let value = word_at(remaining, numeral)?;
            let is_first = state.given.insert((core, reg.index()))?;
            if !is_first {
                return Err(ReadError::Fault(twice));
            }
            state.registers.push(RegisterWord {
                remaining,
                core,
                reg,
                value,
            })?;
        }
        SpelledSetting::Location(name, numeral) => {
            let value = word_at(remaining, numeral)?;
            let loc = located(names, remaining, name)?;
            if (loc.0 as usize) < state.words.len() {
                return Err(ReadError::Fault(twice));
            }
            state.words.push(value)?;
        }
    }
    Ok(())
}

/// Where an item ends here, whether the initial state ends with it.
#[tactic(auto, unfolding(crate::specs::Initial::item_end))]
fn item_end(tokens: &[Token<'_>]) -> Option<bool>
    ensures { result ≡ inner.item_end (pieces tokens.now) }
{
    if after_symbol(Symbol::Semicolon, tokens).is_some() {
        return Some(false);
    }
    if after_symbol(Symbol::CloseCurly, tokens).is_some() {
        return Some(true);
    }
    None
}

/// Reads an item, which may be empty, with its end, and answers whether the initial state ends with it. The state begins at
/// `remaining`.
#[tactic(auto, unfolding(crate::specs::Initial::item_in))]
fn read_item<'a>(
    remaining: usize,
    stop: Stop,
    state: &mut Initial<'a>,
    names: &mut Vec<&'a [u8]>,
    tokens: &[Token<'a>],
) -> Result<bool, ReadError>
    requires { KnowsGiven state.old }
    ensures knows { OnOk result (KnowsGiven state.new) }
    ensures value { GivesItem result names.new.items state.new
        (inner.item_in (places.in_initial remaining stop) (so_far names.old.items state.old) (pieces tokens.now)) }
{
    if let Some(is_last) = item_end(tokens) {
        return Ok(is_last);
    }
    let unclosed = Fault {
        why: Why::Unclosed,
        remaining,
    };
    let part = Part {
        why: Why::BadInit,
        missing: at_stop(unclosed, stop),
    };
    let (item, rest) = setting_at(part, tokens)?;
    let Some(is_last) = item_end(rest) else {
        return Err(ReadError::Fault(part.unfit(rest)));
    };
    note_item(remaining_of(tokens), state, names, item)?;
    Ok(is_last)
}

/// What the initial state gives before its first item.
pub fn nothing_given<'a>(alloc: Global) -> Initial<'a>
    ensures words { result.words.items ≡ [] }
    ensures registers { result.registers.items ≡ [] }
    ensures knows { KnowsGiven result }
{
    Initial {
        words: Vec::new(alloc),
        registers: Vec::new(alloc),
        given: IndexSet::new(alloc),
    }
}

/// Reads the initial state with which a text begins, puts what it gives where nothing is yet, and answers what comes after it.
/// There are no names of locations before it. `tokens` has room for those of an item.
///
/// `BadInit` at a token that doesn't fit, `Unclosed` at its `{` where the text ends; as an item's
/// `;` or `}` is there, at the item's first token, `BadNumber`, `TooLarge` for a location too
/// many, and `TwiceInit`.
pub fn read_initial<'a>(
    set: Instructions,
    tokens: &mut Vec<Token<'a>>,
    state: &mut Initial<'a>,
    names: &mut Vec<&'a [u8]>,
    text: &'a [u8],
) -> Result<&'a [u8], ReadError>
    requires words { state.old.words.items ≡ [] }
    requires registers { state.old.registers.items ≡ [] }
    requires knows { KnowsGiven state.old }
    ensures value { GivesInitial set result names.new.items state.new
        (inner.initial_at (stop_of set text.now) (texts names.old.items) (tokens_in set text.now)) }
    ensures stop { IfOk result (λ x. stop_of set x.now ≡ stop_of set text.now) }
{
    let (remaining, mut rest) = after_opening(set, Symbol::OpenCurly, Why::Unclosed, text)?;
    'items: loop {
        let onward = read_item_tokens(set, tokens, rest)?;
        let is_last = read_item(remaining, onward.stop, state, names, tokens.as_slice())?;
        rest = onward.rest;
        if is_last {
            return Ok(rest);
        }
    }
}

fn no_registers(alloc: Global, cores: usize) -> Result<Vec<[u32; 6]>, NoMemory>
    ensures { IfOk result (λ v. v.items ≡ replicate cores (replicate 6 0)) }
{
    Ok(vec![in alloc; [0; 6]; cores]?)
}

/// Each core's first registers.
///
/// `NoSuchCore` at the first item whose core isn't there.
pub fn registers_of(
    alloc: Global,
    cores: usize,
    given: &[RegisterWord<'_>],
) -> Result<Vec<[u32; 6]>, ReadError>
    requires { cores ≤ most_cores }
    ensures { Gives (λ v. v.items) result (inner.registers_of cores (map given_of given.now)) }
{
    let mut registers = no_registers(alloc, cores)?;
    for word in given {
        let core = core_of(cores, word.remaining, word.core)?;
        registers[core.0 as usize][word.reg.index()] = word.value;
    }
    Ok(registers)
}
