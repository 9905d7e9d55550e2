//! What a hint is made of: what an answer knew. It is kept as numbers and places, so that an answer holds no part of the
//! input.

use crate::body::{body_of, condition_of};
use crate::never_true::{cause_of, contradicted};
use crate::orders::{first_line, from_line_at_fault, location_in};
use crate::quotes::first_word;
use crate::reader::Request;
use crate::search_end::SearchEnd;
use crate::unended::count_instructions;
use crate::unused::{
    first_alike, first_unused, has_alike_names, location_named, uses_all_locations,
};
use crate::unwritten::{first_unwritten, names_unwritten};
use litmus_reader::Fault;
use litmus_tokens::{Instructions, tokens_of};
use order_builder::OrderFault;
use scheduler::{ChoiceFault, Stalls};
use std::alloc::Global;
use tso_terms::{Core, NoMemory, Reg, Test};

/// What an answer knew of which a hint can be made: what was at fault in an input, and where it stands
/// there; why a run or a search didn't end; or what may mislead in an answer.
#[derive(Drop)]
pub enum Cause {
    /// Nothing.
    Nothing,
    /// The input has more bytes than this.
    Size {
        most: usize,
    },
    /// The test, which is so many first bytes of the input, is at fault; this was to read it.
    Test {
        asked: Request,
        length: usize,
        fault: Fault,
    },
    /// The choices, which are so many last bytes of the input, are at fault; the test has so many
    /// cores.
    Choices {
        length: usize,
        cores: u8,
        fault: ChoiceFault,
    },
    /// More choices are used than the steps that a trace as JSON may have; the choices are so many last
    /// bytes of the input, and this word of them, from 1, says the first choice beyond.
    TooManySteps {
        length: usize,
        word: usize,
        most: usize,
    },
    /// The order, which is so many last bytes of the input, is at fault. If one line of it is, so many
    /// last bytes begin with that line; whether it has a location that the test hasn't.
    Order {
        length: usize,
        from_line: usize,
        unknown_location: bool,
        fault: OrderFault,
    },
    /// A run didn't end, since there were no choices.
    NoChoices,
    /// A run didn't end, since its choices were too few: the test takes so many steps and drains at
    /// least. These of the choices stalled.
    TooFewChoices {
        steps: usize,
        drains: usize,
        stalls: Stalls,
    },
    /// A run of a sweep didn't end, whose seeds make so many choices. Whether none ended.
    ShortSeeds {
        length: u32,
        none_ended: bool,
    },
    /// A sweep says that the condition's proposition was never true; it saw so many runs, all of which
    /// ended, on a machine of this depth.
    NeverSeen {
        runs: u32,
        depth: u8,
    },
    /// The condition names a location that no program uses and no initial state sets: its name there is
    /// so many bytes of the input, after so many others.
    UnusedLocation {
        first: usize,
        length: usize,
    },
    /// The condition names a register, after so many bytes of the input, that no instruction of its core writes: it
    /// keeps this value.
    UnwrittenRegister {
        first: usize,
        core: Core,
        reg: Reg,
        value: u32,
    },
    /// The condition asks a location for another value than this, which it keeps since no instruction writes it: its
    /// name there is so many bytes of the input, after so many others.
    UnwrittenLocation {
        first: usize,
        length: usize,
        value: u32,
    },
    /// The condition asks a location or a core's register for both of these values at once: its name there is so many bytes
    /// of the input, after so many others.
    NeverTrue {
        first: usize,
        length: usize,
        register: Option<(Core, Reg)>,
        values: (u32, u32),
    },
    /// Two locations have names that differ in case alone: each is so many bytes of the input, after so many others.
    AlikeNames {
        firsts: (usize, usize),
        length: usize,
    },
    /// The test lists a register or a location that its states leave out: its name there is so many bytes of
    /// the input, after so many others.
    LeftOut {
        first: usize,
        length: usize,
        is_register: bool,
    },
    /// A search ended at its limit.
    TooManyStates(SearchEnd),
    /// A search for a reason may tell no more than so many cases apart.
    TooManyCases {
        most: u32,
    },
}

impl Cause {
    /// That an order of a test is at fault.
    pub fn of_order(test: &Test, text: &[u8], fault: OrderFault) -> Cause {
        let from_line = from_line_at_fault(text, fault);
        let unknown_location = match location_in(first_line(from_line)) {
            Some(name) => location_named(test, name).is_none(),
            None => false,
        };
        Cause::Order {
            length: text.len(),
            from_line: from_line.len(),
            unknown_location,
            fault,
        }
    }

    /// What may mislead in a test, which this text spells: that its condition names a location that no program uses and no
    /// initial state sets; else a register that no instruction of its core writes; else that it asks another value of a location
    /// than the one that it keeps; else two values of one place at once; else that names of locations differ in case alone. Of
    /// several of one kind the first. `None` where there is none.
    ///
    /// Errors: out of memory only.
    pub fn of_names(alloc: Global, test: &Test, text: &[u8]) -> Result<Option<Cause>, NoMemory> {
        let (is_kept, contradicted) = match test.cond() {
            Some(cond) => (
                !uses_all_locations(test) || names_unwritten(test, &cond.prop),
                contradicted(&cond.prop),
            ),
            None => (false, None),
        };
        // Of most tests nothing is to be told, which is known without reading their text again.
        if !is_kept && contradicted.is_none() && !has_alike_names(test) {
            return Ok(None);
        }
        let body = body_of(text);
        let condition = condition_of(body);
        let tokens = tokens_of(alloc, Instructions::All, body)?;
        let ending = tokens_of(alloc, Instructions::All, condition)?;
        let kept = match first_unused(test, text, &tokens.items, &ending.items) {
            None => first_unwritten(test, text, condition, &ending.items),
            unused => unused,
        };
        Ok(match (kept, contradicted) {
            (Some(kept), _) => Some(kept),
            (None, Some((atom, other))) => cause_of(test, text, &ending.items, atom, other),
            (None, None) => first_alike(test, text, &tokens.items),
        })
    }

    /// That the choices of this text end before the test, on a machine with store buffers or without. These of them
    /// stalled.
    pub fn of_unended_run(test: &Test, text: &[u8], is_buffered: bool, stalls: Stalls) -> Cause {
        if first_word(text).is_empty() {
            return Cause::NoChoices;
        }
        let drains = if is_buffered {
            count_instructions(test, true)
        } else {
            0
        };
        Cause::TooFewChoices {
            steps: count_instructions(test, false),
            drains,
            stalls,
        }
    }
}
