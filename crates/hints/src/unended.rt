//! What is said of a run or a search that didn't end, and of a sweep that saw too little: what to ask for instead. A sweep
//! that never saw a state doesn't show that there is none.

use crate::line::{Filling, Line};
use scheduler::Stalls;
use tso_terms::{Choice, Core, Instr, Stall, Test};

/// Of a run without choices.
pub const NO_CHOICES: &str =
    "no choices: give some after a line ====, or use sweep or outcomes, which take none";

/// Of a search that may tell no more than so many cases apart.
pub const MORE_CASES: &str =
    "there are more cases to tell apart than {}, the limit of --cases: raise it, or use outcomes";

/// Maximum number of seeds of a sweep.
const MOST_SEEDS: u32 = 1000;

/// Of a sweep of so many runs at this depth, in none of which the condition's proposition was true.
pub fn never_seen(line: &mut Line, runs: u32, depth: u8) {
    let sentence = if runs < MOST_SEEDS {
        "Never tells of {} only: more seeds (--seeds 1000) take milliseconds, and outcomes --depth {} tells of all runs"
    } else {
        "Never tells of {} only: outcomes --depth {} tells of all runs"
    };
    let runs = Filling::Count(runs as usize, "run");
    line.say_with(sentence, &[runs, Filling::Number(usize::from(depth))]);
}

/// Of a run under choices that are too few, of which these stalled, of a test that takes at least so many steps and
/// drains.
pub fn choices_end(line: &mut Line, steps: usize, drains: usize, stalls: &Stalls) {
    let sentence = if drains == 0 {
        "the choices end before the test, which takes at least {}: give more, or seed 1 1000 after them"
    } else {
        "the choices end before the test, which takes at least {} and {}: give more, or seed 1 1000 after them"
    };
    line.say_with(
        sentence,
        &[
            Filling::Count(steps, "step"),
            Filling::Count(drains, "drain"),
        ],
    );
    if stalls.count() == 0 {
        return;
    }
    // How many choices stalled, and for each reason the first that did.
    line.say_number("; {} stalled: ", stalls.count());
    let mut joint = "";
    for first in &stalls.firsts() {
        if let Some(choice) = first.choice {
            line.say(joint);
            choice_stalled(line, choice, first.reason);
            joint = ", ";
        }
    }
}

/// A choice, why it stalled, and in brackets what to do or what is so.
fn choice_stalled(line: &mut Line, choice: Choice, reason: Stall) {
    let (core, letter) = match choice {
        Choice::Step(core) => (core, "s"),
        Choice::Drain(core) => (core, "d"),
    };
    let sentence = match reason {
        Stall::Done => "{}{} Done (at end)",
        Stall::Full => "{}{} Full ({}d first)",
        Stall::Fence => "{}{} Fence ({}d first)",
        Stall::Lock => "{}{} Lock ({}d first)",
        Stall::Empty => "{}{} Empty (no store)",
        Stall::Bus => "{}{} Bus (held)",
    };
    let core = Filling::Number(usize::from(core.0));
    line.say_with(sentence, &[core, Filling::Text(letter), core]);
}

/// How many instructions the cores have, or how many plain stores alone.
pub fn count_instructions(test: &Test, only_stores: bool) -> usize {
    let mut count = 0usize;
    for core in 0..test.cores() {
        for instr in test.program(Core(core)) {
            if !only_stores || matches!(*instr, Instr::StoreImm(..) | Instr::StoreReg(..)) {
                count = count.saturating_add(1);
            }
        }
    }
    count
}
