//! Runs on to the end of a test. A search that met its limit has gone wide, and may have come to no end, though every run has
//! one. So from states that it keeps it runs on, and keeps the state that each of these runs ends in. Which runs these are is
//! free: each state is kept with the choices that lead there.
ghost use Rattle.std.specs.Prelude.{◌≡◌, ◌<◌, length, OnOk};
ghost use Rattle.tso_terms.specs.FlatMachine.{chosen};
ghost use Rattle.flat_machine.specs.State.{state_of_snapshot};
ghost use Rattle.explorer.specs.inner.Settled.{AreAppended, Grows, IsInOrder};
ghost use Rattle.explorer.specs.inner.Planned.{IsPlan};

use crate::forgetting::forget;
use crate::found::{Found, keep};
use crate::plan::Plan;
use crate::unpacking::unpack;
use flat_machine::{Snapshot, act, has_stalled};
use std::alloc::Global;
use tso_laws::stalls_change_nothing;
use tso_terms::{Choice, Core, NoMemory, Test};

/// Maximum number of runs from the states of one search.
const MAX_RUNS: usize = 1_000;

/// Maximum number of choices that a core makes in a test: two for each instruction.
const MAX_CHOICES_OF_A_CORE: usize = 64;

/// How a run goes on: each core takes its turn, in one order of the cores, and then each takes a second one.
#[derive(Clone, Copy)]
struct Manner {
    /// The numbers of the cores, in the order in which they take their turns.
    order: [u8; 8],
    /// Of each core whether it leaves its stores pending in its first turn, and so ends it where it would have to wait for them.
    is_late: [bool; 8],
}

/// In their second turn all cores run to their ends.
const NONE_IS_LATE: [bool; 8] = [false; 8];

/// The manner of the run of this number. Runs that come one after the other are far from alike. In the first one the cores
/// are in the order of their numbers, and all are late.
fn manner_of(number: u32) -> Manner {
    // A multiplication by the golden ratio's share of 2^32 spreads the numbers.
    let spread = u64::from(number) * 2_654_435_769 % 4_294_967_296;
    let mut manner = Manner {
        order: [0, 1, 2, 3, 4, 5, 6, 7],
        is_late: [true; 8],
    };
    let mut rest = spread;
    for at in 0..8usize {
        manner.is_late[at] = rest % 2 == 0;
        rest /= 2;
    }
    for at in 0..8usize {
        let left = 8 - at as u64;
        let other = (at + (rest % left) as usize) % 8;
        rest /= left;
        manner.order.swap(at, other);
    }
    manner
}

/// Makes a choice, and appends it, unless it stalls. Answers whether it took effect.
///
/// Errors: out of memory only.
fn make(
    state: &mut Snapshot,
    test: &Test,
    depth: u8,
    choice: Choice,
    choices: &mut Vec<Choice>,
) -> Result<bool, NoMemory>
    requires cores { length state.old.cores.items ≡ length test.now.programs }
    requires chosen { chosen choice < length test.now.programs }
    ensures made { OnOk result (AreAppended depth test.now (state_of_snapshot state.old) (state_of_snapshot state.new) choices.old.items choices.new.items) }
    ensures cores { OnOk result (length state.new.cores.items ≡ length test.now.programs) }
{
    stalls_change_nothing();
    let outcome = act(state, test, depth, choice)?;
    if has_stalled(outcome) {
        return Ok(false);
    }
    choices.push(choice)?;
    Ok(true)
}

/// Makes the core's step, or else, unless it is late, its drain. Answers whether one took effect.
///
/// Errors: out of memory only.
fn go_on(
    state: &mut Snapshot,
    test: &Test,
    depth: u8,
    core: Core,
    is_late: bool,
    choices: &mut Vec<Choice>,
) -> Result<bool, NoMemory>
    requires cores { length state.old.cores.items ≡ length test.now.programs }
    requires core { core.0 < length test.now.programs }
    ensures made { OnOk result (AreAppended depth test.now (state_of_snapshot state.old) (state_of_snapshot state.new) choices.old.items choices.new.items) }
    ensures cores { OnOk result (length state.new.cores.items ≡ length test.now.programs) }
{
    let has_stepped = make(state, test, depth, Choice::Step(core), choices)?;
    if has_stepped || is_late {
        return Ok(has_stepped);
    }
    make(state, test, depth, Choice::Drain(core), choices)
}

/// A core's turn: it goes on as long as it can. One that the test doesn't have makes nothing.
///
/// Errors: out of memory only.
fn take_turn(
    state: &mut Snapshot,
    test: &Test,
    depth: u8,
    core: Core,
    is_late: bool,
    choices: &mut Vec<Choice>,
) -> Result<(), NoMemory>
    requires { length state.old.cores.items ≡ length test.now.programs }
    ensures made { OnOk result (AreAppended depth test.now (state_of_snapshot state.old) (state_of_snapshot state.new) choices.old.items choices.new.items) }
    ensures cores { OnOk result (length state.new.cores.items ≡ length test.now.programs) }
{
    if core.0 >= test.cores() {
        return Ok(());
    }
    for _made in 0..MAX_CHOICES_OF_A_CORE {
        let has_gone_on = go_on(state, test, depth, core, is_late, choices)?;
        if !has_gone_on {
            break;
        }
    }
    Ok(())
}

/// A turn of each core.
///
/// Errors: out of memory only.
fn take_turns(
    state: &mut Snapshot,
    test: &Test,
    depth: u8,
    order: &[u8; 8],
    is_late: &[bool; 8],
    choices: &mut Vec<Choice>,
) -> Result<(), NoMemory>
    requires { length state.old.cores.items ≡ length test.now.programs }
    ensures made { OnOk result (AreAppended depth test.now (state_of_snapshot state.old) (state_of_snapshot state.new) choices.old.items choices.new.items) }
    ensures cores { OnOk result (length state.new.cores.items ≡ length test.now.programs) }
{
    for at in 0..8usize {
        take_turn(state, test, depth, Core(order[at]), is_late[at], choices)?;
    }
    Ok(())
}

/// Runs on from the state of this number, and keeps what that ends in.
///
/// Errors: out of memory only.
fn run_on_from(
    alloc: Global,
    plan: &Plan,
    found: &mut Found,
    from: usize,
    manner: Manner,
) -> Result<(), NoMemory>
    requires plan { IsPlan plan.now }
    requires from { from < length found.old.states.keys }
    requires found { IsInOrder plan.now found.old }
    ensures grows { OnOk result (Grows found.old.states.keys found.new.states.keys) }
    ensures found { OnOk result (IsInOrder plan.now found.new) }
{
    let reached = &mut found.reached;
    unpack(&found.states[from], &mut reached.state)?;
    reached.choices.clear();
    reached.exchanges.clear();
    take_turns(
        &mut reached.state,
        plan.test,
        plan.depth,
        &manner.order,
        &manner.is_late,
        &mut reached.choices,
    )?;
    take_turns(
        &mut reached.state,
        plan.test,
        plan.depth,
        &manner.order,
        &NONE_IS_LATE,
        &mut reached.choices,
    )?;
    forget(&mut reached.state, plan);
    keep(alloc, found, from)
}

/// Runs on from as many of the states as there may be runs, spread over them in the order in which they were found, and keeps
/// what each run ends in.
///
/// Errors: out of memory only.
pub fn run_on(alloc: Global, plan: &Plan, found: &mut Found) -> Result<(), NoMemory>
    requires plan { IsPlan plan.now }
    requires found { IsInOrder plan.now found.old }
    ensures grows { OnOk result (Grows found.old.states.keys found.new.states.keys) }
    ensures found { OnOk result (IsInOrder plan.now found.new) }
{
    let kept = found.states.len();
    let stride = kept / MAX_RUNS + 1;
    let mut from = 0usize;
    for number in 0..MAX_RUNS {
        if from >= kept {
            break;
        }
        run_on_from(alloc, plan, found, from, manner_of(number as u32))?;
        from = from.saturating_add(stride);
    }
    Ok(())
}
