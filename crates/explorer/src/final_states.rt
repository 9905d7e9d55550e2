//! The final states that a search met: those kept states in which the test has ended, each once, with choices that lead
//! there. A kept state has 0 in its hidden registers; what they hold at the end is known by making the choices again.
ghost use Rattle.std.specs.Prelude.{◌≡◌, ◌<◌, ◌≤◌, ℕ, IfOk, IfErr, OnOk, length, map, slice_get, Some};
ghost use Rattle.tso_terms.specs.FlatMachine.{start};
ghost use Rattle.tso_terms.specs.Limits.{most_depth};
ghost use Rattle.tso_terms.specs.Runs.{CoresExist};
ghost use Rattle.tso_laws.specs.Choices.{state_after};
ghost use Rattle.flat_machine.specs.State.{state_of_snapshot};
ghost use Rattle.tso_laws.specs.Closed.{IsCovered};
ghost use Rattle.explorer.specs.inner.Planned.{IsPlan};
ghost use Rattle.explorer.specs.inner.Packed.{state_of_packed};
ghost use Rattle.explorer.specs.inner.Settled.{IsInOrder};
ghost use Rattle.explorer.specs.inner.Collected.{IsFinalOf, AreFinalsOf, MissesNoEnd};
ghost use Rattle.explorer.specs.FinalStates.{AreReached, HaveEveryEnd, AreDistinct, HasMoreStates};
ghost use Rattle.explorer.specs.FinalStates.{AreWhatTsoAllows, AreWhatSequentialConsistencyAllows};
ghost use Rattle.explorer.specs.declared.packed.Packed.{Packed};
ghost use Rattle.explorer.specs.declared.fault.ExploreFault.{ExploreFault};
ghost use Rattle.explorer.specs.declared.search.Extent.{Extent};

use crate::closing::close;
use crate::fault::ExploreFault;
use crate::found::{Found, begin};
use crate::link::path;
use crate::plan::{Plan, plan_of};
use crate::running_on::run_on;
use crate::search::{Extent, expand_all};
use crate::unpacking::unpack;
use crate::watching::{Unwatched, Watcher};
use flat_machine::{act, has_ended, registers_of, start};
use std::alloc::Global;
use std::mem::replace;
use tso_laws::{
    alike_cores_are_exchangeable, dead_registers_change_nothing, ends_are_what_tso_allows,
    partly_closed_states_miss_none, runs_stop_where_they_end,
};
use tso_terms::{Choice, NoMemory, Test};

/// A final state of a test: the registers of each core, in the order of `Reg::ALL`, the word of each
/// location, and choices that lead there, of which none stalls and none is left over.
pub struct FinalState {
    pub registers: Vec<[u32; 6]>,
    pub memory: Vec<u32>,
    pub choices: Vec<Choice>,
}

// Said by hand, so that who lets it go makes one call, and not one for each part.
impl Drop for FinalState {
    fn drop(self) {
        let FinalState {
            registers: _registers,
            memory: _memory,
            choices: _choices,
        } = self;
    }
}

/// What a search answers.
#[derive(Drop)]
pub struct Exploration {
    /// Every final state that the machine can reach at the depth, each once, but for hidden registers.
    pub final_states: Vec<FinalState>,
    /// How many states the search kept, those among them that exchanges of alike cores made of the ended ones.
    pub kept: usize,
}

/// The final state of a kept state, with the choices that lead there.
///
/// Errors: out of memory only.
fn final_state(alloc: Global, plan: &Plan, found: &Found, at: usize) -> Result<FinalState, NoMemory>
    requires at { at < length found.now.states.keys }
    requires found { IsInOrder plan.now found.now }
    ensures { IfOk result (λ f. (s : Packed) → slice_get found.now.states.keys at ≡ Some s
        → IsFinalOf plan.now.depth plan.now.test.now plan.now.hidden.now (state_of_packed s) f) }
{
    let choices = path(alloc, &found.links, at)?;
    let mut state = start(alloc, plan.test)?;
    for choice in &choices {
        act(&mut state, plan.test, plan.depth, *choice)?;
    }
    let registers = registers_of(alloc, &state.cores)?;
    Ok(FinalState {
        registers,
        memory: replace(&mut state.memory, Vec::new(alloc)),
        choices,
    })
}

/// The final states among those that are kept.
///
/// Errors: out of memory only.
fn final_states(alloc: Global, plan: &Plan, found: &Found) -> Result<Vec<FinalState>, NoMemory>
    requires { IsInOrder plan.now found.now }
    ensures { IfOk result (λ fs. AreFinalsOf plan.now.depth plan.now.test.now plan.now.hidden.now found.now.states.keys
        (length found.now.states.keys) fs.items) }
{
    dead_registers_change_nothing();
    let mut final_states = Vec::new(alloc);
    let mut state = start(alloc, plan.test)?;
    for at in 0..found.states.len() {
        unpack(&found.states[at], &mut state)?;
        if has_ended(plan.test, &state) {
            final_states.push(final_state(alloc, plan, found, at)?)?;
        }
    }
    Ok(final_states)
}

/// Goes through all states that choices lead to, and adds what exchanges of alike cores make of those in which the test has
/// ended, as long as no more than `limit` are kept. Where they are more, it ends there. The watcher is told of it.
///
/// Errors: out of memory only.
fn search_all<W: Watcher>(
    alloc: Global,
    plan: &Plan,
    found: &mut Found,
    limit: usize,
    watcher: &mut W,
) -> Result<(), NoMemory>
    requires plan { IsPlan plan.now }
    requires found { IsInOrder plan.now found.old }
    requires covered { IsCovered plan.now.depth plan.now.test.now plan.now.hidden.now plan.now.alike.items
        (map state_of_packed found.old.states.keys) (start plan.now.test.now) }
    ensures found { OnOk result (IsInOrder plan.now found.new) }
    ensures whole { OnOk result (length found.new.states.keys ≤ limit
        → MissesNoEnd plan.now.depth plan.now.test.now plan.now.hidden.now plan.now.alike.items found.new.states.keys) }
{
    expand_all(alloc, plan, found, limit, watcher)?;
    close(alloc, plan, found, limit)
}

/// As [`search_all`]. Where more than `limit` states are kept, it runs on from some of them to the end of the test.
///
/// Errors: out of memory only.
fn search_on<W: Watcher>(
    alloc: Global,
    plan: &Plan,
    found: &mut Found,
    limit: usize,
    watcher: &mut W,
) -> Result<(), NoMemory>
    requires plan { IsPlan plan.now }
    requires found { IsInOrder plan.now found.old }
    requires covered { IsCovered plan.now.depth plan.now.test.now plan.now.hidden.now plan.now.alike.items
        (map state_of_packed found.old.states.keys) (start plan.now.test.now) }
    ensures found { OnOk result (IsInOrder plan.now found.new) }
    ensures whole { OnOk result (length found.new.states.keys ≤ limit
        → MissesNoEnd plan.now.depth plan.now.test.now plan.now.hidden.now plan.now.alike.items found.new.states.keys) }
{
    search_all(alloc, plan, found, limit, watcher)?;
    if found.states.len() <= limit {
        return Ok(());
    }
    run_on(alloc, plan, found)
}

/// What a search met, whether it came to its end or to its limit.
#[derive(Drop)]
pub struct Met {
    /// How far the search came.
    pub extent: Extent,
    /// The final states among the states that it kept, each once, but for hidden registers. Where the search came to its end,
    /// they are all that there are; where it came to its limit, those that its runs to the end of the test lead to are among them.
    pub final_states: Vec<FinalState>,
    /// How many states the search kept, as [`Exploration`] counts them.
    pub kept: usize,
}

/// As [`explore`], watched: the watcher is told after each [`STRIDE`] further states that are kept, and when the search is over.
/// Whatever the watcher does, the answer is the same. Where the machine can reach more states than `limit`, the search
/// ends there, runs on to the end of the test from some of the states that it keeps, and answers what it has met. It keeps so many
/// different states that the machine can reach.
///
/// Errors: out of memory only.
pub fn explore_watched<W: Watcher>(
    alloc: Global,
    test: &Test,
    depth: u8,
    limit: usize,
    hidden: &[[bool; 6]],
    watcher: &mut W,
) -> Result<Met, NoMemory>
    ensures reached { IfOk result (λ m. AreReached test.now depth m.final_states.items) }
    ensures once { IfOk result (λ m. AreDistinct hidden.now m.final_states.items) }
    ensures complete { IfOk result (λ m. m.extent ≡ Extent.Whole → HaveEveryEnd test.now depth hidden.now m.final_states.items) }
    ensures within { IfOk result (λ m. m.extent ≡ Extent.Whole → m.kept ≤ limit) }
    ensures more { IfOk result (λ m. m.extent ≡ Extent.Cut → limit < m.kept) }
    ensures kept { IfOk result (λ m. (fewer : ℕ) → fewer < m.kept → HasMoreStates test.now depth fewer) }
{
    let plan = plan_of(alloc, test, depth, hidden)?;
    let mut found = begin(alloc, &plan)?;
    alike_cores_are_exchangeable();
    partly_closed_states_miss_none();
    dead_registers_change_nothing();
    runs_stop_where_they_end();
    plan.test.know_limits();
    let searched = search_on(alloc, &plan, &mut found, limit, watcher);
    let kept = found.states.len();
    watcher.is_over(kept);
    searched?;
    let final_states = final_states(alloc, &plan, &found)?;
    let extent = if kept > limit {
        Extent::Cut
    } else {
        Extent::Whole
    };
    Ok(Met {
        extent,
        final_states,
        kept,
    })
}

/// Every final state that the machine can reach at this depth of its store buffers, each once, with
/// choices that lead there. At the greatest depth these are what TSO allows, at depth 0, where the
/// machine has no store buffers, what sequential consistency allows.
///
/// `hidden` says of each core, in the order of `Reg::ALL`, which registers nobody looks at. Of final
/// states that differ in these alone one is answered, and the search keeps fewer states. Of a core for
/// which it has no entry none is hidden; so with an empty list every final state is answered.
///
/// Errors:
/// - [`ExploreFault::TooMany`]: only where the machine can reach more states than `limit`. The
///   search keeps a part of these states, and may have an answer where they are more.
/// - [`ExploreFault::NoMemory`]: only where the allocator refused a growth.
pub fn explore(
    alloc: Global,
    test: &Test,
    depth: u8,
    limit: usize,
    hidden: &[[bool; 6]],
) -> Result<Exploration, ExploreFault>
    ensures reached { IfOk result (λ x. AreReached test.now depth x.final_states.items) }
    ensures complete { IfOk result (λ x. HaveEveryEnd test.now depth hidden.now x.final_states.items) }
    ensures tso { IfOk result (λ x. depth ≡ most_depth → AreWhatTsoAllows test.now hidden.now x.final_states.items) }
    ensures sequential { IfOk result (λ x. depth ≡ 0 → AreWhatSequentialConsistencyAllows test.now hidden.now x.final_states.items) }
    ensures once { IfOk result (λ x. AreDistinct hidden.now x.final_states.items) }
    ensures too_many { IfErr result (λ fault. fault ≡ ExploreFault.TooMany → HasMoreStates test.now depth limit) }
{
    ends_are_what_tso_allows();
    test.know_limits();
    let met = explore_watched(alloc, test, depth, limit, hidden, &mut Unwatched)?;
    match met.extent {
        Extent::Whole => Ok(Exploration {
            final_states: met.final_states,
            kept: met.kept,
        }),
        Extent::Cut => Err(ExploreFault::TooMany),
    }
}
