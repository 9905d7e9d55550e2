//! What is soon found: an execution by a few runs of chance, by a short search or by a short one that learns. An order is taken only if what
//! is asked is true in it.

use crate::hunt::{Find, Hunt, hunt_for, make_hunt};
use crate::learner::Learner;
use crate::learnt_search::search_learning;
use crate::ordering::make_order;
use crate::runs::find_run;
use crate::setting::Setting;
use crate::state::State;
use execution_check::is_met;
use reading_tables::tables::Problem;
use std::alloc::Global;
use tso_terms::{Execution, NoMemory};

/// How many steps runs by chance take for each case that may be looked at, and in all.
const STEPS_FOR_CASE: usize = 20_000;

const MOST_STEPS: usize = 2_000_000;

/// How many of these steps they take before a short search has its turn.
const FEW_STEPS: usize = 20_000;

/// How many looks the search that learns may make for each case; and how much work they may be, where each one costs the fifth power of
/// the number of events at worst.
const LOOKS_FOR_CASE: usize = 3;

const MOST_LEARNING: usize = 70_000_000_000_000;

/// How many of these looks it makes before the search for a refutation has its turn.
const FEW_LOOKS: usize = 8_000;

/// What is soon found.
#[derive(Drop)]
pub enum Soon {
    /// An execution in which what is asked is true.
    Met(Execution),
    /// None, and none is to be looked for any longer: what the claim gives is closed, or as many runs were made as may be.
    Closed,
    /// Neither.
    Open,
}

/// How many steps runs by chance may take.
pub fn steps_for(limit: usize) -> usize {
    limit.saturating_mul(STEPS_FOR_CASE).min(MOST_STEPS)
}

/// How many looks the search that learns may make.
pub fn looks_to_learn(setting: &Setting<'_>, limit: usize) -> usize {
    limit
        .saturating_mul(LOOKS_FOR_CASE)
        .min(setting.affordable(MOST_LEARNING, 5))
}

/// The order of a branch that has no question left, if it is an execution in which what is asked is true.
///
/// Errors: out of memory only.
pub fn met_order<'t>(
    setting: &Setting<'t>,
    problem: &Problem<'t>,
    state: &State,
) -> Result<Option<Execution>, NoMemory> {
    let order = make_order(setting, state)?;
    if is_met(setting.alloc, problem.test, setting.model(), &order)? {
        Ok(Some(order))
    } else {
        Ok(None)
    }
}

/// The same of the branch on which a search found no question left.
///
/// Errors: out of memory only.
pub fn open_order<'t>(
    setting: &Setting<'t>,
    problem: &Problem<'t>,
    hunt: &Hunt,
) -> Result<Option<Execution>, NoMemory> {
    match hunt.levels.get(hunt.frames.len()) {
        Some(state) => met_order(setting, problem, state),
        None => Ok(None),
    }
}

/// What a branch without a question comes to.
fn met_or_open(order: Option<Execution>) -> Soon {
    match order {
        Some(order) => Soon::Met(order),
        None => Soon::Open,
    }
}

/// What a short search from this branch comes to.
fn search_shortly<'t>(
    alloc: Global,
    setting: &Setting<'t>,
    problem: &Problem<'t>,
    root: &State,
) -> Result<Soon, NoMemory> {
    let mut hunt = make_hunt(alloc, setting, root.copy(setting), 1);
    hunt.looks = hunt.looks.min(hunt.most_looks);
    let found = hunt_for(setting, &mut hunt, 1);
    if hunt.is_refused() {
        return Err(NoMemory);
    }
    match found {
        Find::Refuted(_) => Ok(Soon::Closed),
        Find::Open => Ok(met_or_open(open_order(setting, problem, &hunt)?)),
        Find::Late => Ok(Soon::Open),
    }
}

/// What a short search that learns comes to, from this branch.
fn learn_shortly<'t>(
    alloc: Global,
    setting: &Setting<'t>,
    problem: &Problem<'t>,
    root: &State,
    limit: usize,
) -> Result<Soon, NoMemory> {
    let mut hunt = make_hunt(alloc, setting, root.copy(setting), limit);
    hunt.looks = looks_to_learn(setting, limit).min(FEW_LOOKS);
    let mut learner = Learner::new(alloc, setting, root);
    let found = search_learning(setting, &mut hunt, &mut learner);
    if hunt.is_refused() | learner.is_refused() {
        return Err(NoMemory);
    }
    match found {
        Find::Refuted(_) => Ok(Soon::Closed),
        Find::Open => Ok(met_or_open(met_order(setting, problem, &learner.now)?)),
        Find::Late => Ok(Soon::Open),
    }
}

/// Looks from this branch for an execution that is soon found.
///
/// Errors: out of memory only.
pub fn find_soon<'t>(
    alloc: Global,
    setting: &Setting<'t>,
    problem: &Problem<'t>,
    root: &State,
    limit: usize,
) -> Result<Soon, NoMemory> {
    let steps = steps_for(limit);
    let few = steps.min(FEW_STEPS);
    if let Some(order) = find_run(alloc, setting, root, few)? {
        return Ok(Soon::Met(order));
    }
    if root.is_closed | (few == steps) {
        return Ok(Soon::Closed);
    }
    match search_shortly(alloc, setting, problem, root)? {
        Soon::Open => learn_shortly(alloc, setting, problem, root, limit),
        found => Ok(found),
    }
}
