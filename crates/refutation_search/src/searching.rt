//! The whole search: what is soon found; depth first for a refutation, again and again with what was learnt, and a few times more for a
//! shorter one. Where that takes too long, many runs by chance for an execution, and then the search that learns from each branch.

use crate::first_state::first_state;
use crate::hunt::{Find, Hunt, hunt_for, make_hunt};
use crate::learner::Learner;
use crate::learnt_search::search_learning;
use crate::proposal::{Proposal, propose};
use crate::runs::find_run;
use crate::setting::{Setting, make_setting};
use crate::soon::{Soon, find_soon, looks_to_learn, met_order, open_order, steps_for};
use crate::state::State;
use reading_tables::tables::Problem;
use refutation_laws::Model;
use std::alloc::Global;
use tso_terms::{Execution, NoMemory};

/// What a search proposes.
#[derive(Drop)]
pub enum Proposed<'t> {
    Refutation(Proposal<'t>),
    Execution(Execution),
    Nothing,
}

/// How many cases a search looks at before it begins anew for the first time.
const FIRST_CASES: usize = 1_000;

/// How often a search looks for a shorter refutation.
const MOST_TRIES: usize = 4;

/// A refutation that has no more lines is short.
const FEW_LINES: usize = 2;

/// A refutation that has more lines may be longer than one that is learnt.
const MANY_LINES: usize = 40;

/// Into how many parts looks are divided. After the first part the search that learns has its turn, and only what was found in that part
/// is made shorter.
const FIRST_PART: usize = 8;

/// Where events are so many times as many as these, asking back makes fewer looks, by the square.
const FEW_EVENTS: usize = 64;

/// Searches for so many cases, with pauses, after each of which it begins anew with what it learnt.
fn hunt_again(setting: &Setting<'_>, hunt: &mut Hunt, limit: usize) -> Find {
    let mut step = FIRST_CASES;
    for _round in 0..u64::MAX {
        let left = limit.saturating_sub(hunt.cases);
        let found = hunt_for(setting, hunt, step.min(left));
        let is_late = (hunt.cases >= limit) | (hunt.look.made > hunt.looks);
        if !matches!(found, Find::Late) | is_late | hunt.is_refused() {
            return found;
        }
        step = step.saturating_add(step / 2);
    }
    Find::Late
}

/// What is proposed where a search came to an order, or to none.
fn execution<'t>(order: Option<Execution>) -> Proposed<'t> {
    match order {
        Some(order) => Proposed::Execution(order),
        None => Proposed::Nothing,
    }
}

/// The refutation that this node is the first one of, if its tree can be printed.
fn refutation<'t>(
    alloc: Global,
    setting: &Setting<'t>,
    problem: &Problem<'t>,
    hunt: &Hunt,
    node: usize,
) -> Result<Proposed<'t>, NoMemory> {
    match propose(alloc, setting, problem, hunt, node)? {
        Some(proposal) => Ok(Proposed::Refutation(proposal)),
        None => Ok(Proposed::Nothing),
    }
}

/// Searches on: what is proposed by then.
fn hunt_on<'t>(
    alloc: Global,
    setting: &Setting<'t>,
    problem: &Problem<'t>,
    hunt: &mut Hunt,
    limit: usize,
) -> Result<Proposed<'t>, NoMemory> {
    let found = hunt_again(setting, hunt, limit);
    if hunt.is_refused() {
        return Err(NoMemory);
    }
    match found {
        Find::Refuted(node) => refutation(alloc, setting, problem, hunt, node),
        Find::Open => Ok(execution(open_order(setting, problem, hunt)?)),
        Find::Late => Ok(Proposed::Nothing),
    }
}

/// Searches from this branch with this twist for so many cases.
fn try_twist<'t>(
    alloc: Global,
    setting: &Setting<'t>,
    problem: &Problem<'t>,
    root: &State,
    twist: usize,
    limit: usize,
) -> Result<Proposed<'t>, NoMemory> {
    let mut hunt = make_hunt(alloc, setting, root.copy(setting), limit);
    hunt.look.twist = twist;
    hunt_on(alloc, setting, problem, &mut hunt, limit)
}

/// Asks back from what is told to where it comes from, and nothing else: what is proposed, where that is enough.
fn ask_back<'t>(
    alloc: Global,
    setting: &Setting<'t>,
    problem: &Problem<'t>,
    root: &State,
    limit: usize,
) -> Result<Proposed<'t>, NoMemory> {
    let mut hunt = make_hunt(alloc, setting, root.copy(setting), limit);
    let times = (setting.size / FEW_EVENTS).max(1);
    hunt.looks /= times.saturating_mul(times).max(1);
    hunt.look.goes_back = true;
    let found = hunt_for(setting, &mut hunt, limit);
    if hunt.is_refused() {
        return Err(NoMemory);
    }
    match found {
        Find::Refuted(node) => refutation(alloc, setting, problem, &hunt, node),
        Find::Open | Find::Late => Ok(Proposed::Nothing),
    }
}

/// The one that has fewer lines.
fn shorter<'t>(best: Proposal<'t>, other: Proposed<'t>) -> Proposal<'t> {
    match other {
        Proposed::Refutation(other) => {
            if other.lines < best.lines {
                other
            } else {
                best
            }
        }
        Proposed::Execution(_) | Proposed::Nothing => best,
    }
}

/// Looks for a refutation that is shorter than the one which this search found, each time for no more cases than it took.
fn shorten<'t>(
    alloc: Global,
    setting: &Setting<'t>,
    problem: &Problem<'t>,
    hunt: &Hunt,
    first: Proposal<'t>,
    limit: usize,
) -> Result<Proposal<'t>, NoMemory> {
    let root = &hunt.root;
    let cases = hunt.cases;
    let mut best = first;
    for twist in 1..MOST_TRIES {
        let is_over = cases.saturating_mul(twist) > limit;
        if is_over | (best.lines <= FEW_LINES) {
            break;
        }
        let other = try_twist(alloc, setting, problem, root, twist, cases)?;
        best = shorter(best, other);
    }
    Ok(best)
}

/// A refutation that was found, or a shorter one where finding it took no more than a part of the looks.
fn shortened<'t>(
    alloc: Global,
    setting: &Setting<'t>,
    problem: &Problem<'t>,
    hunt: &Hunt,
    found: Proposed<'t>,
    limit: usize,
) -> Result<Proposed<'t>, NoMemory> {
    match found {
        Proposed::Refutation(first) if hunt.look.made <= hunt.looks / FIRST_PART => {
            let best = shorten(alloc, setting, problem, hunt, first, limit)?;
            Ok(Proposed::Refutation(best))
        }
        other => Ok(other),
    }
}

/// Searches from this branch for a part of the looks, then by many runs of chance if it may be met, then back from what is told, and then
/// with what is learnt from each branch.
fn propose_reason<'t>(
    alloc: Global,
    setting: &Setting<'t>,
    problem: &Problem<'t>,
    root: State,
    limit: usize,
    may_be_met: bool,
) -> Result<Proposed<'t>, NoMemory> {
    let mut hunt = make_hunt(alloc, setting, root, limit);
    let looks = hunt.looks;
    hunt.looks = looks / FIRST_PART;
    let first = hunt_on(alloc, setting, problem, &mut hunt, limit)?;
    hunt.looks = looks;
    if !matches!(first, Proposed::Nothing) {
        return shortened(alloc, setting, problem, &hunt, first, limit);
    }
    if may_be_met {
        if let Some(order) = find_run(alloc, setting, &hunt.root, steps_for(limit))? {
            return Ok(Proposed::Execution(order));
        }
    }
    let back = ask_back(alloc, setting, problem, &hunt.root, limit)?;
    or_learnt(alloc, setting, problem, &mut hunt, back, limit)
}

/// What was found, or a shorter one that is learnt, or any where nothing was found.
fn or_learnt<'t>(
    alloc: Global,
    setting: &Setting<'t>,
    problem: &Problem<'t>,
    hunt: &mut Hunt,
    found: Proposed<'t>,
    limit: usize,
) -> Result<Proposed<'t>, NoMemory> {
    match found {
        Proposed::Refutation(best) if best.lines > MANY_LINES => {
            let other = learn_long(alloc, setting, problem, hunt, limit)?;
            Ok(Proposed::Refutation(shorter(best, other)))
        }
        Proposed::Nothing => learn_long(alloc, setting, problem, hunt, limit),
        other => Ok(other),
    }
}

/// Learns, as long as looks are left: what is proposed by then.
fn learn_long<'t>(
    alloc: Global,
    setting: &Setting<'t>,
    problem: &Problem<'t>,
    hunt: &mut Hunt,
    limit: usize,
) -> Result<Proposed<'t>, NoMemory> {
    let most = looks_to_learn(setting, limit);
    hunt.looks = hunt.look.made.saturating_add(most);
    let mut learner = Learner::new(alloc, setting, &hunt.root);
    let found = search_learning(setting, hunt, &mut learner);
    if hunt.is_refused() | learner.is_refused() {
        return Err(NoMemory);
    }
    match found {
        Find::Refuted(node) => refutation(alloc, setting, problem, hunt, node),
        Find::Open => Ok(execution(met_order(setting, problem, &learner.now)?)),
        Find::Late => Ok(Proposed::Nothing),
    }
}

/// Searches for an execution in which what a test asks is true, or a refutation by lemmas of it, for so many cases: what it proposes, if it
/// finds one. Once it has a refutation, it looks a few times more for a shorter one.
///
/// Errors: out of memory only.
pub fn propose_answer<'t>(
    alloc: Global,
    problem: &Problem<'t>,
    model: Model,
    limit: usize,
) -> Result<Proposed<'t>, NoMemory> {
    let setting = make_setting(alloc, problem, model);
    if setting.is_refused() {
        return Err(NoMemory);
    }
    let root = first_state(alloc, &setting);
    if root.is_refused() {
        return Err(NoMemory);
    }
    let may_be_met = match find_soon(alloc, &setting, problem, &root, limit)? {
        Soon::Met(order) => return Ok(Proposed::Execution(order)),
        Soon::Closed => false,
        Soon::Open => true,
    };
    propose_reason(alloc, &setting, problem, root, limit, may_be_met)
}
