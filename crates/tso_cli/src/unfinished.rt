//! What a search had met that ended at its limit, for the hint beside its answer. That a state was met is so whatever else
//! there is.

ghost use Rattle.std.specs.Prelude.{◌≡◌, ◌<◌, ◌≤◌, All, Some, length};
ghost use Rattle.tso_terms.specs.Condition.{NamesExist, claim_of};
ghost use Rattle.explorer.specs.FinalStates.{AreReached};

use command_line::SearchPlan;
use command_line::search::MAX_STATES;
use explorer::FinalState;
use hints::{Cause, SearchEnd, Sighting};
use std::alloc::Global;
use tso_laws::ended_runs_are_executions;
use tso_terms::{Cond, NoMemory, Quantifier, Test, cond_holds};

/// Of what the hint is made beside the answer of a search that ended at its limit and had met these final states: how many
/// look different, as the answer counts them, and, of the first that decides the condition, the choices that lead there.
///
/// Errors: out of memory only.
pub fn cause_of_end(
    alloc: Global,
    test: &Test,
    search: SearchPlan,
    finals: &[FinalState],
    count: usize,
) -> Result<Cause, NoMemory>
    requires { AreReached test.now search.depth finals.now }
{
    ended_runs_are_executions();
    test.know_limits();
    let sighting = match test.cond() {
        Some(cond) => {
            let truth = !matches!(cond.quantifier, Quantifier::Forall);
            match first_met(cond, finals, truth) {
                Some(found) => {
                    let mut choices = Vec::new(alloc);
                    choices.extend_from_slice(&found.choices)?;
                    Sighting::Met(truth, choices)
                }
                None => Sighting::None(truth),
            }
        }
        None => Sighting::NoCondition,
    };
    Ok(Cause::TooManyStates(SearchEnd {
        most: search.states(),
        is_raisable: search.states() < MAX_STATES,
        is_buffered: search.depth() > 0,
        finals: count,
        sighting,
    }))
}

/// The first of the final states in which the proposition has this truth.
fn first_met<'a>(cond: &Cond, finals: &'a [FinalState], truth: bool) -> Option<&'a FinalState>
    requires { All (λ f. NamesExist (length f.registers.items) (length f.memory.items) (claim_of cond.now.prop)) finals.now }
{
    for found in finals {
        if cond_holds(cond, &found.registers, &found.memory) == truth {
            return Some(found);
        }
    }
    None
}
