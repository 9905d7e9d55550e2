//! The counts of a sweep's runs. Each run is counted once: by its values where it ended, and as unfinished where it didn't;
//! one that was left out would make a rare state look rarer.

ghost use Rattle.std.specs.Prelude.{◌≡◌, ◌+◌, ◌<◌, ◌^◌, ◌-◌, OnOk, OnErr, sum, is_some};
ghost use Rattle.std.specs.Map.{values_of};
ghost use Rattle.tso_report.specs.Tally.{with_values, with_state_counted, with_verdict, runs_in};
ghost use Rattle.tso_report.specs.inner.Counted.{counted_states, counts_in, IsKept};

use std::collections::BTreeMap;
use tso_terms::NoMemory;

/// How many runs ended in each state, how many of these made the condition's proposition true and false,
/// and how many runs didn't end.
#[derive(Drop)]
pub struct Counters {
    /// The lists of values in ascending order, each with how many ended runs gave it.
    pub states: BTreeMap<Vec<u32>, u32>,
    /// How many runs ended.
    pub ended: u32,
    /// How many ended runs made the proposition true.
    pub held: u32,
    /// How many ended runs made the proposition false.
    pub failed: u32,
    /// How many runs didn't end.
    pub unfinished: u32,
}

/// One more run that ended, with these values and this verdict.
///
/// Errors: out of memory only; then nothing has changed.
pub fn count_ended(
    counters: &mut Counters,
    values: Vec<u32>,
    holds: Option<bool>,
) -> Result<(), NoMemory>
    requires kept { IsKept (is_some holds) counters.old }
    requires room { runs_in (counts_in counters.old) < 2 ^ 32 - 1 }
    ensures counts { OnOk result (counts_in counters.new ≡ with_verdict holds (with_state_counted values.items (counts_in counters.old))) }
    ensures refused { OnErr result (counts_in counters.new ≡ counts_in counters.old) }
    ensures kept { IsKept (is_some holds) counters.new }
{
    raise(&mut counters.states, values)?;
    counters.ended += 1;
    match holds {
        Some(true) => counters.held += 1,
        Some(false) => counters.failed += 1,
        None => {}
    }
    Ok(())
}

/// One more run that ended with these values.
fn raise(states: &mut BTreeMap<Vec<u32>, u32>, values: Vec<u32>) -> Result<(), NoMemory>
    requires { sum (values_of (counted_states states.old.entries)) < 2 ^ 32 - 1 }
    ensures states { OnOk result (counted_states states.new.entries ≡ with_values values.items (counted_states states.old.entries)) }
    ensures total { OnOk result (sum (values_of (counted_states states.new.entries)) ≡ sum (values_of (counted_states states.old.entries)) + 1) }
    ensures refused { OnErr result (states.new.entries ≡ states.old.entries) }
{
    let count = states.get(&values).copied().unwrap_or(0);
    states.insert(values, count + 1)?;
    Ok(())
}
