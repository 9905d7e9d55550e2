//! What is counted of a run's caches is summed over the steps of its trace. Each law is the contract of a function that does nothing, so
//! who calls it knows it.
#![tactic(auto)]

ghost use Rattle.counted_steps.specs.StepSums.{CountsAreSumsOfSteps, TrafficIsSumsOfSteps};

/// A core's hits, misses, upgrades, forwarded loads and requests are the numbers of its steps of which the run's trace says so.
pub fn counts_are_sums_of_steps()
    ensures { CountsAreSumsOfSteps }
{}

/// The copies of others that a core's requests turn to I, and the lines that are written to memory for it, are sums over its steps, in
/// a run of a test within the limits, on lines of a word at least.
pub fn traffic_is_sums_of_steps()
    ensures { TrafficIsSumsOfSteps }
{}
