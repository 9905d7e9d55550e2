//! How many states the machine can reach in a test of two cores with a store each. (x86-TSO, section 3.)

ghost use Rattle.explorer.specs.FinalStates.{HasMoreStates};
ghost use Rattle.worked_examples.specs.ReachableStates.{two_stores};

/// With room for one store each core has its store still to come, pending, or in memory, whatever the other does: nine states, and
/// no tenth.
pub fn worked_reachable_states()
    ensures nine { HasMoreStates two_stores 1 8 }
    ensures no_tenth { HasMoreStates two_stores 1 9 → ⊥ }
{}
