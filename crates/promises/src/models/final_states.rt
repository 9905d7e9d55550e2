//! What is found of final states, field by field.

ghost use Rattle.std.specs.Prelude.{◌<◌, ◌↔◌, ◌≡◌, Bool, List, Some, length, slice_get, ℕ};
ghost use Rattle.explorer.specs.FinalStates.{AreWhatSequentialConsistencyAllows, AreWhatTsoAllows, HasMoreStates, Have, IsReachable};
ghost use Rattle.explorer.specs.declared.final_states.FinalState.{FinalState};
ghost use Rattle.tso_laws.specs.Outcomes.{IsAllowedAtDepth, IsAllowedByTso, IsAllowedSequentially, IsEnd};
ghost use Rattle.tso_laws.specs.WellFormed.{IsWellFormed};
ghost use Rattle.tso_laws.specs.Choices.{state_after};
ghost use Rattle.tso_terms.specs.FlatMachine.{State, start};
ghost use Rattle.tso_terms.specs.Litmus.{Litmus};
ghost use Rattle.tso_terms.specs.Runs.{CoresExist};

use tso_laws::ends_are_what_tso_allows;

/// Each state that was found is allowed, and each that is allowed was found, but for registers that nobody looks at.
pub fn what_was_found_is_allowed()
    ensures tso_allowed { (t : Litmus) (hidden : List (List Bool)) (finals : List FinalState) → AreWhatTsoAllows t hidden finals
        → (i : ℕ) (f : FinalState) → slice_get finals i ≡ Some f → IsAllowedByTso t f.registers.items f.memory.items }
    ensures tso_complete { (t : Litmus) (hidden : List (List Bool)) (finals : List FinalState) (registers : List (List ℕ)) (memory : List ℕ)
        → AreWhatTsoAllows t hidden finals → IsAllowedByTso t registers memory → Have hidden finals registers memory }
    ensures sequential_allowed { (t : Litmus) (hidden : List (List Bool)) (finals : List FinalState)
        → AreWhatSequentialConsistencyAllows t hidden finals → (i : ℕ) (f : FinalState) → slice_get finals i ≡ Some f
        → IsAllowedSequentially t f.registers.items f.memory.items }
    ensures sequential_complete { (t : Litmus) (hidden : List (List Bool)) (finals : List FinalState) (registers : List (List ℕ)) (memory : List ℕ)
        → AreWhatSequentialConsistencyAllows t hidden finals → IsAllowedSequentially t registers memory
        → Have hidden finals registers memory }
{}

/// At a depth of 1 or more runs end with what TSO allows at it.
pub fn ends_are_what_is_allowed_at_each_depth()
    ensures by_depth { (t : Litmus) (depth : ℕ) (registers : List (List ℕ)) (memory : List ℕ) → IsWellFormed t → 0 < depth
        → IsEnd t depth registers memory ↔ IsAllowedAtDepth t depth registers memory }
{
    ends_are_what_tso_allows();
}

/// More states are that many, all different, each of them reached by choices.
pub fn more_states_can_be_reached()
    ensures reachable { (t : Litmus) (depth limit : ℕ) (said : HasMoreStates t depth limit) → (i : ℕ) (s : State)
        → slice_get said.states i ≡ Some s → IsReachable t depth s }
    ensures distinct { (t : Litmus) (depth limit : ℕ) (said : HasMoreStates t depth limit) → (i j : ℕ) (s : State)
        → slice_get said.states i ≡ Some s → slice_get said.states j ≡ Some s → i ≡ j }
    ensures more { (t : Litmus) (depth limit : ℕ) (said : HasMoreStates t depth limit) → limit < length said.states }
    ensures cores { (t : Litmus) (depth : ℕ) (state : State) (said : IsReachable t depth state)
        → CoresExist (length t.programs) said.choices }
    ensures state_is { (t : Litmus) (depth : ℕ) (state : State) (said : IsReachable t depth state)
        → state_after t depth (start t) said.choices ≡ state }
{}
