//! What holds at each moment of a run, field by field: the commits meet the axioms as far as they go, each core is within its
//! program, and all values are words. (Primer, chapter 4.)

ghost use Rattle.std.specs.Prelude.{◌++◌, ◌<◌, ◌≡◌, ◌≢◌, ◌≤◌, All, List, false, filter, length, ℕ};
ghost use Rattle.tso_laws.specs.Choices.{IsPossible, commits_of, state_after};
ghost use Rattle.tso_laws.specs.Depth.{needed};
ghost use Rattle.tso_laws.specs.SoFar.{HasReadValuesSoFar, SoFar, is_waiting, issued, registers_at};
ghost use Rattle.tso_laws.specs.WellFormed.{IsWellFormed};
ghost use Rattle.tso_laws.specs.Words.{HasWord};
ghost use Rattle.tso_terms.specs.Axioms.{IsAdjacent, IsTsoExecution, KeepsProgramOrder};
ghost use Rattle.tso_terms.specs.Condition.{Condition, atoms_in, negations_in};
ghost use Rattle.tso_terms.specs.FinalState.{final_words};
ghost use Rattle.tso_terms.specs.FlatMachine.{State, core_of, program_of, start};
ghost use Rattle.tso_terms.specs.Limits.{most_atoms, most_open};
ghost use Rattle.tso_terms.specs.Litmus.{IsCondition, Litmus};
ghost use Rattle.tso_terms.specs.Registers.{AreRegisters, IsWord};
ghost use Rattle.tso_terms.specs.Runs.{run};
ghost use Rattle.tso_terms.specs.Standing.{StandsIn};
ghost use Rattle.basic_laws.specs.Types.{Choice, Entry, F};

use tso_laws::{smaller_depths_never_reach, values_are_words, what_holds_so_far};

/// In each state that choices lead to, so after any choices of a test.
pub fn what_holds_after_any_choices()
    ensures in_each_state { (t : Litmus) (depth : ℕ) (commits : List Entry) (state : State) → IsWellFormed t
        → IsPossible t depth commits state → SoFar t depth commits state }
    ensures after_choices { (t : Litmus) (depth : ℕ) (choices : List Choice) → IsWellFormed t
        → SoFar t depth (commits_of t depth (start t) choices) (state_after t depth (start t) choices) }
{
    what_holds_so_far();
}

/// In each run of a test the commits are issued, keep program order and pairs, and have the values that are due; memory has the last
/// write to each location. What is pending of a core are its issued stores that are not committed, no more than its buffer holds.
pub fn what_holds_in_each_run()
    ensures entry_core { (t : Litmus) (depth : ℕ) (choices : List Choice) → IsWellFormed t → (e : Entry)
        → StandsIn (run t depth choices).commits e → e.core.0 < length t.programs }
    ensures entry_place { (t : Litmus) (depth : ℕ) (choices : List Choice) → IsWellFormed t → (e : Entry)
        → StandsIn (run t depth choices).commits e → e.place < length (program_of t e.core.0) }
    ensures location { (t : Litmus) (depth : ℕ) (choices : List Choice) → IsWellFormed t → (e : Entry)
        → StandsIn (run t depth choices).commits e → e.kind ≢ F → e.loc.0 < length t.locations }
    ensures fence { (t : Litmus) (depth : ℕ) (choices : List Choice) → IsWellFormed t → (e : Entry)
        → StandsIn (run t depth choices).commits e → e.kind ≡ F → (e.loc.0 ≡ 0) × (e.value ≡ 0) }
    ensures entry { (t : Litmus) (depth : ℕ) (choices : List Choice) → IsWellFormed t → (e : Entry)
        → StandsIn (run t depth choices).commits e
        → StandsIn (issued t e.core.0 (core_of (run t depth choices).state e.core.0).place (run t depth choices).commits) e }
    ensures program_order { (t : Litmus) (depth : ℕ) (choices : List Choice) → IsWellFormed t
        → KeepsProgramOrder (run t depth choices).commits }
    ensures adjacent { (t : Litmus) (depth : ℕ) (choices : List Choice) → IsWellFormed t → IsAdjacent (run t depth choices).commits }
    ensures read_values { (t : Litmus) (depth : ℕ) (choices : List Choice) → IsWellFormed t
        → HasReadValuesSoFar t (run t depth choices).commits (run t depth choices).state }
    ensures memory { (t : Litmus) (depth : ℕ) (choices : List Choice) → IsWellFormed t
        → (run t depth choices).state.memory ≡ final_words t (run t depth choices).commits }
    ensures size { (t : Litmus) (depth : ℕ) (choices : List Choice) → IsWellFormed t
        → length (run t depth choices).state.cores ≡ length t.programs }
    ensures core_place { (t : Litmus) (depth : ℕ) (choices : List Choice) → IsWellFormed t → (k : ℕ) → k < length t.programs
        → (core_of (run t depth choices).state k).place ≤ length (program_of t k) }
    ensures pending { (t : Litmus) (depth : ℕ) (choices : List Choice) → IsWellFormed t → (k : ℕ) → k < length t.programs
        → (core_of (run t depth choices).state k).pending ≡ filter (is_waiting (run t depth choices).commits)
        (issued t k (core_of (run t depth choices).state k).place (run t depth choices).commits) }
    ensures room { (t : Litmus) (depth : ℕ) (choices : List Choice) → IsWellFormed t → (k : ℕ) → k < length t.programs
        → length (core_of (run t depth choices).state k).pending ≤ depth }
    ensures order { (t : Litmus) (depth : ℕ) (choices : List Choice) → IsWellFormed t → (k : ℕ) → k < length t.programs
        → KeepsProgramOrder ((run t depth choices).commits ++ (core_of (run t depth choices).state k).pending) }
    ensures core_locations { (t : Litmus) (depth : ℕ) (choices : List Choice) → IsWellFormed t → (k : ℕ) → k < length t.programs
        → All (λ e. e.loc.0 < length t.words) (core_of (run t depth choices).state k).pending }
    ensures committed { (t : Litmus) (depth : ℕ) (choices : List Choice) → IsWellFormed t → (k : ℕ) → k < length t.programs → (e : Entry)
        → StandsIn (issued t k (core_of (run t depth choices).state k).place (run t depth choices).commits) e
        → is_waiting (run t depth choices).commits e ≡ false → StandsIn (run t depth choices).commits e }
    ensures registers { (t : Litmus) (depth : ℕ) (choices : List Choice) → IsWellFormed t → (k : ℕ) → k < length t.programs
        → (core_of (run t depth choices).state k).registers
        ≡ registers_at t k (core_of (run t depth choices).state k).place (run t depth choices).commits }
{
    what_holds_so_far();
}

/// All that a run commits and leaves is a word, and so is all of an execution; a run needs no more than its own depth.
pub fn all_values_are_words()
    ensures values { (t : Litmus) (depth : ℕ) (choices : List Choice) → IsWellFormed t → All HasWord (run t depth choices).commits }
    ensures memory { (t : Litmus) (depth : ℕ) (choices : List Choice) → IsWellFormed t → All IsWord (run t depth choices).state.memory }
    ensures registers { (t : Litmus) (depth : ℕ) (choices : List Choice) → IsWellFormed t
        → All (λ core. AreRegisters core.registers) (run t depth choices).state.cores }
    ensures in_executions { (t : Litmus) (order : List Entry) → IsWellFormed t → IsTsoExecution t order → All HasWord order }
    ensures within { (t : Litmus) (depth : ℕ) (choices : List Choice) → IsWellFormed t → 0 < depth
        → needed (run t depth choices).commits ≤ depth }
    ensures never { (t : Litmus) (depth : ℕ) (order : List Entry) (choices : List Choice) → IsWellFormed t → 0 < depth
        → depth < needed order → (run t depth choices).commits ≢ order }
{
    values_are_words();
    smaller_depths_never_reach();
}

/// A condition of a test has at most as many atoms and negations as the limits say.
pub fn a_condition_is_small()
    ensures atoms { (cores locations : ℕ) (c : Condition) → IsCondition cores locations c → atoms_in c.claim ≤ most_atoms }
    ensures negations { (cores locations : ℕ) (c : Condition) → IsCondition cores locations c → negations_in c.claim ≤ most_open }
{}
