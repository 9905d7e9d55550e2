//! What programs with branches may leave, law by law: each path as a straight-line test, rounds of values, bounds, notes; and
//! what an end of the machine over trees is. (x86-TSO, section 3.)

ghost use Rattle.std.specs.Prelude.{◌↔◌, ◌∷◌, ◌≡◌, ◌<◌, ◌≤◌, List, [], codes, length, slice_index, slice_index_or, ℕ};
ghost use Rattle.tso_terms.specs.Axioms.{IsTsoExecution};
ghost use Rattle.tso_terms.specs.Runs.{CoresExist};
ghost use Rattle.basic_laws.specs.Types.{Entry, Loc};
ghost use Rattle.tso_laws.specs.Depth.{needed};
ghost use Rattle.tso_laws.specs.Outcomes.{IsAllowedByTso};
ghost use Rattle.tso_laws.specs.WellFormed.{IsWellFormed};
ghost use Rattle.branch_laws.specs.Trees.{Tree, Locks, Adds, path};
ghost use Rattle.branch_laws.specs.Branching.{Branching, Give, values_from, straight, IsBranchExecution, IsPathExecution};
ghost use Rattle.branch_laws.specs.Branching.{IsBranchOutcome, IsPathOutcome};
ghost use Rattle.branch_laws.specs.TreeMachine.{IsTreeEnd, IsTreeReached, IsDoneWith, tree_core, tree_after, tree_start};
ghost use Rattle.branch_laws.specs.Rounds.{StandsAmong, round, ArePaths, EachPathIsTest, writes_in, AddsNothing, AreEnough};
ghost use Rattle.branch_laws.specs.Additions.{with_updates};
ghost use Rattle.branch_laws.specs.Bounds.{IsBounded, NoneIsCutOff, NoOutcomeIsCutOff, with_marks};
ghost use Rattle.branch_laws.specs.SamePaths.{HasTheSamePaths};
ghost use Rattle.branch_laws.specs.Shown.{Keeping, with_notes, shown, AllCanShow, AllSameIfFound, AreOwn, Shows};
ghost use Rattle.branch_laws.specs.WorkedTests.{try_lock, compare_and_exchange, counter, message, message_keeps, spin};

use branch_laws::{
    additions_share_a_test, bounded_outcomes_are_outcomes, branch_premises_are_met,
    cut_off_paths_show, final_states_show_the_path, notes_add_nothing,
    outcomes_are_the_union_of_paths, read_values_are_of_rounds, splitting_is_exact,
    tree_runs_reach_exactly_the_executions,
};

/// An execution of a branching test is one of its own path's straight-line test, and so of some path's; and each path's
/// execution, and what it leaves, is one of the branching test.
pub fn a_program_with_branches_ends_as_one_of_its_paths()
    ensures own_path { (b : Branching) (order : List Entry) (outputs : List (List ℕ)) → IsBranchExecution b order outputs
        ↔ (Give b.trees (values_from 0 b.trees order) outputs × IsTsoExecution (straight b (values_from 0 b.trees order)) order) }
    ensures some_path { (b : Branching) (order : List Entry) (outputs : List (List ℕ)) → IsBranchExecution b order outputs
        ↔ ((values : List (List ℕ)) × IsPathExecution b values order outputs) }
    ensures outcomes { (b : Branching) (outputs : List (List ℕ)) (memory : List ℕ) → IsBranchOutcome b outputs memory
        ↔ ((values : List (List ℕ)) × IsPathOutcome b values outputs memory) }
{
    splitting_is_exact();
}

/// The runs of the machine over trees reach the executions that need no more depth, and no others.
pub fn runs_over_trees_reach_the_executions()
    ensures { (b : Branching) (depth : ℕ) (order : List Entry) (outputs : List (List ℕ)) → IsWellFormed (straight b (values_from 0 b.trees order))
        → 0 < depth → IsTreeReached b depth order outputs ↔ (IsBranchExecution b order outputs × (needed order ≤ depth)) }
{
    tree_runs_reach_exactly_the_executions();
}

/// With rounds enough, what a program with branches may leave is what some path of so many rounds may.
pub fn finitely_many_paths_are_enough()
    ensures { (b : Branching) (n : ℕ) (outputs : List (List ℕ)) (memory : List ℕ) → AreEnough b n
        → IsBranchOutcome b outputs memory
        ↔ ((values : List (List ℕ)) × ArePaths (round b n) b.trees values × IsPathOutcome b values outputs memory) }
{
    outcomes_are_the_union_of_paths();
}

/// If no outcome of the bounded test has a mark, no execution of the whole one takes a path that is cut off.
pub fn what_is_cut_off_has_a_mark()
    ensures { (b whole : Branching) → IsBounded b whole → EachPathIsTest whole → EachPathIsTest (with_marks b) → NoOutcomeIsCutOff b
        → NoneIsCutOff b whole }
{
    cut_off_paths_show();
}

/// The final states of one straight-line test, by the values that they show, are what the paths with these values leave.
pub fn one_test_shows_its_paths()
    ensures { (b : Branching) (names values outputs : List (List ℕ)) (keeps : List (List Keeping)) (memory : List ℕ)
        → AllCanShow b.trees values keeps → Give b.trees values outputs → AreOwn b names keeps
        → ((own : List (List ℕ)) × AllSameIfFound keeps values own × IsPathOutcome (with_notes b names keeps) own outputs memory)
        ↔ ((registers : List (List ℕ)) × Shows keeps values registers memory × IsAllowedByTso (shown b names values keeps) registers memory) }
{
    final_states_show_the_path();
}

/// What an execution reads is of the round whose number is that of its writes; after a round that adds nothing none does.
pub fn what_is_read_is_of_a_round()
    ensures as_many_as_writes { (b : Branching) (order : List Entry) (outputs : List (List ℕ)) → IsBranchExecution b order outputs
        → ArePaths (round b (writes_in order)) b.trees (values_from 0 b.trees order) }
    ensures last_round { (b : Branching) (n : ℕ) → AddsNothing b n → (m loc v : ℕ) → StandsAmong v (round b m loc)
        → StandsAmong v (round b n loc) }
{
    read_values_are_of_rounds();
}

/// A locked addition has the executions of its update, and one program for all words that it may read.
pub fn an_addition_has_one_program()
    ensures executions { (b : Branching) (order : List Entry) (outputs : List (List ℕ)) → IsBranchExecution b order outputs
        ↔ IsBranchExecution (with_updates b) order outputs }
    ensures program { (loc : Loc) (number v w : ℕ) (next : ℕ → Tree) (values others : List ℕ) → path (next v) values ≡ path (next w) others
        → path (Locks loc (Adds number) next) (v ∷ values) ≡ path (Locks loc (Adds number) next) (w ∷ others) }
{
    additions_share_a_test();
}

/// What a bounded test may leave, the whole one may; and the converse where no execution takes a path that is cut off.
pub fn a_bounded_program_leaves_what_the_whole_may()
    ensures each { (b whole : Branching) (outputs : List (List ℕ)) (memory : List ℕ) → IsBounded b whole → IsBranchOutcome b outputs memory
        → IsBranchOutcome whole outputs memory }
    ensures all { (b whole : Branching) (outputs : List (List ℕ)) (memory : List ℕ) → IsBounded b whole → NoneIsCutOff b whole
        → IsBranchOutcome whole outputs memory ↔ IsBranchOutcome b outputs memory }
{
    bounded_outcomes_are_outcomes();
}

/// With notes of what was read, in locations of the cores' own, a path may leave the same elsewhere, and no more.
pub fn notes_change_nothing_elsewhere()
    ensures noted { (b : Branching) (names values outputs : List (List ℕ)) (keeps : List (List Keeping)) (memory : List ℕ)
        → AreOwn b names keeps → EachPathIsTest b → EachPathIsTest (with_notes b names keeps) → IsPathOutcome b values outputs memory
        → (more : List ℕ) × IsPathOutcome (with_notes b names keeps) values outputs more
        × ((loc : ℕ) → loc < length b.words → slice_index more loc ≡ slice_index memory loc) }
    ensures unnoted { (b : Branching) (names values outputs : List (List ℕ)) (keeps : List (List Keeping)) (more : List ℕ)
        → AreOwn b names keeps → EachPathIsTest b → EachPathIsTest (with_notes b names keeps) → IsPathOutcome (with_notes b names keeps) values outputs more
        → (memory : List ℕ) × IsPathOutcome b values outputs memory
        × ((loc : ℕ) → loc < length b.words → slice_index memory loc ≡ slice_index more loc) }
{
    notes_add_nothing();
}

/// An end of the machine over trees: choices of the test's cores leave each core's tree done with its outputs, nothing
/// pending, and this memory.
pub fn an_end_leaves_each_tree_done()
    ensures cores { (b : Branching) (depth : ℕ) (outputs : List (List ℕ)) (memory : List ℕ) (e : IsTreeEnd b depth outputs memory)
        → CoresExist (length b.trees) e.choices }
    ensures count { (b : Branching) (depth : ℕ) (outputs : List (List ℕ)) (memory : List ℕ) → IsTreeEnd b depth outputs memory
        → length outputs ≡ length b.trees }
    ensures done { (b : Branching) (depth : ℕ) (outputs : List (List ℕ)) (memory : List ℕ) (e : IsTreeEnd b depth outputs memory) (k : ℕ)
        → k < length b.trees → IsDoneWith (tree_core (tree_after depth (tree_start b) e.choices) k) (slice_index_or outputs k []) }
    ensures memory { (b : Branching) (depth : ℕ) (outputs : List (List ℕ)) (memory : List ℕ) (e : IsTreeEnd b depth outputs memory)
        → (tree_after depth (tree_start b) e.choices).memory ≡ memory }
{}

/// Worked branching tests are within the limits, with what some rounds have; a wait for a flag has the paths of its last
/// round; and what a reader under a branch read can be found at the end.
pub fn worked_branches_meet_the_premises()
    ensures lock_tests { EachPathIsTest try_lock }
    ensures exchange_tests { EachPathIsTest compare_and_exchange }
    ensures counter_tests { EachPathIsTest counter }
    ensures message_tests { EachPathIsTest message }
    ensures lock_round_of_y { round try_lock 1 1 ≡ 0 ∷ (2 ∷ []) }
    ensures counter_round_of_x { round counter 1 0 ≡ 0 ∷ (1 ∷ (1 ∷ [])) }
    ensures counter_rounds { AreEnough counter 4 }
    ensures last_round { (n : ℕ) → HasTheSamePaths 2 (spin n) (spin 1) }
    ensures keeps_show { AllCanShow message.trees ([] ∷ ((1 ∷ (1 ∷ [])) ∷ [])) message_keeps }
    ensures keeps_are_own { AreOwn message (codes "z" ∷ []) message_keeps }
{
    branch_premises_are_met();
}
