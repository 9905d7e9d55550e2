//! Worked examples of the definitions: what they come to on small tests, written out by names and
//! numerals.
//!
//! Nothing here computes. Each public function has no code of its own, and its contract is a law: a
//! clause has a definition and what it comes to in one example, chosen so that what could easily be
//! swapped differs. The tests, the choices and the rows are in `specs/`.
#![tactic(auto)]

pub mod accesses;
pub mod caches;
pub mod conditions;
pub mod counts;
pub mod larger_set;
pub mod limits;
pub mod names;
pub mod order;
pub mod outcomes;
pub mod printed_executions;
pub mod printed_outcomes;
pub mod printed_refutations;
pub mod refusals;
pub mod searches;
pub mod sets;
pub mod split_outcomes;
pub mod tables;
pub mod texts;
pub mod threads;
pub mod traces;
pub mod traffic;
pub mod write_in_place;

pub use accesses::{worked_accesses, worked_needs};
pub use caches::{
    worked_fronts, worked_halves, worked_hits, worked_lines, worked_places, worked_settling,
    worked_sharing, worked_words,
};
pub use conditions::{worked_atoms, worked_propositions};
pub use counts::worked_counts;
pub use larger_set::{
    worked_changes, worked_compare_exchange, worked_larger_actions, worked_operators,
    worked_updates,
};
pub use limits::{numbers_of_machines, numbers_of_tests, numbers_of_texts};
pub use names::{worked_location_names, worked_register_names, worked_test_names};
pub use order::{worked_due_values, worked_kinds_of_entries, worked_pairs, worked_program_order};
pub use outcomes::{worked_outcomes, worked_stalls};
pub use printed_executions::worked_reasons;
pub use printed_outcomes::{
    worked_decided_verdicts, worked_met_states, worked_printed_states, worked_shown_values,
    worked_verdicts,
};
pub use printed_refutations::worked_printed_refutations;
pub use refusals::{
    worked_ending_refusals, worked_header_refusals, worked_initial_refusals,
    worked_larger_refusals, worked_limits_of_texts, worked_table_refusals,
};
pub use searches::worked_reachable_states;
pub use sets::{worked_fills, worked_set_calls};
pub use split_outcomes::{worked_split_outcomes, worked_split_stalls};
pub use tables::{
    worked_kinds, worked_mesi, worked_moesi, worked_mosi, worked_msi, worked_transients,
};
pub use texts::worked_texts;
pub use threads::{worked_actions, worked_run, worked_thread};
pub use traces::worked_traces;
pub use traffic::worked_traffic;
pub use write_in_place::worked_write_hits;
