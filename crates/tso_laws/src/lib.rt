//! The laws of the machines: whatever the choices, an ended run is a TSO execution, and every TSO
//! execution is a run.
//!
//! Nothing here computes. Each public function has no code of its own, and its contract is a law on
//! the definitions: a body that needs the law calls the function, and knows it from then on. The
//! proofs are long, and are beside the chain of crates in this way, and not in it.
//!
//! - `flat_runs`: the runs of the flat machine, and the orders that they make.
//! - `final_states`: what these runs end with, and runs without store buffers.
//! - `left_out_states`: which states a search for all ends may leave out.
//! - `bus_runs`: the runs of the machine on either bus, atomic or split. Each is followed by a run of
//!   the flat machine, so nothing of TSO is proved anew for them.
//! - `worked`, `worked_split`: runs and orders worked out by hand.
//!
//! Sources: the Primer, chapter "Total Store Order", for the axioms, and chapter "Snooping Coherence
//! Protocols", for the bus on which a request and its answer are two moments; the x86-TSO paper for
//! the machine. Rounds, the depth that an order needs, the choices along an order, what asks, what
//! waits and what acts at once are this project's.
#![tactic(auto)]

pub mod bus_runs;
pub mod final_states;
pub mod flat_runs;
pub mod left_out_states;
pub mod worked;
pub mod worked_split;

pub use bus_runs::{
    accesses_wait, atomic_runs_are_flat_runs, attempts_lead_from_state_to_state,
    ended_runs_on_either_bus_are_executions, fair_rounds_end_on_either_bus,
    no_buffer_no_reordering_on_either_bus, pending_stores_are_own,
    runs_on_either_bus_are_flat_runs, runs_on_either_bus_stop_where_they_end,
    stalls_on_either_bus_change_nothing, what_holds_so_far_on_either_bus,
};
pub use final_states::{
    choices_to_an_end_are_counted, ends_are_what_tso_allows,
    unbuffered_runs_reach_exactly_the_sequentially_consistent,
};
pub use flat_runs::{
    choices_lead_from_state_to_state, ended_runs_are_executions, every_execution_is_reached,
    fair_rounds_end, made_entries_fit_the_test, most_stores_are_depth_enough,
    needed_is_the_most_that_is_asked, no_buffer_no_reordering, runs_are_counted,
    runs_reach_exactly_the_executions, runs_stop_where_they_end, smaller_depths_never_reach,
    stalls_change_nothing, values_are_words, what_holds_so_far, whole_orders_have_each_entry_once,
};
pub use left_out_states::{
    alike_cores_are_exchangeable, closed_states_miss_none, dead_registers_change_nothing,
    eager_choices_take_effect, partly_closed_states_miss_none,
};
pub use worked::{laws_need_their_premises, premises_are_met, worked_orders, worked_runs};
pub use worked_split::{split_laws_need_their_premises, split_premises_are_met, worked_split_runs};
