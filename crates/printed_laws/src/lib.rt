//! Laws on printed texts: what `run`, `sweep`, `outcomes`, `trace` and `why` print tells what it shows. Nothing here computes: each
//! public function has no code of its own, and its contract is a law on the definitions of what these commands print.
#![tactic(auto)]

pub mod outcomes;
pub mod reasons;
pub mod runs;
pub mod traces;

pub use outcomes::{
    both_commands_print_one_verdict, outcomes_tell_their_states, outcomes_tell_their_tests,
    printed_states_fit_their_test, statuses_tell_the_verdict, true_names_the_true_states,
    verdicts_mean_what_they_say, words_mean_what_they_say,
};
pub use reasons::{printed_lines_refute, reasons_tell_their_tests};
pub use runs::{
    printed_runs_are_told, reports_tell_their_machines, reports_tell_their_runs,
    sweeps_tell_their_counts, sweeps_tell_their_machines, unfinished_runs_are_told,
};
pub use traces::{
    printed_traces_are_told, printed_traces_tell_their_machines, traced_steps_fit_their_test,
    traces_tell_their_steps, values_of_machines_tell_them,
};
