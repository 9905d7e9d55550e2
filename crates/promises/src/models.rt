//! What the models allow, and what runs come to.

pub mod abstract_machine_runs;
pub mod branches;
pub mod candidates;
pub mod final_states;
pub mod locked_turns;
pub mod runs_so_far;
pub mod test_parts;
