//! The commands of `tso`, from bytes to bytes. Streams and exit statuses come from outside, so that all of what is answered
//! can be promised, and another program can ask for it too.
#![tactic(auto)]

pub mod answer;
pub mod answering;
pub mod answers;
pub mod checking;
pub mod command;
pub mod counting;
pub mod dividing;
pub mod explaining;
pub mod headline_laws;
pub mod hinting;
mod listing;
pub mod machine_laws;
pub mod measuring;
pub mod outcomes;
pub mod round_trips;
pub mod running;
mod stepping;
pub mod sweeping;
mod told_run;
pub mod tracing;
mod unfinished;
pub mod witnessing;

pub use answer::{Answer, Status, refused_input, refused_test};
pub use answering::{answer_to, answer_watched};
pub use checking::check_answer;
pub use command::{Answered, answer_command, run_command};
pub use command_line::{LineFault, ReasonPlan, SearchPlan, Settings, settings_of};
pub use counting::counts_answer;
pub use dividing::{Parts, parts_of};
pub use explaining::why_answer;
pub use explorer::{STRIDE, Unwatched, Watcher};
pub use hinting::hint;
pub use hints::line_hint;
pub use litmus_reader::Instructions;
pub use machine_runs::Ending;
pub use measuring::{refused_trace, word_too_far};
pub use outcomes::outcomes_answer;
pub use running::{cause_of, refused_choices, run_answer};
pub use scheduler::SweepPlan;
pub use simulator::{SimFault, simulate};
pub use stepping::step_answer;
pub use sweeping::sweep_answer;
pub use tracing::trace_answer;
pub use tso_io::{Counted, MAX_INPUT, READ_LIMIT, RunFault};
pub use witnessing::witness_answer;
