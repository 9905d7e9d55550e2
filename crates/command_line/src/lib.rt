//! What a command line asks for: its words to settings. All limits on them are judged here, so no command judges them
//! again.
#![tactic(auto)]

pub mod explanation;
mod options;
pub mod search;
pub mod settings;

pub use command_table::{DeclaredOption, SUBCOMMANDS, Subcommand, Value};
pub use explanation::ReasonPlan;
pub use search::SearchPlan;
pub use settings::{LineFault, Settings, settings_of};
pub use tso_report::Show;
