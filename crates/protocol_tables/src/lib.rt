//! Snooping protocols as tables of states, and the laws that a cache bus rests on. The bus is proved from the laws alone,
//! so a further protocol is a further table for which they hold. (Primer, chapters 6 and 7.)
#![tactic(auto)]

pub mod kind;
pub mod printing;
pub mod protocol;
pub mod requests;
pub mod state;
pub mod tables;
pub mod transients;

pub use kind::ProtocolKind;
pub use printing::table_text;
pub use protocol::Protocol;
pub use requests::{Request, Transient};
pub use state::{Snoop, State};
pub use tables::{Mesi, Moesi, Mosi, Msi};
pub use transients::transient;
