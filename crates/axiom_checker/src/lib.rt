//! Whether an order of memory actions is a TSO execution of a test, and if not, which breach is the
//! first.
//!
//! What a breach is and which one is the first is in `order_breaches`, as facts about orders. The
//! checker goes over the order twice, and looks back once where an entry came too late: at most
//! three looks for each entry.
#![tactic(auto)]

mod check;
mod passing;

pub use check::{check_counted, check_order};
pub use order_breaches::{Breach, breach, first_breaches};
