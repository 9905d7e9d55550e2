//! The order of memory actions that a machine's commits make, and the texts of orders, printed and read. What is printed of
//! an order has to be read as that order again: so any run can be checked by its text.
#![tactic(auto)]

mod entries;
pub mod fault;
mod lines;
mod numbers;
pub mod order_texts;
pub mod printing;
pub mod reading;

pub use commit_order::{Commits, build};
pub use fault::OrderFault;
pub use printing::{entry_text, letters_of, order_text, write_entry, write_order};
pub use reading::read_order;
