//! What orders are, how they are judged, and which are reached.

pub mod built_orders;
pub mod faults;
pub mod judged_orders;
pub mod reached_orders;
