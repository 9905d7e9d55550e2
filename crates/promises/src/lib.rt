//! Users of public promises on which no other crate rests. Each function makes such a call, is proved by what the call ensures,
//! and says it of this use, with limits as plain numbers. So a promise that says less than it did, or a limit that is changed
//! together with its constant, is refused here.
#![tactic(auto)]

pub mod commands;
pub mod counts;
pub mod limits;
pub mod machine;
pub mod models;
pub mod orders;
pub mod outcomes;
pub mod printed;
pub mod reasons;
pub mod texts;
pub mod traces;
