//! What a litmus test is, what its programs do, and what an order of their memory actions is.
//!
//! This crate holds the types that all others speak of, and in `specs/` the definitions on which
//! every proof rests: test, thread, program order, TSO execution, final state, truth of a condition,
//! the flat machine, and the machine on a split bus.
#![tactic(auto)]

pub mod action;
pub mod choice;
pub mod condition;
pub mod decimals;
pub mod execution;
pub mod instruction;
pub mod limits;
pub mod litmus;
pub mod names;
pub mod out_of_memory;
pub mod register;
mod validity;
pub mod watched;
mod words;

pub use action::{Action, Change, Operand, Operator, Update, take};
pub use choice::{Bus, Choice, Outcome, Stall};
pub use condition::{Cond, Prop, Quantifier, cond_holds};
pub use execution::{Entry, Execution, Kind};
pub use instruction::{Core, Instr, Loc};
pub use litmus::{Test, TestParts};
pub use out_of_memory::NoMemory;
pub use register::Reg;
pub use watched::Watched;
