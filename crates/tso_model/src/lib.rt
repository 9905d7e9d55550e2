//! What a litmus test is, what its programs do, and what an order of their memory actions is.
//!
//! The types are in `tso_terms`, with the definitions that every proof rests on. This crate hands them on, and makes a
//! core's thread from the values that its reads return.
#![tactic(auto)]

pub mod thread;

pub use thread::{Thread, read_count, thread_entries};
pub use tso_terms::{
    Action, Bus, Change, Choice, Cond, Core, Entry, Execution, Instr, Kind, Loc, NoMemory, Operand,
    Operator, Outcome, Prop, Quantifier, Reg, Stall, Test, TestParts, Update, Watched, action,
    choice, cond_holds, condition, execution, instruction, limits, litmus, names, out_of_memory,
    register, watched,
};
