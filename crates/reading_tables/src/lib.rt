//! What each read of a test can read from and return, where some facts are given: computes exactly what `possible_reads` defines.
#![tactic(auto)]

pub mod amounts;
pub mod counting;
pub mod ends;
pub mod equality;
pub mod expressions;
pub mod facts;
pub mod leasts;
pub mod numbers;
pub mod orders;
pub mod plain;
pub mod rounds;
pub mod sources;
pub mod tables;
pub mod values;
