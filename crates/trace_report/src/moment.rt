//! A machine at a moment of its run, with what is told of it there.

use machine_core::{Config, Machine};
use protocol_tables::Protocol;
use tso_terms::Test;

/// A machine between two choices, as it is told.
#[derive(Drop)]
pub struct Moment<'a, 't, P: Protocol> {
    /// The machine.
    pub machine: &'a Machine<'t, P>,
    /// The test that the machine runs.
    pub test: &'a Test,
    /// How the machine is configured.
    pub config: Config,
    /// Memory's own words, one for each location of the test.
    pub memory: &'a [u32],
}
