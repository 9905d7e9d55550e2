//! The final state of a test that has ended.
ghost use Rattle.std.specs.Prelude.{◌≡◌, IfOk, map};
ghost use Rattle.snoop_bus.specs.Bus.{words_of, IsFree, IsSameMachine};
ghost use Rattle.machine_core.specs.Keeping.{HardwareFitsTest};

use crate::hardware::{Hardware, registers_of};
use multiprocessor::memory::settled_memory;
use protocol_tables::Protocol;
use std::alloc::Global;
use tso_terms::{NoMemory, Test};

/// The final state of a test that has ended.
#[derive(Drop)]
pub struct FinalState {
    /// The registers of each core, in the order of `Reg::ALL`.
    pub registers: Vec<[u32; 6]>,
    /// The word of each location.
    pub memory: Vec<u32>,
}

/// The final state. Each dirty line goes to memory first.
///
/// Errors: out of memory only.
pub fn final_state<P: Protocol>(
    alloc: Global,
    hardware: &mut Hardware<P>,
    test: &Test,
) -> Result<FinalState, NoMemory>
    requires fits { HardwareFitsTest test.now hardware.old }
    requires free { IsFree hardware.old.bus }

    ensures registers { IfOk result (λ f. f.registers.items ≡ map (λ p. p.registers) hardware.old.processors.items) }
    ensures memory { IfOk result (λ f. f.memory.items ≡ words_of hardware.old.bus) }
    ensures fits { HardwareFitsTest test.now hardware.new }
    ensures machine { IsSameMachine hardware.old.bus hardware.new.bus }
    ensures config { hardware.new.config ≡ hardware.old.config }
    ensures counts { hardware.new.counts.items ≡ hardware.old.counts.items }
{
    let registers = registers_of(alloc, &hardware.processors)?;
    let memory = settled_memory(alloc, &mut hardware.bus, test.locations())?;
    Ok(FinalState { registers, memory })
}
