//! Whether a test has ended in a state of the flat machine, and what its registers hold there.
ghost use Rattle.std.specs.Prelude.{◌≡◌, IfOk, OnOk, length, map};
ghost use Rattle.tso_terms.specs.Runs.{has_ended};
ghost use Rattle.flat_machine.specs.State.{state_of_snapshot};

use crate::snapshot::{Processor, Snapshot};
use std::alloc::Global;
use tso_terms::{Core, NoMemory, Test};

/// Whether the test has ended: each core is at the end of its program with nothing pending.
pub fn has_ended(test: &Test, snapshot: &Snapshot) -> bool
    requires { length snapshot.now.cores.items ≡ length test.now.programs }
    ensures { result ≡ has_ended test.now (state_of_snapshot snapshot.now) }
{
    for core in 0..test.cores() {
        let program = test.program(Core(core));
        let processor = &snapshot.cores[usize::from(core)];
        if program.len() != usize::from(processor.place) || !processor.pending.is_empty() {
            return false;
        }
    }
    true
}

/// Makes a list the registers of each core, in the memory that it has.
///
/// Errors: out of memory only.
pub fn write_registers(registers: &mut Vec<[u32; 6]>, cores: &[Processor]) -> Result<(), NoMemory>
    ensures { OnOk result (registers.new.items ≡ map (λ c. c.registers) cores.now) }
{
    registers.clear();
    for core in cores {
        registers.push(core.registers)?;
    }
    Ok(())
}

/// The registers of each core.
///
/// Errors: out of memory only.
pub fn registers_of(alloc: Global, cores: &[Processor]) -> Result<Vec<[u32; 6]>, NoMemory>
    ensures { IfOk result (λ rs. rs.items ≡ map (λ c. c.registers) cores.now) }
{
    let mut registers = Vec::new(alloc);
    write_registers(&mut registers, cores)?;
    Ok(registers)
}
