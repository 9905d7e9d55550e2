//! Dead registers are forgotten: each gets 0, so that they tell no two states apart. Nothing else of a state changes.
ghost use Rattle.std.specs.Prelude.{◌≡◌, ◌+◌, Bool, List, length};
ghost use Rattle.tso_terms.specs.declared.instruction.Instr.{Instr};
ghost use Rattle.tso_laws.specs.Dead.{cleared, forgotten_core, forgotten};
ghost use Rattle.flat_machine.specs.State.{state_of_snapshot, core_of_processor};
ghost use Rattle.explorer.specs.inner.Planned.{AreDead, IsPlan};

use crate::plan::Plan;
use flat_machine::Snapshot;
use tso_terms::Core;

/// Puts 0 into the registers that are dead.
fn clear(registers: &mut [u32; 6], dead: &[bool; 6])
    ensures { registers.new ≡ cleared dead.now registers.old }
{
    for at in 0..6 {
        if dead[at] {
            registers[at] = 0;
        }
    }
}

/// Forgets the dead registers of each core.
pub fn forget(state: &mut Snapshot, plan: &Plan)
    requires plan { IsPlan plan.now }
    requires cores { length state.old.cores.items ≡ length plan.now.test.now.programs }
    ensures value { state_of_snapshot state.new ≡ forgotten plan.now.test.now plan.now.hidden.now (state_of_snapshot state.old) }
    ensures cores { length state.new.cores.items ≡ length state.old.cores.items }
{
    for core in 0..plan.test.cores() {
        let at = usize::from(core);
        let processor = &mut state.cores[at];
        let program = plan.test.program(Core(core));
        let left = program.len().saturating_sub(usize::from(processor.place));
        clear(&mut processor.registers, &plan.dead[at][left]);
    }
}
