//! A state of the flat machine: memory, and each core's place, registers and pending stores.
ghost use Rattle.std.specs.Prelude.{◌≡◌, IfOk, OnOk, length};
ghost use Rattle.tso_terms.specs.FlatMachine.{start};
ghost use Rattle.flat_machine.specs.State.{state_of_snapshot};

use std::alloc::Global;
use tso_terms::{Core, Entry, NoMemory, Test};

/// A core: the place in its program, its registers, and its pending stores, oldest first.
pub struct Processor {
    pub place: u8,
    pub registers: [u32; 6],
    pub pending: Vec<Entry>,
}

// Said by hand, so that who lets it go makes one call, and not one for each part.
impl Drop for Processor {
    fn drop(self) {
        let Processor {
            place: _,
            registers: _,
            pending: _pending,
        } = self;
    }
}

/// Memory, and each core.
pub struct Snapshot {
    pub memory: Vec<u32>,
    pub cores: Vec<Processor>,
}

// Said by hand, so that who lets it go makes one call, and not one for each part.
impl Drop for Snapshot {
    fn drop(self) {
        let Snapshot {
            memory: _memory,
            cores: _cores,
        } = self;
    }
}

/// The first state of a test.
///
/// Errors: out of memory only.
pub fn start(alloc: Global, test: &Test) -> Result<Snapshot, NoMemory>
    ensures value { IfOk result (λ s. state_of_snapshot s ≡ start test.now) }
    ensures cores { IfOk result (λ s. length s.cores.items ≡ length test.now.programs) }
{
    let mut memory = Vec::new(alloc);
    for word in test.initial_words() {
        memory.push(*word)?;
    }
    let mut cores = Vec::new(alloc);
    for core in 0..test.cores() {
        cores.push(Processor {
            place: 0,
            registers: test.initial_registers(Core(core)),
            pending: Vec::new(alloc),
        })?;
    }
    Ok(Snapshot { memory, cores })
}

/// Makes a state the same as another one with as many cores, in the memory that it has.
///
/// Errors: out of memory only.
pub fn overwrite(state: &mut Snapshot, other: &Snapshot) -> Result<(), NoMemory>
    requires { length state.old.cores.items ≡ length other.now.cores.items }
    ensures value { OnOk result (state_of_snapshot state.new ≡ state_of_snapshot other.now) }
    ensures cores { OnOk result (length state.new.cores.items ≡ length other.now.cores.items) }
{
    state.memory.clear();
    state.memory.extend_from_slice(&other.memory)?;
    for at in 0..other.cores.len() {
        let core = &mut state.cores[at];
        let same = &other.cores[at];
        core.place = same.place;
        core.registers = same.registers;
        core.pending.clear();
        core.pending.extend_from_slice(&same.pending)?;
    }
    Ok(())
}
