//! What a core's program does, given the values that its reads return: its entries in program order, and its registers at
//! the end. No memory has a part in it; which values those are is the memory model's to say. (x86-TSO, section 3.)
ghost use Rattle.std.specs.Prelude.{◌≡◌, ◌<◌, ◌≤◌, ◌+◌, List, [], ◌∷◌, ◌++◌, length, IfOk, slice_index_or};
ghost use Rattle.tso_terms.specs.declared.instruction.Instr.{Instr};
ghost use Rattle.tso_terms.specs.Thread.{entry, entries_of, registers_after, reads_in, entries_with, registers_with};

use std::alloc::Global;
use tso_terms::{Action, Core, Entry, Instr, Kind, Loc, NoMemory, Test, take};

/// What a core's program does: its entries in program order, and its registers at the end.
#[derive(Drop)]
pub struct Thread {
    pub entries: Vec<Entry>,
    pub registers: [u32; 6],
}

/// How many values the core's program reads: one for each load and each locked instruction.
pub fn read_count(test: &Test, core: Core) -> usize
    requires { core.0 < length test.now.programs }
    ensures { result ≡ reads_in (slice_index_or test.now.programs core.0 []) }
{
    let mut count = 0;
    for instr in test.program(core) {
        if matches!(instr.action(), Action::Load(..) | Action::Lock(..)) {
            count += 1;
        }
    }
    count
}

/// The entries of a core's program in program order and its registers at the end, where its reads
/// return these values, used in program order.
///
/// Errors: out of memory only.
pub fn thread_entries(
    alloc: Global,
    test: &Test,
    core: Core,
    reads: &[u32],
) -> Result<Thread, NoMemory>
    requires known { core.0 < length test.now.programs }
    requires reads { length reads.now ≡ reads_in (slice_index_or test.now.programs core.0 []) }
    ensures entries { IfOk result (λ t. t.entries.items ≡ entries_with test.now core.0 reads.now) }
    ensures registers { IfOk result (λ t. t.registers ≡ registers_with test.now core.0 reads.now) }
{
    let mut thread = Thread {
        entries: Vec::new(alloc),
        registers: test.initial_registers(core),
    };
    let mut place = 0;
    let mut left = reads;
    for instr in test.program(core) {
        run_instruction(&mut thread, core, place, *instr, &mut left)?;
        place += 1;
    }
    Ok(thread)
}

/// Adds what an instruction does, and takes from the reads' values what it reads.
fn run_instruction(
    thread: &mut Thread,
    core: Core,
    place: u8,
    instr: Instr,
    reads: &mut &[u32],
) -> Result<(), NoMemory>
    requires { reads_in (instr ∷ []) ≤ length reads.now.now }
    ensures entries { IfOk result (λ _. (rest : List Instr)
        → thread.old.entries.items ++ entries_of core.0 place (instr ∷ rest) thread.old.registers reads.old.now
        ≡ thread.new.entries.items ++ entries_of core.0 (place + 1) rest thread.new.registers reads.new.now) }
    ensures registers { IfOk result (λ _. (rest : List Instr)
        → registers_after (instr ∷ rest) thread.old.registers reads.old.now ≡ registers_after rest thread.new.registers reads.new.now) }
    ensures left { IfOk result (λ _. length reads.new.now + reads_in (instr ∷ []) ≡ length reads.old.now) }
{
    match instr.action() {
        Action::Store(loc, operand) => {
            let value = operand.value(&thread.registers);
            note(thread, core, place, Kind::W, loc, value)
        }
        Action::Load(reg, loc) => {
            let loaded = reads[0];
            *reads = &reads[1..];
            thread.registers[reg.index()] = loaded;
            note(thread, core, place, Kind::R, loc, loaded)
        }
        Action::Move(change) => {
            change.apply(&mut thread.registers);
            Ok(())
        }
        Action::Fence => note(thread, core, place, Kind::F, Loc(0), 0),
        Action::Lock(loc, target, update) => {
            let word = reads[0];
            *reads = &reads[1..];
            let written = update.apply(&thread.registers, word);
            take(&mut thread.registers, target, word);
            note(thread, core, place, Kind::LR, loc, word)?;
            note(thread, core, place, Kind::LW, loc, written)
        }
    }
}

fn note(
    thread: &mut Thread,
    core: Core,
    place: u8,
    kind: Kind,
    loc: Loc,
    value: u32,
) -> Result<(), NoMemory>
    ensures entries { IfOk result (λ _. thread.new.entries.items ≡ thread.old.entries.items ++ entry core.0 place kind loc value ∷ []) }
    ensures registers { thread.new.registers ≡ thread.old.registers }
{
    thread.entries.push(Entry {
        core,
        place,
        kind,
        loc,
        value,
    })?;
    Ok(())
}
