//! What an order makes of the programs, by its own read values: their entries, and the final state, which is the last write to each
//! location and what the programs compute from their reads.
ghost use Rattle.std.specs.Prelude.{◌≡◌, ◌<◌, ◌++◌, [], IfOk, length, slice_index_or};
ghost use Rattle.tso_terms.specs.ProgramEntries as entries;
ghost use Rattle.tso_terms.specs.FinalState as state;

use std::alloc::Global;
use tso_model::{Thread, thread_entries};
use tso_terms::{Action, Core, Entry, Kind, NoMemory, Test};

fn read_value(order: &[Entry], core: Core, place: u8, kind: Kind) -> u32
    ensures { result ≡ entries.read_value core.0 place kind order.now }
{
    for e in order {
        if e.core.0 == core.0 && e.place == place && e.kind == kind {
            return e.value;
        }
    }
    0
}

/// Adds the value that the order itself gives what an action reads, if it reads.
fn add_value(
    values: &mut Vec<u32>,
    order: &[Entry],
    core: Core,
    place: u8,
    action: Action,
) -> Result<(), NoMemory>
    ensures { IfOk result (λ _. values.new.items ≡ values.old.items ++ entries.values_by core.0 place action order.now) }
{
    match action {
        Action::Load(..) => values.push(read_value(order, core, place, Kind::R))?,
        Action::Lock(..) => values.push(read_value(order, core, place, Kind::LR))?,
        _ => {}
    }
    Ok(())
}

/// What a core's program makes where its reads return what the order itself says.
///
/// Errors: out of memory only.
fn thread_of(alloc: Global, test: &Test, core: Core, order: &[Entry]) -> Result<Thread, NoMemory>
    requires { core.0 < length test.now.programs }
    ensures entries { IfOk result (λ thread. thread.entries.items
        ≡ entries.made_by core.0 (slice_index_or test.now.programs core.0 []) (slice_index_or test.now.registers core.0 []) order.now) }
    ensures registers { IfOk result (λ thread. thread.registers
        ≡ state.registers_of core.0 (slice_index_or test.now.programs core.0 []) (slice_index_or test.now.registers core.0 []) order.now) }
{
    let mut values = Vec::new(alloc);
    let mut place = 0;
    for instr in test.program(core) {
        add_value(&mut values, order, core, place, instr.action())?;
        place += 1;
    }
    thread_entries(alloc, test, core, &values)
}

/// The entries that the programs make where their reads return what the order itself says, core by core and in program order.
///
/// Errors: out of memory only.
pub fn entries_made(alloc: Global, test: &Test, order: &[Entry]) -> Result<Vec<Entry>, NoMemory>
    ensures { IfOk result (λ made. made.items ≡ entries.made test.now order.now) }
{
    let mut made = Vec::new(alloc);
    for number in 0..test.cores() {
        let thread = thread_of(alloc, test, Core(number), order)?;
        made.extend_from_slice(&thread.entries)?;
    }
    Ok(made)
}

/// The registers of each core at the end.
///
/// Errors: out of memory only.
pub fn registers_left(
    alloc: Global,
    test: &Test,
    order: &[Entry],
) -> Result<Vec<[u32; 6]>, NoMemory>
    ensures { IfOk result (λ left. left.items ≡ state.final_registers test.now order.now) }
{
    let mut left = Vec::new(alloc);
    for number in 0..test.cores() {
        let thread = thread_of(alloc, test, Core(number), order)?;
        left.push(thread.registers)?;
    }
    Ok(left)
}

fn word_left(order: &[Entry], loc: u8, first: u32) -> u32
    ensures { result ≡ state.word_after loc order.now first }
{
    let mut word = first;
    for e in order {
        if matches!(e.kind, Kind::W | Kind::LW) && e.loc.0 == loc {
            word = e.value;
        }
    }
    word
}

/// The word of each location at the end.
///
/// Errors: out of memory only.
pub fn words_left(alloc: Global, test: &Test, order: &[Entry]) -> Result<Vec<u32>, NoMemory>
    ensures { IfOk result (λ left. left.items ≡ state.final_words test.now order.now) }
{
    let mut left = Vec::new(alloc);
    let mut loc = 0;
    test.know_limits();
    for word in test.initial_words() {
        left.push(word_left(order, loc, *word))?;
        loc += 1;
    }
    Ok(left)
}
