//! Memory's own words along a run. They are stale while a copy is dirty, and a machine shows the words that are seen; so
//! these are followed from step to step. (Primer, chapters 6 and 7.)

ghost use Rattle.std.specs.Prelude.{◌≡◌, ◌<◌, if◌then◌else◌, length};
ghost use Rattle.machine_core.specs.Looking.{bus_holder_of};
ghost use Rattle.trace_report.specs.inner.Told.{IsLookedAt};
ghost use Rattle.trace_report.specs.OwnWords.{is_newer, is_newer_in, own_words};

use crate::LineState;
use crate::states::line_state;
use machine_core::{BusHolder, Machine};
use protocol_tables::{Protocol, State, Transient};
use tso_terms::{Core, Loc, Test};

/// Leads memory's own words on a machine from those before a choice to those after it, where lines have so many words. The machine
/// is the one after the choice.
pub fn follow_words<P: Protocol>(machine: &Machine<P>, test: &Test, words: u8, memory: &mut [u32])
    requires looked { IsLookedAt test.now words machine.now }
    requires before { length memory.old ≡ length test.now.locations }
    requires each { length machine.now.state.flat.memory ≡ length test.now.locations }
    ensures words { memory.new ≡ own_words machine.now memory.old }
    ensures each { length memory.new ≡ length test.now.locations }
{
    let holder = machine.bus_holder();
    for loc in 0..test.locations() {
        let seen = machine.seen(Loc(loc)).unwrap_or(0);
        let is_newer = is_newer_in(machine, holder, test, words, loc / words);
        memory[loc as usize] = memory_word(is_newer, memory[loc as usize], seen);
    }
}

/// The word that memory had before, where a copy may have a newer one; else the one that is seen.
fn memory_word(is_newer: bool, before: u32, seen: u32) -> u32
    ensures { result ≡ (if is_newer then before else seen) }
{
    if is_newer { before } else { seen }
}

/// Whether some core's copy of a line may have newer words than memory.
fn is_newer_in<P: Protocol>(
    machine: &Machine<P>,
    holder: Option<BusHolder>,
    test: &Test,
    words: u8,
    line: u8,
) -> bool
    requires looked { IsLookedAt test.now words machine.now }
    requires holder { holder ≡ bus_holder_of machine.now }
    ensures { result ≡ is_newer_in machine.now line (length machine.now.test.programs) }
{
    for core in (0..test.cores()).rev() {
        if is_newer(line_state(machine, holder, words, Core(core), line)) {
            return true;
        }
    }
    false
}

/// Whether a line in this state may have newer words than memory: it is dirty, or awaited to be written.
fn is_newer(state: LineState) -> bool
    ensures { result ≡ is_newer state }
{
    match state {
        LineState::Stable(State::M) => true,
        LineState::Stable(State::O) => true,
        LineState::Stable(State::E) => false,
        LineState::Stable(State::S) => false,
        LineState::Stable(State::I) => false,
        LineState::Transient(Transient::IsD) => false,
        LineState::Transient(Transient::ImD) => true,
        LineState::Transient(Transient::SmD) => true,
    }
}
