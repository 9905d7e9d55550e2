//! A machine between two choices, for one who only looks: its state, what a choice is about to do, and what the caches
//! have. No call changes anything or takes memory: a run that is looked at stays the same run.

ghost use Rattle.std.specs.Prelude.{◌≡◌, option_copied, option_map, slice_get, ◌<◌, length};
ghost use Rattle.tso_terms.specs.Thread.{value_in};
ghost use Rattle.multiprocessor.specs.Cores.{core_state};
ghost use Rattle.machine_core.specs.inner.Looking.{core_numbered, pending_at, cached_line};
ghost use Rattle.machine_core.specs.Looking.{bus_holder_of};
ghost use Rattle.tso_terms.specs.FlatMachine.{chosen};
ghost use Rattle.tso_terms.specs.MemoryAccess.{access_of};
ghost use Rattle.snoop_bus.specs.Asks.{tag_at, awaited_by};
ghost use Rattle.multiprocessor.specs.inner.Keeping.{memory_access_in};

use crate::machine::Machine;
use crate::split::access_of;
use multiprocessor::accesses::Next;
use multiprocessor::{MemoryAccess, Processor};
use protocol_tables::{Protocol, State, Transient};
use snoop_bus::{CachedLine, Transaction};
use tso_terms::{Choice, Core, Entry, Loc, Reg};

/// The action that holds a split bus.
#[derive(Clone, Copy)]
pub struct BusHolder {
    /// Its next choice, which names its core.
    pub choice: Choice,
    /// The location of its access.
    pub loc: Loc,
    /// What its line is in until the words come. `None` where nothing is awaited: the access hits, or a
    /// locked instruction has made it and is between its two parts.
    pub transient: Option<Transient>,
}

impl<'a, P: Protocol> Machine<'a, P> {
    /// The core of this number. `None` where the test has no such core.
    fn processor(&self, core: Core) -> Option<&Processor>
        ensures { option_map (core_state core.0) (option_copied result) ≡ core_numbered self.now core.0 }
    {
        self.hardware.processors.get(usize::from(core.0))
    }

    /// Where a core is in its program: the number of its next instruction, from 0. `None` where the test
    /// has no such core.
    pub fn place(&self, core: Core) -> Option<u8>
        ensures { result ≡ option_map (λ s. s.place) (core_numbered self.now core.0) }
    {
        match self.processor(core) {
            None => None,
            Some(processor) => Some(processor.place),
        }
    }

    /// The registers of a core, in the order of `Reg::ALL`. `None` where the test has no such core.
    pub fn registers(&self, core: Core) -> Option<[u32; 6]>
        ensures { result ≡ option_map (λ s. s.registers) (core_numbered self.now core.0) }
    {
        match self.processor(core) {
            None => None,
            Some(processor) => Some(processor.registers),
        }
    }

    /// The value of a core's register. `None` where the test has no such core.
    pub fn register(&self, core: Core, reg: Reg) -> Option<u32>
        ensures { result ≡ option_map (λ s. value_in s.registers reg) (core_numbered self.now core.0) }
    {
        match self.processor(core) {
            None => None,
            Some(processor) => Some(processor.register(reg)),
        }
    }

    /// The pending store of a core with this number, counted from the oldest, which has 0: the entry that it
    /// commits when it is drained. `None` where fewer are pending, or the test has no such core.
    pub fn pending(&self, core: Core, number: usize) -> Option<Entry>
        ensures { result ≡ pending_at self.now core.0 number }
    {
        match self.processor(core) {
            None => None,
            Some(processor) => processor.pending(core, number),
        }
    }

    /// The word that a program sees at a location, whichever cache or memory has it. `None` where the test has
    /// no such location.
    pub fn seen(&self, loc: Loc) -> Option<u32>
        ensures { result ≡ slice_get self.now.state.flat.memory loc.0 }
    {
        if loc.0 < self.test.locations() {
            Some(self.hardware.bus.word(loc))
        } else {
            None
        }
    }

    /// The entries committed so far, in the order of their commits.
    pub fn committed(&self) -> &[Entry]
        ensures { result.now ≡ self.now.commits }
    {
        self.hardware.commits.entries()
    }

    /// The line of this rank in a set of a core's cache, where rank 0 is the most recently used. `None` where
    /// the set has no more lines than that, or there is no such core or set.
    pub fn cached_line(&self, core: Core, set: u8, rank: usize) -> Option<CachedLine>
        ensures { result ≡ cached_line self.now core.0 set rank }
    {
        self.hardware.bus.ranked(core, set, rank)
    }

    /// The action that holds the bus. `None` where nobody does, as on the atomic bus at all times.
    pub fn bus_holder(&self) -> Option<BusHolder>
        ensures { result ≡ bus_holder_of self.now }
    {
        let choice = match self.hardware.next {
            Next::Complete(choice) => choice,
            Next::Write(read) => Choice::Step(read.core),
        };
        match self.hardware.bus.who_holds() {
            None => None,
            Some(holder) => Some(BusHolder {
                choice,
                loc: holder.loc,
                transient: self.hardware.bus.transient(),
            }),
        }
    }
}

impl<'a, P: Protocol> Machine<'a, P> {
    /// The access that a choice makes, beyond its core's own pending stores.
    pub fn access(&self, choice: Choice) -> MemoryAccess
        requires { chosen choice < length self.now.test.programs }
        ensures { memory_access_in result ≡ access_of self.now.test self.now.depth self.now.state.flat choice }
    {
        access_of(&self.hardware, self.test, choice)
    }

    /// The state of a core's copy of a line, by the line's number; `None` where it has none.
    pub fn copy_state(&self, core: Core, line: u8) -> Option<State>
        requires { core.0 < length self.now.test.programs }
        ensures { result ≡ tag_at core.0 line self.now.statistics.caches.contents }
    {
        self.hardware.bus.copy_state(core, line)
    }

    /// What the action that holds a split bus awaits: the request that the other caches have seen, while its line
    /// isn't yet filled. `None` where nothing is awaited, as on the atomic bus at all times.
    pub fn awaited(&self) -> Option<Transaction>
        ensures { option_map awaited_by result ≡ self.now.statistics.caches.awaited }
    {
        self.hardware.bus.awaited()
    }
}
