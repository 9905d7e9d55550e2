//! The caches of all cores on one bus, and the calls of it. Coherence is the invariant: a line has a single writer, or many
//! equal copies, and memory is stale only where a copy is dirty. Every call keeps it, and an access changes no word that is
//! seen but the one it writes. (Primer, chapters 2, 6 and 7.)

ghost use Rattle.std.specs.Prelude.{◌≡◌, ◌<◌, ◌≤◌, true, false};
ghost use Rattle.std.specs.Prelude.{None, Some, IfSome, IfOk, length, slice_set};
ghost use Rattle.tso_terms.specs.Thread.{updated};
ghost use Rattle.tso_terms.specs.Limits.{most_locations};
ghost use Rattle.tso_terms.specs.Limits.{most_cores};
ghost use Rattle.snoop_bus.specs.Bus.{words_of, holder_of, IsFree, cores_of, IsCoherent, IsSameMachine};
ghost use Rattle.snoop_bus.specs.Held.{holder};
ghost use Rattle.snoop_bus.specs.Accesses.{new_bus, contents_of, memory_of};
ghost use Rattle.snoop_bus.specs.inner.Accesses.{contents_settled, memory_words_of};
ghost use Rattle.snoop_bus.specs.Accesses.{would_hit, awaited_of};
ghost use Rattle.snoop_bus.specs.Accesses.{IsCurrentWord, LoadsAt, WritesAt, AsksFor, CompletesAt};
ghost use Rattle.snoop_bus.specs.inner.Accesses.{MayGoOn, KeepsOut};

use crate::access::{AccessReport, BusRequest, Updated};
use crate::asking::Wanted;
use crate::hierarchy::Hierarchy;
use crate::holding::{HeldBus, Stage, held_at, request_in};
use crate::shape::Shape;
use cache_set::cache::empty_caches;
use cache_set::lines::lines_of;
use cache_set::shape::Target;
use protocol_tables::Protocol;
use std::alloc::Global;
use std::marker::Model;
use tso_terms::{Core, Loc, NoMemory, Operand, Update};

/// Maximum number of cores of a bus.
pub const MAX_CORES: u8 = 8;

/// Maximum number of locations of memory.
pub const MAX_LOCATIONS: usize = tso_terms::limits::MAX_LOCATIONS;

/// What an update gets that reads no register.
pub(crate) const NO_REGISTERS: [u32; 6] = [0; 6];

/// The caches of all cores on one bus, and memory after them. Where a line has so many words, location `l`
/// lies in line `l / words` at offset `l % words`.
///
/// An access that hits is made with the core's own copy alone. Any other has two halves: at the ask the other
/// caches see the request, and the words come from the copy that supplies them or from memory; at the completion
/// the core's own line is filled, and a victim goes to memory if it is dirty. The line is then at the front of its set.
///
/// `read`, `write` and `update` make both halves, and are whole when they return. In between a core's
/// action may also hold the bus; then only accesses that hit go on.
///
/// The caches take all their memory when they are made, so no access fails. The calls of the module `results` answer a
/// `Result` all the same, which is always `Ok`.
#[derive(Drop)]
pub struct SnoopBus<P: Protocol> {
    protocol: P,
    pub(crate) shape: Shape,
    locations: usize,
    pub(crate) hierarchy: Hierarchy,
    pub(crate) held: Option<HeldBus>,
}

impl<P: Protocol> Model for SnoopBus<P> {
    ghost use Rattle.snoop_bus.specs.Bus.{BusModel, bus_with};
    ghost use Rattle.snoop_bus.specs.inner.Bus.{IsBus};

    ghost Value = { BusModel };

    ghost view = { λ b. bus_with (P.table b.protocol) b.shape b.locations b.hierarchy.caches.items b.hierarchy.memory.items b.held };

    ghost invariant = { λ b. IsBus b.shape b.locations b.hierarchy.caches.items b.hierarchy.memory.items b.held };
}

impl<P: Protocol> SnoopBus<P> {
    /// A bus for so many cores, from 1 to `MAX_CORES`, with empty caches and these words in memory, at
    /// most `MAX_LOCATIONS`. Nobody holds it.
    ///
    /// Errors: out of memory only.
    pub fn new(
        alloc: Global,
        protocol: P,
        cores: u8,
        shape: Shape,
        init: &[u32],
    ) -> Result<Self, NoMemory>
        requires cores { (1 ≤ cores) × (cores ≤ most_cores) }
        requires init { length init.now ≤ most_locations }
        ensures words { IfOk result (λ b. words_of b ≡ init.now) }
        ensures cores { IfOk result (λ b. cores_of b ≡ cores) }
        ensures coherent { IfOk result (λ b. IsCoherent b) }
        ensures exact { IfOk result (λ b. b ≡ new_bus (P.table protocol) cores shape init.now) }
    {
        let caches = empty_caches(alloc, cores, shape)?;
        let memory = lines_of(alloc, shape, init)?;
        Ok(SnoopBus {
            protocol,
            shape,
            locations: init.len(),
            hierarchy: Hierarchy { caches, memory },
            held: None,
        })
    }

    /// The word at a location, and what the access did. No word that is seen changes, and
    /// who holds the bus stays: beside one who does, only a hit may be made.
    #[inline(always)]
    pub fn read(&mut self, core: Core, loc: Loc) -> (u32, AccessReport)
        requires core { core.0 < cores_of self.old }
        requires loc { loc.0 < length (words_of self.old) }
        requires free { MayGoOn self.old core.0 loc.0 false }

        ensures done { LoadsAt self.old self.new core.0 loc.0 result.0 result.1 }
        ensures coherent { IsCoherent self.new }
        ensures machine { IsSameMachine self.old self.new }
    {
        let target = self.shape.target_of(core, loc);
        self.hierarchy.load(&self.protocol, self.held, target)
    }

    /// Writes the word at a location. Answers what the access did. No other word that is seen changes.
    #[inline(always)]
    pub fn write(&mut self, core: Core, loc: Loc, value: u32) -> AccessReport
        requires core { core.0 < cores_of self.old }
        requires loc { loc.0 < length (words_of self.old) }
        requires free { MayGoOn self.old core.0 loc.0 true }

        ensures done { WritesAt self.old self.new core.0 loc.0 value result }
        ensures coherent { IsCoherent self.new }
        ensures machine { IsSameMachine self.old self.new }
    {
        let update = Update::Replace(Operand::Number(value));
        self.update(core, loc, update, &NO_REGISTERS).report
    }

    /// Makes of the word at a location what the update makes of it with these registers, by one write access.
    #[inline(always)]
    pub fn update(&mut self, core: Core, loc: Loc, update: Update, registers: &[u32; 6]) -> Updated
        requires core { core.0 < cores_of self.old }
        requires loc { loc.0 < length (words_of self.old) }
        requires free { MayGoOn self.old core.0 loc.0 true }

        ensures before { IsCurrentWord self.old loc.0 result.before }
        ensures after { result.after ≡ updated update registers.now result.before }
        ensures done { WritesAt self.old self.new core.0 loc.0 result.after result.report }
        ensures coherent { IsCoherent self.new }
        ensures machine { IsSameMachine self.old self.new }
    {
        let target = self.shape.target_of(core, loc);
        let Target { core, line, offset } = target;
        let (words, report) = self
            .hierarchy
            .acquire(&self.protocol, self.held, core, line);
        let before = words[usize::from(offset)];
        let after = update.apply(registers, before);
        self.hierarchy.write(target, after);
        Updated {
            before,
            after,
            report,
        }
    }

    /// Whether an access would be a hit, which needs no bus. While another core's write access holds the bus,
    /// none is at its line.
    pub fn would_hit(&self, core: Core, loc: Loc, write: bool) -> bool
        requires core { core.0 < cores_of self.now }
        ensures value { result ≡ would_hit self.now core.0 loc.0 write }
        ensures taken { IfSome (holder_of self.now) (KeepsOut self.now core loc result) }
    {
        let at = usize::from(core.0);
        let line = self.shape.line_of(loc);
        match self.hierarchy.caches[at].look(line) {
            None => false,
            Some(copy) => !write || self.protocol.written(copy.state).is_some(),
        }
    }

    /// The first half of an access that isn't a load's hit. The other caches see the request, where there is
    /// one, and the core's action holds the bus. Answers what went on the bus: nothing where a write access hits. No
    /// word that is seen changes.
    pub fn ask(&mut self, core: Core, loc: Loc, write: bool) -> Option<BusRequest>
        requires core { core.0 < cores_of self.old }
        requires loc { loc.0 < length (words_of self.old) }
        requires free { IsFree self.old }
        requires misses { write ≡ false → would_hit self.old core.0 loc.0 false ≡ false }

        ensures done { AsksFor self.old self.new core loc write result }
        ensures coherent { IsCoherent self.new }
        ensures machine { IsSameMachine self.old self.new }
    {
        let line = self.shape.line_of(loc);
        let wanted = Wanted {
            core,
            loc,
            line,
            write,
        };
        let held = self.hierarchy.ask(&self.protocol, wanted);
        self.held = Some(held);
        request_in(held.transaction)
    }

    /// The second half of a load that asked: the line comes in, and nobody holds the bus. Answers the word,
    /// and what the access did. No word that is seen changes.
    pub fn read_asked(&mut self, core: Core, loc: Loc) -> (u32, AccessReport)
        requires holds { holder_of self.old ≡ Some (holder core loc Stage.Load) }

        ensures word { IsCurrentWord self.old loc.0 result.0 }
        ensures words { words_of self.new ≡ words_of self.old }
        ensures done { CompletesAt self.old self.new core.0 loc.0 result.1 }
        ensures free { IsFree self.new }
        ensures coherent { IsCoherent self.new }
        ensures machine { IsSameMachine self.old self.new }
    {
        let held = self.held.unwrap();
        let target = self.shape.target_of(core, loc);
        let done = self
            .hierarchy
            .complete_load(&self.protocol, target, held.transaction);
        self.held = None;
        done
    }

    /// The second half of a store that asked: the word is written, and nobody holds the bus. Answers what
    /// the access did. No other word that is seen changes.
    pub fn write_asked(&mut self, core: Core, loc: Loc, value: u32) -> AccessReport
        requires holds { holder_of self.old ≡ Some (holder core loc Stage.Write) }

        ensures words { words_of self.new ≡ slice_set (words_of self.old) loc.0 value }
        ensures done { CompletesAt self.old self.new core.0 loc.0 result }
        ensures free { IsFree self.new }
        ensures coherent { IsCoherent self.new }
        ensures machine { IsSameMachine self.old self.new }
    {
        let (_, report) = self.lock_asked(core, loc);
        self.complete_write(core, loc, value);
        report
    }

    /// The read of a locked instruction that asked: the line is the core's own, and its action keeps the
    /// bus, with nothing left to await. Answers the word, and what the one write access did. No word that is
    /// seen changes.
    pub fn lock_asked(&mut self, core: Core, loc: Loc) -> (u32, AccessReport)
        requires holds { holder_of self.old ≡ Some (holder core loc Stage.Write) }

        ensures word { IsCurrentWord self.old loc.0 result.0 }
        ensures words { words_of self.new ≡ words_of self.old }
        ensures done { CompletesAt self.old self.new core.0 loc.0 result.1 }
        ensures holds { holder_of self.new ≡ Some (holder core loc Stage.Locked) }
        ensures awaited { awaited_of self.new ≡ None }
        ensures coherent { IsCoherent self.new }
        ensures machine { IsSameMachine self.old self.new }
    {
        let held = self.held.unwrap();
        let Target {
            core: at,
            line,
            offset,
        } = self.shape.target_of(core, loc);
        let (words, report) = self
            .hierarchy
            .acquire_asked(&self.protocol, at, line, held.transaction);
        self.held = Some(held_at(core, loc, Stage::Locked, held.line, None));
        (words[usize::from(offset)], report)
    }

    /// The write of a locked instruction that has read; then nobody holds the bus. No other word that is
    /// seen changes.
    pub fn complete_write(&mut self, core: Core, loc: Loc, value: u32)
        requires holds { holder_of self.old ≡ Some (holder core loc Stage.Locked) }

        ensures words { words_of self.new ≡ slice_set (words_of self.old) loc.0 value }
        ensures nothing_awaited { awaited_of self.old ≡ None }
        ensures free { IsFree self.new }
        ensures contents { contents_of self.new ≡ contents_of self.old }
        ensures memory { memory_of self.new ≡ memory_of self.old }
        ensures coherent { IsCoherent self.new }
        ensures machine { IsSameMachine self.old self.new }
    {
        let target = self.shape.target_of(core, loc);
        self.hierarchy.write(target, value);
        self.held = None;
    }

    /// Writes every dirty line to memory. Each line in M or O is then in S, and all else is as it was:
    /// memory has the words that are seen. This is no access, and takes no memory.
    pub fn settle(&mut self)
        requires free { IsFree self.old }
        ensures words { words_of self.new ≡ words_of self.old }
        ensures memory { memory_words_of self.new ≡ words_of self.old }
        ensures contents { contents_of self.new ≡ contents_settled self.old }
        ensures coherent { IsCoherent self.new }
        ensures machine { IsSameMachine self.old self.new }
        ensures free { IsFree self.new }
    {
        self.hierarchy.settle(&self.protocol);
    }
}
