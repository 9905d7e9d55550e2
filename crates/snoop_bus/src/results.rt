//! The accesses of the bus as calls that answer a `Result`. No access takes memory, since the caches have taken all of theirs
//! when they were made: so each of these answers `Ok`, and is one line over the call of [`SnoopBus`] that makes the access.

ghost use Rattle.std.specs.Prelude.{◌≡◌, ◌+◌, ◌%◌, ◌^◌, ◌<◌, true, false, None, Some, IsOk, IfOk, length, slice_set};
ghost use Rattle.snoop_bus.specs.Bus.{words_of, holder_of, IsFree, cores_of, IsCoherent, IsSameMachine};
ghost use Rattle.snoop_bus.specs.Held.{holder};
ghost use Rattle.snoop_bus.specs.Accesses.{awaited_of, load_of, write_of, completion_of, IsCurrentWord, LoadsAt, WritesAt, CompletesAt};
ghost use Rattle.snoop_bus.specs.inner.Accesses.{MayGoOn};

use crate::access::Access;
use crate::bus::{NO_REGISTERS, SnoopBus};
use crate::holding::Stage;
use protocol_tables::Protocol;
use tso_terms::{Core, Loc, NoMemory, Operand, Operator, Update};

impl<P: Protocol> SnoopBus<P> {
    /// What [`SnoopBus::read`] answers: the word at a location, and what the access was.
    pub fn load(&mut self, core: Core, loc: Loc) -> Result<(u32, Access), NoMemory>
        requires core { core.0 < cores_of self.old }
        requires loc { loc.0 < length (words_of self.old) }
        requires free { MayGoOn self.old core.0 loc.0 false }

        ensures succeeds { IsOk result }
        ensures done { IfOk result (λ r. LoadsAt self.old self.new core.0 loc.0 r.0 (load_of self.old core.0 loc.0).report) }
        ensures access { IfOk result (λ r. r.1 ≡ (load_of self.old core.0 loc.0).report.access) }
        ensures coherent { IsCoherent self.new }
        ensures machine { IsSameMachine self.old self.new }
    {
        let (word, report) = self.read(core, loc);
        Ok((word, report.access))
    }

    /// What [`SnoopBus::write`] answers, which writes the word at a location: what the access was.
    pub fn store(&mut self, core: Core, loc: Loc, value: u32) -> Result<Access, NoMemory>
        requires core { core.0 < cores_of self.old }
        requires loc { loc.0 < length (words_of self.old) }
        requires free { MayGoOn self.old core.0 loc.0 true }

        ensures succeeds { IsOk result }
        ensures done { WritesAt self.old self.new core.0 loc.0 value (write_of self.old core.0 loc.0).report }
        ensures access { IfOk result (λ access. access ≡ (write_of self.old core.0 loc.0).report.access) }
        ensures coherent { IsCoherent self.new }
        ensures machine { IsSameMachine self.old self.new }
    {
        Ok(self.write(core, loc, value).access)
    }

    /// Writes the word at a location. Answers the word that was there, and what the one write access was.
    pub fn swap(&mut self, core: Core, loc: Loc, value: u32) -> Result<(u32, Access), NoMemory>
        requires core { core.0 < cores_of self.old }
        requires loc { loc.0 < length (words_of self.old) }
        requires free { MayGoOn self.old core.0 loc.0 true }

        ensures succeeds { IsOk result }
        ensures word { IfOk result (λ r. IsCurrentWord self.old loc.0 r.0) }
        ensures done { WritesAt self.old self.new core.0 loc.0 value (write_of self.old core.0 loc.0).report }
        ensures access { IfOk result (λ r. r.1 ≡ (write_of self.old core.0 loc.0).report.access) }
        ensures coherent { IsCoherent self.new }
        ensures machine { IsSameMachine self.old self.new }
    {
        let update = Update::Replace(Operand::Number(value));
        let updated = self.update(core, loc, update, &NO_REGISTERS);
        Ok((updated.before, updated.report.access))
    }

    /// Adds to the word at a location, modulo 2^32. Answers the word that was there, and what the one
    /// write access was.
    pub fn add(&mut self, core: Core, loc: Loc, value: u32) -> Result<(u32, Access), NoMemory>
        requires core { core.0 < cores_of self.old }
        requires loc { loc.0 < length (words_of self.old) }
        requires free { MayGoOn self.old core.0 loc.0 true }

        ensures succeeds { IsOk result }
        ensures word { IfOk result (λ r. IsCurrentWord self.old loc.0 r.0) }
        ensures done { IfOk result (λ r. WritesAt self.old self.new core.0 loc.0 ((r.0 + value) % 2 ^ 32) (write_of self.old core.0 loc.0).report) }
        ensures access { IfOk result (λ r. r.1 ≡ (write_of self.old core.0 loc.0).report.access) }
        ensures coherent { IsCoherent self.new }
        ensures machine { IsSameMachine self.old self.new }
    {
        let update = Update::Combine(Operator::Add, Operand::Number(value));
        let updated = self.update(core, loc, update, &NO_REGISTERS);
        Ok((updated.before, updated.report.access))
    }

    /// What [`SnoopBus::read_asked`] answers, the second half of a load that asked: the word, and what the access was.
    pub fn complete_load(&mut self, core: Core, loc: Loc) -> Result<(u32, Access), NoMemory>
        requires holds { holder_of self.old ≡ Some (holder core loc Stage.Load) }

        ensures succeeds { IsOk result }
        ensures word { IfOk result (λ r. IsCurrentWord self.old loc.0 r.0) }
        ensures words { words_of self.new ≡ words_of self.old }
        ensures done { CompletesAt self.old self.new core.0 loc.0 (completion_of self.old core.0 loc.0).report }
        ensures access { IfOk result (λ r. r.1 ≡ (completion_of self.old core.0 loc.0).report.access) }
        ensures free { IsFree self.new }
        ensures coherent { IsCoherent self.new }
        ensures machine { IsSameMachine self.old self.new }
    {
        let (word, report) = self.read_asked(core, loc);
        Ok((word, report.access))
    }

    /// What [`SnoopBus::write_asked`] answers, the second half of a store that asked: what the access was.
    pub fn complete_store(&mut self, core: Core, loc: Loc, value: u32) -> Result<Access, NoMemory>
        requires holds { holder_of self.old ≡ Some (holder core loc Stage.Write) }

        ensures succeeds { IsOk result }
        ensures words { words_of self.new ≡ slice_set (words_of self.old) loc.0 value }
        ensures done { CompletesAt self.old self.new core.0 loc.0 (completion_of self.old core.0 loc.0).report }
        ensures access { IfOk result (λ access. access ≡ (completion_of self.old core.0 loc.0).report.access) }
        ensures free { IsFree self.new }
        ensures coherent { IsCoherent self.new }
        ensures machine { IsSameMachine self.old self.new }
    {
        Ok(self.write_asked(core, loc, value).access)
    }

    /// What [`SnoopBus::lock_asked`] answers, the read of a locked instruction that asked: the word, and what the one
    /// write access was.
    pub fn complete_read(&mut self, core: Core, loc: Loc) -> Result<(u32, Access), NoMemory>
        requires holds { holder_of self.old ≡ Some (holder core loc Stage.Write) }

        ensures succeeds { IsOk result }
        ensures word { IfOk result (λ r. IsCurrentWord self.old loc.0 r.0) }
        ensures words { words_of self.new ≡ words_of self.old }
        ensures done { CompletesAt self.old self.new core.0 loc.0 (completion_of self.old core.0 loc.0).report }
        ensures access { IfOk result (λ r. r.1 ≡ (completion_of self.old core.0 loc.0).report.access) }
        ensures holds { holder_of self.new ≡ Some (holder core loc Stage.Locked) }
        ensures awaited { awaited_of self.new ≡ None }
        ensures coherent { IsCoherent self.new }
        ensures machine { IsSameMachine self.old self.new }
    {
        let (word, report) = self.lock_asked(core, loc);
        Ok((word, report.access))
    }
}
