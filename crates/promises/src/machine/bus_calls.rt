//! What the calls of a bus leave, beyond the words that are seen: coherent copies, and the lines in memory. No crate above
//! rests on either, so here it is asked for. (Primer, chapters 2 and 6.)

ghost use Rattle.std.specs.Prelude.{◌≡◌, ◌<◌, ◌≤◌, ◌+◌, ◌%◌, ◌^◌, false, true, IsOk, IfOk, length, option_copied};
ghost use Rattle.cache_set.specs.Contents.{copy_of};
ghost use Rattle.snoop_bus.specs.Bus.{words_of, cores_of, IsFree, IsCoherent, IsSameMachine};
ghost use Rattle.snoop_bus.specs.inner.Bus.{HasLines};
ghost use Rattle.snoop_bus.specs.Accesses.{contents_of, memory_of, memory_after_load, memory_after_write};
ghost use Rattle.snoop_bus.specs.Accesses.{IsCurrentWord, LoadsAt, WritesAt, load_of, write_of};
ghost use Rattle.snoop_bus.specs.inner.Accesses.{contents_settled, copies_of, MayGoOn};

use cache_set::Line;
use protocol_tables::Protocol;
use snoop_bus::{Access, Shape, SnoopBus};
use std::alloc::Global;
use tso_terms::{Core, Loc, NoMemory};

/// The words that are seen of a new bus are those that it is made with, and its copies are coherent.
pub fn a_new_bus<P: Protocol>(
    alloc: Global,
    protocol: P,
    cores: u8,
    shape: Shape,
    init: &[u32],
) -> Result<SnoopBus<P>, NoMemory>
    requires cores { (1 ≤ cores) × (cores ≤ 8) }
    requires init { length init.now ≤ 16 }
    ensures words { IfOk result (λ b. words_of b ≡ init.now) }
    ensures coherent { IfOk result (λ b. IsCoherent b) }
{
    SnoopBus::new(alloc, protocol, cores, shape, init)
}

/// A bus that begins anew is coherent.
pub fn a_bus_that_begins_anew<P: Protocol>(bus: &mut SnoopBus<P>, init: &[u32])
    requires { length init.now ≡ length (words_of bus.old) }
    ensures { IsCoherent bus.new }
{
    bus.restart(init);
}

/// A load succeeds, and leaves the copies coherent, and memory as the load leaves it.
pub fn a_load<P: Protocol>(
    bus: &mut SnoopBus<P>,
    core: Core,
    loc: Loc,
) -> Result<(u32, Access), NoMemory>
    requires core { core.0 < cores_of bus.old }
    requires loc { loc.0 < length (words_of bus.old) }
    requires free { MayGoOn bus.old core.0 loc.0 false }
    ensures succeeds { IsOk result }
    ensures done { IfOk result (λ r. LoadsAt bus.old bus.new core.0 loc.0 r.0 (load_of bus.old core.0 loc.0).report) }
    ensures access { IfOk result (λ r. r.1 ≡ (load_of bus.old core.0 loc.0).report.access) }
    ensures machine { IsSameMachine bus.old bus.new }
    ensures coherent { IsCoherent bus.new }
    ensures memory { IfOk result (λ _. memory_of bus.new ≡ memory_after_load bus.old core.0 loc.0) }
{
    bus.load(core, loc)
}

/// So does a store.
pub fn a_store<P: Protocol>(
    bus: &mut SnoopBus<P>,
    core: Core,
    loc: Loc,
    value: u32,
) -> Result<Access, NoMemory>
    requires core { core.0 < cores_of bus.old }
    requires loc { loc.0 < length (words_of bus.old) }
    requires free { MayGoOn bus.old core.0 loc.0 true }
    ensures succeeds { IsOk result }
    ensures done { WritesAt bus.old bus.new core.0 loc.0 value (write_of bus.old core.0 loc.0).report }
    ensures access { IfOk result (λ access. access ≡ (write_of bus.old core.0 loc.0).report.access) }
    ensures machine { IsSameMachine bus.old bus.new }
    ensures coherent { IsCoherent bus.new }
    ensures memory { IfOk result (λ _. memory_of bus.new ≡ memory_after_write bus.old core.0 loc.0) }
{
    bus.store(core, loc, value)
}

/// So does an exchange, which answers the word that was seen and writes its own.
pub fn an_exchange<P: Protocol>(
    bus: &mut SnoopBus<P>,
    core: Core,
    loc: Loc,
    value: u32,
) -> Result<(u32, Access), NoMemory>
    requires core { core.0 < cores_of bus.old }
    requires loc { loc.0 < length (words_of bus.old) }
    requires free { MayGoOn bus.old core.0 loc.0 true }
    ensures succeeds { IsOk result }
    ensures word { IfOk result (λ r. IsCurrentWord bus.old loc.0 r.0) }
    ensures done { WritesAt bus.old bus.new core.0 loc.0 value (write_of bus.old core.0 loc.0).report }
    ensures access { IfOk result (λ r. r.1 ≡ (write_of bus.old core.0 loc.0).report.access) }
    ensures machine { IsSameMachine bus.old bus.new }
    ensures coherent { IsCoherent bus.new }
    ensures memory { IfOk result (λ _. memory_of bus.new ≡ memory_after_write bus.old core.0 loc.0) }
{
    bus.swap(core, loc, value)
}

/// So does an addition, which answers the word that was seen and writes the sum.
pub fn an_addition<P: Protocol>(
    bus: &mut SnoopBus<P>,
    core: Core,
    loc: Loc,
    value: u32,
) -> Result<(u32, Access), NoMemory>
    requires core { core.0 < cores_of bus.old }
    requires loc { loc.0 < length (words_of bus.old) }
    requires free { MayGoOn bus.old core.0 loc.0 true }
    ensures succeeds { IsOk result }
    ensures word { IfOk result (λ r. IsCurrentWord bus.old loc.0 r.0) }
    ensures done { IfOk result (λ r. WritesAt bus.old bus.new core.0 loc.0 ((r.0 + value) % 2 ^ 32) (write_of bus.old core.0 loc.0).report) }
    ensures access { IfOk result (λ r. r.1 ≡ (write_of bus.old core.0 loc.0).report.access) }
    ensures machine { IsSameMachine bus.old bus.new }
    ensures coherent { IsCoherent bus.new }
    ensures memory { IfOk result (λ _. memory_of bus.new ≡ memory_after_write bus.old core.0 loc.0) }
{
    bus.add(core, loc, value)
}

/// Settling cleans each dirty copy where it stands, and leaves every other, the copies coherent, and the bus free.
pub fn a_settled_bus<P: Protocol>(bus: &mut SnoopBus<P>)
    requires { IsFree bus.old }
    ensures free { IsFree bus.new }
    ensures contents { contents_of bus.new ≡ contents_settled bus.old }
    ensures coherent { IsCoherent bus.new }
{
    bus.settle();
}

/// A core's copy of a line is found in its set; the copies are coherent, and have no word past those of their lines.
pub fn a_copy_in_its_set<P: Protocol>(
    bus: &SnoopBus<P>,
    core: Core,
    set: u8,
    line: u8,
) -> Option<Line>
    requires core { core.0 < cores_of bus.now }
    requires set { set < bus.now.shape.sets }
    ensures copy { result ≡ copy_of (copies_of bus.now core.0 set) line }
    ensures coherent { IsCoherent bus.now }
    ensures lines { HasLines bus.now }
{
    bus.set_of(core, set).look(line).copied()
}
