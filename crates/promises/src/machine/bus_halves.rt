//! What the halves of an access leave, beyond the words that are seen: coherent copies, and the lines in memory.

ghost use Rattle.std.specs.Prelude.{◌≡◌, ◌<◌, false, None, Some, IsOk, IfOk, length, slice_set};
ghost use Rattle.snoop_bus.specs.Bus.{words_of, cores_of, holder_of, IsFree, IsCoherent, IsSameMachine};
ghost use Rattle.snoop_bus.specs.Held.{holder};
ghost use Rattle.snoop_bus.specs.Accesses.{awaited_of, memory_of, would_hit, memory_after_ask, memory_after_completion, ask_of};
ghost use Rattle.snoop_bus.specs.Accesses.{completion_of, CompletesAt, IsCurrentWord};

use protocol_tables::Protocol;
use snoop_bus::{Access, BusRequest, SnoopBus, Stage};
use tso_terms::{Core, Loc, NoMemory};

/// The ask of an access says what went on the bus, and leaves the copies coherent, and memory as the ask leaves it.
pub fn an_ask<P: Protocol>(
    bus: &mut SnoopBus<P>,
    core: Core,
    loc: Loc,
    write: bool,
) -> Option<BusRequest>
    requires core { core.0 < cores_of bus.old }
    requires loc { loc.0 < length (words_of bus.old) }
    requires free { IsFree bus.old }
    requires misses { write ≡ false → would_hit bus.old core.0 loc.0 false ≡ false }
    ensures request { result ≡ (ask_of bus.old core.0 loc.0 write).request }
    ensures coherent { IsCoherent bus.new }
    ensures memory { memory_of bus.new ≡ memory_after_ask bus.old loc.0 write }
{
    bus.ask(core, loc, write)
}

/// The completion of a load succeeds, and leaves the copies coherent, and memory as the completion leaves it.
pub fn a_completed_load<P: Protocol>(
    bus: &mut SnoopBus<P>,
    core: Core,
    loc: Loc,
) -> Result<(u32, Access), NoMemory>
    requires { holder_of bus.old ≡ Some (holder core loc Stage.Load) }
    ensures succeeds { IsOk result }
    ensures word { IfOk result (λ r. IsCurrentWord bus.old loc.0 r.0) }
    ensures words { words_of bus.new ≡ words_of bus.old }
    ensures done { CompletesAt bus.old bus.new core.0 loc.0 (completion_of bus.old core.0 loc.0).report }
    ensures access { IfOk result (λ r. r.1 ≡ (completion_of bus.old core.0 loc.0).report.access) }
    ensures free { IsFree bus.new }
    ensures machine { IsSameMachine bus.old bus.new }
    ensures coherent { IsCoherent bus.new }
    ensures memory { IfOk result (λ _. memory_of bus.new ≡ memory_after_completion bus.old core.0 loc.0) }
{
    bus.complete_load(core, loc)
}

/// So does that of a store.
pub fn a_completed_store<P: Protocol>(
    bus: &mut SnoopBus<P>,
    core: Core,
    loc: Loc,
    value: u32,
) -> Result<Access, NoMemory>
    requires { holder_of bus.old ≡ Some (holder core loc Stage.Write) }
    ensures succeeds { IsOk result }
    ensures words { words_of bus.new ≡ slice_set (words_of bus.old) loc.0 value }
    ensures done { CompletesAt bus.old bus.new core.0 loc.0 (completion_of bus.old core.0 loc.0).report }
    ensures access { IfOk result (λ access. access ≡ (completion_of bus.old core.0 loc.0).report.access) }
    ensures free { IsFree bus.new }
    ensures machine { IsSameMachine bus.old bus.new }
    ensures coherent { IsCoherent bus.new }
    ensures memory { IfOk result (λ _. memory_of bus.new ≡ memory_after_completion bus.old core.0 loc.0) }
{
    bus.complete_store(core, loc, value)
}

/// So does the read of a locked instruction, which keeps the bus for its write.
pub fn a_locked_read<P: Protocol>(
    bus: &mut SnoopBus<P>,
    core: Core,
    loc: Loc,
) -> Result<(u32, Access), NoMemory>
    requires { holder_of bus.old ≡ Some (holder core loc Stage.Write) }
    ensures succeeds { IsOk result }
    ensures word { IfOk result (λ r. IsCurrentWord bus.old loc.0 r.0) }
    ensures words { words_of bus.new ≡ words_of bus.old }
    ensures done { CompletesAt bus.old bus.new core.0 loc.0 (completion_of bus.old core.0 loc.0).report }
    ensures access { IfOk result (λ r. r.1 ≡ (completion_of bus.old core.0 loc.0).report.access) }
    ensures holds { holder_of bus.new ≡ Some (holder core loc Stage.Locked) }
    ensures awaited { awaited_of bus.new ≡ None }
    ensures machine { IsSameMachine bus.old bus.new }
    ensures coherent { IsCoherent bus.new }
    ensures memory { IfOk result (λ _. memory_of bus.new ≡ memory_after_completion bus.old core.0 loc.0) }
{
    bus.complete_read(core, loc)
}

/// The write of a locked instruction goes to the core's own copy: each line in memory is as it was.
pub fn a_locked_write<P: Protocol>(bus: &mut SnoopBus<P>, core: Core, loc: Loc, value: u32)
    requires { holder_of bus.old ≡ Some (holder core loc Stage.Locked) }
    ensures coherent { IsCoherent bus.new }
    ensures memory { memory_of bus.new ≡ memory_of bus.old }
{
    bus.complete_write(core, loc, value);
}
