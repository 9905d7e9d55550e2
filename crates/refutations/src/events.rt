//! The events of a test: the entries of its programs, whose values are left open. (Herding Cats, section 4.)
ghost use Rattle.std.specs.Prelude.{◌≡◌, ◌&&◌, not, IfOk};
ghost use Rattle.tso_terms.specs.ProgramOrder as program_order;
ghost use Rattle.relational_model.specs.Relations as relations;
ghost use Rattle.relational_model.specs.Model as model;
ghost use Rattle.refutation_laws.specs.Known as spec;
ghost use Rattle.refutation_laws.specs.Edges as edges;

use std::alloc::Global;
use tso_model::{read_count, thread_entries};
use tso_terms::{Core, Entry, Kind, NoMemory, Test};

/// The events of a test.
///
/// Errors: out of memory only.
pub fn make_events(alloc: Global, test: &Test) -> Result<Vec<Entry>, NoMemory>
    ensures { IfOk result (λ es. es.items ≡ spec.events_of test.now) }
{
    let mut events = Vec::new(alloc);
    for number in 0..test.cores() {
        let core = Core(number);
        let zeros = vec![in alloc; 0u32; read_count(test, core)]?;
        let thread = thread_entries(alloc, test, core, &zeros)?;
        for e in &thread.entries {
            events.push(Entry { value: 0, ..*e })?;
        }
    }
    Ok(events)
}

/// Whether both are one event: they differ at most in their values.
pub fn same_event(x: &Entry, y: &Entry) -> bool
    ensures { result ≡ spec.same_event x.now y.now }
{
    y.core == x.core && y.place == x.place && y.kind == x.kind && x.loc == y.loc
}

/// Whether this is one of the test's events.
pub fn is_event(test: &Test, events: &[Entry], x: &Entry) -> bool
    requires { events.now ≡ spec.events_of test.now }
    ensures { result ≡ spec.is_event test.now x.now }
{
    for e in events {
        if same_event(x, e) {
            return true;
        }
    }
    false
}

/// Whether x comes before y in the program of their core.
pub fn is_before(x: &Entry, y: &Entry) -> bool
    ensures { result ≡ program_order.is_before x.now y.now }
{
    let is_earlier_part = x.place == y.place && y.kind == Kind::LW && x.kind != Kind::LW;
    x.core == y.core && (x.place < y.place || is_earlier_part)
}

/// Whether this is a load, or the load part of a locked instruction.
pub fn is_read(x: &Entry) -> bool
    ensures { result ≡ program_order.is_read x.now }
{
    matches!(x.kind, Kind::R | Kind::LR)
}

/// Whether this is a store, or the store part of a locked instruction.
pub fn is_write(x: &Entry) -> bool
    ensures { result ≡ program_order.is_write x.now }
{
    matches!(x.kind, Kind::W | Kind::LW)
}

/// Whether this is a write to the location with this number.
pub fn writes_to(loc: u8, x: &Entry) -> bool
    ensures { result ≡ program_order.writes_to loc x.now }
{
    matches!(x.kind, Kind::W | Kind::LW) && x.loc.0 == loc
}

/// Whether this reads or writes memory.
pub fn is_access(x: &Entry) -> bool
    ensures { result ≡ relations.is_access x.now }
{
    is_read(x) || is_write(x)
}

/// Whether both access one location.
pub fn share_location(x: &Entry, y: &Entry) -> bool
    ensures { result ≡ relations.share_location x.now y.now }
{
    is_access(x) && is_access(y) && x.loc.0 == y.loc.0
}

/// Whether this is a part of a locked instruction.
pub fn is_locked(x: &Entry) -> bool
    ensures { result ≡ model.is_locked x.now }
{
    matches!(x.kind, Kind::LR | Kind::LW)
}

/// Whether r and w are the two parts of one locked instruction.
pub fn are_parts(r: &Entry, w: &Entry) -> bool
    ensures { result ≡ edges.are_parts r.now w.now }
{
    r.kind == Kind::LR && w.kind == Kind::LW && r.core.0 == w.core.0 && r.place == w.place
}

/// Whether it may be asked which of two events comes first: they are different writes to one location.
pub fn may_come_first(test: &Test, events: &[Entry], w: &Entry, v: &Entry) -> bool
    requires { events.now ≡ spec.events_of test.now }
    ensures { result ≡ (spec.is_event test.now w.now && spec.is_event test.now v.now && program_order.is_write w.now
        && program_order.writes_to w.now.loc.0 v.now && not (spec.same_event w.now v.now)) }
{
    is_event(test, events, w)
        && is_event(test, events, v)
        && is_write(w)
        && writes_to(w.loc.0, v)
        && !same_event(w, v)
}
