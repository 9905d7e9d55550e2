//! What one core's accesses had moved on the bus over a run: its requests, the copies that they took from other caches, who
//! supplied the lines, and what was written to memory. All are requests, copies and lines, and no words. (Primer, chapters 6
//! and 7, for GetS and GetM.)

ghost use Rattle.std.specs.Prelude.{◌≡◌, ℕ, ◌≤◌, ◌<◌, ◌+◌, ◌*◌, length};
ghost use Rattle.scheduler.specs.Limits.{most_choices};
ghost use Rattle.protocol_tables.specs.Tables.{table_of};
ghost use Rattle.tso_terms.specs.Limits.{most_cores};
ghost use Rattle.cache_set.specs.Requests.{snoop_column};
ghost use Rattle.cache_counts.specs.Traffic.{traffic_of, with_use_of, with_use, with_traffic_of_access, with_requested};
ghost use Rattle.cache_counts.specs.Traffic.{with_traffic_of_request, requests_to_read, requests_to_write, from_cache, from_memory};
ghost use Rattle.cache_counts.specs.Traffic.{lines_written_back};
ghost use Rattle.cache_counts.specs.Traffic.{copies_given_up, given_up};
ghost use Rattle.cache_counts.specs.inner.Bounds.{IsTrafficAtMost};

use crate::noting::CoreUse;
use machine_core::CacheUse;
use protocol_tables::{Mesi, Moesi, Mosi, Msi, Protocol, ProtocolKind, Request, State};
use snoop_bus::{AccessReport, BusRequest, Supplier};

/// What one core's accesses had moved on the bus, counted over a run.
#[derive(Clone, Copy)]
pub struct Traffic {
    /// The core's requests to read a line (GetS).
    pub get_s: u32,
    /// Its requests to write a line (GetM).
    pub get_m: u32,
    /// Copies of other cores that these requests turned to I.
    pub invalidations: u32,
    /// Lines that another core's cache supplied to it.
    pub from_caches: u32,
    /// Lines that memory supplied to it.
    pub from_memory: u32,
    /// Lines that were written to memory for it: its own dirty ones that gave way to a line that it asked for, and copies of
    /// other cores that its GetS sent there.
    pub to_memory: u32,
}

impl Traffic {
    /// Nothing was moved.
    pub const NONE: Traffic = Traffic {
        get_s: 0,
        get_m: 0,
        invalidations: 0,
        from_caches: 0,
        from_memory: 0,
        to_memory: 0,
    };
}

/// What this core had moved, by what each choice of a run had to do with the caches.
pub fn traffic_of(protocol: ProtocolKind, uses: &[CoreUse], core: usize) -> Traffic
    requires core { core < most_cores }
    requires few { length uses.now ≤ most_choices }
    ensures { result ≡ traffic_of (table_of protocol) core uses.now }
{
    let mut traffic = Traffic::NONE;
    for noted in uses {
        traffic = traffic.with_use_of(protocol, core, *noted);
    }
    traffic
}

impl Traffic {
    /// With what a choice moved, if it was one of this core.
    fn with_use_of(self, protocol: ProtocolKind, core: usize, noted: CoreUse) -> Traffic
        requires core { core < most_cores }
        requires few { IsTrafficAtMost (8 * most_choices) self }
        ensures value { result ≡ with_use_of (table_of protocol) core noted self }
        ensures few { (n : ℕ) → IsTrafficAtMost n self → IsTrafficAtMost (n + 8) result }
    {
        if noted.core.0 as usize == core {
            self.with_use(protocol, core, noted.how)
        } else {
            self
        }
    }

    /// With what one choice of this core moved.
    fn with_use(self, protocol: ProtocolKind, core: usize, how: CacheUse) -> Traffic
        requires core { core < most_cores }
        requires few { IsTrafficAtMost (8 * most_choices) self }
        ensures value { result ≡ with_use (table_of protocol) core how self }
        ensures few { (n : ℕ) → IsTrafficAtMost n self → IsTrafficAtMost (n + 8) result }
    {
        match how {
            CacheUse::Unused | CacheUse::Forwarded => self,
            CacheUse::Asked(request) => self.with_requested(protocol, core, request),
            CacheUse::Through(report) => self.with_access(protocol, core, report),
        }
    }

    /// With what an access moved: what went on the bus for it now, and the dirty line that gave way to its own.
    fn with_access(self, protocol: ProtocolKind, core: usize, report: AccessReport) -> Traffic
        requires core { core < most_cores }
        requires few { IsTrafficAtMost (8 * most_choices) self }
        ensures value { result ≡ with_traffic_of_access (table_of protocol) core report self }
        ensures few { (n : ℕ) → IsTrafficAtMost n self → IsTrafficAtMost (n + 8) result }
    {
        let requested = self.with_requested(protocol, core, report.request);
        Traffic {
            to_memory: requested.to_memory + written_back(report.access.wrote_back),
            ..requested
        }
    }

    /// With what went on the bus by this, if anything did.
    fn with_requested(
        self,
        protocol: ProtocolKind,
        core: usize,
        request: Option<BusRequest>,
    ) -> Traffic
        requires core { core < most_cores }
        requires few { IsTrafficAtMost (8 * most_choices) self }
        ensures value { result ≡ with_requested (table_of protocol) core request self }
        ensures few { (n : ℕ) → IsTrafficAtMost n self → IsTrafficAtMost (n + 8) result }
        ensures written { result.to_memory ≤ self.to_memory + 1 }
    {
        match request {
            None => self,
            Some(request) => self.with_request(protocol, core, request),
        }
    }

    /// With what one request of this core moved.
    fn with_request(self, protocol: ProtocolKind, core: usize, request: BusRequest) -> Traffic
        requires core { core < most_cores }
        requires few { IsTrafficAtMost (8 * most_choices) self }
        ensures value { result ≡ with_traffic_of_request (table_of protocol) core request self }
        ensures few { (n : ℕ) → IsTrafficAtMost n self → IsTrafficAtMost (n + 8) result }
        ensures written { result.to_memory ≤ self.to_memory + 1 }
    {
        Traffic {
            get_s: self.get_s + reads(request.request),
            get_m: self.get_m + writes(request.request),
            invalidations: self.invalidations + copies_given_up(protocol, core, request),
            from_caches: self.from_caches + from_cache(request.supplier),
            from_memory: self.from_memory + from_memory(request.supplier),
            to_memory: self.to_memory + u32::from(request.flushed.is_some()),
        }
    }
}

/// 1 for a request to read a line.
fn reads(request: Request) -> u32
    ensures value { result ≡ requests_to_read request }
    ensures few { result ≤ 1 }
{
    match request {
        Request::GetS => 1,
        Request::GetM => 0,
    }
}

/// 1 for a request to write a line.
fn writes(request: Request) -> u32
    ensures value { result ≡ requests_to_write request }
    ensures few { result ≤ 1 }
{
    match request {
        Request::GetS => 0,
        Request::GetM => 1,
    }
}

/// 1 for a line that another cache supplied.
fn from_cache(supplier: Option<Supplier>) -> u32
    ensures value { result ≡ from_cache supplier }
    ensures few { result ≤ 1 }
{
    match supplier {
        Some(Supplier::Cache(_)) => 1,
        Some(Supplier::Memory) | None => 0,
    }
}

/// 1 for a line that memory supplied.
fn from_memory(supplier: Option<Supplier>) -> u32
    ensures value { result ≡ from_memory supplier }
    ensures few { result ≤ 1 }
{
    match supplier {
        Some(Supplier::Memory) => 1,
        Some(Supplier::Cache(_)) | None => 0,
    }
}

/// 1 for a dirty line that gave way.
fn written_back(wrote_back: bool) -> u32
    ensures value { result ≡ lines_written_back wrote_back }
    ensures few { result ≤ 1 }
{
    if wrote_back { 1 } else { 0 }
}

/// How many copies of other cores this core's request turns to I.
fn copies_given_up(protocol: ProtocolKind, core: usize, request: BusRequest) -> u32
    requires { core < most_cores }
    ensures value { result ≡ copies_given_up (table_of protocol) core request }
    ensures few { result ≤ most_cores }
{
    let mut others = request.states;
    others[core] = None;
    let mut copies = 0;
    for state in &others {
        copies += given_up(protocol, request.request, *state);
    }
    copies
}

/// 1 for a copy in this state that the request turns to I.
fn given_up(protocol: ProtocolKind, request: Request, state: Option<State>) -> u32
    ensures value { result ≡ given_up (snoop_column (table_of protocol) request) state }
    ensures few { result ≤ 1 }
{
    match state {
        None => 0,
        Some(state) => u32::from(matches!(next_state(protocol, request, state), State::I)),
    }
}

/// The state that another core's request leaves a copy in.
fn next_state(protocol: ProtocolKind, request: Request, state: State) -> State
    ensures { result ≡ (snoop_column (table_of protocol) request state).next }
{
    match protocol {
        ProtocolKind::Msi => next_by(&Msi, request, state),
        ProtocolKind::Mesi => next_by(&Mesi, request, state),
        ProtocolKind::Moesi => next_by(&Moesi, request, state),
        ProtocolKind::Mosi => next_by(&Mosi, request, state),
    }
}

fn next_by<P: Protocol>(protocol: &P, request: Request, state: State) -> State
    ensures { result ≡ (snoop_column (P.table protocol.now) request state).next }
{
    match request {
        Request::GetS => protocol.on_get_s(state).next,
        Request::GetM => protocol.on_get_m(state).next,
    }
}
