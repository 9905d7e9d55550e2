//! What a choice puts on the bus, and sends to memory from another core's cache, as its access says. On a split bus that is told
//! at the ask, for then the other caches see it. (Primer, chapter 7.)

ghost use Rattle.std.specs.Prelude.{◌≡◌};
ghost use Rattle.trace_report.specs.Steps.{sent_by, sent_with};

use crate::step::LineRequest;
use machine_core::CacheUse;
use snoop_bus::BusRequest;
use tso_terms::Core;

/// What goes on the bus and to memory.
#[derive(Clone, Copy)]
pub struct Sent {
    /// The core's request.
    pub request: Option<LineRequest>,
    /// The core whose copy is sent to memory.
    pub flushed: Option<Core>,
}

/// What a choice sends that had this to do with the caches.
pub fn sent_by(cache_use: CacheUse) -> Sent
    ensures { result ≡ sent_by cache_use }
{
    match cache_use {
        CacheUse::Unused | CacheUse::Forwarded => sent_with(None),
        CacheUse::Asked(request) => sent_with(request),
        CacheUse::Through(report) => sent_with(report.request),
    }
}

/// What is sent by a request.
fn sent_with(request: Option<BusRequest>) -> Sent
    ensures { result ≡ sent_with request }
{
    match request {
        None => Sent {
            request: None,
            flushed: None,
        },
        Some(sent) => Sent {
            request: Some(LineRequest {
                request: sent.request,
                line: sent.line,
            }),
            flushed: sent.flushed,
        },
    }
}
