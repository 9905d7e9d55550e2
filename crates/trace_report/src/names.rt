//! The words for what a step tells, in the field's terms: requests and states by the letters of the literature. (Primer,
//! chapter 7.)

ghost use Rattle.std.specs.Prelude.{◌≡◌};
ghost use Rattle.protocol_tables.specs.PrintedTable.{letter};
ghost use Rattle.trace_report.specs.Lines.{stall_name, access_name, request_name, transient_name, state_name};

use crate::step::LineState;
use protocol_tables::{Request, State, Transient};
use snoop_bus::AccessKind;
use tso_terms::Stall;

/// The word for a stall.
pub fn stall_name(stall: Stall) -> &'static str
    ensures { result.now ≡ stall_name stall }
{
    match stall {
        Stall::Done => "Done",
        Stall::Full => "Full",
        Stall::Fence => "Fence",
        Stall::Lock => "Lock",
        Stall::Empty => "Empty",
        Stall::Bus => "Bus",
    }
}

/// The word for an access.
pub fn access_name(kind: AccessKind) -> &'static str
    ensures { result.now ≡ access_name kind }
{
    match kind {
        AccessKind::Hit => "hit",
        AccessKind::Upgrade => "upgrade",
        AccessKind::Miss => "miss",
    }
}

/// The name of a request on the bus.
pub fn request_name(request: Request) -> &'static str
    ensures { result.now ≡ request_name request }
{
    match request {
        Request::GetS => "GetS",
        Request::GetM => "GetM",
    }
}

/// The name of what a line is in.
pub fn state_name(state: LineState) -> &'static str
    ensures { result.now ≡ state_name state }
{
    match state {
        LineState::Stable(state) => stable_name(state),
        LineState::Transient(transient) => transient_name(transient),
    }
}

/// The name of what a line is in while its words are awaited.
pub fn transient_name(transient: Transient) -> &'static str
    ensures { result.now ≡ transient_name transient }
{
    match transient {
        Transient::IsD => "IS_D",
        Transient::ImD => "IM_D",
        Transient::SmD => "SM_D",
    }
}

fn stable_name(state: State) -> &'static str
    ensures { result.now ≡ letter state }
{
    match state {
        State::M => "M",
        State::O => "O",
        State::E => "E",
        State::S => "S",
        State::I => "I",
    }
}
