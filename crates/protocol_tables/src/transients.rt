//! From which state to which a line goes while its words are under way. (Primer, chapter 7, the transient states of a split
//! bus.)

ghost use Rattle.std.specs.Prelude.{◌≡◌};
ghost use Rattle.protocol_tables.specs.Transients.{transient_of};

use crate::requests::{Request, Transient};
use crate::state::State;

/// The state that a line in this state goes to where its core makes this request; `None` where a core
/// has nothing to ask for.
pub fn transient(state: State, request: Request) -> Option<Transient>
    ensures { result ≡ transient_of state request }
{
    match request {
        Request::GetS => match state {
            State::I => Some(Transient::IsD),
            State::S | State::E | State::O | State::M => None,
        },
        Request::GetM => match state {
            State::I => Some(Transient::ImD),
            State::S | State::O => Some(Transient::SmD),
            State::E | State::M => None,
        },
    }
}
