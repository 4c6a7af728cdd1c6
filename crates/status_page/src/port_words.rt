//! A port's state, in words.

ghost use Rattle.std.specs.Prelude.{◌≡◌};
ghost use Rattle.status_page.specs.Words as spec;

use gateway_watch::fault_name;
use soup_session::PortState;

/// How a port stands, in words.
pub(crate) fn state_name(state: PortState) -> &'static str
    ensures { result.now ≡ spec.state_name state }
{
    match state {
        PortState::Down => "down",
        PortState::LoggingIn => "logging in",
        PortState::Up => "up",
        PortState::Ended => "ended by the market",
        PortState::Faulted(_) => "faulted",
    }
}

/// Why it stands so, where that is known; empty where it isn't.
pub(crate) fn reason_of(state: PortState) -> &'static str
    ensures { result.now ≡ spec.reason_of state }
{
    match state {
        PortState::Faulted(fault) => fault_name(fault),
        PortState::Down | PortState::LoggingIn | PortState::Up | PortState::Ended => "",
    }
}
