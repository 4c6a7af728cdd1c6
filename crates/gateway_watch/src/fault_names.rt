//! Why a port is faulted, for an operator.

ghost use Rattle.std.specs.Prelude.{◌≡◌};
ghost use Rattle.gateway_watch.specs.Faults as spec;

use soup_session::PortFault;

/// A fault's name.
pub fn fault_name(fault: PortFault) -> &'static str
    ensures { result.now ≡ spec.fault_name fault }
{
    match fault {
        PortFault::StrangePacket => "a packet or payload that can't be read",
        PortFault::UnknownToken => "a token that no order of this port has",
        PortFault::NotLawful => "a message that its order doesn't allow",
        PortFault::OutsideProfile => "a message outside the profile",
        PortFault::SequenceGap => "a login with a number above the next one",
        PortFault::OtherSession => "a login of another session",
    }
}
