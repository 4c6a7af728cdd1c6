//! Why a port is faulted.

ghost use Rattle.std.specs.Prelude.{◌≡◌};
ghost use Rattle.soup_session.specs.Faults.{fault_number};

/// Why a port is faulted; it stays so. The session itself finds the first and the last two, the order level the first
/// four, of a payload.
#[derive(Clone, Copy, Debug, PartialEq, Eq)]
pub enum PortFault {
    /// 1: a packet of a type, a length or at a time that the session doesn't have, or a payload that is no message.
    StrangePacket,
    /// 2: a token that is no order's of this port.
    UnknownToken,
    /// 3: a message that isn't lawful of its order.
    NotLawful,
    /// 4: a message outside the profile.
    OutsideProfile,
    /// 5: Login Accepted with a number above the next wanted one.
    SequenceGap,
    /// 6: Login Accepted of another session than the known one.
    OtherSession,
}

impl PortFault {
    /// Its number, 1 to 6. Takes no memory.
    pub fn number(self) -> u8
        ensures { result ≡ fault_number self }
    {
        match self {
            PortFault::StrangePacket => 1,
            PortFault::UnknownToken => 2,
            PortFault::NotLawful => 3,
            PortFault::OutsideProfile => 4,
            PortFault::SequenceGap => 5,
            PortFault::OtherSession => 6,
        }
    }
}
