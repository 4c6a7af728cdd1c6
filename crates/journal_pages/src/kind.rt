//! The kinds of records.

ghost use Rattle.std.specs.Prelude.{◌≡◌};
ghost use Rattle.journal_pages.specs.Record.{kind_number, kind_numbered};

/// What a record says. The first eight are events, the others parts of the batch that the event gave.
#[derive(Clone, Copy, Debug, PartialEq, Eq)]
pub enum RecordKind {
    /// 1: a client's link is up.
    ClientUp,
    /// 2: a client's link brought a frame, whose bytes are the payload.
    ClientMessage,
    /// 3: a client's link is gone.
    ClientGone,
    /// 4: a port's link is up.
    PortUp,
    /// 5: a port's link brought a packet, whose bytes are the payload.
    PortPacket,
    /// 6: a port's link is gone.
    PortGone,
    /// 7: time passes for a client's session.
    ClientTick,
    /// 8: time passes for a port's session.
    PortTick,
    /// 9: a report or reject as it was issued; the payload is the text of its fields.
    Report,
    /// 10: bytes that the client's link is told.
    ClientWrite,
    /// 11: the client's link is closed.
    ClientClose,
    /// 12: bytes that the port's link is told.
    PortWrite,
    /// 13: the port's link is closed.
    PortClose,
    /// 14: the port is faulted; the payload is the fault's number.
    Fault,
    /// 15: the batch ends.
    BatchEnd,
}

impl RecordKind {
    /// Its number, 1 to 15. Takes no memory.
    pub fn number(self) -> u8
        ensures { result ≡ kind_number self }
    {
        match self {
            RecordKind::ClientUp => 1,
            RecordKind::ClientMessage => 2,
            RecordKind::ClientGone => 3,
            RecordKind::PortUp => 4,
            RecordKind::PortPacket => 5,
            RecordKind::PortGone => 6,
            RecordKind::ClientTick => 7,
            RecordKind::PortTick => 8,
            RecordKind::Report => 9,
            RecordKind::ClientWrite => 10,
            RecordKind::ClientClose => 11,
            RecordKind::PortWrite => 12,
            RecordKind::PortClose => 13,
            RecordKind::Fault => 14,
            RecordKind::BatchEnd => 15,
        }
    }

    /// The kind of a number, or `None` where it is not 1 to 15. Takes no memory.
    pub fn of(number: u8) -> Option<RecordKind>
        ensures { result ≡ kind_numbered number }
    {
        match number {
            1 => Some(RecordKind::ClientUp),
            2 => Some(RecordKind::ClientMessage),
            3 => Some(RecordKind::ClientGone),
            4 => Some(RecordKind::PortUp),
            5 => Some(RecordKind::PortPacket),
            6 => Some(RecordKind::PortGone),
            7 => Some(RecordKind::ClientTick),
            8 => Some(RecordKind::PortTick),
            9 => Some(RecordKind::Report),
            10 => Some(RecordKind::ClientWrite),
            11 => Some(RecordKind::ClientClose),
            12 => Some(RecordKind::PortWrite),
            13 => Some(RecordKind::PortClose),
            14 => Some(RecordKind::Fault),
            15 => Some(RecordKind::BatchEnd),
            _ => None,
        }
    }
}
