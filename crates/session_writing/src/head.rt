//! What stands round the body of a frame.

use session_law::Kind;

/// What stands round the body of a frame.
#[derive(Clone, Copy)]
pub struct FrameHead {
    /// MsgSeqNum (34).
    pub number: u64,
    /// MsgType (35).
    pub kind: Kind,
    /// SendingTime (52), in milliseconds since 1970.
    pub at: u64,
    /// OrigSendingTime (122), where it is sent again (43=Y).
    pub first: Option<u64>,
}
