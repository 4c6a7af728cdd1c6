//! The reasons for which a session rejects a message: SessionRejectReason (373).

ghost use Rattle.std.specs.Prelude.{◌≡◌};
ghost use Rattle.fix_fields.specs.Reasons.{session_reject_number};

/// Why a session rejects a message: the reasons that this gateway gives.
///
/// Source: FIX 4.4 Volume 6, SessionRejectReason (373).
#[derive(Clone, Copy, Debug, PartialEq, Eq)]
pub enum SessionRejectReason {
    /// Required tag missing.
    RequiredTagMissing,
    /// Tag specified without a value.
    TagWithoutValue,
    /// Value is incorrect (out of range) for this tag.
    ValueIsIncorrect,
    /// Incorrect data format for value.
    IncorrectDataFormat,
    /// CompID problem.
    CompIdProblem,
    /// Invalid MsgType.
    InvalidMsgType,
    /// Tag appears more than once.
    TagMoreThanOnce,
}

impl SessionRejectReason {
    /// The number that says it.
    pub const fn number(self) -> u8
        ensures { result ≡ session_reject_number self }
    {
        match self {
            SessionRejectReason::RequiredTagMissing => 1,
            SessionRejectReason::TagWithoutValue => 4,
            SessionRejectReason::ValueIsIncorrect => 5,
            SessionRejectReason::IncorrectDataFormat => 6,
            SessionRejectReason::CompIdProblem => 9,
            SessionRejectReason::InvalidMsgType => 11,
            SessionRejectReason::TagMoreThanOnce => 13,
        }
    }
}
