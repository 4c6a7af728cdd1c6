//! Why a cancel or a replace is rejected: CxlRejReason (102).

ghost use Rattle.std.specs.Prelude.{◌≡◌};
ghost use Rattle.fix_values.specs.Reasons.{cxl_rej_number};

/// Why a cancel or a replace is rejected: the reasons that this gateway gives.
///
/// Source: FIX 4.4 Volume 6, CxlRejReason (102).
#[derive(Clone, Copy, Debug, PartialEq, Eq)]
pub enum CxlRejReason {
    /// Too late to cancel.
    TooLateToCancel,
    /// Unknown order.
    UnknownOrder,
    /// Broker or exchange option.
    BrokerOption,
    /// Order already in pending cancel or pending replace status.
    AlreadyPending,
    /// Duplicate ClOrdID (11) received.
    DuplicateClOrdId,
    /// Other.
    Other,
}

impl CxlRejReason {
    /// The number that says it.
    pub fn number(self) -> u64
        ensures { result ≡ cxl_rej_number self }
    {
        match self {
            CxlRejReason::TooLateToCancel => 0,
            CxlRejReason::UnknownOrder => 1,
            CxlRejReason::BrokerOption => 2,
            CxlRejReason::AlreadyPending => 3,
            CxlRejReason::DuplicateClOrdId => 6,
            CxlRejReason::Other => 99,
        }
    }
}
