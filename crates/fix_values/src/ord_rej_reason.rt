//! Why an order is rejected: OrdRejReason (103).

ghost use Rattle.std.specs.Prelude.{◌≡◌};
ghost use Rattle.fix_values.specs.Reasons.{ord_rej_number};

/// Why an order is rejected: the reasons that this gateway gives.
///
/// Source: FIX 4.4 Volume 6, OrdRejReason (103).
#[derive(Clone, Copy, Debug, PartialEq, Eq)]
pub enum OrdRejReason {
    /// Unknown symbol.
    UnknownSymbol,
    /// Exchange closed.
    ExchangeClosed,
    /// Order exceeds limit.
    OrderExceedsLimit,
    /// Duplicate order, as of a ClOrdID (11) that is used.
    DuplicateOrder,
    /// Unsupported order characteristic.
    UnsupportedOrderCharacteristic,
    /// Incorrect quantity.
    IncorrectQuantity,
    /// Other.
    Other,
}

impl OrdRejReason {
    /// The number that says it.
    pub fn number(self) -> u64
        ensures { result ≡ ord_rej_number self }
    {
        match self {
            OrdRejReason::UnknownSymbol => 1,
            OrdRejReason::ExchangeClosed => 2,
            OrdRejReason::OrderExceedsLimit => 3,
            OrdRejReason::DuplicateOrder => 6,
            OrdRejReason::UnsupportedOrderCharacteristic => 11,
            OrdRejReason::IncorrectQuantity => 13,
            OrdRejReason::Other => 99,
        }
    }
}
