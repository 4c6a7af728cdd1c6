//! The rows of the tables on new orders, cancels and replaces, with their codes and texts.
//!
//! A row that two tables have stands once, with its code in either: 103 and 102 have codes of their own.
//!
//! Source: FIX 4.4 Volume 6, OrdRejReason (103) and CxlRejReason (102); the rows and their texts are this gateway's
//! own.

ghost use Rattle.std.specs.Prelude.{◌≡◌, ◌++◌, IfOk, codes, decimal};
ghost use Rattle.order_law.specs.fix_fields.Field.{IsValue};
ghost use Rattle.fix_values.specs.Reasons.{cxl_rej_number, ord_rej_number};
ghost use Rattle.to_market.specs.Refusals.{code_of, request_code_of, refusal_text, fixed_words};

use fix_fields::Text;
use fix_values::{CxlRejReason, OrdRejReason};
use itoa::Buffer;
use std::alloc::{AllocError, Global};

/// Why a new order, a cancel or a replace isn't accepted: the first row of its table that holds.
///
/// Source: FIX 4.4 Volume 4, "New Order - Single", "Order Cancel Request", "Order Cancel/Replace Request"; the rows and
/// their order are this gateway's own.
#[derive(Clone, Copy, Debug, PartialEq, Eq)]
pub enum Refusal {
    /// ClOrdID (11) stands as 11 in a report to this client already.
    DuplicateClOrdId,
    /// The port's session has ended.
    PortEnded,
    /// The port has this fault.
    PortFaulted(u8),
    /// Side (54) is not 1, 2, 5 or 6.
    Side,
    /// Symbol (55) is not 1 to 8 bytes from 33 to 126.
    Symbol,
    /// OrdType (40) is not 2, limit.
    OrderType,
    /// TimeInForce (59) is there and not 0, day, or 3, immediate or cancel, nor, of a new order, 4, fill or kill.
    TimeInForce,
    /// ExecInst (18) is there and not 6, participate don't initiate.
    ExecutionInstruction,
    /// OrderCapacity (528) is there and not A, P or R.
    Capacity,
    /// OrderQty (38) is not a whole number from 1 to 999,999.
    Quantity,
    /// MinQty (110) is there and not a whole number from 0 to OrderQty.
    MinimumQuantity,
    /// Price (44) is missing.
    PriceMissing,
    /// Price (44) is not a whole number of 1/10,000.
    PriceNotExact,
    /// Price (44) is not from 0.0001 to 199,999.99.
    PriceOutOfRange,
    /// 10,000 orders of the client aren't closed.
    TooManyOpenOrders,
    /// All tokens are given.
    NoTokenLeft,
    /// OrigClOrdID (41) names no order of the client.
    UnknownOrder,
    /// The order is closed.
    TooLate,
    /// A cancel of the order is pending; for a replace also four replaces.
    AlreadyPending,
    /// A replace has a side, symbol or capacity (54, 55, 528) that isn't the order's.
    OtherTerms,
    /// The total of a replace (38) isn't above what is executed.
    TotalNotAboveExecuted,
    /// 65,535 replaces of the order were accepted.
    ReplaceLimit,
}

impl Refusal {
    /// OrdRejReason (103). A row that only requests have is other.
    pub fn code(self) -> OrdRejReason
        ensures { ord_rej_number result ≡ code_of self }
    {
        match self {
            Refusal::DuplicateClOrdId => OrdRejReason::DuplicateOrder,
            Refusal::PortEnded | Refusal::PortFaulted(_) => OrdRejReason::ExchangeClosed,
            Refusal::Symbol => OrdRejReason::UnknownSymbol,
            Refusal::Side
            | Refusal::OrderType
            | Refusal::TimeInForce
            | Refusal::ExecutionInstruction
            | Refusal::Capacity => OrdRejReason::UnsupportedOrderCharacteristic,
            Refusal::Quantity | Refusal::MinimumQuantity => OrdRejReason::IncorrectQuantity,
            Refusal::PriceMissing
            | Refusal::PriceNotExact
            | Refusal::PriceOutOfRange
            | Refusal::NoTokenLeft
            | Refusal::UnknownOrder
            | Refusal::TooLate
            | Refusal::AlreadyPending
            | Refusal::OtherTerms
            | Refusal::TotalNotAboveExecuted
            | Refusal::ReplaceLimit => OrdRejReason::Other,
            Refusal::TooManyOpenOrders => OrdRejReason::OrderExceedsLimit,
        }
    }

    /// CxlRejReason (102). A row that only new orders have is other.
    pub fn request_code(self) -> CxlRejReason
        ensures { cxl_rej_number result ≡ request_code_of self }
    {
        match self {
            Refusal::DuplicateClOrdId => CxlRejReason::DuplicateClOrdId,
            Refusal::UnknownOrder => CxlRejReason::UnknownOrder,
            Refusal::TooLate => CxlRejReason::TooLateToCancel,
            Refusal::PortEnded
            | Refusal::PortFaulted(_)
            | Refusal::ReplaceLimit
            | Refusal::NoTokenLeft => CxlRejReason::BrokerOption,
            Refusal::AlreadyPending => CxlRejReason::AlreadyPending,
            Refusal::Side
            | Refusal::Symbol
            | Refusal::OrderType
            | Refusal::TimeInForce
            | Refusal::ExecutionInstruction
            | Refusal::Capacity
            | Refusal::Quantity
            | Refusal::MinimumQuantity
            | Refusal::PriceMissing
            | Refusal::PriceNotExact
            | Refusal::PriceOutOfRange
            | Refusal::TooManyOpenOrders
            | Refusal::OtherTerms
            | Refusal::TotalNotAboveExecuted => CxlRejReason::Other,
        }
    }

    /// Text (58).
    pub fn text(self, alloc: Global) -> Result<Text, AllocError>
        ensures { IfOk result (λ text. text ≡ refusal_text self) }
    {
        match self {
            Refusal::PortFaulted(number) => fault_text(alloc, number),
            _ => Text::copied(alloc, self.words()),
        }
    }

    /// The words of a row; of a fault without its number.
    fn words(self) -> &'static [u8]
        ensures words { result.now ≡ fixed_words self }
        ensures value { IsValue result.now }
    {
        match self {
            Refusal::DuplicateClOrdId => b"duplicate ClOrdID",
            Refusal::PortEnded => b"market session ended",
            Refusal::PortFaulted(_) => b"port fault ",
            Refusal::Side => b"side",
            Refusal::Symbol => b"symbol",
            Refusal::OrderType => b"order type",
            Refusal::TimeInForce => b"time in force",
            Refusal::ExecutionInstruction => b"execution instruction",
            Refusal::Capacity => b"capacity",
            Refusal::Quantity => b"quantity",
            Refusal::MinimumQuantity => b"minimum quantity",
            Refusal::PriceMissing => b"price missing",
            Refusal::PriceNotExact => b"price not in 1/10000",
            Refusal::PriceOutOfRange => b"price out of range",
            Refusal::TooManyOpenOrders => b"too many open orders",
            Refusal::NoTokenLeft => b"no token left",
            Refusal::UnknownOrder => b"unknown order",
            Refusal::TooLate => b"too late",
            Refusal::AlreadyPending => b"already pending",
            Refusal::OtherTerms => b"side, symbol or capacity",
            Refusal::TotalNotAboveExecuted => b"total not above executed",
            Refusal::ReplaceLimit => b"replace limit",
        }
    }
}

/// `port fault` and the number of the fault.
fn fault_text(alloc: Global, number: u8) -> Result<Text, AllocError>
    ensures { IfOk result (λ text. text ≡ codes "port fault " ++ decimal number) }
{
    let mut buffer = Buffer::new();
    let mut text = Vec::from_slice(alloc, b"port fault ")?;
    text.extend_from_slice(buffer.format(number).as_bytes())?;
    Ok(Text::from_vec(text))
}
