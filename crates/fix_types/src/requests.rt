//! The tables of what application messages have to be, for a session that judges them before anybody reads them.
//!
//! Source: FIX 4.4 Volume 4, "New Order - Single", "Order Cancel Request", "Order Cancel/Replace Request".

ghost use Rattle.std.specs.Prelude.{◌≡◌};
ghost use Rattle.fix_types.specs.Requests as requests;

use fix_fields::{Fields, SessionRefusal};
use fix_values::{Format, Row, first_refusal};

/// The tags that a new order has to have, in the order in which they are judged.
const NEW_ORDER_REQUIRED: [u32; 5] = [11, 54, 55, 38, 40];

/// What the values of a new order have to be, in the order in which they are judged.
#[rattlefmt::skip]
const NEW_ORDER_ROWS: [Row; 8] = [
    Row { tag: 11, format: Format::ClOrdId },
    Row { tag: 54, format: Format::Char },
    Row { tag: 38, format: Format::Float },
    Row { tag: 40, format: Format::Char },
    Row { tag: 44, format: Format::Float },
    Row { tag: 59, format: Format::Char },
    Row { tag: 528, format: Format::Char },
    Row { tag: 110, format: Format::Float },
];

/// The tags that a cancel request has to have, in the order in which they are judged.
const CANCEL_REQUIRED: [u32; 2] = [11, 41];

/// What the values of a cancel request have to be.
#[rattlefmt::skip]
const CANCEL_ROWS: [Row; 2] = [
    Row { tag: 11, format: Format::ClOrdId },
    Row { tag: 41, format: Format::ClOrdId },
];

/// The tags that a replace request has to have, in the order in which they are judged.
const REPLACE_REQUIRED: [u32; 4] = [11, 41, 38, 40];

/// What the values of a replace request have to be, in the order in which they are judged.
#[rattlefmt::skip]
const REPLACE_ROWS: [Row; 9] = [
    Row { tag: 11, format: Format::ClOrdId },
    Row { tag: 41, format: Format::ClOrdId },
    Row { tag: 54, format: Format::Char },
    Row { tag: 38, format: Format::Float },
    Row { tag: 40, format: Format::Char },
    Row { tag: 44, format: Format::Float },
    Row { tag: 59, format: Format::Char },
    Row { tag: 528, format: Format::Char },
    Row { tag: 110, format: Format::Float },
];

/// The first refusal that a message meets as a NewOrderSingle (35=D): a required tag that is missing, or else a value
/// of another format. Takes no memory. Where there is none, `NewOrder::get` refuses nothing.
pub fn new_order_refusal(fields: &Fields) -> Option<SessionRefusal>
    ensures { result ≡ requests.new_order_refusal fields.now }
{
    first_refusal(fields, &NEW_ORDER_REQUIRED, &NEW_ORDER_ROWS)
}

/// The first refusal that a message meets as an OrderCancelRequest (35=F). Takes no memory. Where there is none,
/// `CancelRequest::get` refuses nothing.
pub fn cancel_refusal(fields: &Fields) -> Option<SessionRefusal>
    ensures { result ≡ requests.cancel_refusal fields.now }
{
    first_refusal(fields, &CANCEL_REQUIRED, &CANCEL_ROWS)
}

/// The first refusal that a message meets as an OrderCancelReplaceRequest (35=G). Takes no memory. Where there is none,
/// `ReplaceRequest::get` refuses nothing.
pub fn replace_refusal(fields: &Fields) -> Option<SessionRefusal>
    ensures { result ≡ requests.replace_refusal fields.now }
{
    first_refusal(fields, &REPLACE_REQUIRED, &REPLACE_ROWS)
}
