//! The market's messages, each field of them. Times and order references are 0.

ghost use Rattle.std.specs.Prelude.{◌≡◌, ◌≤◌, ◌<◌, ◌^◌};
ghost use Rattle.market_law.specs.Machine.{live_of};
ghost use Rattle.market_law.specs.Messages as say;

use crate::order::BookedOrder;
use market_law::{Breaking, Letter, Trading};
use ouch_codec::{
    Accepted, Broken, CancelPending, CancelReject, Canceled, EnterOrder, Executed, OrderState,
    Outbound, Rejected, Replace, Replaced, SystemEvent,
};

/// The order's own terms.
///
/// Source: OUCH 4.2, "Accepted Message".
pub fn accepted(order: &EnterOrder, state: OrderState) -> Outbound
    ensures { result ≡ say.accepted_by order.now state }
{
    Outbound::Accepted(Accepted {
        timestamp: 0,
        token: order.token,
        side: order.side,
        shares: order.shares,
        stock: order.stock,
        price: order.price,
        time_in_force: order.time_in_force,
        firm: order.firm,
        display: order.display,
        order_reference: 0,
        capacity: order.capacity,
        intermarket_sweep: order.intermarket_sweep,
        minimum_quantity: order.minimum_quantity,
        cross_type: order.cross_type,
        order_state: state,
        bbo_weight: b' ',
    })
}

/// The request's terms with so many shares open; what a Replace Order doesn't say is the order's.
///
/// Source: OUCH 4.2, "Replaced Message".
pub fn replaced(order: &EnterOrder, request: &Replace, shares: u32, state: OrderState) -> Outbound
    requires some { 1 ≤ shares }
    requires most { shares ≤ 999_999 }
    ensures { (shares_set : (1 ≤ shares) × (shares ≤ 999_999))
        → result ≡ say.replaced_by order.now request.now shares shares_set state }
{
    Outbound::Replaced(Replaced {
        timestamp: 0,
        token: request.replacement_token,
        side: order.side,
        shares,
        stock: order.stock,
        price: request.price,
        time_in_force: request.time_in_force,
        firm: order.firm,
        display: request.display,
        order_reference: 0,
        capacity: order.capacity,
        intermarket_sweep: request.intermarket_sweep,
        minimum_quantity: request.minimum_quantity,
        cross_type: order.cross_type,
        order_state: state,
        previous_token: request.token,
        bbo_weight: b' ',
    })
}

/// So many shares of the order leave the book, for the reason `U`.
///
/// Source: OUCH 4.2, "Canceled Message".
pub fn canceled(order: &BookedOrder, shares: u32) -> Outbound
    ensures { (fit : shares < 2 ^ 32) → result ≡ say.canceled (live_of order.now) shares fit }
{
    Outbound::Canceled(Canceled {
        timestamp: 0,
        token: *order.live_token(),
        decrement: shares,
        reason: b'U',
    })
}

/// A trade of the order by this number, which adds liquidity.
///
/// Source: OUCH 4.2, "Executed Order Message".
pub fn executed(order: &BookedOrder, trading: &Trading, match_number: u64) -> Outbound
    ensures { (fit : match_number < 2 ^ 64)
        → result ≡ say.executed (live_of order.now) trading.now match_number fit }
{
    Outbound::Executed(Executed {
        timestamp: 0,
        token: *order.live_token(),
        shares: trading.shares,
        price: trading.price,
        liquidity: b'A',
        match_number,
    })
}

/// A trade of the order is taken back, for the reason `E`.
///
/// Source: OUCH 4.2, "Broken Trade Message".
pub fn broken_trade(order: &BookedOrder, breaking: &Breaking) -> Outbound
    ensures { result ≡ say.broken_trade (live_of order.now) breaking.now }
{
    Outbound::Broken(Broken {
        timestamp: 0,
        token: *order.live_token(),
        match_number: breaking.match_number,
        reason: b'E',
    })
}

/// The new order isn't taken.
///
/// Source: OUCH 4.2, "Rejected Message".
pub fn rejected_order(order: &EnterOrder, reason: Letter) -> Outbound
    ensures { result ≡ say.rejected (say.entered_token order.now) reason }
{
    Outbound::Rejected(Rejected {
        timestamp: 0,
        token: order.token,
        reason: reason.byte,
    })
}

/// The replacement isn't taken.
///
/// Source: OUCH 4.2, "Rejected Message".
pub fn rejected_replacement(request: &Replace, reason: Letter) -> Outbound
    ensures { result ≡ say.rejected (say.to_token request.now) reason }
{
    Outbound::Rejected(Rejected {
        timestamp: 0,
        token: request.replacement_token,
        reason: reason.byte,
    })
}

/// The order will be cancelled once it may.
///
/// Source: OUCH 4.2, "Cancel Pending Message".
pub fn cancel_pending(order: &BookedOrder) -> Outbound
    ensures { result ≡ say.cancel_pending (live_of order.now) }
{
    Outbound::CancelPending(CancelPending {
        timestamp: 0,
        token: *order.live_token(),
    })
}

/// The order isn't cancelled.
///
/// Source: OUCH 4.2, "Cancel Reject Message".
pub fn cancel_reject(order: &BookedOrder) -> Outbound
    ensures { result ≡ say.cancel_reject (live_of order.now) }
{
    Outbound::CancelReject(CancelReject {
        timestamp: 0,
        token: *order.live_token(),
    })
}

/// Something happened that is no order's own.
///
/// Source: OUCH 4.2, "System Event Message".
pub fn system_event(event: Letter) -> Outbound
    ensures { result ≡ say.system_event event }
{
    Outbound::SystemEvent(SystemEvent {
        timestamp: 0,
        event: event.byte,
    })
}
