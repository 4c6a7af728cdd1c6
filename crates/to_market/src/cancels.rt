//! A cancel of a client.

ghost use Rattle.std.specs.Prelude.{◌≡◌, ◌+◌, ◌≤◌, ◌<◌, ◌^◌, ◌++◌, ◌∷◌, ℕ, List, Option, Some, None, IfOk, codes};
ghost use Rattle.std.specs.Prelude.{length, map};
ghost use Rattle.fix_types.specs.CancelRequest.{cancel_request_fields};
ghost use Rattle.order_law.specs.ouch_codec.Inbound.{inbound_bytes};
ghost use Rattle.order_law.specs.Asks.{Standing};
ghost use Rattle.order_law.specs.Headline.{Each, EachWith, Says};
ghost use Rattle.order_machine.specs.fix_fields.Field.{Message, text};
ghost use Rattle.order_machine.specs.OrderRecord.{live_token, replacements};
ghost use Rattle.order_machine.specs.Table.{TableState};
ghost use Rattle.order_table.specs.Held.{found_by_id};
ghost use Rattle.orders.specs.Seen.{replacing_token};
ghost use Rattle.to_market.specs.Asked.{IsAccepted, SayCancels, cancels_asked};
ghost use Rattle.order_machine.specs.Runs.{Finds};
ghost use Rattle.to_market.specs.Turns.{StepsCancel, IsCancelTurn};

use crate::named::{named_of, shown_now};
use crate::refusing::{reject, unknown_row};
use crate::requests::{refuse_cancel, say_cancel};
use crate::sender::Sender;
use crate::turns::CancelTurn;
use fix_types::{AppBody, CancelRequest};
use order_table::Table;
use orders::{Cancelling, Order, Replacing};
use ouch_codec::Inbound;
use std::alloc::{AllocError, Global};
use std::hash::BuildHasher;
use to_client::{Request, report_pending};

/// Judges a cancel of a client, whose ClOrdID (11) is used already or isn't, after `issued` reports of all clients.
///
/// `Refused`, by the first row that holds: its ClOrdID is used; its OrigClOrdID (41) names no order of the client;
/// the order is closed; the port has ended or is faulted; a cancel of the order is pending. Else it is pending from
/// then on, and asks the market once for each token: that which the order goes by, and then those of its pending
/// replaces, the oldest one's first.
///
/// It changes nothing. The one error is that memory ran out.
///
/// Source: FIX 4.4 Volume 4, "Order Cancel Request"; OUCH 4.2, "Cancel Order Message".
pub fn on_cancel<S: BuildHasher + Drop>(
    alloc: Global,
    issued: u64,
    table: &Table<S>,
    sender: &Sender,
    is_used: bool,
    request: &CancelRequest,
) -> Result<CancelTurn, AllocError>
    requires { issued < 2 ^ 60 }
    ensures { IfOk result (StepsCancel issued sender.now table.now is_used request.now) }
{
    match table.by_id(sender.client, request.orig_cl_ord_id.as_slice()) {
        None => {
            let asked = Request::of_cancel(request);
            let body = reject(alloc, &asked, &None, unknown_row(is_used))?;
            Ok(CancelTurn::Refused(body))
        }
        Some(order) => cancel_of(alloc, issued, table, sender, is_used, request, order),
    }
}

/// The same, of the order that it names.
fn cancel_of<S: BuildHasher + Drop>(
    alloc: Global,
    issued: u64,
    table: &Table<S>,
    sender: &Sender,
    is_used: bool,
    request: &CancelRequest,
    order: &Order,
) -> Result<CancelTurn, AllocError>
    requires issued { issued < 2 ^ 60 }
    requires named { found_by_id table.now sender.now.client (text 41 (cancel_request_fields request.now))
        ≡ Some order.now }
    ensures { IfOk result (StepsCancel issued sender.now table.now is_used request.now) }
{
    let replaces = table.replace_count(order.order_id);
    let named = Some(named_of(order, sender.terms.capacity, replaces));
    match refuse_cancel(is_used, &named, sender.port) {
        Err(refusal) => {
            let asked = Request::of_cancel(request);
            let shown = Some(shown_now(order));
            let body = reject(alloc, &asked, &shown, refusal)?;
            Ok(CancelTurn::Refused(body))
        }
        Ok(()) => accept_cancel(alloc, issued, sender, request, order),
    }
}

/// An accepted cancel of an order.
fn accept_cancel(
    alloc: Global,
    issued: u64,
    sender: &Sender,
    request: &CancelRequest,
    order: &Order,
) -> Result<CancelTurn, AllocError>
    requires { issued < 2 ^ 60 }
    ensures { IfOk result (λ turn. (s : TableState)
        → IsAccepted issued sender.now (cancel_request_fields request.now) order.now s
        → IsCancelTurn s sender.now (cancel_request_fields request.now) turn) }
{
    let asked = Request::of_cancel(request);
    let shown = shown_now(order);
    let report = report_pending(alloc, issued + 1, &asked, &shown)?;
    let asks = cancels_of(alloc, order)?;
    let cancelling = cancelling_of(alloc, request, order)?;
    Ok(CancelTurn::Accepted {
        order_id: order.order_id,
        cancelling,
        body: AppBody::Report(report),
        asks,
    })
}

/// What an order keeps of a cancel: the request, and each token whose Cancel Order isn't answered.
fn cancelling_of(
    alloc: Global,
    request: &CancelRequest,
    order: &Order,
) -> Result<Cancelling, AllocError>
    ensures message { IfOk result (λ c. c.message ≡ request.now) }
    ensures tokens { IfOk result (λ c. c.tokens.items ≡ live_token order.now ∷ replacements order.now.replaces) }
{
    let message = request.copied(alloc)?;
    let tokens = tokens_to_cancel(alloc, order)?;
    Ok(Cancelling { message, tokens })
}

/// The tokens that a cancel of an order asks by: the one that it goes by, and those of its pending replaces, the oldest
/// one's first.
fn tokens_to_cancel(alloc: Global, order: &Order) -> Result<Vec<[u8; 14]>, AllocError>
    ensures { IfOk result (λ tokens. tokens.items ≡ live_token order.now ∷ replacements order.now.replaces) }
{
    let next = order.next_tokens();
    let mut tokens = Vec::with_capacity(alloc, 5)?;
    tokens.push(order.token)?;
    tokens.extend_from_slice(next.as_slice())?;
    Ok(tokens)
}

/// What a cancel of an order asks: a Cancel Order of the token that it goes by, and then one of that of each pending
/// replace, the oldest one's first.
fn cancels_of(alloc: Global, order: &Order) -> Result<Vec<Inbound>, AllocError>
    ensures says { IfOk result (λ asks. (m : Message) (standing : Standing) (order_of : List ℕ → Option ℕ)
        → text 35 m ≡ codes "F" → Each (Finds order_of) (cancels_asked order.now m)
        → EachWith (Says standing order_of) (cancels_asked order.now m) (map inbound_bytes asks.items)) }
    ensures few { IfOk result (λ asks. length asks.items ≤ 5) }
{
    let mut asks = Vec::with_capacity(alloc, 5)?;
    asks.push(Inbound::Cancel(say_cancel(&order.token)))?;
    push_cancels(&mut asks, order.replaces.as_slice())?;
    Ok(asks)
}

/// A Cancel Order of the token of each of these replaces, behind others.
fn push_cancels(asks: &mut Vec<Inbound>, replaces: &[Replacing]) -> Result<(), AllocError>
    ensures says { IfOk result (λ nothing. (tokens : List (List ℕ)) → SayCancels tokens asks.old.items
        → SayCancels (tokens ++ map replacing_token replaces.now) asks.new.items) }
    ensures few { length asks.new.items ≤ length asks.old.items + length replaces.now }
{
    let [first, rest @ ..] = replaces else {
        return Ok(());
    };
    asks.push(Inbound::Cancel(say_cancel(&first.token)))?;
    push_cancels(asks, rest)
}
