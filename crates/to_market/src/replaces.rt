//! A replace of a client.

ghost use Rattle.std.specs.Prelude.{◌≡◌, ◌+◌, ◌≤◌, ◌<◌, ◌^◌, ℕ, List, Option, Some, None, IfOk, length, map};
ghost use Rattle.fix_types.specs.ReplaceRequest.{replace_request_fields};
ghost use Rattle.order_law.specs.ouch_codec.Inbound.{inbound_bytes};
ghost use Rattle.tokens.specs.TokenText.{token_text};
ghost use Rattle.order_law.specs.Asks.{Standing};
ghost use Rattle.order_law.specs.Headline.{Each, EachWith, Says};
ghost use Rattle.order_law.specs.History.{last_token};
ghost use Rattle.order_law.specs.wire_law.Printable.{ArePrintable};
ghost use Rattle.order_machine.specs.OrderRecord.{live_token, replacements};
ghost use Rattle.order_machine.specs.fix_fields.Field.{Message, text};
ghost use Rattle.order_machine.specs.Table.{TableState};
ghost use Rattle.order_table.specs.Held.{found_by_id};
ghost use Rattle.to_market.specs.RequestAsks.{AsksToReplace};
ghost use Rattle.to_market.specs.Asked.{IsAccepted, TakesToken, replaces_asked};
ghost use Rattle.order_machine.specs.Runs.{Finds};
ghost use Rattle.to_market.specs.Turns.{StepsReplace, IsReplaceTurn};

use crate::named::{named_of, shown_now};
use crate::refusing::{reject, unknown_row};
use crate::replace_ask::ReplaceAsk;
use crate::requests::{ask_of_replace, say_replace};
use crate::sender::Sender;
use crate::turns::ReplaceTurn;
use fix_types::{AppBody, ReplaceRequest};
use order_table::{GivenToken, Table};
use orders::{Order, Replacing};
use ouch_codec::Inbound;
use std::alloc::{AllocError, Global};
use std::hash::BuildHasher;
use to_client::{Request, report_pending};

/// Judges a replace of a client, whose ClOrdID (11) is used already or isn't, after `issued` reports of all clients.
///
/// `Refused`, by the first row that holds: its ClOrdID is used; its OrigClOrdID (41) names no order of the client; the
/// order is closed; the port has ended or is faulted; a cancel of the order is pending, or four replaces; then those of
/// `to_market::ask_of_replace` on what it says itself. Else it is pending from then on, takes the next token, and asks
/// the market to replace the order that goes by the token of the newest pending replace, or, where none is pending, by
/// its live one.
///
/// It changes nothing. The one error is that memory ran out.
///
/// Source: FIX 4.4 Volume 4, "Order Cancel/Replace Request"; OUCH 4.2, "Replace Order Message".
pub fn on_replace<S: BuildHasher + Drop>(
    alloc: Global,
    issued: u64,
    table: &Table<S>,
    sender: &Sender,
    is_used: bool,
    request: &ReplaceRequest,
) -> Result<ReplaceTurn, AllocError>
    requires issued { issued < 2 ^ 60 }
    requires tokens { length table.now.tokens < 2 ^ 60 }
    ensures { IfOk result (StepsReplace issued sender.now table.now is_used request.now) }
{
    match table.by_id(sender.client, request.orig_cl_ord_id.as_slice()) {
        None => {
            let asked = Request::of_replace(request);
            let body = reject(alloc, &asked, &None, unknown_row(is_used))?;
            Ok(ReplaceTurn::Refused(body))
        }
        Some(order) => replace_of(alloc, issued, table, sender, is_used, request, order),
    }
}

/// The same, of the order that it names.
fn replace_of<S: BuildHasher + Drop>(
    alloc: Global,
    issued: u64,
    table: &Table<S>,
    sender: &Sender,
    is_used: bool,
    request: &ReplaceRequest,
    order: &Order,
) -> Result<ReplaceTurn, AllocError>
    requires issued { issued < 2 ^ 60 }
    requires tokens { length table.now.tokens < 2 ^ 60 }
    requires named { found_by_id table.now sender.now.client (text 41 (replace_request_fields request.now))
        ≡ Some order.now }
    ensures { IfOk result (StepsReplace issued sender.now table.now is_used request.now) }
{
    let replaces = table.replace_count(order.order_id);
    let named = Some(named_of(order, sender.terms.capacity, replaces));
    let given = table.token_count() as u64;
    match ask_of_replace(request, is_used, &named, sender.port, given) {
        Err(refusal) => {
            let asked = Request::of_replace(request);
            let shown = Some(shown_now(order));
            let body = reject(alloc, &asked, &shown, refusal)?;
            Ok(ReplaceTurn::Refused(body))
        }
        Ok(ask) => accept_replace(alloc, issued, sender, request, order, &ask, given),
    }
}

/// An accepted replace of an order, under the next token after this many.
fn accept_replace(
    alloc: Global,
    issued: u64,
    sender: &Sender,
    request: &ReplaceRequest,
    order: &Order,
    ask: &ReplaceAsk,
    given: u64,
) -> Result<ReplaceTurn, AllocError>
    requires issued { issued < 2 ^ 60 }
    requires given { given < 2 ^ 60 }
    requires asks { AsksToReplace ask.now (replace_request_fields request.now) }
    requires token { ask.now.token ≡ token_text (given + 1) }
    ensures { IfOk result (λ turn. (s : TableState)
        → IsAccepted issued sender.now (replace_request_fields request.now) order.now s
        → TakesToken given sender.now order.now s → IsReplaceTurn s sender.now
        (replace_request_fields request.now) turn) }
{
    let order_id = order.order_id;
    let asked = Request::of_replace(request);
    let shown = shown_now(order);
    let report = report_pending(alloc, issued + 1, &asked, &shown)?;
    let asks = replaces_of(alloc, ask, order)?;
    let message = request.copied(alloc)?;
    let token = ask.token.bytes();
    Ok(ReplaceTurn::Accepted {
        order_id,
        replacing: Replacing {
            message,
            token,
            token_number: given + 1,
        },
        given: GivenToken {
            port: sender.terms.port,
            token,
            order_id,
            is_replacement: true,
        },
        body: AppBody::Report(report),
        asks,
    })
}

/// What a replace of an order asks: one Replace Order, from the token that it goes by once its pending replaces are
/// done.
fn replaces_of(alloc: Global, ask: &ReplaceAsk, order: &Order) -> Result<Vec<Inbound>, AllocError>
    requires { ArePrintable (last_token (live_token order.now) (replacements order.now.replaces)) }
    ensures says { IfOk result (λ asks. (m : Message) (standing : Standing) (order_of : List ℕ → Option ℕ)
        → AsksToReplace ask.now m → Each (Finds order_of) (replaces_asked order.now ask.now.token m)
        → EachWith (Says standing order_of) (replaces_asked order.now ask.now.token m) (map inbound_bytes asks.items)) }
    ensures few { IfOk result (λ asks. length asks.items ≤ 5) }
{
    let message = say_replace(ask, order.next_token());
    Ok(vec![in alloc; Inbound::Replace(message)]?)
}
