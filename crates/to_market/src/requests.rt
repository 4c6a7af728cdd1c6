//! What a cancel or a replace of an order asks of the market, or the first row that refuses it.

ghost use Rattle.std.specs.Prelude.{◌≡◌, ℕ, ◌+◌, ◌<◌, ◌||◌, List, ◌∷◌, [], Bool, Option, true, false, nat_le, codes};
ghost use Rattle.std.specs.Prelude.{Some, IfOk, MatchResult};
ghost use Rattle.std.specs.Str.Parse.{digits_value};
ghost use Rattle.tokens.specs.TokenText.{token_text};
ghost use Rattle.fix_types.specs.ReplaceRequest.{replace_request_fields};
ghost use Rattle.fix_values.specs.Slots.{char_text};
ghost use Rattle.order_law.specs.Asks.{Standing};
ghost use Rattle.order_law.specs.Headline.{Says};
ghost use Rattle.order_law.specs.fix_fields.Field.{Message, text};
ghost use Rattle.order_law.specs.Verdicts.{Accepted, Named, Port, first_row, is_replace, last_token, most_pending};
ghost use Rattle.order_law.specs.Verdicts.{port_rows, rows_of_request};
ghost use Rattle.to_market.specs.declared.named_order.NamedOrder.{NamedOrder};
ghost use Rattle.to_market.specs.FieldRows.{is_none_of};
ghost use Rattle.to_market.specs.Names.{HasRead, IsRead, ReachesTerms, changes_terms};
ghost use Rattle.to_market.specs.PortsSeen.{port_seen};
ghost use Rattle.to_market.specs.Refusals.{Decides, refused_by};
ghost use Rattle.wire_law.specs.Printable.{ArePrintable};
ghost use Rattle.to_market.specs.RequestAsks.{AsksToReplace, cancel_asked_with, cancel_bytes, replace_asked_with};
ghost use Rattle.to_market.specs.RequestAsks.{replace_bytes};

use crate::asking::refuse_if;
use crate::limits::{LIMIT, display_of, minimum_of, price_of, shares_of, time_in_force_of_replace};
use crate::named_order::NamedOrder;
use crate::port_state::PortState;
use crate::refusal::Refusal;
use crate::replace_ask::ReplaceAsk;
use fix_fields::Text;
use fix_types::ReplaceRequest;
use fix_values::Character;
use ouch_codec::{Cancel, Replace};
use tokens::Token;

/// How many replaces of an order may be accepted.
const MOST_REPLACES: u64 = 65_535;

/// How many of them may be pending at once.
const MOST_PENDING: usize = 4;

/// The first of the table's rows that refuses a cancel, if one does. They read whether its ClOrdID (11) is used
/// already, the order that its OrigClOrdID (41) names, and how that order's port stands.
///
/// Source: FIX 4.4 Volume 4, "Order Cancel Request".
pub fn refuse_cancel(
    is_used: bool,
    order: &Option<NamedOrder>,
    port: PortState,
) -> Result<(), Refusal>
    ensures { (m : Message) (n : Option Named) (given : ℕ) → is_replace m ≡ false → IsRead n order.now
        → Decides result (first_row (rows_of_request is_used n (port_seen port) given m)) }
{
    refuse_if(is_used, Refusal::DuplicateClOrdId)?;
    let Some(order) = order else {
        return Err(Refusal::UnknownOrder);
    };
    refuse_if(order.is_closed, Refusal::TooLate)?;
    refuse_port(port)?;
    refuse_if(order.has_pending_cancel, Refusal::AlreadyPending)
}

/// What a replace asks, or the first of the table's rows that refuses it. `given` tokens were given so far; it takes
/// the next one. An accepted one has room: fewer than 65,535 replaces of its order were accepted, and fewer than four
/// are pending. The other rows are those of `refuse_cancel`.
///
/// Source: FIX 4.4 Volume 4, "Order Cancel/Replace Request".
pub fn ask_of_replace(
    request: &ReplaceRequest,
    is_used: bool,
    order: &Option<NamedOrder>,
    port: PortState,
    given: u64,
) -> Result<ReplaceAsk, Refusal>
    ensures verdict { (n : Option Named) → IsRead n order.now
        → Decides result (first_row (rows_of_request is_used n (port_seen port) given
        (replace_request_fields request.now))) }
    ensures asks { IfOk result (λ ask. AsksToReplace ask (replace_request_fields request.now)) }
    ensures token { IfOk result (λ ask. ask.token ≡ token_text (given + 1)) }
    ensures room { IfOk result (λ ask. (o : NamedOrder) → order.now ≡ Some o → o.replaces < 65_535) }
    ensures few { IfOk result (λ ask. (o : NamedOrder) → order.now ≡ Some o → o.pending_replaces < 4) }
{
    refuse_if(is_used, Refusal::DuplicateClOrdId)?;
    let Some(order) = order else {
        return Err(Refusal::UnknownOrder);
    };
    refuse_if(order.is_closed, Refusal::TooLate)?;
    refuse_port(port)?;
    refuse_if(has_to_wait(order), Refusal::AlreadyPending)?;
    change_of(request, order, given)
}

/// The rows that only a replace has, on what it says itself.
fn change_of(
    request: &ReplaceRequest,
    order: &NamedOrder,
    given: u64,
) -> Result<ReplaceAsk, Refusal>
    ensures verdict { (is_used : Bool) (n : Named) (port : Port) → ReachesTerms is_used n port → HasRead n order.now
        → Decides result (first_row (rows_of_request is_used (Some n) port given
        (replace_request_fields request.now))) }
    ensures asks { IfOk result (λ ask. AsksToReplace ask (replace_request_fields request.now)) }
    ensures token { IfOk result (λ ask. ask.token ≡ token_text (given + 1)) }
    ensures room { IfOk result (λ ask. order.now.replaces < 65_535) }
{
    refuse_if(has_other_terms(request, order), Refusal::OtherTerms)?;
    refuse_if(request.ord_type.byte() != LIMIT, Refusal::OrderType)?;
    let time_in_force = time_in_force_of_replace(request.time_in_force).ok_or(
        Refusal::TimeInForce,
    )?;
    let display = display_of(&request.exec_inst).ok_or(Refusal::ExecutionInstruction)?;
    let shares = shares_of(&request.order_qty).ok_or(Refusal::Quantity)?;
    let minimum_quantity = minimum_of(&request.min_qty, shares).ok_or(Refusal::MinimumQuantity)?;
    let price = price_of(&request.price)?;
    let is_low = u64::from(shares.count()) <= order.executed;
    refuse_if(is_low, Refusal::TotalNotAboveExecuted)?;
    refuse_if(order.replaces >= MOST_REPLACES, Refusal::ReplaceLimit)?;
    let token = token_after(given)?;
    Ok(ReplaceAsk {
        token,
        shares,
        price,
        time_in_force,
        display,
        minimum_quantity,
    })
}

/// The message that asks a replace of the order that goes by the token `from`, or is to go by it once its pending
/// replaces are done: it says the total, not what is open.
///
/// Source: OUCH 4.2, "Replace Order Message".
pub fn say_replace(ask: &ReplaceAsk, from: &[u8; 14]) -> Replace
    requires { ArePrintable from.now }
    ensures token { result.token ≡ from.now }
    ensures replacement { result.replacement_token ≡ ask.now.token }
    ensures says { (m : Message) → AsksToReplace ask.now m
        → (order : List ℕ) (standing : Standing) (order_of : List ℕ → Option ℕ)
        → order_of from.now ≡ Some (digits_value 10 order)
        → Says standing order_of (replace_asked_with order from.now ask.now.token m) (replace_bytes result) }
{
    Replace {
        token: *from,
        replacement_token: ask.token.bytes(),
        shares: ask.shares.count(),
        price: ask.price.units(),
        time_in_force: ask.time_in_force,
        display: ask.display,
        intermarket_sweep: b'N',
        minimum_quantity: ask.minimum_quantity,
    }
}

/// The message that asks that nothing more is executed under a token: that an order goes by, or is to go by.
///
/// Source: OUCH 4.2, "Cancel Order Message".
pub fn say_cancel(token: &[u8; 14]) -> Cancel
    requires { ArePrintable token.now }
    ensures token { result.token ≡ token.now }
    ensures says { (m : Message) → text 35 m ≡ codes "F"
        → (order : List ℕ) (standing : Standing) (order_of : List ℕ → Option ℕ)
        → order_of token.now ≡ Some (digits_value 10 order)
        → Says standing order_of (cancel_asked_with order token.now m) (cancel_bytes result) }
{
    Cancel {
        token: *token,
        shares: 0,
    }
}

/// The rows of either table on the port.
pub fn refuse_port(port: PortState) -> Result<(), Refusal>
    ensures new { MatchResult result
        (λ nothing. first_row (port_rows (port_seen port)) ≡ Accepted)
        (λ refusal. first_row (port_rows (port_seen port)) ≡ refused_by refusal) }
    ensures request { Decides result (first_row (port_rows (port_seen port))) }
{
    match port {
        PortState::Waiting | PortState::Up => Ok(()),
        PortState::Ended => Err(Refusal::PortEnded),
        PortState::Faulted(number) => Err(Refusal::PortFaulted(number)),
    }
}

/// Whether a further replace has to wait: a cancel is pending, or as many replaces as may be.
fn has_to_wait(order: &NamedOrder) -> bool
    ensures { result ≡ (order.now.has_pending_cancel || nat_le most_pending order.now.pending_replaces) }
{
    order.has_pending_cancel || order.pending_replaces >= MOST_PENDING
}

/// A replace gives another side, symbol or capacity (54, 55, 528) than its order has.
fn has_other_terms(request: &ReplaceRequest, order: &NamedOrder) -> bool
    ensures { result ≡ changes_terms order.now request.now }
{
    is_other_letter(request.side, order.side.byte())
        || is_other_text(&request.symbol, order.symbol)
        || is_other_letter(request.order_capacity, order.capacity)
}

/// A letter is given, and isn't this one.
fn is_other_letter(given: Option<Character>, kept: u8) -> bool
    ensures { result ≡ is_none_of ((kept ∷ []) ∷ []) (char_text given) }
{
    match given {
        None => false,
        Some(letter) => letter.byte() != kept,
    }
}

/// A text is given, and isn't this one.
fn is_other_text(given: &Option<Text>, kept: &[u8]) -> bool
    ensures { result ≡ is_none_of (kept.now ∷ []) given.now }
{
    match given {
        None => false,
        Some(text) => text.as_slice() != kept,
    }
}

/// The next token after this many.
fn token_after(given: u64) -> Result<Token, Refusal>
    ensures { MatchResult result
        (λ token. (nat_le last_token given ≡ false) × (token ≡ token_text (given + 1)))
        (λ refusal. (nat_le last_token given ≡ true) × (refusal ≡ Refusal.NoTokenLeft)) }
{
    match Token::of(given.saturating_add(1)) {
        Ok(token) => Ok(token),
        Err(_) => Err(Refusal::NoTokenLeft),
    }
}
