//! The market's lines: what stands behind the name of a port.
//!
//! | Line | Message |
//! |---|---|
//! | `S event` | System Event |
//! | `A n side shares stock price tif state` | Accepted |
//! | `U new old side shares stock price tif state` | Replaced |
//! | `C n shares reason` | Canceled |
//! | `E n shares price match` | Executed |
//! | `B n match reason` | Broken Trade |
//! | `J n reason` | Rejected |
//! | `P n`, `I n` | Cancel Pending, Cancel Reject |
//!
//! A token is given by its number, n, new or old. What a line doesn't say: timestamp 0, firm `FIRM`, display `Y`, the
//! order's reference the number of its token (of a Replaced the new one), capacity `A`, no sweep (`N`), minimum 0, no
//! cross (`N`), weight a space, liquidity `R`.
//!
//! Source: OUCH 4.2, "Outbound Messages".

ghost use Rattle.std.specs.Prelude.{◌≡◌, ◌≤◌, ◌<◌, ◌^◌, length, is_some, IfSome};
ghost use Rattle.wire_law.specs.Limits.{most_shares};
ghost use Rattle.wire_law.specs.Printable.{ArePrintable};
ghost use Rattle.script_lines.specs.Words.{words_of};
ghost use Rattle.script_lines.specs.Forms.{fits_forms};
ghost use Rattle.script_lines.specs.Market as spec;
ghost use Rattle.script_lines.specs.MarketLines as forms;

use crate::words::{
    first_word, four_words, letter, number, number32, only_word, order_state, printable_letter,
    share_count, side, six_words, stock, three_words, token, two_words,
};
use ouch_codec::{
    Accepted, Broken, CancelPending, CancelReject, Canceled, Executed, OrderState, Outbound,
    Rejected, Replaced, Side, SystemEvent,
};

/// The message that the words behind a port's name say; `None` where they say none, or a field outside its set.
#[tactic(auto, unfolding(crate::specs::MarketLines::is_market_line))]
pub fn market_message(text: &[u8]) -> Option<Outbound>
    ensures said { IfSome result (spec.SaysMarket (words_of text.now)) }
    ensures understood { is_some result ≡ forms.is_market_line (words_of text.now) }
{
    let (name, words) = first_word(text)?;
    match letter(name)? {
        b'S' => system_event(words).map(Outbound::SystemEvent),
        b'A' => accepted(words).map(Outbound::Accepted),
        b'U' => replaced(words).map(Outbound::Replaced),
        b'C' => canceled(words).map(Outbound::Canceled),
        b'E' => executed(words).map(Outbound::Executed),
        b'B' => broken(words).map(Outbound::Broken),
        b'J' => rejected(words).map(Outbound::Rejected),
        b'P' => cancel_pending(words).map(Outbound::CancelPending),
        b'I' => cancel_reject(words).map(Outbound::CancelReject),
        _ => None,
    }
}

/// What an Accepted and a Replaced say of the order.
#[derive(Clone, Copy)]
struct Terms {
    side: Side,
    shares: u32,
    stock: [u8; 8],
    price: u32,
    time_in_force: u32,
    order_state: OrderState,
    ghost shares_set: { (1 ≤ shares) × (shares ≤ most_shares) },
    ghost stock_set: { (length stock ≡ 8) × ArePrintable stock },
}

/// `side shares stock price tif state`.
fn read_terms(text: &[u8]) -> Option<Terms>
    ensures said { IfSome result (λ terms. spec.SaysTerms (words_of text.now)
        terms.side terms.shares terms.stock terms.price terms.time_in_force terms.order_state) }
    ensures understood { is_some result ≡ fits_forms forms.terms_forms (words_of text.now) }
{
    let (side_word, shares, symbol, price, time_in_force, state_word) = six_words(text)?;
    let side = side(side_word)?;
    let shares = share_count(shares)?;
    let stock = stock(symbol)?;
    let price = number32(price)?;
    let time_in_force = number32(time_in_force)?;
    let order_state = order_state(state_word)?;
    Some(Terms {
        side,
        shares,
        stock,
        price,
        time_in_force,
        order_state,
    })
}

/// `event`.
fn system_event(text: &[u8]) -> Option<SystemEvent>
    ensures said { IfSome result (spec.SaysSystemEvent (words_of text.now)) }
    ensures understood { is_some result ≡ fits_forms forms.system_event_forms (words_of text.now) }
{
    let event = only_word(text)?;
    Some(SystemEvent {
        timestamp: 0,
        event: printable_letter(event)?,
    })
}

/// `n side shares stock price tif state`.
fn accepted(text: &[u8]) -> Option<Accepted>
    ensures said { IfSome result (spec.SaysAccepted (words_of text.now)) }
    ensures understood { is_some result ≡ fits_forms forms.accepted_forms (words_of text.now) }
{
    let (token_number, text) = first_word(text)?;
    let token = token(token_number)?.bytes();
    let order_reference = number(token_number)?;
    let Terms {
        side,
        shares,
        stock,
        price,
        time_in_force,
        order_state,
    } = read_terms(text)?;
    Some(Accepted {
        timestamp: 0,
        token,
        side,
        shares,
        stock,
        price,
        time_in_force,
        firm: *b"FIRM",
        display: b'Y',
        order_reference,
        capacity: b'A',
        intermarket_sweep: b'N',
        minimum_quantity: 0,
        cross_type: b'N',
        order_state,
        bbo_weight: b' ',
    })
}

/// `new old side shares stock price tif state`.
fn replaced(text: &[u8]) -> Option<Replaced>
    ensures said { IfSome result (spec.SaysReplaced (words_of text.now)) }
    ensures understood { is_some result ≡ fits_forms forms.replaced_forms (words_of text.now) }
{
    let (new_number, text) = first_word(text)?;
    let (old_number, text) = first_word(text)?;
    let previous_token = token(old_number)?.bytes();
    let token = token(new_number)?.bytes();
    let order_reference = number(new_number)?;
    let Terms {
        side,
        shares,
        stock,
        price,
        time_in_force,
        order_state,
    } = read_terms(text)?;
    Some(Replaced {
        timestamp: 0,
        token,
        side,
        shares,
        stock,
        price,
        time_in_force,
        firm: *b"FIRM",
        display: b'Y',
        order_reference,
        capacity: b'A',
        intermarket_sweep: b'N',
        minimum_quantity: 0,
        cross_type: b'N',
        order_state,
        previous_token,
        bbo_weight: b' ',
    })
}

/// `n shares reason`.
fn canceled(text: &[u8]) -> Option<Canceled>
    ensures said { IfSome result (spec.SaysCanceled (words_of text.now)) }
    ensures understood { is_some result ≡ fits_forms forms.canceled_forms (words_of text.now) }
{
    let (token_number, shares, reason) = three_words(text)?;
    Some(Canceled {
        timestamp: 0,
        token: token(token_number)?.bytes(),
        decrement: number32(shares)?,
        reason: printable_letter(reason)?,
    })
}

/// `n shares price match`.
fn executed(text: &[u8]) -> Option<Executed>
    ensures said { IfSome result (spec.SaysExecuted (words_of text.now)) }
    ensures understood { is_some result ≡ fits_forms forms.executed_forms (words_of text.now) }
{
    let (token_number, shares, price, match_number) = four_words(text)?;
    Some(Executed {
        timestamp: 0,
        token: token(token_number)?.bytes(),
        shares: number32(shares)?,
        price: number32(price)?,
        liquidity: b'R',
        match_number: number(match_number)?,
    })
}

/// `n match reason`.
fn broken(text: &[u8]) -> Option<Broken>
    ensures said { IfSome result (spec.SaysBroken (words_of text.now)) }
    ensures understood { is_some result ≡ fits_forms forms.broken_forms (words_of text.now) }
{
    let (token_number, match_number, reason) = three_words(text)?;
    Some(Broken {
        timestamp: 0,
        token: token(token_number)?.bytes(),
        match_number: number(match_number)?,
        reason: printable_letter(reason)?,
    })
}

/// `n reason`.
fn rejected(text: &[u8]) -> Option<Rejected>
    ensures said { IfSome result (spec.SaysRejected (words_of text.now)) }
    ensures understood { is_some result ≡ fits_forms forms.rejected_forms (words_of text.now) }
{
    let (token_number, reason) = two_words(text)?;
    Some(Rejected {
        timestamp: 0,
        token: token(token_number)?.bytes(),
        reason: printable_letter(reason)?,
    })
}

/// `n`.
fn cancel_pending(text: &[u8]) -> Option<CancelPending>
    ensures said { IfSome result (spec.SaysCancelPending (words_of text.now)) }
    ensures understood { is_some result ≡ fits_forms forms.token_forms (words_of text.now) }
{
    let token_number = only_word(text)?;
    Some(CancelPending {
        timestamp: 0,
        token: token(token_number)?.bytes(),
    })
}

/// `n`.
fn cancel_reject(text: &[u8]) -> Option<CancelReject>
    ensures said { IfSome result (spec.SaysCancelReject (words_of text.now)) }
    ensures understood { is_some result ≡ fits_forms forms.token_forms (words_of text.now) }
{
    let token_number = only_word(text)?;
    Some(CancelReject {
        timestamp: 0,
        token: token(token_number)?.bytes(),
    })
}
