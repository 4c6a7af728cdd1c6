//! The rows of a new order's table, in its order.

ghost use Rattle.std.specs.Prelude.{◌≡◌, ◌+◌, ◌<◌, ◌^◌, true, false, nat_le, length, IfOk, MatchResult};
ghost use Rattle.tokens.specs.TokenText.{token_text};
ghost use Rattle.order_law.specs.Verdicts.{Accepted, last_token};
ghost use Rattle.to_market.specs.Refusals.{refused_by};
ghost use Rattle.to_market.specs.Verdict.{AsksNext, verdict_of};

use crate::asking::{ask_of, enter_order, refuse_if};
use crate::refusal::Refusal;
use crate::requests::refuse_port;
use crate::sender::Sender;
use fix_types::NewOrder;
use order_table::Table;
use ouch_codec::EnterOrder;
use std::hash::BuildHasher;
use tokens::Token;

/// How many orders of a client may be open or waiting.
const MOST_OPEN: usize = 10_000;

/// The message that asks the market for a new order, or the first row of its table that holds: the ClOrdID is used; the
/// port has ended or is faulted; the rows of `to_market::ask_of` on its fields; too many open orders; no token left.
pub fn verdict<S: BuildHasher + Drop>(
    table: &Table<S>,
    sender: &Sender,
    is_used: bool,
    order: &NewOrder,
) -> Result<EnterOrder, Refusal>
    requires { length table.now.tokens < 2 ^ 60 }
    ensures verdict { MatchResult result
        (λ enter. verdict_of sender.now table.now is_used order.now ≡ Accepted)
        (λ refusal. verdict_of sender.now table.now is_used order.now ≡ refused_by refusal) }
    ensures asks { IfOk result (λ enter. AsksNext sender.now table.now order.now enter) }
{
    refuse_if(is_used, Refusal::DuplicateClOrdId)?;
    refuse_port(sender.port)?;
    let ask = ask_of(order, &sender.terms)?;
    let open = table.open_count(sender.client);
    refuse_if(open >= MOST_OPEN, Refusal::TooManyOpenOrders)?;
    let token = next_token(table.token_count())?;
    Ok(enter_order(&ask, token, &sender.terms))
}

/// The token after this many.
fn next_token(given: usize) -> Result<Token, Refusal>
    requires { given < 2 ^ 60 }
    ensures { MatchResult result
        (λ token. (nat_le last_token given ≡ false) × (token ≡ token_text (given + 1)))
        (λ refusal. (nat_le last_token given ≡ true) × (refusal ≡ Refusal.NoTokenLeft)) }
{
    match Token::of(given as u64 + 1) {
        Ok(token) => Ok(token),
        Err(_) => Err(Refusal::NoTokenLeft),
    }
}
