//! What a new order asks of the market, or the first row that refuses it.

ghost use Rattle.std.specs.Prelude.{◌≡◌, ℕ, ◌-◌, List, ◌++◌, ◌∷◌, [], Option, true, false, length, replicate};
ghost use Rattle.std.specs.Prelude.{unwrap_or, Some, IfSome, IfOk, MatchOption, MatchResult};
ghost use Rattle.wire_law.specs.Printable.{is_printable, ArePrintable};
ghost use Rattle.fix_types.specs.NewOrder.{new_order_fields};
ghost use Rattle.fix_values.specs.Slots.{char_text};
ghost use Rattle.ouch_codec.specs.Letters.{side_letter};
ghost use Rattle.order_law.specs.Asks.{side_of_letter};
ghost use Rattle.order_law.specs.Headline.{Says};
ghost use Rattle.order_law.specs.fix_fields.Field.{Message};
ghost use Rattle.order_law.specs.Verdicts.{Accepted, first_row, field_rows, sides, capacities, is_symbol};
ghost use Rattle.to_market.specs.FieldRows.{is_among, is_none_of};
ghost use Rattle.to_market.specs.NewAsks.{AsksAs, asked_with, enter_bytes, client_standing};
ghost use Rattle.to_market.specs.Refusals.{refused_by};

use crate::client_terms::ClientTerms;
use crate::limits::{
    LIMIT, display_of, minimum_of, minimum_said, price_of, shares_of, time_in_force_of_new,
};
use crate::new_ask::NewAsk;
use crate::refusal::Refusal;
use fix_fields::Text;
use fix_types::NewOrder;
use fix_values::Character;
use ouch_codec::{EnterOrder, Side};
use tokens::Token;
use wire_law::{are_visible, padded};

/// What a new order asks, or the first of the table's rows on its fields that holds.
pub fn ask_of(order: &NewOrder, terms: &ClientTerms) -> Result<NewAsk, Refusal>
    ensures verdict { MatchResult result
        (λ ask. first_row (field_rows (new_order_fields order.now)) ≡ Accepted)
        (λ refusal. first_row (field_rows (new_order_fields order.now)) ≡ refused_by refusal) }
    ensures asks { IfOk result (λ ask. AsksAs ask terms.now.capacity (new_order_fields order.now)) }
{
    let side = side_of(order.side).ok_or(Refusal::Side)?;
    let stock = stock_of(&order.symbol).ok_or(Refusal::Symbol)?;
    refuse_if(order.ord_type.byte() != LIMIT, Refusal::OrderType)?;
    let time_in_force = time_in_force_of_new(order.time_in_force).ok_or(Refusal::TimeInForce)?;
    let display = display_of(&order.exec_inst).ok_or(Refusal::ExecutionInstruction)?;
    let capacity = capacity_of(order.order_capacity, terms).ok_or(Refusal::Capacity)?;
    let shares = shares_of(&order.order_qty).ok_or(Refusal::Quantity)?;
    let minimum = minimum_of(&order.min_qty, shares).ok_or(Refusal::MinimumQuantity)?;
    let price = price_of(&order.price)?;
    Ok(NewAsk {
        side,
        shares,
        stock,
        price,
        time_in_force,
        display,
        capacity,
        minimum_quantity: minimum_said(order.time_in_force, shares, minimum),
    })
}

/// The Enter Order that asks for it.
pub fn enter_order(ask: &NewAsk, token: Token, terms: &ClientTerms) -> EnterOrder
    ensures token { result.token ≡ token }
    ensures side { result.side ≡ ask.now.side }
    ensures shares { result.shares ≡ ask.now.shares }
    ensures stock { result.stock ≡ ask.now.stock }
    ensures price { result.price ≡ ask.now.price }
    ensures says { (m : Message) → AsksAs ask.now terms.now.capacity m → (order : List ℕ) (order_of : List ℕ → Option ℕ)
        → Says (client_standing terms.now) order_of (asked_with order token terms.now.capacity m) (enter_bytes result) }
{
    EnterOrder {
        token: token.bytes(),
        side: ask.side,
        shares: ask.shares.count(),
        stock: ask.stock,
        price: ask.price.units(),
        time_in_force: ask.time_in_force,
        firm: terms.firm,
        display: ask.display,
        capacity: ask.capacity,
        intermarket_sweep: b'N',
        minimum_quantity: ask.minimum_quantity,
        cross_type: b'N',
        customer_type: terms.customer,
    }
}

/// A row of the table: it refuses where it holds.
pub fn refuse_if(holds: bool, refusal: Refusal) -> Result<(), Refusal>
    ensures { MatchResult result (λ nothing. holds ≡ false) (λ given. (holds ≡ true) × (given ≡ refusal)) }
{
    if holds { Err(refusal) } else { Ok(()) }
}

/// Side (54): 1 buy, 2 sell, 5 sell short, 6 sell short exempt.
fn side_of(side: Character) -> Option<Side>
    ensures { MatchOption result
        (is_among sides (side ∷ []) ≡ false)
        (λ of. (is_among sides (side ∷ []) ≡ true) × (side_of_letter (side_letter of) ≡ Some side)) }
{
    match side.byte() {
        b'1' => Some(Side::Buy),
        b'2' => Some(Side::Sell),
        b'5' => Some(Side::SellShort),
        b'6' => Some(Side::SellShortExempt),
        _ => None,
    }
}

/// Symbol (55): 1 to 8 bytes from 33 to 126, padded right with spaces.
fn stock_of(symbol: &Text) -> Option<[u8; 8]>
    ensures row { MatchOption result
        (is_symbol symbol.now ≡ false)
        (λ stock. (is_symbol symbol.now ≡ true) × (stock ≡ symbol.now ++ replicate (8 - length symbol.now) 32)) }
    ensures printable { IfSome result (λ stock. ArePrintable stock) }
{
    let symbol = symbol.as_slice();
    if symbol.is_empty() {
        return None;
    }
    if symbol.len() > 8 {
        return None;
    }
    if !are_visible(symbol) {
        return None;
    }
    Some(padded(symbol))
}

/// OrderCapacity (528): A agency, P principal, R riskless principal; missing, the client's own.
fn capacity_of(order_capacity: Option<Character>, terms: &ClientTerms) -> Option<u8>
    ensures row { MatchOption result
        (is_none_of capacities (char_text order_capacity) ≡ true)
        (λ capacity. (is_none_of capacities (char_text order_capacity) ≡ false)
        × (capacity ≡ unwrap_or order_capacity terms.now.capacity)) }
    ensures printable { IfSome result (λ capacity. is_printable capacity ≡ true) }
{
    let Some(order_capacity) = order_capacity else {
        return Some(terms.capacity);
    };
    match order_capacity.byte() {
        b'A' => Some(b'A'),
        b'P' => Some(b'P'),
        b'R' => Some(b'R'),
        _ => None,
    }
}
