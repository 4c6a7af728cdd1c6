//! What a new order and a replace say in the same fields: how long, how shown, how many and at which price.

ghost use Rattle.std.specs.Prelude.{◌≡◌, ◌∷◌, [], true, false, codes, is_ok, Ok, Some, IfSome, MatchOption};
ghost use Rattle.std.specs.Prelude.{MatchResult};
ghost use Rattle.wire_law.specs.Printable.{is_printable};
ghost use Rattle.fixed_point.specs.Decimal as decimal;
ghost use Rattle.fix_values.specs.Slots.{char_text};
ghost use Rattle.order_law.specs.Asks.{life_time_of_seconds};
ghost use Rattle.order_law.specs.Verdicts.{life_times, life_times_of_new};
ghost use Rattle.to_market.specs.FieldRows.{is_none_of, is_no_minimum, price_read, RefusesPrice};
ghost use Rattle.to_market.specs.FieldRows as fields;

use crate::refusal::Refusal;
use fix_fields::Text;
use fix_values::{Character, FloatText};
use fixed_point::{DecimalRefusal, Price4, Shares, parse_price, parse_qty};

/// FIX's OrdType (40): limit.
pub const LIMIT: u8 = b'2';
/// FIX's TimeInForce (59): fill or kill.
const FILL_OR_KILL: u8 = b'4';
/// OUCH's time in force of an order that lives until the market closes.
const DAY: u32 = 99_998;
/// OUCH's time in force of an order that is executed at once or cancelled.
const IMMEDIATE: u32 = 0;

/// TimeInForce (59) of a new order: 0 or missing day, 3 immediate or cancel, 4 fill or kill, which is immediate too:
/// what sets it apart is its minimum quantity.
pub fn time_in_force_of_new(time_in_force: Option<Character>) -> Option<u32>
    ensures { MatchOption result
        (is_none_of life_times_of_new (char_text time_in_force) ≡ true)
        (λ seconds. (is_none_of life_times_of_new (char_text time_in_force) ≡ false)
        × (life_time_of_seconds seconds ≡ Some (fields.life_time (char_text time_in_force)))) }
{
    let Some(time_in_force) = time_in_force else {
        return Some(DAY);
    };
    match time_in_force.byte() {
        b'0' => Some(DAY),
        b'3' => Some(IMMEDIATE),
        FILL_OR_KILL => Some(IMMEDIATE),
        _ => None,
    }
}

/// TimeInForce (59) of a replace: 0 or missing day, 3 immediate or cancel.
pub fn time_in_force_of_replace(time_in_force: Option<Character>) -> Option<u32>
    ensures { MatchOption result
        (is_none_of life_times (char_text time_in_force) ≡ true)
        (λ seconds. (is_none_of life_times (char_text time_in_force) ≡ false)
        × (life_time_of_seconds seconds ≡ Some (fields.life_time (char_text time_in_force)))) }
{
    let Some(time_in_force) = time_in_force else {
        return Some(DAY);
    };
    match time_in_force.byte() {
        b'0' => Some(DAY),
        b'3' => Some(IMMEDIATE),
        _ => None,
    }
}

/// ExecInst (18): 6 participate don't initiate, which is displayed as post-only; missing, displayed.
pub fn display_of(exec_inst: &Option<Text>) -> Option<u8>
    ensures row { MatchOption result
        (is_none_of (codes "6" ∷ []) exec_inst.now ≡ true)
        (λ display. (is_none_of (codes "6" ∷ []) exec_inst.now ≡ false) × (display ≡ fields.display exec_inst.now)) }
    ensures printable { IfSome result (λ display. is_printable display ≡ true) }
{
    let Some(exec_inst) = exec_inst else {
        return Some(b'Y');
    };
    match exec_inst.as_slice() {
        b"6" => Some(b'P'),
        _ => None,
    }
}

/// OrderQty (38): a whole number of shares from 1 to 999,999.
pub fn shares_of(order_qty: &FloatText) -> Option<Shares>
    ensures { MatchOption result
        (is_ok (decimal.quantity 1 order_qty.now) ≡ false)
        (λ shares. decimal.quantity 1 order_qty.now ≡ Ok shares) }
{
    match parse_qty(order_qty.as_slice(), Shares::LEAST) {
        Ok(count) => Some(Shares::new(count)),
        Err(_) => None,
    }
}

/// MinQty (110): a whole number of shares from 0 to the order's; missing, 0.
pub fn minimum_of(min_qty: &Option<FloatText>, shares: Shares) -> Option<u32>
    ensures { MatchOption result
        (is_no_minimum shares min_qty.now ≡ true)
        (λ minimum. (is_no_minimum shares min_qty.now ≡ false) × (minimum ≡ fields.minimum min_qty.now)) }
{
    let Some(min_qty) = min_qty else {
        return Some(0);
    };
    match parse_qty(min_qty.as_slice(), 0) {
        Ok(minimum) if minimum <= shares.count() => Some(minimum),
        _ => None,
    }
}

/// The minimum quantity that a new order says, where its MinQty (110) is this minimum: of a fill or kill order (59=4)
/// all its shares, so that it trades as a whole or not at all.
pub fn minimum_said(time_in_force: Option<Character>, shares: Shares, minimum: u32) -> u32
    ensures { result ≡ fields.minimum_said (char_text time_in_force) shares minimum }
{
    match time_in_force {
        Some(given) if given.byte() == FILL_OR_KILL => shares.count(),
        _ => minimum,
    }
}

/// Price (44): there, exact in 1/10,000, and in range.
pub fn price_of(price: &Option<FloatText>) -> Result<Price4, Refusal>
    ensures { MatchResult result
        (λ limit. price_read price.now ≡ Some (Ok limit))
        (λ refusal. RefusesPrice (price_read price.now) refusal) }
{
    let Some(price) = price else {
        return Err(Refusal::PriceMissing);
    };
    match parse_price(price.as_slice()) {
        Ok(price) => Ok(price),
        Err(DecimalRefusal::OutOfRange) => Err(Refusal::PriceOutOfRange),
        Err(_) => Err(Refusal::PriceNotExact),
    }
}
