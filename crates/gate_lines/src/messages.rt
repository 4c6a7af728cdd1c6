//! Messages to the market, as they are shown.

ghost use Rattle.std.specs.Prelude.{◌≡◌, ◌++◌, OnOk};
ghost use Rattle.gate_lines.specs.Messages as shown;
ghost use Rattle.gate_lines.specs.Layouts.{shown_message};

use crate::words::{push_number, push_word};
use ouch_codec::{Cancel, EnterOrder, Replace};
use std::alloc::AllocError;
use wire_law::FixedWire;

/// Adds the message that these bytes are: its type and its fields, without padding, with a space before each. Nothing
/// where they are none.
///
/// Source: OUCH 4.2, "Inbound Messages".
pub(crate) fn push_message(text: &mut Vec<u8>, bytes: &[u8]) -> Result<(), AllocError>
    ensures { OnOk result (text.new.items ≡ text.old.items ++ shown_message bytes.now) }
{
    if let Some(order) = EnterOrder::get(bytes) {
        return push_enter_order(text, &order);
    }
    if let Some(replace) = Replace::get(bytes) {
        return push_replace(text, &replace);
    }
    if let Some(cancel) = Cancel::get(bytes) {
        return push_cancel(text, &cancel);
    }
    Ok(())
}

/// Adds an Enter Order, in the layout's order.
///
/// Source: OUCH 4.2, "Enter Order Message".
fn push_enter_order(text: &mut Vec<u8>, message: &EnterOrder) -> Result<(), AllocError>
    ensures { OnOk result (text.new.items ≡ text.old.items ++ shown.shown_enter_order message.now) }
{
    push_order(text, message)?;
    push_terms(text, message)
}

/// Adds the first fields of an Enter Order: what is bought or sold, at which price and for how long.
fn push_order(text: &mut Vec<u8>, message: &EnterOrder) -> Result<(), AllocError>
    ensures { OnOk result (text.new.items ≡ text.old.items ++ shown.shown_order message.now) }
{
    push_word(text, b"O")?;
    push_word(text, &message.token)?;
    push_word(text, &[message.side.letter()])?;
    push_number(text, message.shares)?;
    push_word(text, &message.stock)?;
    push_number(text, message.price)?;
    push_number(text, message.time_in_force)
}

/// Adds the other fields of an Enter Order: for whom, and in what way.
fn push_terms(text: &mut Vec<u8>, message: &EnterOrder) -> Result<(), AllocError>
    ensures { OnOk result (text.new.items ≡ text.old.items ++ shown.shown_terms message.now) }
{
    push_word(text, &message.firm)?;
    push_word(text, &[message.display])?;
    push_word(text, &[message.capacity])?;
    push_word(text, &[message.intermarket_sweep])?;
    push_number(text, message.minimum_quantity)?;
    push_word(text, &[message.cross_type])?;
    push_word(text, &[message.customer_type])
}

/// Adds a Replace, in the layout's order.
///
/// Source: OUCH 4.2, "Replace Order Message".
fn push_replace(text: &mut Vec<u8>, message: &Replace) -> Result<(), AllocError>
    ensures { OnOk result (text.new.items ≡ text.old.items ++ shown.shown_replace message.now) }
{
    push_word(text, b"U")?;
    push_word(text, &message.token)?;
    push_word(text, &message.replacement_token)?;
    push_number(text, message.shares)?;
    push_number(text, message.price)?;
    push_number(text, message.time_in_force)?;
    push_word(text, &[message.display])?;
    push_word(text, &[message.intermarket_sweep])?;
    push_number(text, message.minimum_quantity)
}

/// Adds a Cancel, in the layout's order.
///
/// Source: OUCH 4.2, "Cancel Order Message".
fn push_cancel(text: &mut Vec<u8>, message: &Cancel) -> Result<(), AllocError>
    ensures { OnOk result (text.new.items ≡ text.old.items ++ shown.shown_cancel message.now) }
{
    push_word(text, b"X")?;
    push_word(text, &message.token)?;
    push_number(text, message.shares)
}
