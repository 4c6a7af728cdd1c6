//! The terms of an order, as the market gives them back.

ghost use Rattle.std.specs.Prelude.{◌≡◌, ◌==◌, bytes_eq};
ghost use Rattle.ouch_codec.specs.Parts.{unpadded};
ghost use Rattle.orders.specs.order_law.Lawful.{same_terms};
ghost use Rattle.market_messages.specs.Sides.{fix_side};

use fix_values::Character;
use orders::{Order, Symbol};
use ouch_codec::Side;
use wire_bytes::is_same_text;

/// Whether a stock and a side are those of an order.
pub fn is_same_terms(order: &Order, stock: &[u8; 8], side: Side) -> bool
    ensures { result ≡ same_terms side stock.now order.now.new }
{
    is_stock(stock, &order.symbol) && is_same_side(order.side, side)
}

/// Whether a stock is this symbol.
fn is_stock(stock: &[u8; 8], symbol: &Symbol) -> bool
    ensures { result ≡ bytes_eq (unpadded stock.now) symbol.now }
{
    is_same_text(trimmed(stock), symbol.as_slice())
}

/// A text without the spaces behind it.
fn trimmed(text: &[u8]) -> &[u8]
    ensures { result.now ≡ unpadded text.now }
{
    let mut front = text;
    while let [rest @ .., b' '] = front {
        front = rest;
    }
    front
}

/// Whether FIX's side is the market's.
fn is_same_side(side: Character, of_market: Side) -> bool
    ensures { result ≡ (fix_side of_market == side) }
{
    let byte = match of_market {
        Side::Buy => b'1',
        Side::Sell => b'2',
        Side::SellShort => b'5',
        Side::SellShortExempt => b'6',
    };
    byte == side.byte()
}
