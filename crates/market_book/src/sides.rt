//! The side of an order, as FIX writes it.

ghost use Rattle.std.specs.Prelude.{◌≡◌, Some};
ghost use Rattle.market_law.specs.order_law.Asks.{side_of_letter};
ghost use Rattle.ouch_codec.specs.Letters.{side_letter};

use ouch_codec::Side;

/// The byte of Side (54): `1` buy, `2` sell, `5` sell short, `6` sell short exempt.
///
/// Source: FIX 4.4 Volume 6, Side; OUCH 4.2, "Enter Order Message", Buy/Sell Indicator.
pub fn fix_side(side: Side) -> u8
    ensures { Some result ≡ side_of_letter (side_letter side) }
{
    match side {
        Side::Buy => b'1',
        Side::Sell => b'2',
        Side::SellShort => b'5',
        Side::SellShortExempt => b'6',
    }
}
