//! Where an order stands in the book.

ghost use Rattle.std.specs.Prelude.{◌≡◌, MatchOption, false, bytes_eq};
ghost use Rattle.std.specs.List.{list_any};
ghost use Rattle.market_law.specs.Machine as law;
ghost use Rattle.market_book.specs.Places.{IsFirstAt};

use crate::order::BookedOrder;

/// The first order that goes by this token and of which something is open.
pub fn first_live(orders: &[BookedOrder], token: &[u8; 14]) -> Option<usize>
    ensures { MatchOption result (list_any (law.is_live_as token.now) orders.now ≡ false)
        (λ place. IsFirstAt (law.is_live_as token.now) orders.now place) }
{
    let mut place = 0;
    for order in orders {
        if order.is_live_as(token) {
            return Some(place);
        }
        place += 1;
    }
    None
}

/// The first order with a trade of this number that stands.
pub fn first_with_trade(orders: &[BookedOrder], match_number: u64) -> Option<usize>
    ensures { MatchOption result (list_any (law.has_trade match_number) orders.now ≡ false)
        (λ place. IsFirstAt (law.has_trade match_number) orders.now place) }
{
    let mut place = 0;
    for order in orders {
        if order.has_trade(match_number) {
            return Some(place);
        }
        place += 1;
    }
    None
}

/// The token is one of these.
pub fn is_one_of(token: &[u8; 14], tokens: &[[u8; 14]]) -> bool
    ensures { result ≡ list_any (bytes_eq token.now) tokens.now }
{
    for known in tokens {
        if token == known {
            return true;
        }
    }
    false
}
