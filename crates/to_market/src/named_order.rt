//! The order that a cancel or replace names, as its table reads it.

use fix_values::Character;

/// What the table of requests reads of the order that a request names by its OrigClOrdID (41).
#[derive(Clone, Copy)]
pub struct NamedOrder<'a> {
    /// Side (54) of its new order.
    pub side: Character,
    /// Symbol (55) of its new order.
    pub symbol: &'a [u8],
    /// OrderCapacity (528) of its new order, or its client's where that has none.
    pub capacity: u8,
    /// It is over.
    pub is_closed: bool,
    /// CumQty (14), in shares: without the trades that were broken.
    pub executed: u64,
    /// A cancel of it was accepted and isn't answered.
    pub has_pending_cancel: bool,
    /// How many replaces of it were accepted and aren't answered.
    pub pending_replaces: usize,
    /// How many replaces of it were accepted.
    pub replaces: u64,
}
