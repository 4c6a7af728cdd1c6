//! A trade as an order has it.

ghost use Rattle.std.specs.Prelude.{◌≡◌};
ghost use Rattle.order_trades.specs.Marking.{has_match, told_marked, told_unbroken};

use order_law::Trade;

/// A trade, and the ExecID (17) under which its client was told of it.
#[derive(Clone, Copy)]
pub struct ToldTrade {
    pub trade: Trade,
    pub number: u64,
}

impl ToldTrade {
    /// Whether it has a match number.
    pub(crate) fn has_match(&self, match_number: u64) -> bool
        ensures { result ≡ has_match match_number self.now }
    {
        self.trade.match_number == match_number
    }

    /// It, marked as broken where it has this match number.
    pub(crate) fn marked(self, match_number: u64) -> ToldTrade
        ensures { result ≡ told_marked match_number self }
    {
        if self.trade.match_number == match_number {
            self.with_mark(true)
        } else {
            self
        }
    }

    /// It, not broken.
    pub(crate) fn unbroken(self) -> ToldTrade
        ensures { result ≡ told_unbroken self }
    {
        self.with_mark(false)
    }

    /// It, broken or not.
    fn with_mark(self, is_broken: bool) -> ToldTrade
        ensures { result ≡ record self { trade = record self.trade { is_broken = is_broken } } }
    {
        ToldTrade {
            trade: Trade {
                is_broken,
                ..self.trade
            },
            ..self
        }
    }
}
