//! How an order stands at the end of a day.

ghost use Rattle.std.specs.Prelude.{◌≡◌};
ghost use Rattle.gateway_serve.specs.Standing as spec;

use gateway_run::OrderPair;

/// How an order stands at the end of a day.
#[derive(Clone, Copy, PartialEq, Eq)]
pub(crate) enum Standing {
    /// It is over.
    Over,
    /// Some of it is open at the market.
    Open,
    /// The market hasn't answered it.
    Unanswered,
}

/// How an order stands by what its client read of it: one that isn't over and of which nothing is open was never
/// accepted.
pub(crate) fn standing_of(pair: &OrderPair) -> Standing
    ensures { result ≡ spec.standing pair.now }
{
    if pair.fix.is_closed {
        Standing::Over
    } else if pair.fix.unfilled == 0 {
        Standing::Unanswered
    } else {
        Standing::Open
    }
}

/// Whether an order is open at the market.
pub(crate) fn is_open(pair: &OrderPair) -> bool
    ensures { result ≡ spec.is_open pair.now }
{
    matches!(standing_of(pair), Standing::Open)
}

/// Whether the market hasn't answered an order.
pub(crate) fn is_unanswered(pair: &OrderPair) -> bool
    ensures { result ≡ spec.is_unanswered pair.now }
{
    matches!(standing_of(pair), Standing::Unanswered)
}
