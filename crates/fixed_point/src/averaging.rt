//! The average price of what was traded.

ghost use Rattle.std.specs.Prelude.{◌≡◌, ◌/◌, ◌==◌, if◌then◌else◌};

/// What each of `count` shares cost where all of them cost `value`, rounded down; 0 where `count` is 0.
///
/// The unit of `value` is kept: a sum of prices in 1/10,000 gives a price in 1/10,000. Takes no memory.
///
/// Source: FIX 4.4, field AvgPx, the average price of all fills; 0 for none and rounding down are the gateway's own.
pub fn average(value: u128, count: u64) -> u128
    ensures { result ≡ (if count == 0 then 0 else value / count) }
{
    if count == 0 {
        0
    } else {
        value / u128::from(count)
    }
}
