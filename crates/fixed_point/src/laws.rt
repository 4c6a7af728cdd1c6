//! Laws of prices and quantities, for those who reason about texts.
//!
//! Each is a call that takes nothing, does nothing and gives nothing but its clause.

ghost use Rattle.std.specs.Prelude.{◌≡◌, ◌<◌, ◌≤◌, ◌^◌, ℕ, List, Some, Ok};
ghost use Rattle.fixed_point.specs.Decimal.{most_price, most_shares, price, quantity, worth};
ghost use Rattle.fixed_point.specs.Price.{price_text};

/// The text of a number denotes it: a printed price is worth what was printed.
pub fn printed_denotes()
    ensures { (n : ℕ) → n < 2 ^ 128 → worth (price_text n) ≡ Some n }
{}

/// The text of a price says it: a printed price is read as what was printed.
pub fn printed_reads_back()
    ensures { (n : ℕ) → 1 ≤ n → n ≤ most_price → price (price_text n) ≡ Ok n }
{}

/// What a text says lies in range.
pub fn said_in_range()
    ensures prices { (text : List ℕ) (n : ℕ) → price text ≡ Ok n → (1 ≤ n) × (n ≤ most_price) }
    ensures quantities { (least : ℕ) (text : List ℕ) (n : ℕ) → quantity least text ≡ Ok n
        → (least ≤ n) × (n ≤ most_shares) }
{}
