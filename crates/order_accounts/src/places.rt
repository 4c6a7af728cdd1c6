//! Places by the numbers that digits write.

ghost use Rattle.std.specs.Prelude.{◌≡◌, ◌≤◌, ◌<◌};
ghost use Rattle.order_accounts.specs.Places as spec;

use wire_bytes::number_of;

/// A place of so many: the number that these digits write, modulo how many there are; 0 where they write none below
/// 2^64.
pub(crate) fn place_of(digits: &[u8], count: usize) -> usize
    requires { 1 ≤ count }
    ensures place { result ≡ spec.place count digits.now }
    ensures within { result < count }
{
    match number_of(digits) {
        Some(number) => (number % count as u64) as usize,
        None => 0,
    }
}
