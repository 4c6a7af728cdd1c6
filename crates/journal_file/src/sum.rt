//! The sum of a page.

ghost use Rattle.std.specs.Prelude.{◌≡◌, ◌≤◌, length, slice_index};
ghost use Rattle.std.specs.Int.{w64, from_be_bytes};
ghost use Rattle.journal_file.specs.Sum as spec;

/// The sum of no bytes.
pub(crate) const BASIS: u64 = 14_695_981_039_346_656_037;

/// The sum of these bytes: FNV-1a of 64 bits over words of eight bytes, the high byte first, the last one filled up
/// with zeros. It tells a torn write from a whole one, and is no seal against forgers. Takes no memory.
pub fn sum_of(bytes: &[u8]) -> u64
    ensures { result ≡ spec.sum_of bytes.now }
{
    let mut sum = BASIS;
    let mut rest = bytes;
    while rest.len() >= 8 {
        sum = mixed(sum, first_word(rest));
        let (_, behind) = rest.split_at(8);
        rest = behind;
    }
    if rest.is_empty() {
        return sum;
    }
    mixed(sum, last_word(rest))
}

/// The sum with one word more.
pub(crate) fn mixed(sum: u64, word: u64) -> u64
    ensures { result ≡ spec.mixed sum word }
{
    (sum ^ word).wrapping_mul(1_099_511_628_211)
}

/// The word of the first eight bytes.
pub(crate) fn first_word(bytes: &[u8]) -> u64
    requires { 8 ≤ length bytes.now }
    ensures { result ≡ from_be_bytes w64 bytes.now }
{
    u64::from_be_bytes([
        bytes[0], bytes[1], bytes[2], bytes[3], bytes[4], bytes[5], bytes[6], bytes[7],
    ])
}

/// The word of fewer than eight bytes, as if zeros stood behind them.
pub(crate) fn last_word(bytes: &[u8]) -> u64
    ensures { result ≡ from_be_bytes w64 bytes.now }
{
    u64::from_be_bytes([
        byte_at(bytes, 0),
        byte_at(bytes, 1),
        byte_at(bytes, 2),
        byte_at(bytes, 3),
        byte_at(bytes, 4),
        byte_at(bytes, 5),
        byte_at(bytes, 6),
        byte_at(bytes, 7),
    ])
}

/// The byte at a place; 0 behind the last.
fn byte_at(bytes: &[u8], place: usize) -> u8
    ensures { result ≡ slice_index bytes.now place }
{
    match bytes.get(place) {
        Some(byte) => *byte,
        None => 0,
    }
}
