//! Each byte of a message takes each value: which are read follows from the field that it stands in.

use super::put_byte;
use wire_law::FixedWire;

/// Whether a byte of such a field may have this value: `p` is printable, `s` a side, `o` an order state, `n` a number,
/// a capital letter this very one. `None` for `h`, shares, whose four bytes are one range.
fn is_taken(field: u8, byte: u8) -> Option<bool> {
    match field {
        b'p' => Some(byte >= 32 && byte <= 126),
        b's' => Some(matches!(byte, b'B' | b'S' | b'T' | b'E')),
        b'o' => Some(matches!(byte, b'L' | b'D')),
        b'n' => Some(true),
        b'h' => None,
        letter => Some(byte == letter),
    }
}

/// The first place of a layout at which a value is read that isn't to be, or isn't read that is to be, and the value.
pub fn first_wrong<M: FixedWire + Copy>(layout: &[u8], bytes: Vec<u8>) -> Option<(usize, u8)> {
    let mut changed = bytes;
    for (at, field) in layout.iter().enumerate() {
        if let Some(byte) = wrong_value::<M>(&mut changed, at, *field) {
            return Some((at, byte));
        }
    }
    None
}

/// A value of this byte for which it is so. The byte is as before then.
fn wrong_value<M: FixedWire + Copy>(bytes: &mut Vec<u8>, at: usize, field: u8) -> Option<u8> {
    let was = bytes.get(at).copied().unwrap_or(0);
    let mut wrong = None;
    for byte in 0..=255u8 {
        put_byte(bytes, at, byte);
        if is_wrong(field, byte, M::get(bytes.as_slice()).is_some()) {
            wrong = Some(byte);
        }
    }
    put_byte(bytes, at, was);
    wrong
}

/// Whether a value is read that isn't to be, or isn't read that is to be.
fn is_wrong(field: u8, byte: u8, is_read: bool) -> bool {
    match is_taken(field, byte) {
        Some(taken) => taken != is_read,
        None => false,
    }
}
