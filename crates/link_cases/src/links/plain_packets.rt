//! The packets of a whole stream, by the rules of the format alone.
//!
//! Source: SoupBinTCP 3.00, "Logical Packets".

use super::changing::halves;
use std::alloc::AllocError;

/// Type and payload of each packet, in order, into `packets`; whether a packet without a type follows.
pub fn read_packets<'a>(stream: &'a [u8], packets: &mut Vec<&'a [u8]>) -> Result<bool, AllocError> {
    let mut rest = stream;
    for _ in 0..stream.len() {
        let [high, low, behind @ ..] = rest else {
            return Ok(false);
        };
        let size = usize::from(u16::from_be_bytes([*high, *low]));
        if size == 0 {
            return Ok(true);
        }
        if behind.len() < size {
            return Ok(false);
        }
        let (packet, others) = halves(behind, size);
        packets.push(packet)?;
        rest = others;
    }
    Ok(false)
}
