//! How many bytes a list has.

ghost use Rattle.std.specs.Prelude.{◌≡◌, nat_le, if◌then◌else◌};
ghost use Rattle.gate_events.specs.Seen.{link_out_seen};
ghost use Rattle.desk_rings.specs.Sizes.{list_size, more_places as places_more, out_size};

use gate_events::{LinkOut, Output};

/// So many bytes count for a place.
const OF_A_PLACE: usize = 2_048;

/// No more bytes of a list are counted than those of 1,024 places.
const MOST: usize = 2_097_152;

/// For how many places more than one a list counts: for one for each 2,048 bytes that it has to be written, and for
/// 1,024 at most. Takes no memory.
pub fn more_places(output: &Output) -> usize
    ensures { result ≡ places_more output.now }
{
    size_of(output) / OF_A_PLACE
}

/// How many bytes a list has to be written, `MOST` where it has more.
fn size_of(output: &Output) -> usize
    ensures { result ≡ (if nat_le 2_097_152 (list_size output.now) then 2_097_152 else list_size output.now) }
{
    let mut size = 0;
    for out in output.as_slice() {
        size = bytes_of(out).saturating_add(size).min(MOST);
    }
    size
}

/// How many bytes are to be written by one output.
fn bytes_of(out: &LinkOut) -> usize
    ensures { result ≡ out_size (link_out_seen out.now) }
{
    match out {
        LinkOut::Write { bytes, .. } => bytes.len(),
        LinkOut::Close { .. } => 0,
    }
}
