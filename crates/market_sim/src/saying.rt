//! What the market says, as payloads.
//!
//! Source: OUCH 4.2, "Outbound Messages".

ghost use Rattle.std.specs.Prelude.{◌≡◌, ◌≤◌, ◌+◌, ◌++◌, [], length, vec_len, vec_capacity};
ghost use Rattle.market_sim.specs.Outbound.{outbound_bytes};

use ouch_codec::{
    Accepted, Broken, CancelPending, CancelReject, Canceled, Executed, Outbound, Rejected,
    Replaced, SystemEvent,
};
use soup_packets::Payload;
use wire_law::FixedWire;

/// The most bytes of a message from the market: those of a Replaced.
pub const LONGEST: usize = 80;

/// A message as a payload, in a buffer that is empty and has room for the longest. Takes no memory.
pub fn payload_in(buffer: Vec<u8>, message: &Outbound) -> Payload
    requires empty { buffer.items ≡ [] }
    requires room { 80 ≤ vec_capacity buffer }
    ensures { result ≡ outbound_bytes message.now }
{
    let mut buffer = buffer;
    match message {
        Outbound::SystemEvent(m) => {
            let mut bytes = [0; SystemEvent::LEN];
            m.put(&mut bytes);
            write(&mut buffer, &bytes);
        }
        Outbound::Accepted(m) => {
            let mut bytes = [0; Accepted::LEN];
            m.put(&mut bytes);
            write(&mut buffer, &bytes);
        }
        Outbound::Replaced(m) => {
            let mut bytes = [0; Replaced::LEN];
            m.put(&mut bytes);
            write(&mut buffer, &bytes);
        }
        Outbound::Canceled(m) => {
            let mut bytes = [0; Canceled::LEN];
            m.put(&mut bytes);
            write(&mut buffer, &bytes);
        }
        Outbound::Executed(m) => {
            let mut bytes = [0; Executed::LEN];
            m.put(&mut bytes);
            write(&mut buffer, &bytes);
        }
        Outbound::Broken(m) => {
            let mut bytes = [0; Broken::LEN];
            m.put(&mut bytes);
            write(&mut buffer, &bytes);
        }
        Outbound::Rejected(m) => {
            let mut bytes = [0; Rejected::LEN];
            m.put(&mut bytes);
            write(&mut buffer, &bytes);
        }
        Outbound::CancelPending(m) => {
            let mut bytes = [0; CancelPending::LEN];
            m.put(&mut bytes);
            write(&mut buffer, &bytes);
        }
        Outbound::CancelReject(m) => {
            let mut bytes = [0; CancelReject::LEN];
            m.put(&mut bytes);
            write(&mut buffer, &bytes);
        }
        Outbound::Skipped => {}
    }
    Payload::from_vec(buffer)
}

/// Appends bytes for which there is room.
fn write(buffer: &mut Vec<u8>, bytes: &[u8])
    requires { vec_len buffer.old + length bytes.now ≤ vec_capacity buffer.old }
    ensures { buffer.new.items ≡ buffer.old.items ++ bytes.now }
{
    let _ = buffer.extend_from_slice(bytes);
}
