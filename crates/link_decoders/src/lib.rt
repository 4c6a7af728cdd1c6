//! From a link's bytes to its events: a client's frames, a port's packets.
//!
//! Source: FIX 4.4 Volume 1, "Message Format"; SoupBinTCP 3.00, "Logical Packets".
#![tactic(auto)]

mod client_frames;
mod decode_fault;
mod decoder;
mod port_packets;

pub use client_frames::ClientFrames;
pub use decode_fault::DecodeFault;
pub use decoder::Decoder;
pub use port_packets::PortPackets;
