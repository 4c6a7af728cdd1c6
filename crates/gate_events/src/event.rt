//! An event: one thing that comes to the gateway.

use crate::client_frame::ClientFrame;
use crate::number::{ClientNumber, PortNumber};
use soup_packets::Packet;

/// What comes to the gateway: a link is up, brings a whole frame or packet, or is gone; or time passes.
///
/// Clients and ports go by their numbers, from 1 in the order of the settings, links by numbers that the caller gives.
/// A frame prints in at most 8,192 bytes. `at` is a moment in milliseconds since 1970; one before an earlier one counts
/// as no time passed.
#[derive(Debug, Drop)]
pub enum Event {
    /// A client's link is up.
    ClientUp {
        client: ClientNumber,
        link: u64,
        at: u64,
    },
    /// A client's link brought a whole frame.
    ClientMessage {
        client: ClientNumber,
        link: u64,
        at: u64,
        frame: ClientFrame,
    },
    /// A client's link is gone.
    ClientGone {
        client: ClientNumber,
        link: u64,
        at: u64,
    },
    /// Time passes for a client's session.
    ClientTick {
        client: ClientNumber,
        at: u64,
    },
    /// A port's link is up.
    PortUp {
        port: PortNumber,
        link: u64,
        at: u64,
    },
    /// A port's link brought a whole packet.
    PortPacket {
        port: PortNumber,
        link: u64,
        at: u64,
        packet: Packet,
    },
    /// A port's link is gone.
    PortGone {
        port: PortNumber,
        link: u64,
        at: u64,
    },
    /// Time passes for a port's session.
    PortTick {
        port: PortNumber,
        at: u64,
    },
}
