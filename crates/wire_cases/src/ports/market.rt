//! A market, and the packets that it gives.

use super::packets::show_packet;
use market_law::{Choice, Trading};
use market_sim::{Sim, SimEvent};
use soup_packets::{Packet, Payload};
use std::alloc::{AllocError, Global};
use wire_law::WholeWire;

/// Makes a call of a market, and shows the packets that it gives, each in a line. False where it can't be made.
pub fn step(
    alloc: Global,
    market: &mut Sim,
    call: &str,
    bytes: &[u8],
    shown: &mut Vec<u8>,
) -> Result<bool, AllocError> {
    match call {
        "anew" => {
            *market = Sim::new(alloc);
            Ok(true)
        }
        "says" => says(alloc, market, bytes, shown),
        _ => match event_of(alloc, call, bytes)? {
            Some(event) => {
                show_packets(market.step(alloc, event)?.as_slice(), shown)?;
                Ok(true)
            }
            None => Ok(false),
        },
    }
}

/// The event that a call is; none where it is none.
fn event_of(alloc: Global, call: &str, bytes: &[u8]) -> Result<Option<SimEvent>, AllocError> {
    match call {
        "up" => Ok(Some(SimEvent::Up)),
        "gone" => Ok(Some(SimEvent::Gone)),
        "rests" => Ok(Some(SimEvent::Act(Choice::Nothing))),
        "trades" => Ok(trading_of(bytes)),
        "hears" => packet_of(alloc, bytes),
        _ => Ok(None),
    }
}

/// A trade at 23.45 of so many shares of the order with this token: 14 bytes of the token, then the shares.
fn trading_of(bytes: &[u8]) -> Option<SimEvent> {
    let (token, [high, low]) = bytes.split_first_chunk::<14>()? else {
        return None;
    };
    Some(SimEvent::Act(Choice::Execute(Trading {
        token: *token,
        shares: u32::from(u16::from_be_bytes([*high, *low])),
        price: 234_500,
    })))
}

/// A packet that comes, its length in front. An order that it has is accepted.
fn packet_of(alloc: Global, bytes: &[u8]) -> Result<Option<SimEvent>, AllocError> {
    match Packet::get(alloc, bytes)? {
        Some(packet) => Ok(Some(SimEvent::Packet(packet, Choice::AcceptLive))),
        None => Ok(None),
    }
}

/// Shows the packets that go out where the market says this.
fn says(
    alloc: Global,
    market: &mut Sim,
    payload: &[u8],
    shown: &mut Vec<u8>,
) -> Result<bool, AllocError> {
    if payload.len() > Payload::MOST {
        return Ok(false);
    }
    show_packets(market.say(alloc, payload)?.as_slice(), shown)?;
    Ok(true)
}

/// Shows packets, each in a line.
fn show_packets(packets: &[Packet], shown: &mut Vec<u8>) -> Result<(), AllocError> {
    for packet in packets {
        show_packet(packet, shown)?;
    }
    Ok(())
}
