//! Messages to and from the market, as they are handed on.

ghost use Rattle.std.specs.Prelude.{◌≡◌, ◌++◌, ◌∷◌, [], codes, IfOk, OnOk};
ghost use Rattle.ouch_codec.specs.Values.{decoded};
ghost use Rattle.day_export.specs.Market as spec;

use crate::cells::Cell;
use ouch_codec::{Cancel, EnterOrder, Outbound, Replace, decode};
use soup_packets::Packet;
use std::alloc::{AllocError, Global};
use wire_law::FixedWire;

/// What the market is asked, of the bytes of a packet to it: two of its length, its type, what it carries. No cells
/// where they ask nothing: a login, a heartbeat.
#[tactic(auto, unfolding(crate::specs::Market::asked_said))]
pub(crate) fn cells_of_asked(alloc: Global, bytes: &[u8]) -> Result<Vec<Cell>, AllocError>
    ensures { IfOk result (λ cells. cells.items ≡ spec.asked_said bytes.now) }
{
    match bytes {
        [_, _, kind, payload @ ..] => cells_of_type(alloc, *kind, payload),
        _ => Ok(Vec::new(alloc)),
    }
}

/// The same of a packet of this type.
fn cells_of_type(alloc: Global, kind: u8, payload: &[u8]) -> Result<Vec<Cell>, AllocError>
    ensures { IfOk result (λ cells. cells.items ≡ spec.typed_said kind payload.now) }
{
    if kind == b'U' {
        cells_of_inbound(alloc, payload)
    } else {
        Ok(Vec::new(alloc))
    }
}

/// The same of a message.
fn cells_of_inbound(alloc: Global, payload: &[u8]) -> Result<Vec<Cell>, AllocError>
    ensures { IfOk result (λ cells. cells.items ≡ spec.inbound_said payload.now) }
{
    if let Some(m) = EnterOrder::get(payload) {
        return priced(alloc, b'O', &m.token, m.shares, m.price);
    }
    if let Some(m) = Replace::get(payload) {
        return replaced(alloc, &m.replacement_token, &m.token, m.shares, m.price);
    }
    if let Some(m) = Cancel::get(payload) {
        return counted(alloc, b'X', &m.token, m.shares);
    }
    Ok(Vec::new(alloc))
}

/// What the market says, of a packet from it; no cells where it says nothing of an order.
pub(crate) fn cells_of_said(alloc: Global, packet: &Packet) -> Result<Vec<Cell>, AllocError>
    ensures { IfOk result (λ cells. cells.items ≡ spec.packet_said packet.now) }
{
    if packet.kind == b'S' {
        cells_of_payload(alloc, packet.payload.as_slice())
    } else {
        Ok(Vec::new(alloc))
    }
}

/// The same of what a packet carries.
fn cells_of_payload(alloc: Global, payload: &[u8]) -> Result<Vec<Cell>, AllocError>
    ensures { IfOk result (λ cells. cells.items ≡ spec.read_said (decoded payload.now)) }
{
    match decode(payload) {
        Ok(message) => cells_of_outbound(alloc, &message),
        Err(_) => Ok(Vec::new(alloc)),
    }
}

/// The same of a message.
fn cells_of_outbound(alloc: Global, message: &Outbound) -> Result<Vec<Cell>, AllocError>
    ensures { IfOk result (λ cells. cells.items ≡ spec.outbound_said message.now) }
{
    match message {
        Outbound::SystemEvent(_) => Ok(Vec::new(alloc)),
        Outbound::Accepted(m) => priced(alloc, b'A', &m.token, m.shares, m.price),
        Outbound::Replaced(m) => replaced(alloc, &m.token, &m.previous_token, m.shares, m.price),
        Outbound::Canceled(m) => counted(alloc, b'C', &m.token, m.decrement),
        Outbound::Executed(m) => traded(alloc, &m.token, m.shares, m.price, m.match_number),
        Outbound::Broken(m) => broken(alloc, &m.token, m.match_number),
        Outbound::Rejected(m) => bare(alloc, b'J', &m.token),
        Outbound::CancelPending(m) => bare(alloc, b'P', &m.token),
        Outbound::CancelReject(m) => bare(alloc, b'I', &m.token),
        Outbound::Skipped => Ok(Vec::new(alloc)),
    }
}

/// The cells of a message of this type on this token.
fn bare(alloc: Global, letter: u8, token: &[u8; 14]) -> Result<Vec<Cell>, AllocError>
    ensures { IfOk result (λ cells. cells.items ≡ spec.on letter token.now) }
{
    let mut cells = Vec::new(alloc);
    push_text(&mut cells, alloc, b"ouch", &[letter])?;
    push_text(&mut cells, alloc, b"token", token)?;
    Ok(cells)
}

/// The same with shares.
fn counted(
    alloc: Global,
    letter: u8,
    token: &[u8; 14],
    shares: u32,
) -> Result<Vec<Cell>, AllocError>
    ensures { IfOk result (λ cells. cells.items ≡ spec.with_shares letter token.now shares) }
{
    let mut cells = bare(alloc, letter, token)?;
    push_number(&mut cells, alloc, b"shares", u64::from(shares))?;
    Ok(cells)
}

/// The same with shares and their price.
fn priced(
    alloc: Global,
    letter: u8,
    token: &[u8; 14],
    shares: u32,
    price: u32,
) -> Result<Vec<Cell>, AllocError>
    ensures { IfOk result (λ cells. cells.items ≡ spec.with_price letter token.now shares price) }
{
    let mut cells = counted(alloc, letter, token, shares)?;
    push_number(&mut cells, alloc, b"price", u64::from(price))?;
    Ok(cells)
}

/// The cells of a replace of this token by another.
fn replaced(
    alloc: Global,
    token: &[u8; 14],
    previous: &[u8; 14],
    shares: u32,
    price: u32,
) -> Result<Vec<Cell>, AllocError>
    ensures { IfOk result (λ cells. cells.items ≡ spec.with_previous token.now previous.now shares price) }
{
    let mut cells = priced(alloc, b'U', token, shares, price)?;
    push_text(&mut cells, alloc, b"previous", previous)?;
    Ok(cells)
}

/// The cells of a trade.
fn traded(
    alloc: Global,
    token: &[u8; 14],
    shares: u32,
    price: u32,
    number: u64,
) -> Result<Vec<Cell>, AllocError>
    ensures { IfOk result (λ cells. cells.items
        ≡ spec.with_price 69 token.now shares price ++ spec.counted (codes "match") number ∷ []) }
{
    let mut cells = priced(alloc, b'E', token, shares, price)?;
    push_number(&mut cells, alloc, b"match", number)?;
    Ok(cells)
}

/// The cells of a trade that is taken back.
fn broken(alloc: Global, token: &[u8; 14], number: u64) -> Result<Vec<Cell>, AllocError>
    ensures { IfOk result (λ cells. cells.items
        ≡ spec.on 66 token.now ++ spec.counted (codes "match") number ∷ []) }
{
    let mut cells = bare(alloc, b'B', token)?;
    push_number(&mut cells, alloc, b"match", number)?;
    Ok(cells)
}

/// Adds a text.
fn push_text(
    cells: &mut Vec<Cell>,
    alloc: Global,
    name: &[u8],
    value: &[u8],
) -> Result<(), AllocError>
    ensures { OnOk result (cells.new.items ≡ cells.old.items ++ spec.said name.now value.now ∷ []) }
{
    cells.push(Cell::text(alloc, name, value)?)?;
    Ok(())
}

/// Adds a number.
fn push_number(
    cells: &mut Vec<Cell>,
    alloc: Global,
    name: &[u8],
    number: u64,
) -> Result<(), AllocError>
    ensures { OnOk result (cells.new.items ≡ cells.old.items ++ spec.counted name.now number ∷ []) }
{
    cells.push(Cell::number(alloc, name, number)?)?;
    Ok(())
}
