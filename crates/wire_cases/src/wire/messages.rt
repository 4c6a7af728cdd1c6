//! Messages of fixed length, each by the word of its type.

use super::layouts::first_wrong;
use ouch_codec::{
    Accepted, Broken, Cancel, CancelPending, CancelReject, Canceled, EnterOrder, Executed,
    Rejected, Replace, Replaced, SystemEvent,
};
use std::alloc::{AllocError, Global};
use std::fmt::Debug;
use wire_law::FixedWire;

/// More bytes than any message has.
const MORE: usize = 81;

/// What a call on a type of messages answers.
pub fn answer(alloc: Global, kind: &str, call: &str, bytes: &[u8]) -> Result<String, AllocError> {
    match kind {
        "enter-order" => answer_of::<EnterOrder>(alloc, call, bytes),
        "replace" => answer_of::<Replace>(alloc, call, bytes),
        "cancel" => answer_of::<Cancel>(alloc, call, bytes),
        "system-event" => answer_of::<SystemEvent>(alloc, call, bytes),
        "accepted" => answer_of::<Accepted>(alloc, call, bytes),
        "replaced" => answer_of::<Replaced>(alloc, call, bytes),
        "canceled" => answer_of::<Canceled>(alloc, call, bytes),
        "executed" => answer_of::<Executed>(alloc, call, bytes),
        "broken" => answer_of::<Broken>(alloc, call, bytes),
        "rejected" => answer_of::<Rejected>(alloc, call, bytes),
        "cancel-pending" => answer_of::<CancelPending>(alloc, call, bytes),
        "cancel-reject" => answer_of::<CancelReject>(alloc, call, bytes),
        _ => String::from_str(alloc, "no such subject"),
    }
}

/// The same of a type.
fn answer_of<M: FixedWire + Copy + Debug>(
    alloc: Global,
    call: &str,
    bytes: &[u8],
) -> Result<String, AllocError> {
    match call {
        "is" => is_message::<M>(alloc, bytes),
        "reads" => reads::<M>(alloc, bytes),
        "lengths" => lengths::<M>(alloc, bytes),
        "each-byte" => each_byte::<M>(alloc, bytes),
        _ => String::from_str(alloc, "no such call"),
    }
}

/// Whether bytes are a message.
fn is_message<M: FixedWire + Copy>(alloc: Global, bytes: &[u8]) -> Result<String, AllocError> {
    let answer = if M::get(bytes).is_some() {
        "a message"
    } else {
        "none"
    };
    String::from_str(alloc, answer)
}

/// The message that bytes are, field by field, where it is written as the same bytes.
fn reads<M: FixedWire + Copy + Debug>(alloc: Global, bytes: &[u8]) -> Result<String, AllocError> {
    match M::get(bytes) {
        Some(message) if is_written_as(&message, bytes) => format!(in alloc; "{message:?}"),
        Some(_) => String::from_str(alloc, "written otherwise"),
        None => String::from_str(alloc, "none"),
    }
}

/// Whether a message is written as these bytes.
fn is_written_as<M: FixedWire>(message: &M, bytes: &[u8]) -> bool {
    let mut out = [0; MORE];
    if bytes.len() != M::LEN || bytes.len() > MORE {
        return false;
    }
    let room = &mut out[..bytes.len()];
    message.put(room);
    &out[..bytes.len()] == bytes
}

/// How many of these bytes with spaces behind them are a message.
fn lengths<M: FixedWire + Copy>(alloc: Global, bytes: &[u8]) -> Result<String, AllocError> {
    let mut long = Vec::from_slice(alloc, bytes)?;
    long.resize(MORE, b' ')?;
    let mut lengths = String::new(alloc);
    for size in 0..=long.len() {
        if M::get(&long.as_slice()[..size]).is_some() {
            write!(lengths, "{size};")?;
        }
    }
    Ok(lengths)
}

/// Whether each byte of a message takes the values that its layout gives it, and no other; or the first that doesn't.
/// The layout stands in front, a letter for each byte.
fn each_byte<M: FixedWire + Copy>(alloc: Global, typed: &[u8]) -> Result<String, AllocError> {
    let (layout, behind) = typed.split_at(M::LEN.min(typed.len()));
    match behind {
        [b' ', bytes @ ..] if bytes.len() == M::LEN => {
            verdict::<M>(alloc, layout, Vec::from_slice(alloc, bytes)?)
        }
        _ => String::from_str(alloc, "another length"),
    }
}

/// The same of bytes that are as many.
fn verdict<M: FixedWire + Copy>(
    alloc: Global,
    layout: &[u8],
    bytes: Vec<u8>,
) -> Result<String, AllocError> {
    match first_wrong::<M>(layout, bytes) {
        Some((at, byte)) => format!(in alloc; "{byte} at {at}"),
        None => String::from_str(alloc, "right"),
    }
}
