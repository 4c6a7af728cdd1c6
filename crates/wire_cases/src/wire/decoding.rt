//! Messages by their first byte: from the market, decoded, and towards it, sent.

use case_lines::shown;
use ouch_codec::{Cancel, DecodeRefusal, EnterOrder, Inbound, Outbound, Replace, decode};
use std::alloc::{AllocError, Global};
use wire_law::FixedWire;

/// More bytes than any message has.
const MORE: usize = 81;

/// What a call on bytes answers.
pub fn answer(alloc: Global, call: &str, bytes: &[u8]) -> Result<String, AllocError> {
    match call {
        "decodes" => decoded(alloc, bytes),
        "sizes" => sizes(alloc, bytes),
        "types" => types(alloc, bytes),
        "sends" => sent(alloc, bytes),
        _ => String::from_str(alloc, "no such call"),
    }
}

/// What bytes are decoded as, field by field; or the number and the name of the refusal.
fn decoded(alloc: Global, bytes: &[u8]) -> Result<String, AllocError> {
    match decode(bytes) {
        Ok(message) => format!(in alloc; "{message:?}"),
        Err(refusal) => format!(in alloc; "refused {} {refusal:?}", refusal.number()),
    }
}

/// How many of these bytes with spaces behind them aren't refused for their length, and what they are.
fn sizes(alloc: Global, bytes: &[u8]) -> Result<String, AllocError> {
    let mut long = Vec::from_slice(alloc, bytes)?;
    long.resize(MORE, b' ')?;
    let mut answer = String::new(alloc);
    for size in 0..=long.len() {
        let word = word_of(decode(&long.as_slice()[..size]));
        if word != "length" {
            write!(answer, "{size} {word};")?;
        }
    }
    Ok(answer)
}

/// Which bytes in front of these aren't refused for their type, and what they are.
fn types(alloc: Global, bytes: &[u8]) -> Result<String, AllocError> {
    let mut message = Vec::from_slice(alloc, b"?")?;
    message.extend_from_slice(bytes)?;
    let mut answer = String::new(alloc);
    for byte in 0..=255u8 {
        if let Some(first) = message.first_mut() {
            *first = byte;
        }
        let word = word_of(decode(message.as_slice()));
        if word != "type" {
            write!(answer, "{} {word};", char::from(byte))?;
        }
    }
    Ok(answer)
}

/// What bytes were decoded as.
fn word_of(decoded: Result<Outbound, DecodeRefusal>) -> &'static str {
    match decoded {
        Ok(Outbound::Skipped) => "skipped",
        Ok(_) => "read",
        Err(DecodeRefusal::Length) => "length",
        Err(DecodeRefusal::Type) => "type",
        Err(DecodeRefusal::Field) => "field",
    }
}

/// How many bytes the message towards the market takes that bytes are, and as which bytes it is sent.
fn sent(alloc: Global, bytes: &[u8]) -> Result<String, AllocError> {
    let Some(message) = inbound_of(bytes) else {
        return String::from_str(alloc, "none");
    };
    let mut out = vec![in alloc; 0; message.len()]?;
    message.put(out.as_mut_slice());
    let text = shown(alloc, out.as_slice())?;
    format!(in alloc; "{} bytes {text}", message.len())
}

/// The message towards the market that bytes are.
fn inbound_of(bytes: &[u8]) -> Option<Inbound> {
    match bytes {
        [b'O', ..] => Some(Inbound::Enter(EnterOrder::get(bytes)?)),
        [b'U', ..] => Some(Inbound::Replace(Replace::get(bytes)?)),
        [b'X', ..] => Some(Inbound::Cancel(Cancel::get(bytes)?)),
        _ => None,
    }
}
