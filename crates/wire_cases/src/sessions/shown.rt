//! Fields as they are typed, and outputs as they are shown.

use case_lines::bytes_of;
use fix_session::{IssuedTurn, SessionOut, SessionTurn};
use fix_types::{AppMsg, Fields, TextWire, split};
use itoa::Buffer;
use std::alloc::{AllocError, Global};

/// The fields of a text in which a bar ends each field but the last; none where it is no fields.
pub fn fields_of(alloc: Global, text: &str) -> Result<Option<Fields>, AllocError> {
    let Some(mut bytes) = bytes_of(alloc, text)? else {
        return Ok(None);
    };
    bytes.push(1)?;
    split(alloc, bytes.as_slice())
}

/// The fields of a message of C1 to GATE: its text, with the names behind.
pub fn from_client(alloc: Global, text: &str) -> Result<Option<Fields>, AllocError> {
    let mut whole = String::from_str(alloc, text)?;
    whole.push_str("|49=C1|56=GATE")?;
    fields_of(alloc, whole.as_str())
}

/// Whether a field is shown only in whole frames: framing, names, moments.
fn is_hidden(tag: u32) -> bool {
    matches!(tag, 8 | 9 | 10 | 49 | 56 | 52 | 122 | 60)
}

/// Adds fields as they are shown, and ends the line.
fn show_fields(shown: &mut Vec<u8>, fields: &Fields, is_whole: bool) -> Result<(), AllocError> {
    for i in 0..fields.len() {
        let field = fields.at(i);
        if is_whole || !is_hidden(field.tag) {
            let mut buffer = Buffer::new();
            shown.extend_from_slice(buffer.format(field.tag).as_bytes())?;
            shown.push(b'=')?;
            shown.extend_from_slice(field.value)?;
            shown.push(1)?;
        }
    }
    shown.push(b'\n')?;
    Ok(())
}

/// Adds a frame as it is shown, in a line of its own.
fn show_frame(
    alloc: Global,
    shown: &mut Vec<u8>,
    bytes: &[u8],
    is_whole: bool,
) -> Result<(), AllocError> {
    match split(alloc, bytes)? {
        Some(fields) => show_fields(shown, &fields, is_whole),
        None => {
            shown.extend_from_slice(b"no fields\n")?;
            Ok(())
        }
    }
}

/// Adds a message that is delivered, by the fields that its type keeps.
pub fn show_message(
    alloc: Global,
    shown: &mut Vec<u8>,
    message: &AppMsg,
) -> Result<(), AllocError> {
    let fields = match message {
        AppMsg::New(order) => order.put(alloc)?,
        AppMsg::Cancel(request) => request.put(alloc)?,
        AppMsg::Replace(request) => request.put(alloc)?,
    };
    shown.extend_from_slice(b"given up ")?;
    show_fields(shown, &fields, true)
}

/// Adds what goes to the link of a turn as it is shown: a line for each output.
pub fn show_turn(
    alloc: Global,
    shown: &mut Vec<u8>,
    turn: &SessionTurn,
    is_whole: bool,
) -> Result<(), AllocError> {
    for out in &turn.outs {
        match out {
            SessionOut::Close => shown.extend_from_slice(b"close\n")?,
            SessionOut::Frame(bytes) => show_frame(alloc, shown, bytes.as_slice(), is_whole)?,
        }
    }
    Ok(())
}

/// What goes to the link of a body that was issued.
pub fn show_issued(
    alloc: Global,
    shown: &mut Vec<u8>,
    issued: &IssuedTurn,
    is_whole: bool,
) -> Result<(), AllocError> {
    match &issued.frame {
        Some(bytes) => show_frame(alloc, shown, bytes.as_slice(), is_whole),
        None => Ok(()),
    }
}
