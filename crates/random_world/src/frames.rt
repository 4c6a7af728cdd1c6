//! Frames of clients.

use fix_fields::split;
use fix_framing::frame_of_text;
use gate_events::ClientFrame;
use std::alloc::{AllocError, Global};

/// The whole frame of a message's text, from MsgType (35) on; `None` where it is no frame.
pub fn frame_of(alloc: Global, text: &[u8]) -> Result<Option<ClientFrame>, AllocError> {
    let bytes = frame_of_text(alloc, text)?;
    match split(alloc, bytes.as_slice())? {
        Some(fields) => Ok(ClientFrame::of(fields)),
        None => Ok(None),
    }
}
