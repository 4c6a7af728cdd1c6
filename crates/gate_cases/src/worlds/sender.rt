//! A client whose messages a case writes out.

ghost use Rattle.std.specs.Prelude.{◌≤◌, length};

use fix_stamp::stamp;
use std::alloc::{AllocError, Global};

/// A client's link, and the number of its next message.
#[derive(Clone, Copy)]
pub struct Sender {
    pub link: u64,
    next: u64,
}

impl Sender {
    /// No link yet.
    pub fn new() -> Sender {
        Sender { link: 0, next: 1 }
    }

    /// The next link.
    pub fn go_on(&mut self) {
        self.link = self.link.saturating_add(1);
    }

    /// The text of a message by its fields, in which `|` stands for SOH: behind the first one stand 49, 56, 34 and 52.
    /// No text of no fields.
    pub fn text(
        &mut self,
        alloc: Global,
        number: u16,
        fields: &[u8],
        at: u64,
    ) -> Result<Vec<u8>, AllocError> {
        let mut text = Vec::new(alloc);
        if fields.is_empty() {
            return Ok(text);
        }
        let head = end_of_first(fields);
        push_fields(&mut text, &fields[..head])?;
        let next = self.next;
        let names = format!(in alloc; "49=C{number}\x0156=GATE\x0134={next}\x0152=")?;
        text.extend_from_slice(names.as_bytes())?;
        text.extend_from_slice(&stamp(at))?;
        text.push(1)?;
        push_fields(&mut text, &fields[head..])?;
        self.next = next.saturating_add(1);
        Ok(text)
    }
}

/// The place behind the first field, or the end of the text.
fn end_of_first(fields: &[u8]) -> usize
    ensures { result ≤ length fields.now }
{
    match fields.iter().position(|byte| *byte == b'|') {
        Some(end) => end + 1,
        None => fields.len(),
    }
}

/// Fields with SOH for each `|`.
fn push_fields(text: &mut Vec<u8>, fields: &[u8]) -> Result<(), AllocError> {
    for byte in fields {
        let byte = if *byte == b'|' { 1 } else { *byte };
        text.push(byte)?;
    }
    Ok(())
}
