//! FIX messages as types: read from fields, and written in their own order.

use super::field_lists::fields_of;
use case_lines::shown;
use fix_printing::PrintedFields;
use fix_types::{
    CancelReject, CancelRequest, Fields, NewOrder, ReplaceRequest, Report, TextFault, TextWire,
};
use std::alloc::{AllocError, Global};

/// A message of a client, which can be copied.
trait Copied: TextWire<Fields, TextFault> {
    /// The message as its copy is written.
    fn put_copy(&self, alloc: Global) -> Result<Fields, AllocError>;
}

impl Copied for NewOrder {
    fn put_copy(&self, alloc: Global) -> Result<Fields, AllocError> {
        self.copied(alloc)?.put(alloc)
    }
}

impl Copied for CancelRequest {
    fn put_copy(&self, alloc: Global) -> Result<Fields, AllocError> {
        self.copied(alloc)?.put(alloc)
    }
}

impl Copied for ReplaceRequest {
    fn put_copy(&self, alloc: Global) -> Result<Fields, AllocError> {
        self.copied(alloc)?.put(alloc)
    }
}

/// A report or a reject, which has a body.
trait Told: TextWire<Fields, TextFault> {
    /// Adds the body.
    fn add_body(&self, body: &mut PrintedFields) -> Result<(), AllocError>;
}

impl Told for Report {
    fn add_body(&self, body: &mut PrintedFields) -> Result<(), AllocError> {
        self.push_body(body)
    }
}

impl Told for CancelReject {
    fn add_body(&self, body: &mut PrintedFields) -> Result<(), AllocError> {
        self.push_body(body)
    }
}

/// What is shown of a message.
#[derive(Clone, Copy)]
pub enum Part {
    /// As it is written, and as its copy is.
    Whole,
    /// The body of a report or a reject: its fields without the type.
    Body,
}

/// The message of a text, by its type, as it is written; or the tag and the reason of its refusal.
pub fn message(alloc: Global, part: Part, text: &str) -> Result<String, AllocError> {
    match fields_of(alloc, text)? {
        Some(fields) => message_of(alloc, part, &fields),
        None => String::from_str(alloc, "no fields"),
    }
}

/// The same of its fields.
fn message_of(alloc: Global, part: Part, fields: &Fields) -> Result<String, AllocError> {
    match (part, fields.first(35)) {
        (_, Some(b"8")) => read_told::<Report>(alloc, part, fields),
        (_, Some(b"9")) => read_told::<CancelReject>(alloc, part, fields),
        (Part::Whole, Some(b"D")) => read_copied::<NewOrder>(alloc, fields),
        (Part::Whole, Some(b"F")) => read_copied::<CancelRequest>(alloc, fields),
        (Part::Whole, Some(b"G")) => read_copied::<ReplaceRequest>(alloc, fields),
        _ => String::from_str(alloc, "no such type"),
    }
}

/// The client's message that fields are, where its copy is written as it is; or the tag and the reason of its refusal.
fn read_copied<M: Copied + Drop>(alloc: Global, fields: &Fields) -> Result<String, AllocError> {
    match M::get(alloc, fields) {
        Ok(message) => shown_twice(alloc, &message),
        Err(fault) => refused(alloc, fault),
    }
}

/// The report or the reject that fields are, or its body; or the tag and the reason of its refusal.
fn read_told<M: Told + Drop>(
    alloc: Global,
    part: Part,
    fields: &Fields,
) -> Result<String, AllocError> {
    match M::get(alloc, fields) {
        Ok(message) => shown_part(alloc, part, &message),
        Err(fault) => refused(alloc, fault),
    }
}

/// The tag and the reason of a refusal.
fn refused(alloc: Global, fault: TextFault) -> Result<String, AllocError> {
    match fault {
        TextFault::Refused(refusal) => {
            format!(in alloc; "tag {} reason {}", refusal.tag, refusal.reason)
        }
        TextFault::NoMemory => Err(AllocError),
    }
}

/// A message as it is written, where its copy is written so too.
fn shown_twice<M: Copied>(alloc: Global, message: &M) -> Result<String, AllocError> {
    let (written, copy) = (message.put(alloc)?, message.put_copy(alloc)?);
    if written.text() == copy.text() {
        shown(alloc, written.text())
    } else {
        String::from_str(alloc, "another copy")
    }
}

/// A message as it, or its body, is written.
fn shown_part<M: Told>(alloc: Global, part: Part, message: &M) -> Result<String, AllocError> {
    match part {
        Part::Whole => shown(alloc, message.put(alloc)?.text()),
        Part::Body => {
            let mut body = PrintedFields::with_capacity(alloc, 0)?;
            message.add_body(&mut body)?;
            shown(alloc, body.text())
        }
    }
}
