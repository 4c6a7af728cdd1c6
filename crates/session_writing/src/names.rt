//! The names of both ends of a session.

ghost use Rattle.std.specs.Prelude.{◌≡◌, ◌++◌, OnOk, IfOk};
ghost use Rattle.fix_framing.specs.fix_fields.Field.{IsValue};
ghost use Rattle.session_writing.specs.Heads.{name_fields};

use fix_fields::Text;
use fix_printing::PrintedFields;
use std::alloc::{AllocError, Global};
use std::marker::Model;

/// Room for the fields of both names, where they have 60 bytes at most.
const MOST_NAMES: usize = 144;

/// The names of the gateway and of a client, with their fields in a header once they were printed. Contracts see the
/// names.
#[derive(Drop)]
pub struct Names {
    gate: Text,
    client: Text,
    printed: Option<PrintedFields>,
}

impl Model for Names {
    ghost use Rattle.std.specs.Prelude.{◌≡◌, IfSome};
    ghost use Rattle.session_writing.specs.Heads.{BothNames, name_fields};

    ghost Value = { BothNames };

    ghost view = { λ names. record { gate = names.gate; client = names.client } };

    ghost invariant = { λ names. IfSome names.printed (λ printed. printed ≡ name_fields names.gate names.client) };
}

impl Names {
    /// These names; their fields aren't printed yet. Takes no memory.
    pub fn new(gate: Text, client: Text) -> Names
        ensures { result ≡ record { gate = gate; client = client } }
    {
        Names {
            gate,
            client,
            printed: None,
        }
    }

    /// The gateway's name. Takes no memory.
    pub fn gate(&self) -> &[u8]
        ensures text { result.now ≡ self.now.gate }
        ensures value { IsValue result.now }
    {
        self.gate.as_slice()
    }

    /// The client's name. Takes no memory.
    pub fn client(&self) -> &[u8]
        ensures text { result.now ≡ self.now.client }
        ensures value { IsValue result.now }
    {
        self.client.as_slice()
    }

    /// Prints their fields, unless they were printed before: one growth then, where the names have 60 bytes at most.
    pub fn print(&mut self, alloc: Global) -> Result<(), AllocError>
        ensures { self.new ≡ self.old }
    {
        if self.printed.is_none() {
            self.printed = Some(printed_names(alloc, self.gate(), self.client())?);
        }
        Ok(())
    }

    /// Adds their fields, SenderCompID (49) and TargetCompID (56).
    pub(crate) fn push(&self, fields: &mut PrintedFields) -> Result<(), AllocError>
        ensures { OnOk result (fields.new ≡ fields.old ++ name_fields self.now.gate self.now.client) }
    {
        match &self.printed {
            Some(printed) => fields.append_text(printed.text()),
            None => push_names(fields, self.gate(), self.client()),
        }
    }
}

/// The fields of both names, as they are printed. One growth, where the names have 60 bytes at most.
fn printed_names(alloc: Global, gate: &[u8], client: &[u8]) -> Result<PrintedFields, AllocError>
    requires gate { IsValue gate.now }
    requires client { IsValue client.now }
    ensures { IfOk result (λ printed. printed ≡ name_fields gate.now client.now) }
{
    let mut printed = PrintedFields::with_capacity(alloc, MOST_NAMES)?;
    push_names(&mut printed, gate, client)?;
    Ok(printed)
}

/// Adds SenderCompID (49) and TargetCompID (56).
pub(crate) fn push_names(
    fields: &mut PrintedFields,
    gate: &[u8],
    client: &[u8],
) -> Result<(), AllocError>
    requires gate { IsValue gate.now }
    requires client { IsValue client.now }
    ensures { OnOk result (fields.new ≡ fields.old ++ name_fields gate.now client.now) }
{
    fields.push(49, gate)?;
    fields.push(56, client)
}
