//! A whole frame of a client.

ghost use Rattle.std.specs.Prelude.{◌≡◌, ◌≤◌, ◌↔◌, length, IsSome, IfSome};
ghost use Rattle.fix_fields.specs.Field.{fields_text};
ghost use Rattle.fix_framing.specs.Stream.{longest};

use fix_fields::Fields;
use std::marker::Model;

/// A whole frame of a client: all its fields, which print in at most `ClientFrame::LONGEST` bytes. Contracts see the
/// fields.
///
/// Source: FIX 4.4 Volume 1, "Message Format"; the limit is the gateway's own, that of frames in a stream.
#[derive(Debug, Drop)]
pub struct ClientFrame {
    pub(crate) fields: Fields,
}

impl Model for ClientFrame {
    ghost use Rattle.std.specs.Prelude.{List, length, ◌≤◌};
    ghost use Rattle.fix_fields.specs.Field.{Field, fields_text};
    ghost use Rattle.fix_framing.specs.Stream.{longest};

    ghost Value = { List Field };

    ghost view = { λ frame. frame.fields };

    ghost invariant = { λ frame. length (fields_text frame.fields) ≤ longest };
}

impl ClientFrame {
    /// The most bytes in which a frame prints.
    pub const LONGEST: usize = 8_192;

    /// The frame of these fields; `None` where they print in more than `ClientFrame::LONGEST` bytes. Takes no memory.
    pub fn of(fields: Fields) -> Option<ClientFrame>
        ensures in_limit { IsSome result ↔ (length (fields_text fields) ≤ longest) }
        ensures value { IfSome result (λ frame. frame ≡ fields) }
    {
        if fields.text().len() > ClientFrame::LONGEST {
            return None;
        }
        Some(ClientFrame { fields })
    }

    /// Its fields, in order. Takes no memory.
    pub fn fields(&self) -> &Fields
        ensures fields { result.now ≡ self.now }
        ensures in_limit { length (fields_text result.now) ≤ longest }
    {
        &self.fields
    }
}
