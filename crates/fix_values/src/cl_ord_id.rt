//! The id that a client gives an order or a request.

ghost use Rattle.std.specs.Prelude.{◌≡◌, true, IfOk};
ghost use Rattle.fix_fields.specs.Field.{IsValue};
ghost use Rattle.fix_values.specs.Texts.{is_cl_ord_id};

use fix_fields::Text;
use std::alloc::{AllocError, Global};
use std::marker::Model;

/// A ClOrdID: 1 to 64 bytes without SOH. Contracts see the list of its bytes.
///
/// Source: FIX 4.4 Volume 6, ClOrdID (11) and OrigClOrdID (41); the limit is this gateway's own.
#[derive(Debug, Drop)]
pub struct ClOrdId {
    text: Text,
}

impl Model for ClOrdId {
    ghost use Rattle.std.specs.Prelude.{◌≡◌, ℕ, List, true};
    ghost use Rattle.fix_values.specs.Texts.{is_cl_ord_id};

    ghost Value = { List ℕ };

    ghost view = { λ id. id.text };

    ghost invariant = { λ id. is_cl_ord_id id.text ≡ true };
}

impl ClOrdId {
    /// A copy of these bytes. One growth at most.
    pub fn copied(alloc: Global, bytes: &[u8]) -> Result<ClOrdId, AllocError>
        requires size { is_cl_ord_id bytes.now ≡ true }
        requires value { IsValue bytes.now }
        ensures { IfOk result (λ id. id ≡ bytes.now) }
    {
        Ok(ClOrdId {
            text: Text::copied(alloc, bytes)?,
        })
    }

    /// Its bytes.
    pub fn as_slice(&self) -> &[u8]
        ensures bytes { result.now ≡ self.now }
        ensures size { is_cl_ord_id result.now ≡ true }
        ensures value { IsValue result.now }
    {
        self.text.as_slice()
    }

    /// Its text.
    pub(crate) fn text(&self) -> &Text
        ensures text { result.now ≡ self.now }
        ensures size { is_cl_ord_id self.now ≡ true }
    {
        &self.text
    }
}
