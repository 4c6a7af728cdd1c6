//! Requests on an order that were accepted and aren't answered.

ghost use Rattle.std.specs.Prelude.{◌≡◌};
ghost use Rattle.order_machine.specs.tokens.TokenText.{token_text};

use fix_types::{CancelRequest, ReplaceRequest};

/// A replace that was accepted and isn't answered.
#[derive(Drop)]
pub struct Replacing {
    /// What its client asked.
    pub message: ReplaceRequest,
    /// The market's name for the order once it is replaced, and that token's number.
    pub token: [u8; 14],
    pub token_number: u64,
    ghost text_set: { token ≡ token_text token_number },
}

/// A cancel that was accepted and isn't answered.
pub struct Cancelling {
    /// What its client asked.
    pub message: CancelRequest,
    /// The tokens whose Cancel Order isn't answered: at first the one that the order went by, and those of the replaces
    /// that were pending, the oldest first.
    pub tokens: Vec<[u8; 14]>,
}

// Not derived: then each way out drops it in one call (docs/DECISIONS.md, "Drops").
impl Drop for Cancelling {
    fn drop(self) {
        let Cancelling {
            message: _,
            tokens: _,
        } = self;
    }
}
