//! Requests again, in memory of their own.

ghost use Rattle.std.specs.Prelude.{◌≡◌, ℕ, IfOk, option_map};
ghost use Rattle.orders.specs.Seen.{cancel_seen};

use crate::boxed::Boxed;
use crate::requests::{Cancelling, Replacing};
use std::alloc::{AllocError, Global};

impl Replacing {
    /// The same replace again, in memory of its own.
    pub(crate) fn copied(&self, alloc: Global) -> Result<Replacing, AllocError>
        ensures { IfOk result (λ copy. copy ≡ self.now) }
    {
        let token = self.token;
        Ok(Replacing {
            message: self.message.copied(alloc)?,
            token,
            token_number: self.token_number,
        })
    }
}

impl Cancelling {
    /// The same cancel again, in memory of its own.
    fn copied(&self, alloc: Global) -> Result<Cancelling, AllocError>
        ensures { IfOk result (λ copy. (client order_id : ℕ)
            → cancel_seen client order_id copy ≡ cancel_seen client order_id self.now) }
    {
        let tokens = Vec::from_slice(alloc, &self.tokens)?;
        Ok(Cancelling {
            message: self.message.copied(alloc)?,
            tokens,
        })
    }
}

/// The same cancel in memory of its own, where there is one.
pub(crate) fn copied_cancel(
    alloc: Global,
    cancel: &Option<Boxed<Cancelling>>,
) -> Result<Option<Boxed<Cancelling>>, AllocError>
    ensures { IfOk result (λ copy. (client order_id : ℕ)
        → option_map (cancel_seen client order_id) copy ≡ option_map (cancel_seen client order_id) cancel.now) }
{
    match cancel {
        None => Ok(None),
        Some(cancelling) => {
            let copy = cancelling.get().copied(alloc)?;
            Ok(Some(Boxed::new(alloc, copy)?))
        }
    }
}
