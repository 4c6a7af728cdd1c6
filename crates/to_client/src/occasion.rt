//! What happened to an order.

ghost use Rattle.std.specs.Prelude.{◌≡◌, None};
ghost use Rattle.to_client.specs.Occasions.{details_of};

use fix_values::{ExecType, OrdRejReason};

/// What happened to an order, and what a report says of it beside the order. Reasons are the market's letters.
#[derive(Clone, Copy)]
pub enum Occasion {
    /// It was accepted, and waits for the market.
    PendingNew,
    /// The market took it.
    New,
    /// Shares were traded, at this price in 1/10,000.
    Trade { shares: u32, price: u32 },
    /// The market took something off what was open.
    Restated(u8),
    /// All that was open is cancelled.
    Canceled(Option<u8>),
    /// The trade that was told under this ExecID was taken back.
    TradeCancel { exec_id: u64, reason: u8 },
    /// The market rejected it.
    Rejected(u8),
}

/// The fields that an occasion gives, where it gives them.
#[derive(Clone, Copy)]
pub struct Details {
    /// ExecType (150).
    pub exec_type: ExecType,
    /// ExecRefID (19).
    pub exec_ref_id: Option<u64>,
    /// OrdRejReason (103): 99, other.
    pub ord_rej_reason: Option<u64>,
    /// ExecRestatementReason (378): 5, partial decline of OrderQty.
    pub exec_restatement_reason: Option<u64>,
    /// LastQty (32), in shares.
    pub last_qty: Option<u64>,
    /// LastPx (31), in 1/10,000.
    pub last_px: Option<u32>,
    /// Text (58), the market's letter.
    pub reason: Option<u8>,
}

/// Nothing but an ExecType.
pub fn plain(exec_type: ExecType) -> Details
    ensures { result ≡ record {
      exec_type = exec_type;
      exec_ref_id = None;
      ord_rej_reason = None;
      exec_restatement_reason = None;
      last_qty = None;
      last_px = None;
      reason = None;
    } }
{
    Details {
        exec_type,
        exec_ref_id: None,
        ord_rej_reason: None,
        exec_restatement_reason: None,
        last_qty: None,
        last_px: None,
        reason: None,
    }
}

/// The fields of an occasion.
pub fn fields_given_by(occasion: Occasion) -> Details
    ensures { result ≡ details_of occasion }
{
    match occasion {
        Occasion::PendingNew => plain(ExecType::PendingNew),
        Occasion::New => plain(ExecType::New),
        Occasion::Trade { shares, price } => Details {
            last_qty: Some(u64::from(shares)),
            last_px: Some(price),
            ..plain(ExecType::Trade)
        },
        Occasion::Restated(reason) => Details {
            exec_restatement_reason: Some(5),
            reason: Some(reason),
            ..plain(ExecType::Restated)
        },
        Occasion::Canceled(reason) => Details {
            reason,
            ..plain(ExecType::Canceled)
        },
        Occasion::TradeCancel { exec_id, reason } => Details {
            exec_ref_id: Some(exec_id),
            reason: Some(reason),
            ..plain(ExecType::TradeCancel)
        },
        Occasion::Rejected(reason) => Details {
            ord_rej_reason: Some(OrdRejReason::Other.number()),
            reason: Some(reason),
            ..plain(ExecType::Rejected)
        },
    }
}
