//! What an order had before it was changed.

ghost use Rattle.std.specs.Prelude.{◌≡◌, ◌≤◌, ◌+◌, length};
ghost use Rattle.order_machine.specs.order_law.declared.stage.Stage.TheVariants.{Waiting};
ghost use Rattle.order_machine.specs.order_law.wire_law.Printable.{ArePrintable};

use crate::boxed::Boxed;
use crate::earlier_trades::EarlierTrades;
use crate::progress::Progress;
use crate::replaces::Replaces;
use crate::requests::Cancelling;
use fix_types::ClOrdId;

/// What an order had before it was changed: all that may change of it. Of the lists that only grow it has the lengths.
#[derive(Drop)]
pub struct EarlierOrder {
    pub(crate) token: [u8; 14],
    /// How many tokens it had had before that one.
    pub(crate) earlier_count: usize,
    /// Its ClOrdID; `None` where it has the same still.
    pub(crate) cl_ord_id: Option<ClOrdId>,
    pub(crate) progress: Progress,
    pub(crate) trades: EarlierTrades,
    pub(crate) replaces: Replaces,
    pub(crate) cancel: Option<Boxed<Cancelling>>,
    ghost token_set: { ArePrintable token },
    ghost trades_set: { progress.stage ≡ Waiting → trades.count ≡ 0 },
    ghost counted: { progress.tokens ≤ 1 + earlier_count },
    ghost replaces_set: { progress.tokens + length replaces ≤ 65_536 },
    ghost few: { length replaces ≤ 4 },
}
