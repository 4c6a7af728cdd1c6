//! The result of a cancel or a replace.

use fix_types::AppBody;
use order_table::GivenToken;
use orders::{Cancelling, Replacing};
use ouch_codec::Inbound;

/// The result of a cancel.
#[derive(Drop)]
pub enum CancelTurn {
    /// It is refused, in one reject: the order that it names stays as it is.
    Refused(AppBody),
    /// It is pending, which one report says.
    Accepted {
        /// OrderID (37) of its order.
        order_id: u64,
        /// What the order keeps of it.
        cancelling: Cancelling,
        /// The report that it is pending.
        body: AppBody,
        /// What the market is asked, at once or as soon as the port is up.
        asks: Vec<Inbound>,
    },
}

/// The result of a replace.
#[derive(Drop)]
pub enum ReplaceTurn {
    /// It is refused, in one reject: the order that it names stays as it is.
    Refused(AppBody),
    /// It is pending, which one report says.
    Accepted {
        /// OrderID (37) of its order.
        order_id: u64,
        /// What the order keeps of it.
        replacing: Replacing,
        /// The token that the order is to go by: the next one.
        given: GivenToken,
        /// The report that it is pending.
        body: AppBody,
        /// What the market is asked, at once or as soon as the port is up.
        asks: Vec<Inbound>,
    },
}
