//! An accepted order: what its client asked, how far it has come, the tokens that it had, its trades, and the
//! requests on it that aren't answered; what a message of the market changes of it, and how it is put back.
//!
//! It knows nothing of a message's bytes and of reports. Contracts see an order as `order_machine`'s record.
#![tactic(auto)]

mod answering;
mod boxed;
mod change;
mod copying;
mod earlier;
mod earlier_order;
mod earlier_trades;
mod order;
mod progress;
mod putting_back;
mod replaces;
mod requests;
mod symbol;

pub use boxed::Boxed;
pub use change::Change;
pub use earlier_order::EarlierOrder;
pub use order::Order;
pub use progress::Progress;
pub use replaces::Replaces;
pub use requests::{Cancelling, Replacing};
pub use symbol::Symbol;
