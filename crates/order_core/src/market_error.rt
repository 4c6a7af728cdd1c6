//! Why a payload of the market gives nothing.

ghost use Rattle.std.specs.Prelude.{◌≡◌};
ghost use Rattle.order_core.specs.declared.market_error.MarketError.TheVariants.{NoMemory};

use market_messages::MarketFault;
use std::alloc::{AllocError, AllocFailed};
use thiserror::Error;

/// Why a payload of the market gives nothing. It changed nothing; a fault ends its port.
#[derive(Clone, Copy, Debug, PartialEq, Eq, Drop, Error)]
pub enum MarketError {
    #[error("out of memory")]
    NoMemory,
    #[error("{0}")]
    Faulty(MarketFault),
}

impl From<AllocError> for MarketError {
    ghost from_gives = { λ _ error. error ≡ NoMemory };

    fn from(_error: AllocError) -> MarketError {
        MarketError::NoMemory
    }
}

impl<T: Drop> From<AllocFailed<T>> for MarketError {
    ghost from_gives = { λ _ error. error ≡ NoMemory };

    fn from(_error: AllocFailed<T>) -> MarketError {
        MarketError::NoMemory
    }
}
