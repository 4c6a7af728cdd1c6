//! Why a payload of the market isn't handled.

ghost use Rattle.std.specs.Prelude.{◌≡◌};
ghost use Rattle.market_messages.specs.Turns.{fault_of_refusal, market_fault_number};

use ouch_codec::DecodeRefusal;
use thiserror::Error;

/// Why a payload of the market isn't handled. It changes nothing, and ends its port.
#[derive(Clone, Copy, Debug, PartialEq, Eq, Drop, Error)]
pub enum MarketFault {
    #[error("not a message: its length or a field is wrong")]
    Undecodable,
    #[error("a token that is no order's of this port")]
    UnknownToken,
    #[error("a message that is not lawful here")]
    NotLawful,
    #[error("a message type outside this gateway's profile")]
    OutsideProfile,
}

impl MarketFault {
    /// The number of the fault, 1 to 4.
    pub fn number(self) -> u8
        ensures { result ≡ market_fault_number self }
    {
        match self {
            MarketFault::Undecodable => 1,
            MarketFault::UnknownToken => 2,
            MarketFault::NotLawful => 3,
            MarketFault::OutsideProfile => 4,
        }
    }
}

/// The fault of bytes that are refused.
pub fn fault_of(refusal: DecodeRefusal) -> MarketFault
    ensures { result ≡ fault_of_refusal refusal }
{
    match refusal {
        DecodeRefusal::Type => MarketFault::OutsideProfile,
        DecodeRefusal::Length | DecodeRefusal::Field => MarketFault::Undecodable,
    }
}
