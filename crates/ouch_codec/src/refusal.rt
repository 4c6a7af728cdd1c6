//! Why bytes from the market are no message of ours.

ghost use Rattle.std.specs.Prelude.{◌≡◌};
ghost use Rattle.ouch_codec.specs.Decoding.{refusal_number};

use thiserror::Error;

/// Why bytes from the market are no message of ours. The first that holds, in the order `Type`, `Length`, `Field`;
/// no byte at all is `Length`.
#[derive(Clone, Copy, Debug, PartialEq, Eq, Drop, Error)]
pub enum DecodeRefusal {
    /// Not as many bytes as a message of this type has, or none.
    #[error("not the length of its type")]
    Length,
    /// The first byte is the type of no message that we know.
    #[error("a type that is not known")]
    Type,
    /// A field is not in its set.
    #[error("a field that is not in its set")]
    Field,
}

impl DecodeRefusal {
    /// The number of the refusal: 1 for `Length`, 2 for `Type`, 3 for `Field`.
    pub fn number(self) -> u8
        ensures { result ≡ refusal_number self }
    {
        match self {
            DecodeRefusal::Length => 1,
            DecodeRefusal::Type => 2,
            DecodeRefusal::Field => 3,
        }
    }
}
