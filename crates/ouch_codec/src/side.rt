//! Which side of the market an order takes, and its letter.

ghost use Rattle.std.specs.Prelude.{◌≡◌, MatchOption, false};
ghost use Rattle.ouch_codec.specs.Letters.{is_side, side_letter};

/// Which side of the market an order takes.
///
/// Source: OUCH 4.2, "Enter Order Message", Buy/Sell Indicator.
#[derive(Clone, Copy, Debug, PartialEq, Eq)]
pub enum Side {
    /// `B`.
    Buy,
    /// `S`.
    Sell,
    /// `T`: a sale of borrowed shares.
    SellShort,
    /// `E`: a short sale that the rules on short sales let through.
    SellShortExempt,
}

impl Side {
    /// The letter that stands for the side on the wire.
    pub fn letter(self) -> u8
        ensures { result ≡ side_letter self }
    {
        match self {
            Side::Buy => b'B',
            Side::Sell => b'S',
            Side::SellShort => b'T',
            Side::SellShortExempt => b'E',
        }
    }

    /// The side that a letter stands for, or `None` where it is none of the four.
    pub fn of_letter(letter: u8) -> Option<Side>
        ensures { MatchOption result (is_side letter ≡ false) (λ side. side_letter side ≡ letter) }
    {
        match letter {
            b'B' => Some(Side::Buy),
            b'S' => Some(Side::Sell),
            b'T' => Some(Side::SellShort),
            b'E' => Some(Side::SellShortExempt),
            _ => None,
        }
    }
}
