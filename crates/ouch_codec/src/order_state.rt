//! Whether an accepted order is on the book, and its letter.

ghost use Rattle.std.specs.Prelude.{◌≡◌, MatchOption, false};
ghost use Rattle.ouch_codec.specs.Letters.{is_order_state, order_state_letter};

/// Whether an order is on the book once it is accepted.
///
/// Source: OUCH 4.2, "Accepted Message", Order State.
#[derive(Clone, Copy, Debug, PartialEq, Eq)]
pub enum OrderState {
    /// `L`: the order is open.
    Live,
    /// `D`: the order was accepted and cancelled at once; nothing more is said of it.
    Dead,
}

impl OrderState {
    /// The letter that stands for the state on the wire.
    pub fn letter(self) -> u8
        ensures { result ≡ order_state_letter self }
    {
        match self {
            OrderState::Live => b'L',
            OrderState::Dead => b'D',
        }
    }

    /// The state that a letter stands for, or `None` where it is neither of the two.
    pub fn of_letter(letter: u8) -> Option<OrderState>
        ensures { MatchOption result (is_order_state letter ≡ false)
            (λ state. order_state_letter state ≡ letter) }
    {
        match letter {
            b'L' => Some(OrderState::Live),
            b'D' => Some(OrderState::Dead),
            _ => None,
        }
    }
}
