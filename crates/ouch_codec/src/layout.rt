//! What a message is made of: one field after another, each of a kind.
//!
//! The layouts in `specs/Layouts.antt` are lists of kinds. No code looks a kind up: each has a function of its own in
//! `field.rt`, whose contract names it.

/// What a field holds. How many bytes it takes, and which, follows from that.
#[derive(Clone, Copy, Debug, PartialEq, Eq)]
pub enum Kind {
    /// This byte: the type of the message.
    Constant(u8),
    /// The letter of a side.
    SideLetter,
    /// The letter of an order state.
    OrderStateLetter,
    /// A byte from 32 to 126.
    Printable,
    /// So many bytes from 32 to 126, padded right with spaces.
    Text(usize),
    /// The shares of an order: four bytes, 1 to 999,999.
    Shares,
    /// The intended shares of a cancel: four bytes, 0 to 999,999.
    IntendedShares,
    /// Any number of four bytes.
    Number,
    /// Any number of eight bytes.
    LongNumber,
}
