//! What each order of a client carries.

ghost use Rattle.std.specs.Prelude.{◌≡◌, true, length};
ghost use Rattle.wire_law.specs.Printable.{is_printable, ArePrintable};

/// The port that a client's orders go to, and the bytes that each of them carries. Each byte is from 32 to 126.
#[derive(Clone, Copy, Debug, PartialEq, Eq)]
pub struct ClientTerms {
    /// The number of its port, from 1.
    pub port: u16,
    /// The firm that enters the orders, padded right with spaces.
    pub firm: [u8; 4],
    /// For whom the firm trades where an order doesn't say it.
    pub capacity: u8,
    /// Whether the customer is a retail one.
    pub customer: u8,
    ghost firm_set: { (length firm ≡ 4) × ArePrintable firm },
    ghost capacity_set: { is_printable capacity ≡ true },
    ghost customer_set: { is_printable customer ≡ true },
}
