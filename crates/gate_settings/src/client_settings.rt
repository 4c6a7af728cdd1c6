//! Who a client is, and what its orders are entered with.

use fix_fields::Text;
use std::marker::Model;
use to_market::ClientTerms;

/// A client of the gateway. Contracts see the law's settings of a client.
#[derive(Drop)]
pub struct ClientSettings {
    /// The name by which its frames are known, its SenderCompID (49); served with 1 to 20 bytes from 33 to 126.
    ///
    /// Source: FIX 4.4 Volume 2, "Standard Message Header".
    pub comp: Text,
    /// Its port, and the firm, capacity and customer that its orders are entered with; served where there is such a
    /// port, the capacity is A, P or R, and the customer R, N or a space.
    ///
    /// Source: OUCH 4.2, "Enter Order Message".
    pub terms: ClientTerms,
}

impl Model for ClientSettings {
    ghost use Rattle.gate_law.specs.Settings as law;
    ghost use Rattle.to_market.specs.TermsSeen.{terms_seen};

    ghost Value = { law.ClientSettings };

    ghost view = { λ c. record { comp = c.comp; terms = terms_seen c.terms } };
}
