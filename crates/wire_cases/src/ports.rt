//! Cases of a port's session and of a simulated market, through their public calls alone.

mod market;
mod packets;
mod session;

use case_lines::{Conversation, bytes_of, first_word};
use market_sim::Sim;
use session::Stepped;
use std::alloc::{AllocError, Global};

/// A session and a market.
pub struct Port {
    session: Stepped,
    market: Sim,
}

/// Written by hand, so that one call drops all.
impl Drop for Port {
    fn drop(self) {
        let Port {
            session: _,
            market: _,
        } = self;
    }
}

impl Port {
    /// Each as no call was made.
    pub fn new(alloc: Global) -> Port {
        Port {
            session: Stepped::new(),
            market: Sim::new(alloc),
        }
    }
}

impl Conversation for Port {
    fn begin(&mut self, alloc: Global) -> Result<(), AllocError> {
        self.session = Stepped::new();
        self.market = Sim::new(alloc);
        Ok(())
    }

    fn step(&mut self, alloc: Global, line: &str, shown: &mut Vec<u8>) -> Result<bool, AllocError> {
        let (whose, asked) = first_word(line);
        let is_market = whose == "market";
        let (call, text) = first_word(if is_market { asked } else { line });
        let Some(bytes) = bytes_of(alloc, text)? else {
            return Ok(false);
        };
        if is_market {
            market::step(alloc, &mut self.market, call, bytes.as_slice(), shown)
        } else {
            self.session.step(alloc, call, bytes.as_slice(), shown)
        }
    }
}
