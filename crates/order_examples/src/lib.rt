//! Exchanges that are written down, on which the definitions of the order level are computed.
//!
//! There is nothing to call, and no crate stands on this one: it shows which histories `order_law` accepts, and which
//! it refuses. `specs/Transcript.antt` has the words in which exchanges are written.
#![tactic(auto)]

mod laws;

pub use laws::computed_exchanges_have_the_headline;
