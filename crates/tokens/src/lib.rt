//! Order tokens: `G` and the 13 decimal digits of a number.
//!
//! The market knows each order by 14 bytes that the gateway picks. A number and its token determine each other, so a
//! token that comes back says which accepted request it is of, and no two requests have one token.
//!
//! `NextTokens` has those by which the market is to know an order next, `TokenKey` is what an order is looked for by.
//!
//! Source: OUCH 4.2, "Enter Order Message", order token; its form is the gateway's own.
#![tactic(auto)]

mod next_tokens;
mod token;
mod token_key;

pub use next_tokens::NextTokens;
pub use token::{Token, TokenRefusal, one_number_a_token};
pub use token_key::TokenKey;
