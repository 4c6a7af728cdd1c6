//! What a message from the market answers.

ghost use Rattle.std.specs.Prelude.{◌≡◌, ℕ, List, bytes_eq};
ghost use Rattle.std.specs.List.{list_any};
ghost use Rattle.order_law.specs.History as law;
ghost use Rattle.outstanding.specs.Kept.{asked_by_fields};

use ouch_codec::{Inbound, Outbound};
use wire_bytes::is_same_token;

/// Whether a message from the market answers one that it was asked of the same order, whose pending replaces ask for
/// the tokens `next`, the oldest first.
///
/// Source: OUCH 4.2, "Outbound Messages".
pub fn answers(heard: &Outbound, next: &[[u8; 14]], message: &Inbound) -> bool
    ensures { result ≡ law.answers heard.now next.now (asked_by_fields message.now) }
{
    match message {
        Inbound::Enter(new_order) => answers_new(heard, next, &new_order.token),
        Inbound::Replace(replace) => answers_replace(heard, next, &replace.replacement_token),
        Inbound::Cancel(cancel) => answers_cancel(heard, next, &cancel.token),
    }
}

/// An Accepted or Rejected of its token answers a new order.
fn answers_new(heard: &Outbound, next: &[[u8; 14]], token: &[u8; 14]) -> bool
    ensures { result ≡ law.answers heard.now next.now (law.SaysNew token.now) }
{
    match heard {
        Outbound::Accepted(accepted) => is_same_token(&accepted.token, token),
        Outbound::Rejected(rejected) => is_same_token(&rejected.token, token),
        _ => false,
    }
}

/// A Replaced of its new token answers a replace, and a Rejected of that token or of one before it.
fn answers_replace(heard: &Outbound, next: &[[u8; 14]], token: &[u8; 14]) -> bool
    ensures { (from : List ℕ) → result ≡ law.answers heard.now next.now (law.SaysReplace from token.now) }
{
    match heard {
        Outbound::Replaced(replaced) => is_same_token(&replaced.token, token),
        Outbound::Rejected(rejected) => is_among(token, from_token(&rejected.token, next)),
        _ => false,
    }
}

/// A Replaced away from its token answers a cancel, a Cancel Reject of it, and a Rejected of it or of one before it.
fn answers_cancel(heard: &Outbound, next: &[[u8; 14]], token: &[u8; 14]) -> bool
    ensures { result ≡ law.answers heard.now next.now (law.SaysCancel token.now) }
{
    match heard {
        Outbound::Replaced(replaced) => is_same_token(&replaced.previous_token, token),
        Outbound::Rejected(rejected) => is_among(token, from_token(&rejected.token, next)),
        Outbound::CancelReject(reject) => is_same_token(&reject.token, token),
        _ => false,
    }
}

/// Of these tokens the one and those behind it: none where it isn't there.
fn from_token<'a>(token: &[u8; 14], next: &'a [[u8; 14]]) -> &'a [[u8; 14]]
    ensures { result.now ≡ law.from_token token.now next.now }
{
    let [first, rest @ ..] = next else {
        return next;
    };
    if is_same_token(token, first) {
        next
    } else {
        from_token(token, rest)
    }
}

/// Whether a token is one of these.
fn is_among(token: &[u8; 14], tokens: &[[u8; 14]]) -> bool
    ensures { result ≡ list_any (bytes_eq token.now) tokens.now }
{
    tokens.iter().any(|other| is_same_token(token, other))
}
