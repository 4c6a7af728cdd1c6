//! What is left of a cancel once the market has answered Cancel Orders of it.

ghost use Rattle.std.specs.Prelude.{◌≡◌, ℕ, Some, bytes_eq, filter, not, option_map};
ghost use Rattle.std.specs.List.{list_all};
ghost use Rattle.order_machine.specs.OrderRecord.{still_after};
ghost use Rattle.orders.specs.Seen.{cancel_seen, has_token, left_of};

use crate::boxed::Boxed;
use crate::requests::{Cancelling, Replacing};
use wire_bytes::is_same_token;

impl Cancelling {
    /// Whether no other Cancel Order than that of a token is left.
    pub(crate) fn is_last(&self, token: &[u8; 14]) -> bool
        ensures { result ≡ list_all (bytes_eq token.now) self.now.tokens.items }
    {
        self.tokens.iter().all(|other| is_same_token(token, other))
    }

    /// Whether no other Cancel Orders than those of these replaces' tokens are left.
    pub(crate) fn is_of_replaces(&self, replaces: &[Replacing]) -> bool
        ensures { result ≡ list_all (has_token replaces.now) self.now.tokens.items }
    {
        self.tokens.iter().all(|token| is_among(replaces, token))
    }
}

/// A cancel once the Cancel Order of a token is answered; `None` where no other is left. Takes no memory.
pub(crate) fn without(
    mut cancelling: Boxed<Cancelling>,
    token: [u8; 14],
) -> Option<Boxed<Cancelling>>
    ensures { (client order_id : ℕ) → option_map (cancel_seen client order_id) result
        ≡ still_after (bytes_eq token) (Some (cancel_seen client order_id cancelling)) }
{
    retain_other(&mut cancelling.held.tokens, &token);
    some_left(cancelling)
}

/// A cancel, where there is one, once the Cancel Orders of these replaces' tokens are answered; `None` where no other
/// is left. Takes no memory.
pub(crate) fn without_replaces(
    cancel: Option<Boxed<Cancelling>>,
    replaces: &[Replacing],
) -> Option<Boxed<Cancelling>>
    ensures { (client order_id : ℕ) → option_map (cancel_seen client order_id) result
        ≡ still_after (has_token replaces.now) (option_map (cancel_seen client order_id) cancel) }
{
    match cancel {
        None => None,
        Some(cancelling) => without_each(cancelling, replaces),
    }
}

/// The same of a cancel that is there.
fn without_each(
    mut cancelling: Boxed<Cancelling>,
    replaces: &[Replacing],
) -> Option<Boxed<Cancelling>>
    ensures { (client order_id : ℕ) → option_map (cancel_seen client order_id) result
        ≡ still_after (has_token replaces.now) (Some (cancel_seen client order_id cancelling)) }
{
    retain_outside(&mut cancelling.held.tokens, replaces);
    some_left(cancelling)
}

/// Takes this token out.
fn retain_other(tokens: &mut Vec<[u8; 14]>, token: &[u8; 14])
    ensures { tokens.new.items ≡ filter (λ other. not (bytes_eq token.now other)) tokens.old.items }
{
    tokens.retain(|other| !is_same_token(token, other));
}

/// Takes out the tokens of these replaces.
fn retain_outside(tokens: &mut Vec<[u8; 14]>, replaces: &[Replacing])
    ensures { tokens.new.items
        ≡ filter (λ token. not (has_token replaces.now token)) tokens.old.items }
{
    tokens.retain(|token| !is_among(replaces, token));
}

/// The cancel, where a Cancel Order of it is left.
fn some_left(cancelling: Boxed<Cancelling>) -> Option<Boxed<Cancelling>>
    ensures { (client order_id : ℕ) → option_map (cancel_seen client order_id) result
        ≡ left_of (cancel_seen client order_id cancelling) }
{
    if cancelling.get().tokens.is_empty() {
        None
    } else {
        Some(cancelling)
    }
}

/// Whether a token is that of one of these replaces.
fn is_among(replaces: &[Replacing], token: &[u8; 14]) -> bool
    ensures { result ≡ has_token replaces.now token.now }
{
    replaces
        .iter()
        .any(|replacing| is_same_token(token, &replacing.token))
}
