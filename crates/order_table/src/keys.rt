//! By what orders and tokens are found.

ghost use Rattle.std.specs.Prelude.{◌≡◌, ℕ, true, Some, decimal, option_map};
ghost use Rattle.std.specs.List.{list_any};
ghost use Rattle.order_table.specs.declared.keys.NameKey.{NameKey as Key};
ghost use Rattle.undo_orders.specs.orders.order_law.Chain.{goes_by};
ghost use Rattle.order_machine.specs.OrderRecord.{chained};
ghost use Rattle.undo_orders.specs.Seen.{cancel_seen, has_cancel_id};
ghost use Rattle.order_machine.specs.Table as table;
ghost use Rattle.order_table.specs.Keys as keys;
ghost use Rattle.order_table.specs.KeyLaws.{name-alike, number-alike, token-alike};

use crate::table::GivenToken;
use orders::{Boxed, Cancelling, Order, Replacing};
use tokens::TokenKey;
use undo_index::{Keyed, Sought, TextKey};
use wire_bytes::is_same_token;

/// The number of an OrderID, as a key.
#[derive(Clone, Copy, PartialEq, Eq, Hash)]
pub(crate) struct NumberKey {
    pub number: u64,
}

/// A client with a ClOrdID, as a key.
#[derive(Clone, Copy, PartialEq, Eq, Hash)]
pub(crate) struct NameKey {
    key: TextKey,
}

impl NameKey {
    /// The key of a client with a ClOrdID.
    pub fn of(client: u16, id: &[u8]) -> NameKey
        ensures { result ≡ keys.name_key client id.now }
    {
        NameKey {
            key: TextKey::of(client, id),
        }
    }
}

/// The order with an OrderID (37).
#[derive(Clone, Copy)]
pub(crate) struct ByNumber {
    pub order_id: u64,
}

impl Sought<Order> for ByNumber {
    ghost sought = { λ q o. table.has_number (decimal q.order_id) o };

    fn is(&self, order: &Order) -> bool {
        is_number(self.order_id, order)
    }
}

/// Whether an order has this OrderID.
fn is_number(order_id: u64, order: &Order) -> bool
    ensures { result ≡ table.has_number (decimal order_id) order.now }
{
    order.order_id == order_id
}

impl Keyed<NumberKey> for Order {
    ghost has = { keys.has_number_key };

    ghost respects_eq = { number-alike };

    fn has_key(&self, key: &NumberKey) -> bool {
        is_key_of_number(key, self)
    }
}

/// Whether a key is the number of an order.
fn is_key_of_number(key: &NumberKey, order: &Order) -> bool
    ensures { result ≡ keys.has_number_key key.now order.now }
{
    key.number == order.order_id
}

/// The order of a client that goes by a ClOrdID.
#[derive(Clone, Copy)]
pub(crate) struct ByName<'a> {
    pub client: u16,
    pub id: &'a [u8],
}

impl<'a> Sought<Order> for ByName<'a> {
    ghost sought = { λ q o. table.is_named q.client q.id.now o };

    fn is(&self, order: &Order) -> bool {
        is_named(self.client, self.id, order)
    }
}

/// Whether an order is the client's and goes by a ClOrdID.
fn is_named(client: u16, id: &[u8], order: &Order) -> bool
    ensures { result ≡ table.is_named client id.now order.now }
{
    order.client == client && goes_by(id, order)
}

/// Whether an order goes by a ClOrdID.
fn goes_by(id: &[u8], order: &Order) -> bool
    ensures { result ≡ goes_by id.now (chained order.now) }
{
    order.cl_ord_id.as_slice() == id
        || (is_of_replaces(id, order.replaces.as_slice()) || is_of_cancel(id, &order.cancel))
}

/// Whether one of the pending replaces has this ClOrdID.
fn is_of_replaces(id: &[u8], replaces: &[Replacing]) -> bool
    ensures { result ≡ list_any (keys.is_of_replacing id.now) replaces.now }
{
    replaces
        .iter()
        .any(|replacing| is_of_replacing(id, replacing))
}

/// Whether a replace has this ClOrdID.
fn is_of_replacing(id: &[u8], replacing: &Replacing) -> bool
    ensures { result ≡ keys.is_of_replacing id.now replacing.now }
{
    replacing.message.cl_ord_id.as_slice() == id
}

/// Whether a pending cancel has this ClOrdID.
fn is_of_cancel(id: &[u8], cancel: &Option<Boxed<Cancelling>>) -> bool
    ensures { (client order_id : ℕ) → result ≡ has_cancel_id id.now
        (option_map (cancel_seen client order_id) cancel.now) }
{
    match cancel {
        None => false,
        Some(cancelling) => cancelling.get().message.cl_ord_id.as_slice() == id,
    }
}

impl Keyed<NameKey> for Order {
    ghost has = { keys.has_name_key };

    ghost respects_eq = { name-alike };

    fn has_key(&self, key: &NameKey) -> bool {
        has_name(self, key)
    }
}

/// Whether a key is that of an order's client with an id that the order goes by.
fn has_name(order: &Order, key: &NameKey) -> bool
    ensures { result ≡ keys.has_name_key key.now order.now }
{
    *key == NameKey::of(order.client, order.cl_ord_id.as_slice())
        || (is_key_of_replaces(key, order.client, order.replaces.as_slice())
            || is_key_of_cancel(key, order.client, &order.cancel))
}

/// Whether a key is that of a client with the id of one of the pending replaces.
fn is_key_of_replaces(key: &NameKey, client: u16, replaces: &[Replacing]) -> bool
    ensures { result ≡ list_any (keys.is_key_of_replacing key.now client) replaces.now }
{
    replaces
        .iter()
        .any(|replacing| is_key_of_replacing(key, client, replacing))
}

/// Whether a key is that of a client with the id of a replace.
fn is_key_of_replacing(key: &NameKey, client: u16, replacing: &Replacing) -> bool
    ensures { result ≡ keys.is_key_of_replacing key.now client replacing.now }
{
    *key == NameKey::of(client, replacing.message.cl_ord_id.as_slice())
}

/// Whether a key is that of a client with the id of a pending cancel.
fn is_key_of_cancel(key: &NameKey, client: u16, cancel: &Option<Boxed<Cancelling>>) -> bool
    ensures { (order_id : ℕ) → result ≡ keys.is_key_of_cancel key.now client
        (option_map (cancel_seen client order_id) cancel.now) }
{
    match cancel {
        None => false,
        Some(cancelling) => {
            *key == NameKey::of(client, cancelling.get().message.cl_ord_id.as_slice())
        }
    }
}

/// The key of a client with the id of a pending cancel.
pub(crate) fn key_of_cancel(client: u16, cancel: &Option<Boxed<Cancelling>>) -> Option<NameKey>
    ensures { (order_id : ℕ) (k : Key) → keys.is_key_of_cancel k client
        (option_map (cancel_seen client order_id) cancel.now) ≡ true → result ≡ Some k }
{
    match cancel {
        None => None,
        Some(cancelling) => Some(NameKey::of(
            client,
            cancelling.get().message.cl_ord_id.as_slice(),
        )),
    }
}

/// The token that a port knows by a text.
#[derive(Clone, Copy)]
pub(crate) struct ByToken<'a> {
    pub port: u16,
    pub token: &'a [u8; 14],
}

impl<'a> Sought<GivenToken> for ByToken<'a> {
    ghost sought = { λ q g. table.is_token q.port q.token.now g };

    fn is(&self, given: &GivenToken) -> bool {
        is_token(self.port, self.token, given)
    }
}

/// Whether a port knows a token by this text.
fn is_token(port: u16, token: &[u8; 14], given: &GivenToken) -> bool
    ensures { result ≡ table.is_token port token.now given.now }
{
    given.port == port && is_same_token(&given.token, token)
}

impl Keyed<TokenKey> for GivenToken {
    ghost has = { keys.has_token_key };

    ghost respects_eq = { token-alike };

    fn has_key(&self, key: &TokenKey) -> bool {
        *key == TokenKey::of(self.port, &self.token)
    }
}
