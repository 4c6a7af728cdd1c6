//! The list of orders, and the list of tokens that were given.

ghost use Rattle.std.specs.Prelude.{◌≡◌, ◌<◌, true, decimal, length, nat_lt};
ghost use Rattle.std.specs.List.{count_by};
ghost use Rattle.undo_orders.specs.orders.order_law.Life.{is_closed};
ghost use Rattle.order_table.specs.Held.{IsCounted};

use crate::client_sums::ClientSums;
use crate::order_list::{OrderList, client_of};
use crate::sums::Sums;
use crate::token_list::TokenList;
use order_law::Stage;
use orders::{Cancelling, Change, Order, Replacing};
use std::alloc::{AllocError, Global};
use std::hash::{BuildHasher, BuildHasherDefault, FoldHasher};
use std::marker::Model;

/// A token that was given for an order.
#[derive(Drop)]
pub struct GivenToken {
    /// The number of the port that knows it, from 1.
    pub port: u16,
    /// Its text, padded right with spaces.
    pub token: [u8; 14],
    /// OrderID (37) of its order.
    pub order_id: u64,
    /// A replace asked for it, and not the new order.
    pub is_replacement: bool,
}

impl Model for GivenToken {
    ghost use Rattle.std.specs.Prelude.{decimal};
    ghost use Rattle.order_machine.specs.Table as table;

    ghost Value = { table.GivenToken };

    ghost view = { λ g. record {
      port = g.port;
      text = g.token;
      order = decimal g.order_id;
      is_replacement = g.is_replacement;
    } };
}

/// The accepted orders and the tokens that were given. Contracts see the newest first, now and as they were settled:
/// `undo` puts back what was there at the last `settle`, and no orders where there was none.
///
/// ClOrdIDs are found by an index over any hasher, which changes nothing but how fast they are found. OrderIDs and
/// tokens, which the gateway gives itself, are found by the fixed one: nobody else can choose them.
pub struct Table<S: BuildHasher + Drop = BuildHasherDefault<FoldHasher>> {
    orders: OrderList<S>,
    tokens: TokenList,
    /// What the orders of each client come to.
    sums: ClientSums,
    ghost counted: { IsCounted tokens.now sums.now orders.now },
    ghost settled_counted: { IsCounted tokens.settled sums.settled orders.settled },
}

// Not derived: then each way out drops it in one call (docs/DECISIONS.md, "Drops").
impl<S: BuildHasher + Drop> Drop for Table<S> {
    fn drop(self) {
        let Table {
            orders: _,
            tokens: _,
            sums: _,
        } = self;
    }
}

impl<S: BuildHasher + Drop> Model for Table<S> {
    ghost use Rattle.std.specs.Prelude.{reverse};
    ghost use Rattle.order_table.specs.Held as held;

    ghost Value = { held.Held };

    ghost view = { λ t. record {
      orders = reverse t.orders.now;
      tokens = reverse t.tokens.now;
      settled = record { orders = reverse t.orders.settled; tokens = reverse t.tokens.settled };
    } };
}

impl Table {
    ghost use Rattle.std.specs.Prelude.{[]};

    /// No orders and no tokens, with the fixed seed. Takes no memory.
    pub fn new(alloc: Global) -> Table
        ensures orders { result.orders ≡ [] }
        ensures tokens { result.tokens ≡ [] }
        ensures settled { result.settled ≡ record { orders = []; tokens = [] } }
    {
        Table {
            orders: OrderList::new(alloc),
            tokens: TokenList::new(alloc),
            sums: ClientSums::new(alloc),
        }
    }
}

impl<S: BuildHasher + Drop> Table<S> {
    ghost use Rattle.std.specs.Prelude.{◌≤◌, [], ◌∷◌, ◌++◌, IfOk, OnErr, MatchOption, Some, None, decimal, length};
    ghost use Rattle.std.specs.List.{count_by};
    ghost use Rattle.std.specs.Prelude.{false};
    ghost use Rattle.undo_orders.specs.orders.order_law.Life.{is_closed};
    ghost use Rattle.order_machine.specs.OrderRecord as record_of;
    ghost use Rattle.order_machine.specs.OrderRecord.{at};
    ghost use Rattle.order_machine.specs.Table.{is_replacement_of, open_count, put};
    ghost use Rattle.undo_orders.specs.Changes.{Fits, changed_by};
    ghost use Rattle.order_table.specs.Held.{changed, found, found_by_id, put_back, settled_now, with_number};
    ghost use Rattle.order_table.specs.Sums.{executed_sum, value_sum};
    ghost use Rattle.undo_orders.specs.Seen.{cancel_seen, replace_seen};

    /// No orders and no tokens, with a hasher of ClOrdIDs. Takes no memory.
    pub fn with_hasher(alloc: Global, hasher: S) -> Table<S>
        ensures orders { result.orders ≡ [] }
        ensures tokens { result.tokens ≡ [] }
        ensures settled { result.settled ≡ record { orders = []; tokens = [] } }
    {
        Table {
            orders: OrderList::with_hasher(alloc, hasher),
            tokens: TokenList::new(alloc),
            sums: ClientSums::new(alloc),
        }
    }

    /// One order more, which has had one token and has no pending replace, and the token that it was given.
    /// `AllocError` leaves the table as it was.
    pub fn add(&mut self, order: Order, given: GivenToken) -> Result<(), AllocError>
        requires few { length order.tokens ≤ 1 }
        requires none { order.replaces ≡ [] }
        ensures added { IfOk result (λ nothing. self.new
            ≡ record self.old { orders = order ∷ self.old.orders; tokens = given ∷ self.old.tokens }) }
        ensures settled { self.new.settled ≡ self.old.settled }
        ensures err { OnErr result (self.new ≡ self.old) }
    {
        let client = client_of(&order);
        let becomes = Sums::of(&order);
        self.sums.make_room(client)?;
        self.tokens.reserve_push()?;
        self.orders.reserve_push()?;
        self.tokens.push(given);
        self.orders.push(order);
        self.sums.exchange(client, Sums::none(), becomes);
        Ok(())
    }

    /// How many tokens were given.
    pub fn token_count(&self) -> usize
        ensures { result ≡ length self.now.tokens }
    {
        self.tokens.as_slice().len()
    }

    /// How many orders of a client aren't closed. No order is looked at.
    pub fn open_count(&self, client: u16) -> usize
        ensures { result ≡ open_count self.now.orders client }
    {
        self.sums.of(client).still_open
    }

    /// CumQty (14) of a client's orders in sum, in shares. No order is looked at.
    pub fn executed_shares(&self, client: u16) -> u128
        ensures { result ≡ executed_sum self.now.orders client }
    {
        self.sums.of(client).executed
    }

    /// Shares times price of the trades of a client's orders that stand, in sum, in 1/10,000. No order is looked at.
    pub fn executed_value(&self, client: u16) -> u128
        ensures { result ≡ value_sum self.now.orders client }
    {
        self.sums.of(client).value
    }

    /// The order that a token of a port leads to.
    pub fn by_token(&self, port: u16, token: &[u8; 14]) -> Option<&Order>
        ensures { MatchOption result (found self.now port token.now ≡ None)
            (λ order. found self.now port token.now ≡ Some order.now) }
    {
        match self.tokens.token_place(port, token) {
            None => None,
            Some(place) => self.by_number(self.tokens.item_at(place).order_id),
        }
    }

    /// The order with an OrderID (37).
    pub fn by_number(&self, order_id: u64) -> Option<&Order>
        ensures { MatchOption result (with_number self.now order_id ≡ None)
            (λ order. with_number self.now order_id ≡ Some order.now) }
    {
        match self.orders.place_of(order_id) {
            None => None,
            Some(place) => Some(self.orders.item_at(place)),
        }
    }

    /// The order of a client that goes by this ClOrdID: its own, that of the last replace of it, or that of a pending
    /// request.
    pub fn by_id(&self, client: u16, id: &[u8]) -> Option<&Order>
        ensures { MatchOption result (found_by_id self.now client id.now ≡ None)
            (λ order. found_by_id self.now client id.now ≡ Some order.now) }
    {
        match self.orders.named_place(client, id) {
            None => None,
            Some(place) => Some(self.orders.item_at(place)),
        }
    }

    /// How many replaces of the order with an OrderID were accepted. No token is looked at.
    pub fn replace_count(&self, order_id: u64) -> usize
        ensures { result ≡ count_by (is_replacement_of (decimal order_id)) self.now.tokens }
    {
        self.tokens.replace_count(order_id)
    }

    /// The order with an OrderID, as a message of the market changes it, which fits it: whether it is closed then.
    /// Where no order has it, nothing changes, and it is `false`. `AllocError` leaves the table as it was.
    pub fn apply(
        &mut self,
        alloc: Global,
        order_id: u64,
        change: Change,
    ) -> Result<bool, AllocError>
        requires { (o : record_of.OrderRecord) → with_number self.old order_id ≡ Some o → Fits change o }
        ensures changed { IfOk result (λ closed. (o : record_of.OrderRecord) → with_number self.old order_id ≡ Some o
            → self.new ≡ changed (changed_by change o) self.old) }
        ensures closed { IfOk result (λ closed. (o : record_of.OrderRecord) → with_number self.old order_id ≡ Some o
            → closed ≡ is_closed (changed_by change o).stage) }
        ensures unknown { with_number self.old order_id ≡ None → self.new ≡ self.old }
        ensures none { IfOk result (λ closed. with_number self.old order_id ≡ None → closed ≡ false) }
        ensures settled { self.new.settled ≡ self.old.settled }
        ensures err { OnErr result (self.new ≡ self.old) }
    {
        match self.orders.place_of(order_id) {
            None => Ok(false),
            Some(place) => {
                let order = self.orders.item_at(place);
                let client = client_of(order);
                let was = Sums::of(order);
                self.sums.reserve()?;
                self.orders.apply(alloc, place, change)?;
                let changed = self.orders.item_at(place);
                let closed = is_closed(changed);
                let becomes = Sums::of(changed);
                self.sums.exchange(client, was, becomes);
                Ok(closed)
            }
        }
    }

    /// A replace more of the order with an OrderID is pending, which was given a token; it isn't the 65,536th. Where no
    /// order has the OrderID, or four replaces of it are pending already, nothing changes. `AllocError` leaves the
    /// table as it was.
    pub fn accept_replace(
        &mut self,
        alloc: Global,
        order_id: u64,
        replacing: Replacing,
        given: GivenToken,
    ) -> Result<(), AllocError>
        requires room { count_by (is_replacement_of (decimal order_id)) self.old.tokens < 65_535 }
        requires of_order { given.order ≡ decimal order_id }
        requires is_replacement { given.is_replacement ≡ true }
        ensures accepted { IfOk result (λ nothing. (o : record_of.OrderRecord) → with_number self.old order_id ≡ Some o
            → length o.replaces < 4 → self.new ≡ record self.old {
              orders = put (at o
                  (o.replaces ++ replace_seen o.new.client order_id replacing ∷ []) o.cancel) self.old.orders;
              tokens = given
                  ∷ self.old.tokens;
            }) }
        ensures full { (o : record_of.OrderRecord) → with_number self.old order_id ≡ Some o → 4 ≤ length o.replaces
            → self.new ≡ self.old }
        ensures unknown { with_number self.old order_id ≡ None → self.new ≡ self.old }
        ensures settled { self.new.settled ≡ self.old.settled }
        ensures err { OnErr result (self.new ≡ self.old) }
    {
        if let Some(place) = self.orders.place_of(order_id)
            && takes_replace(self.orders.item_at(place))
        {
            self.tokens.reserve_push()?;
            self.orders.accept_replace(alloc, place, replacing)?;
            self.tokens.push(given);
        }
        Ok(())
    }

    /// A cancel of the order with an OrderID is pending. Where no order has it, nothing changes. `AllocError` leaves
    /// the table as it was.
    pub fn accept_cancel(
        &mut self,
        alloc: Global,
        order_id: u64,
        cancelling: Cancelling,
    ) -> Result<(), AllocError>
        ensures accepted { IfOk result (λ nothing. (o : record_of.OrderRecord) → with_number self.old order_id ≡ Some o
            → self.new ≡ changed (at o o.replaces (Some (cancel_seen o.new.client order_id cancelling))) self.old) }
        ensures unknown { with_number self.old order_id ≡ None → self.new ≡ self.old }
        ensures settled { self.new.settled ≡ self.old.settled }
        ensures err { OnErr result (self.new ≡ self.old) }
    {
        if let Some(place) = self.orders.place_of(order_id) {
            self.orders.accept_cancel(alloc, place, cancelling)?;
        }
        Ok(())
    }

    /// From now on the table is put back to how it is now. Takes no memory.
    pub fn settle(&mut self)
        ensures { self.new ≡ settled_now self.old }
    {
        self.orders.settle();
        self.tokens.settle();
        self.sums.settle();
    }

    /// Puts the table back to how it was settled. Takes no memory.
    pub fn undo(&mut self)
        ensures { self.new ≡ put_back self.old }
    {
        self.orders.undo();
        self.tokens.undo();
        self.sums.undo();
    }
}

/// Whether fewer than four replaces of an order are pending.
fn takes_replace(order: &Order) -> bool
    ensures { result ≡ nat_lt (length order.now.replaces) 4 }
{
    order.replaces.as_slice().len() < 4
}

/// Whether an order is closed.
fn is_closed(order: &Order) -> bool
    ensures { result ≡ is_closed order.now.stage }
{
    order.progress.stage == Stage::Closed
}
