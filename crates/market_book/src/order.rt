//! One order in the book.

ghost use Rattle.std.specs.Prelude.{◌≡◌, ◌≤◌, ◌<◌, ◌+◌, ◌^◌, ◌*◌, OnOk, OnErr, Some};
ghost use Rattle.std.specs.List.{find, list_any};
ghost use Rattle.std.specs.Prelude.{map};
ghost use Rattle.market_law.specs.order_law.Life.{stands_as};
ghost use Rattle.market_law.specs.order_law.Life.{marked as law_marked};
ghost use Rattle.market_law.specs.Machine as law;
ghost use Rattle.market_law.specs.Numbers.{shares-fit};
ghost use Rattle.market_law.specs.Rows as rows;
ghost use Rattle.market_book.specs.Tokens.{asks_for};

use crate::sides::fix_side;
use market_law::{BookRow, Trading};
use order_law::Trade;
use ouch_codec::{EnterOrder, OrderState, Replace};
use std::alloc::{AllocError, Global};
use std::marker::Model;

/// An order that was accepted, with all that it became.
#[derive(Drop)]
pub struct BookedOrder {
    entered: EnterOrder,
    /// Those that were taken, the newest first.
    replacements: Vec<Replace>,
    unfilled: u32,
    executed: u32,
    cancelled: u128,
    /// Shares times price of the trades that stand, in 1/10,000.
    value: u128,
    /// The newest first.
    trades: Vec<Trade>,
    /// Some of it was traded since it was accepted, or replaced last.
    has_traded: bool,
    ghost unfilled_set: { unfilled < 2 ^ 32 },
}

impl Model for BookedOrder {
    ghost use Rattle.std.specs.Prelude.{◌≤◌, ◌+◌, ◌*◌, ◌^◌, vec_len};
    ghost use Rattle.market_law.specs.Machine as law;

    ghost Value = { law.BookOrder };

    ghost view = { λ o. record {
      entered = o.entered;
      replacements = o.replacements.items;
      unfilled = o.unfilled;
      executed = o.executed;
      cancelled = o.cancelled;
      value = o.value;
      trades = o.trades.items;
      has_traded = o.has_traded;
      unfilled_set = o.unfilled_set;
    } };

    ghost invariant = { λ o. (o.executed + o.unfilled ≤ 999_999)
        × (o.cancelled + o.unfilled ≤ 1_000_000 * (vec_len o.replacements + 1))
        × (o.value ≤ 2 ^ 64 * vec_len o.trades) };
}

impl BookedOrder {
    /// A new order, live or dead. Takes no memory.
    pub fn new(alloc: Global, entered: &EnterOrder, state: OrderState) -> BookedOrder
        ensures { result ≡ law.opened_in_book entered.now.shares
            (shares-fit entered.now.shares entered.now.shares_set.1) state (law.unopened entered.now) }
    {
        let (unfilled, cancelled) = match state {
            OrderState::Live => (entered.shares, 0),
            OrderState::Dead => (0, u128::from(entered.shares)),
        };
        BookedOrder {
            entered: *entered,
            replacements: Vec::new(alloc),
            unfilled,
            executed: 0,
            cancelled,
            value: 0,
            trades: Vec::new(alloc),
            has_traded: false,
        }
    }

    /// What is open, in shares.
    pub fn unfilled(&self) -> u32
        ensures { result ≡ self.now.unfilled }
    {
        self.unfilled
    }

    /// What is executed, in shares, without the trades that were broken.
    pub fn executed(&self) -> u32
        ensures { result ≡ self.now.executed }
    {
        self.executed
    }

    /// As it came.
    pub fn entered(&self) -> &EnterOrder
        ensures { result.now ≡ self.now.entered }
    {
        &self.entered
    }

    /// The token that messages of it are on.
    pub fn live_token(&self) -> &[u8; 14]
        ensures { result.now ≡ (law.live_of self.now).bytes }
    {
        match self.replacements.first() {
            Some(request) => &request.replacement_token,
            None => &self.entered.token,
        }
    }

    /// It goes by this token, and something of it is open.
    pub fn is_live_as(&self, token: &[u8; 14]) -> bool
        ensures { result ≡ law.is_live_as token.now self.now }
    {
        *self.live_token() == *token && self.unfilled > 0
    }

    /// The token is the one that it goes by, or one that it went by before a replace.
    pub fn has_had(&self, token: &[u8; 14]) -> bool
        ensures { result ≡ rows.has_had token.now self.now }
    {
        asked_for(self.replacements.as_slice(), token) || *token == self.entered.token
    }

    /// Its side and its quantities.
    pub fn row(&self) -> BookRow
        ensures { result ≡ rows.row_of_order (Some self.now) }
    {
        BookRow {
            side: Some(fix_side(self.entered.side)),
            executed: u64::from(self.executed),
            unfilled: u64::from(self.unfilled),
            cancelled: self.cancelled,
            value: self.value,
        }
    }

    /// So many shares, 1 or more, may leave what is open.
    pub fn is_open_for(&self, shares: u32) -> bool
        ensures { result ≡ law.is_open_for shares self.now }
    {
        1 <= shares && shares <= self.unfilled
    }

    /// Its minimum quantity: that of the Enter Order, or of the last Replace Order that was taken.
    fn minimum(&self) -> u32
        ensures { result ≡ law.minimum_of self.now }
    {
        match self.replacements.first() {
            Some(request) => request.minimum_quantity,
            None => self.entered.minimum_quantity,
        }
    }

    /// So many shares, 1 or more, may be traded: what is open has as many, and the first trade since the order was
    /// accepted, or replaced last, is of its minimum quantity at least.
    ///
    /// Source: OUCH 4.2, "Enter Order Message", Minimum Quantity.
    pub fn may_trade(&self, shares: u32) -> bool
        ensures { result ≡ law.may_trade shares self.now }
    {
        self.is_open_for(shares) && (self.has_traded || self.minimum() <= shares)
    }

    /// It has a trade with this number that stands.
    pub fn has_trade(&self, match_number: u64) -> bool
        ensures { result ≡ law.has_trade match_number self.now }
    {
        standing(self.trades.as_slice(), match_number).is_some()
    }

    /// So many shares leave what is open, of which there are as many.
    pub fn take_off(&mut self, shares: u32)
        requires { shares ≤ self.old.unfilled }
        ensures { self.new ≡ law.taken_off shares self.old }
    {
        self.unfilled -= shares;
        self.cancelled += u128::from(shares);
    }

    /// A trade by this number, of at most what is open. `AllocError` leaves the order as it was.
    pub fn trade(&mut self, match_number: u64, trading: &Trading) -> Result<(), AllocError>
        requires { trading.now.shares ≤ self.old.unfilled }
        ensures traded { OnOk result (self.new ≡ law.traded_in_book match_number trading.now self.old) }
        ensures err { OnErr result (self.new ≡ self.old) }
    {
        self.trades.insert(
            0,
            Trade {
                match_number,
                shares: trading.shares,
                price: trading.price,
                is_broken: false,
            },
        )?;
        self.has_traded = true;
        self.unfilled -= trading.shares;
        self.executed += trading.shares;
        self.value += u128::from(trading.shares) * u128::from(trading.price);
        Ok(())
    }

    /// The trade with this number that stands is taken back. What was open stays open.
    pub fn break_trade(&mut self, match_number: u64)
        ensures { self.new ≡ law.broken_off match_number self.old }
    {
        let Some(trade) = standing(self.trades.as_slice(), match_number) else {
            return;
        };
        self.executed = self.executed.saturating_sub(trade.shares);
        let value = u128::from(trade.shares) * u128::from(trade.price);
        self.value = self.value.saturating_sub(value);
        mark(&mut self.trades, match_number);
    }

    /// It goes by the request's new token from now on, with so many shares open, or dead, and its next trade is its
    /// first one again. `AllocError` leaves it as it was.
    pub fn replace(
        &mut self,
        request: &Replace,
        shares: u32,
        state: OrderState,
    ) -> Result<(), AllocError>
        requires { self.old.executed + shares ≤ 999_999 }
        ensures moved { OnOk result ((fit : shares < 2 ^ 32)
            → self.new ≡ law.moved request.now shares fit state self.old) }
        ensures err { OnErr result (self.new ≡ self.old) }
    {
        self.replacements.insert(0, *request)?;
        self.has_traded = false;
        match state {
            OrderState::Live => self.unfilled = shares,
            OrderState::Dead => {
                self.unfilled = 0;
                self.cancelled += u128::from(shares);
            }
        }
        Ok(())
    }
}

/// One of these replaces asked for the token.
fn asked_for(replacements: &[Replace], token: &[u8; 14]) -> bool
    ensures { result ≡ list_any (asks_for token.now) replacements.now }
{
    for request in replacements {
        if *token == request.replacement_token {
            return true;
        }
    }
    false
}

/// The trade has this number and stands.
fn stands(match_number: u64, trade: &Trade) -> bool
    ensures { result ≡ stands_as match_number trade.now }
{
    trade.match_number == match_number && !trade.is_broken
}

/// The trade with this number that stands.
fn standing(trades: &[Trade], match_number: u64) -> Option<Trade>
    ensures { result ≡ find (stands_as match_number) trades.now }
{
    for trade in trades {
        if stands(match_number, trade) {
            return Some(*trade);
        }
    }
    None
}

/// A trade, marked as broken where it has this number.
fn marked(match_number: u64, trade: Trade) -> Trade
    ensures { result ≡ law_marked match_number trade }
{
    if trade.match_number == match_number {
        Trade {
            is_broken: true,
            ..trade
        }
    } else {
        trade
    }
}

/// Marks the trades with this number as broken.
fn mark(trades: &mut Vec<Trade>, match_number: u64)
    ensures { trades.new.items ≡ map (law_marked match_number) trades.old.items }
{
    for trade in trades.iter_mut() {
        *trade = marked(match_number, *trade);
    }
}
