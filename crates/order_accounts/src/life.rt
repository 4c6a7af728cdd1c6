//! The life of one order, from the market's messages: a plain fold, for tests and for audits.
//!
//! It keeps all that the messages said, knows no other order, and looks nothing up: the definition, run.

ghost use Rattle.std.specs.Prelude.{◌≡◌, ◌≤◌, ◌<◌, ◌+◌, ◌^◌, ◌*◌, IfOk, OnOk, map, reverse, bytes_eq};
ghost use Rattle.std.specs.List.{find, list_any};
ghost use Rattle.ouch_codec.specs.declared.outbound.Outbound.TheVariants as market;
ghost use Rattle.order_law.specs.Life as spec;
ghost use Rattle.order_accounts.specs.Growth.{LifeGrows};

use order_law::{Account, Stage, Trade};
use ouch_codec::{Accepted, Broken, Canceled, Executed, OrderState, Outbound, Rejected, Replaced};
use std::alloc::{AllocError, Global};
use std::marker::Model;

/// What the market's messages say of one order.
#[derive(Drop)]
pub struct Life {
    /// The byte that FIX writes.
    side: u8,
    /// The tokens that the chain has had live, the live one first.
    tokens: Vec<Vec<u8>>,
    stage: Stage,
    unfilled: u32,
    executed: u128,
    cancelled: u128,
    value: u128,
    /// The newest first.
    trades: Vec<Trade>,
}

impl Model for Life {
    ghost use Rattle.std.specs.Prelude.{map};
    ghost use Rattle.order_law.specs.Life as spec;

    ghost Value = { spec.Life };

    ghost view = { λ l. record {
      side = l.side;
      tokens = map (λ t. t.items) l.tokens.items;
      stage = l.stage;
      unfilled = l.unfilled;
      executed = l.executed;
      cancelled = l.cancelled;
      value = l.value;
      trades = l.trades.items;
    } };
}

impl Life {
    /// Its side and its quantities.
    pub fn account(&self) -> Account
        ensures { result ≡ spec.account_of self.now }
    {
        Account {
            side: self.side,
            unfilled: self.unfilled,
            executed: self.executed,
            cancelled: self.cancelled,
            value: self.value,
            is_closed: self.stage == Stage::Closed,
        }
    }

    /// The life of an order before any message.
    fn born(alloc: Global, root: &[u8], side: u8) -> Result<Life, AllocError>
        ensures { IfOk result (λ life. life ≡ spec.born root.now side) }
    {
        let mut tokens = Vec::new(alloc);
        tokens.push(Vec::from_slice(alloc, root)?)?;
        Ok(Life {
            side,
            tokens,
            stage: Stage::Waiting,
            unfilled: 0,
            executed: 0,
            cancelled: 0,
            value: 0,
            trades: Vec::new(alloc),
        })
    }

    /// What a message makes of the order.
    fn hear(&mut self, alloc: Global, message: &Outbound) -> Result<(), AllocError>
        requires executed { self.old.executed < 2 ^ 100 }
        requires cancelled { self.old.cancelled < 2 ^ 100 }
        requires value { self.old.value ≤ 2 ^ 127 }
        ensures life { OnOk result (self.new ≡ spec.after self.old message.now) }
        ensures grows { OnOk result (LifeGrows self.old self.new) }
    {
        match message {
            Outbound::Accepted(message) => self.hear_accepted(message),
            Outbound::Replaced(message) => self.hear_replaced(alloc, message)?,
            Outbound::Executed(message) => self.hear_executed(message)?,
            Outbound::Canceled(message) => self.hear_canceled(message),
            Outbound::Broken(message) => self.hear_broken(message),
            Outbound::Rejected(message) => self.hear_rejected(message),
            _ => {}
        }
        Ok(())
    }

    /// An Accepted of an order that waits.
    fn hear_accepted(&mut self, message: &Accepted)
        requires { self.old.cancelled < 2 ^ 100 }
        ensures life { self.new ≡ spec.after self.old (market.Accepted message.now) }
        ensures grows { LifeGrows self.old self.new }
    {
        if self.is_live(&message.token) && self.stage == Stage::Waiting {
            self.enter(message.shares, is_dead(message.order_state));
        }
    }

    /// A Canceled of the live token.
    fn hear_canceled(&mut self, message: &Canceled)
        requires { self.old.cancelled < 2 ^ 100 }
        ensures life { self.new ≡ spec.after self.old (market.Canceled message.now) }
        ensures grows { LifeGrows self.old self.new }
    {
        if self.is_live(&message.token) {
            self.decrease(message.decrement);
        }
    }

    /// A Broken Trade of a token of the chain.
    fn hear_broken(&mut self, message: &Broken)
        ensures life { self.new ≡ spec.after self.old (market.Broken message.now) }
        ensures grows { LifeGrows self.old self.new }
    {
        if self.is_of(&message.token) {
            self.take_back(message.match_number);
        }
    }

    /// A Rejected of an order that waits.
    fn hear_rejected(&mut self, message: &Rejected)
        ensures life { self.new ≡ spec.after self.old (market.Rejected message.now) }
        ensures grows { LifeGrows self.old self.new }
    {
        if self.is_live(&message.token) && self.stage == Stage::Waiting {
            self.stage = Stage::Closed;
        }
    }

    /// An Executed Order of the live token.
    fn hear_executed(&mut self, message: &Executed) -> Result<(), AllocError>
        requires executed { self.old.executed < 2 ^ 100 }
        requires value { self.old.value ≤ 2 ^ 127 }
        ensures life { OnOk result (self.new ≡ spec.after self.old (market.Executed message.now)) }
        ensures grows { OnOk result (LifeGrows self.old self.new) }
    {
        if self.is_live(&message.token) {
            self.trade(message.match_number, message.shares, message.price)?;
        }
        Ok(())
    }

    /// A Replaced of the live token.
    fn hear_replaced(&mut self, alloc: Global, message: &Replaced) -> Result<(), AllocError>
        requires { self.old.cancelled < 2 ^ 100 }
        ensures life { OnOk result (self.new ≡ spec.after self.old (market.Replaced message.now)) }
        ensures grows { OnOk result (LifeGrows self.old self.new) }
    {
        if self.is_live(&message.previous_token) {
            let token = Vec::from_slice(alloc, &message.token)?;
            self.tokens.insert(0, token)?;
            self.enter(message.shares, is_dead(message.order_state));
        }
        Ok(())
    }

    /// Over where nothing is open.
    fn settle(&mut self)
        ensures life { self.new ≡ spec.settled self.old }
        ensures grows { LifeGrows self.old self.new }
    {
        if self.unfilled == 0 {
            self.stage = Stage::Closed;
        }
    }

    /// All that is open is cancelled.
    fn die(&mut self)
        requires { self.old.cancelled < 2 ^ 100 }
        ensures life { self.new ≡ spec.dead self.old }
        ensures grows { LifeGrows self.old self.new }
    {
        self.stage = Stage::Closed;
        self.cancelled += u128::from(self.unfilled);
        self.unfilled = 0;
    }

    /// A Canceled takes shares away.
    fn decrease(&mut self, shares: u32)
        requires { self.old.cancelled < 2 ^ 100 }
        ensures life { self.new ≡ spec.decreased shares self.old }
        ensures grows { LifeGrows self.old self.new }
    {
        self.unfilled = self.unfilled.saturating_sub(shares);
        self.cancelled += u128::from(shares);
        self.settle();
    }

    /// In the book with so many shares, or dead at once.
    fn enter(&mut self, shares: u32, is_dead: bool)
        requires { self.old.cancelled < 2 ^ 100 }
        ensures life { self.new ≡ spec.opened shares is_dead self.old }
        ensures grows { LifeGrows self.old self.new }
    {
        self.stage = Stage::Working;
        self.unfilled = shares;
        if is_dead {
            self.die();
        }
    }

    /// A trade with this number, of so many shares at a price.
    fn trade(&mut self, match_number: u64, shares: u32, price: u32) -> Result<(), AllocError>
        requires executed { self.old.executed < 2 ^ 100 }
        requires value { self.old.value ≤ 2 ^ 127 }
        ensures life { OnOk result (self.new ≡ spec.traded match_number shares price self.old) }
        ensures grows { OnOk result (LifeGrows self.old self.new) }
    {
        self.trades.insert(
            0,
            Trade {
                match_number,
                shares,
                price,
                is_broken: false,
            },
        )?;
        self.unfilled = self.unfilled.saturating_sub(shares);
        self.executed += u128::from(shares);
        self.value += u128::from(shares) * u128::from(price);
        self.settle();
        Ok(())
    }

    /// The trade with this number that stands is taken back.
    fn take_back(&mut self, match_number: u64)
        ensures life { self.new ≡ spec.broken match_number self.old }
        ensures grows { LifeGrows self.old self.new }
    {
        let Some(trade) = standing(self.trades.as_slice(), match_number) else {
            return;
        };
        self.executed = self.executed.saturating_sub(u128::from(trade.shares));
        let value = u128::from(trade.shares) * u128::from(trade.price);
        self.value = self.value.saturating_sub(value);
        mark(&mut self.trades, match_number);
    }

    /// The token is the live one.
    fn is_live(&self, token: &[u8]) -> bool
        ensures { result ≡ spec.is_live self.now token.now }
    {
        match self.tokens.first() {
            Some(live) => token == live.as_slice(),
            None => token.is_empty(),
        }
    }

    /// The token is or was the live one.
    fn is_of(&self, token: &[u8]) -> bool
        ensures { result ≡ spec.is_of self.now token.now }
    {
        is_one_of(token, &self.tokens)
    }
}

/// The life of the order whose first token is `root`, after these messages, the oldest first. `side` is the byte that
/// FIX writes. A message that isn't the order's changes nothing, and no message is judged: what isn't lawful is taken
/// as it is.
///
/// Source: OUCH 4.2, "Outbound Messages".
pub fn life_of(
    alloc: Global,
    root: &[u8],
    side: u8,
    messages: &[Outbound],
) -> Result<Life, AllocError>
    ensures { IfOk result (λ life. life ≡ spec.life root.now side (reverse messages.now)) }
{
    let mut life = Life::born(alloc, root, side)?;
    for message in messages {
        life.hear(alloc, message)?;
    }
    Ok(life)
}

/// Whether the order was cancelled as it was answered.
fn is_dead(state: OrderState) -> bool
    ensures { result ≡ spec.is_dead state }
{
    match state {
        OrderState::Live => false,
        OrderState::Dead => true,
    }
}

/// The token is one of these.
fn is_one_of(token: &[u8], tokens: &Vec<Vec<u8>>) -> bool
    ensures { result ≡ list_any (λ known. bytes_eq token.now known.items) tokens.now.items }
{
    let mut found = false;
    for known in tokens {
        found = found || token == known.as_slice();
    }
    found
}

/// The trade has this number and stands.
fn stands_as(match_number: u64, trade: &Trade) -> bool
    ensures { result ≡ spec.stands_as match_number trade.now }
{
    trade.match_number == match_number && !trade.is_broken
}

/// The trade with this number that stands.
fn standing(trades: &[Trade], match_number: u64) -> Option<Trade>
    ensures { result ≡ find (spec.stands_as match_number) trades.now }
{
    for trade in trades {
        if stands_as(match_number, trade) {
            return Some(*trade);
        }
    }
    None
}

/// A trade, marked as broken where it has this number.
fn marked(match_number: u64, trade: Trade) -> Trade
    ensures { result ≡ spec.marked match_number trade }
{
    if trade.match_number == match_number {
        Trade {
            is_broken: true,
            ..trade
        }
    } else {
        trade
    }
}

/// Marks the trades with this number as broken.
fn mark(trades: &mut Vec<Trade>, match_number: u64)
    ensures { trades.new.items ≡ map (spec.marked match_number) trades.old.items }
{
    for trade in trades.iter_mut() {
        *trade = marked(match_number, *trade);
    }
}
