//! An accepted order.

ghost use Rattle.std.specs.Prelude.{◌≡◌, ◌≢◌, ◌≤◌, ◌<◌, ◌+◌, false, [], IfOk, length, map};
ghost use Rattle.order_machine.specs.order_law.declared.stage.Stage.TheVariants.{Waiting, Working};
ghost use Rattle.fix_types.specs.NewOrder.{new_order_fields};
ghost use Rattle.order_machine.specs.order_law.Asks.{total_of};
ghost use Rattle.order_machine.specs.OrderRecord.{OrderRecord, over_if};
ghost use Rattle.orders.specs.Changes.{with_quantities};
ghost use Rattle.orders.specs.Seen.{progressed, replacing_token};
ghost use Rattle.order_machine.specs.order_law.wire_law.Printable.{ArePrintable};

use crate::answering::{without, without_replaces};
use crate::boxed::Boxed;
use crate::change::Change;
use crate::earlier::{is_among, push_earlier};
use crate::progress::Progress;
use crate::replaces::Replaces;
use crate::requests::{Cancelling, Replacing};
use crate::symbol::Symbol;
use fix_types::{Character, ClOrdId, NewOrder};
use order_trades::{ToldTrade, Trades};
use std::alloc::{AllocError, Global};
use std::marker::Model;
use std::snapshot::Snapshot;
use tokens::NextTokens;
use wire_bytes::is_same_token;

/// An accepted order. Contracts see it as `order_machine`'s record.
pub struct Order {
    /// How far it has come.
    pub progress: Progress,
    /// The market's name for it.
    pub token: [u8; 14],
    /// The number of its client, from 1.
    pub client: u16,
    /// OrderID (37).
    pub order_id: u64,
    /// The number of the first token that it had.
    pub token_number: u64,
    /// The names that it had before, the oldest first.
    pub earlier: Vec<[u8; 14]>,
    /// What its client asked, for contracts alone: it takes no memory. What of it is read again stands below.
    pub asked: Snapshot<NewOrder>,
    /// Symbol (55), Side (54), OrderCapacity (528) and, in shares, OrderQty (38) that its client asked.
    pub symbol: Symbol,
    pub side: Character,
    pub order_capacity: Option<Character>,
    pub first_total: u64,
    /// ClOrdID (11) that it goes by: its own, or that of the last replace of it that was done.
    pub cl_ord_id: ClOrdId,
    /// Its trades, the oldest first: none while it waits.
    pub trades: Trades,
    /// The pending replaces of it, and the pending cancel, which was accepted after them.
    pub replaces: Replaces,
    pub cancel: Option<Boxed<Cancelling>>,
    ghost token_set: { ArePrintable token },
    ghost trades_set: { progress.stage ≡ Waiting → trades ≡ [] },
    ghost counted: { progress.tokens ≤ 1 + length earlier.items },
    ghost symbol_set: { symbol ≡ asked.value.symbol },
    ghost side_set: { side ≡ asked.value.side },
    ghost order_capacity_set: { order_capacity ≡ asked.value.order_capacity },
    ghost first_total_set: { first_total ≡ total_of (new_order_fields asked.value) },
    ghost total_set: { progress.stage ≡ Waiting → progress.total ≡ total_of (new_order_fields asked.value) },
    ghost replaces_set: { progress.tokens + length replaces ≤ 65_536 },
    ghost few: { length replaces ≤ 4 },
}

// Not derived: then each way out drops it in one call (docs/DECISIONS.md, "Drops").
impl Drop for Order {
    fn drop(self) {
        let Order {
            progress: _,
            token: _,
            client: _,
            order_id: _,
            token_number: _,
            earlier: _,
            asked: _,
            symbol: _,
            side: _,
            order_capacity: _,
            first_total: _,
            cl_ord_id: _,
            trades: _,
            replaces: _,
            cancel: _,
        } = self;
    }
}

impl Model for Order {
    ghost use Rattle.std.specs.Prelude.{[], ◌∷◌, Some, None, decimal, map, option_map, reverse};
    ghost use Rattle.fix_types.specs.NewOrder.{new_order_fields};
    ghost use Rattle.order_machine.specs.OrderRecord as record_of;
    ghost use Rattle.orders.specs.Seen.{cancel_seen, replace_seen, told_seen};

    ghost Value = { record_of.OrderRecord };

    ghost view = { λ o. record {
      new = record {
        client = o.client;
        message = new_order_fields o.asked.value;
        order = decimal o.order_id;
        token = Some o.token_number;
      };
      stage = o.progress.stage;
      is_refused = o.progress.is_refused;
      id = o.cl_ord_id;
      total = o.progress.total;
      price = o.progress.price;
      unfilled = o.progress.unfilled;
      executed = o.progress.executed;
      cancelled = o.progress.cancelled;
      value = o.progress.value;
      tokens = o.token ∷ reverse o.earlier.items;
      trades = reverse (map told_seen o.trades);
      replaces = map (replace_seen o.client o.order_id) o.replaces;
      cancel = option_map (cancel_seen o.client o.order_id) o.cancel;
    } };
}

impl Order {
    ghost use Rattle.std.specs.Prelude.{◌++◌, ◌∷◌, OnErr, OnOk, Some, bytes_eq, decimal};
    ghost use Rattle.std.specs.List.{list_any};
    ghost use Rattle.order_machine.specs.tokens.TokenText.{token_text};
    ghost use Rattle.fix_types.specs.NewOrder.{new_order_fields};
    ghost use Rattle.order_machine.specs.order_law.Asks.{limit_of};
    ghost use Rattle.order_machine.specs.order_law.Lawful.{is_first};
    ghost use Rattle.order_machine.specs.History.{last_token};
    ghost use Rattle.order_machine.specs.OrderRecord.{at, entered, last_after, live_token, replacements, still_after};
    ghost use Rattle.order_machine.specs.OrderRecord.{unasked};
    ghost use Rattle.orders.specs.Changes.{Fits, changed_by, replaced_as, with_quantities};
    ghost use Rattle.orders.specs.Seen.{cancel_of, progressed, replace_of};
    ghost use Rattle.orders.specs.declared.change.Change.TheVariants as changes;

    /// A new order that was accepted: it waits for the market. Its token is that of the number, its total and price are
    /// what its message asks. One growth at most: for its ClOrdID.
    pub fn entered(
        alloc: Global,
        client: u16,
        order_id: u64,
        token: [u8; 14],
        token_number: u64,
        message: &NewOrder,
        progress: Progress,
    ) -> Result<Order, AllocError>
        requires token { token ≡ token_text token_number }
        requires symbol { length message.now.symbol ≤ 8 }
        requires waits { progress.stage ≡ Waiting }
        requires refused { progress.is_refused ≡ false }
        requires total { progress.total ≡ total_of (new_order_fields message.now) }
        requires price { progress.price ≡ limit_of (new_order_fields message.now) }
        requires executed { progress.executed ≡ 0 }
        requires value { progress.value ≡ 0 }
        requires tokens { progress.tokens ≡ 1 }
        ensures { IfOk result (λ order. order ≡ entered (record {
          client = client;
          message = new_order_fields message.now;
          order = decimal order_id;
          token = Some token_number;
        })) }
    {
        Ok(Order {
            progress,
            token,
            client,
            order_id,
            token_number,
            earlier: Vec::new(alloc),
            asked: Snapshot::of(message),
            symbol: Symbol::of(&message.symbol),
            side: message.side,
            order_capacity: message.order_capacity,
            first_total: progress.total,
            cl_ord_id: ClOrdId::copied(alloc, message.cl_ord_id.as_slice())?,
            trades: Trades::new(),
            replaces: Replaces::new(),
            cancel: None,
        })
    }

    /// The order as a message of the market changes it, which fits it. `AllocError` leaves it as it was.
    pub fn apply(&mut self, alloc: Global, change: Change) -> Result<(), AllocError>
        requires { Fits change self.old }
        ensures changed { IfOk result (λ nothing. self.new ≡ changed_by change self.old) }
        ensures err { OnErr result (self.new ≡ self.old) }
    {
        match change {
            Change::Opened {
                shares,
                price,
                is_dead,
            } => self.open(shares, price, is_dead),
            Change::Replaced {
                shares,
                price,
                is_dead,
            } => self.replace_by(shares, price, is_dead)?,
            Change::Canceled(shares) => self.reduce(shares),
            Change::Traded(told) => self.add_trade(alloc, told)?,
            Change::Broken(told) => self.break_trade(told),
            Change::Refused => self.refuse(),
            Change::NotReplaced => self.end_replaces(),
            Change::NotCanceled(token) => self.answer(token),
        }
        Ok(())
    }

    /// How far it has come once a message of the market has changed it, which fits it.
    pub fn progress_after(&self, change: Change) -> Progress
        requires { Fits change self.now }
        ensures after { progressed result self.now ≡ with_quantities (changed_by change self.now) self.now }
        ensures waiting { result.stage ≡ Waiting → result.total ≡ total_of self.now.new.message }
    {
        match change {
            Change::Opened {
                shares,
                price,
                is_dead,
            } => over_if(is_dead, self.progress.opened(shares, price)),
            Change::Replaced {
                shares,
                price,
                is_dead,
            } if !self.replaces.is_empty() => {
                over_if(is_dead, self.progress.replaced(shares, price))
            }
            Change::Replaced { .. } => self.progress,
            Change::Canceled(shares) if shares == self.progress.unfilled => self.progress.gone(),
            Change::Canceled(shares) => self.progress.reduced(shares),
            Change::Traded(told) if told.trade.shares == self.progress.unfilled => {
                self.progress.filled(told.trade.shares, told.trade.price)
            }
            Change::Traded(told) => self.progress.traded(told.trade.shares, told.trade.price),
            Change::Broken(told) => self.progress.broken(told.trade.shares, told.trade.price),
            Change::Refused => self.progress.refused(),
            Change::NotReplaced | Change::NotCanceled(_) => self.progress,
        }
    }

    /// Whether a token is or was the one that it goes by.
    pub fn has_had(&self, token: &[u8; 14]) -> bool
        ensures { result ≡ list_any (bytes_eq token.now) self.now.tokens }
    {
        is_same_token(token, &self.token) || is_among(&self.earlier, token)
    }

    /// Whether a token is that of the oldest of its pending replaces.
    pub fn awaits(&self, token: &[u8; 14]) -> bool
        ensures { result ≡ is_first token.now (replacements self.now.replaces) }
    {
        match self.replaces.as_slice() {
            [] => false,
            [oldest, ..] => is_same_token(token, &oldest.token),
        }
    }

    /// The token that it goes by once all its pending replaces are done.
    pub fn next_token(&self) -> &[u8; 14]
        ensures { result.now ≡ last_token (live_token self.now) (replacements self.now.replaces) }
    {
        match self.replaces.as_slice() {
            [] => &self.token,
            [.., newest] => &newest.token,
        }
    }

    /// The tokens of its pending replaces, the oldest one's first.
    pub fn next_tokens(&self) -> NextTokens
        ensures { result ≡ replacements self.now.replaces }
    {
        tokens_of(self.replaces.as_slice())
    }

    /// Whether the Cancel Order of a token is the last of its pending cancel that isn't answered.
    pub fn is_last(&self, token: &[u8; 14]) -> bool
        ensures { result ≡ last_after (bytes_eq token.now) self.now.cancel }
    {
        match &self.cancel {
            None => false,
            Some(cancelling) => cancelling.get().is_last(token),
        }
    }

    /// Whether the Cancel Orders of the tokens of its pending replaces are the last of its pending cancel that aren't
    /// answered.
    pub fn is_last_of_replaces(&self) -> bool
        ensures { result ≡ last_after (λ token. list_any (bytes_eq token) (replacements self.now.replaces))
            self.now.cancel }
    {
        match &self.cancel {
            None => false,
            Some(cancelling) => cancelling.get().is_of_replaces(self.replaces.as_slice()),
        }
    }

    /// One more replace of it is pending, behind the others. With those it has had fewer than 65,536 tokens, and fewer
    /// than four are pending. `AllocError` leaves it as it was.
    pub fn accept_replace(&mut self, alloc: Global, replacing: Replacing) -> Result<(), AllocError>
        requires room { length self.old.tokens + length self.old.replaces < 65_536 }
        requires few { length self.old.replaces < 4 }
        ensures accepted { OnOk result (self.new
            ≡ at self.old (self.old.replaces ++ replace_of self.old replacing ∷ []) self.old.cancel) }
        ensures err { OnErr result (self.new ≡ self.old) }
    {
        self.replaces.push(alloc, replacing)
    }

    /// A cancel of it is pending.
    pub fn accept_cancel(&mut self, cancelling: Boxed<Cancelling>)
        ensures { self.new ≡ at self.old self.old.replaces (Some (cancel_of self.old cancelling)) }
    {
        self.cancel = Some(cancelling);
    }

    /// It is in the book, or dead at once.
    fn open(&mut self, shares: u32, price: u32, is_dead: bool)
        requires { Fits (changes.Opened shares price is_dead) self.old }
        ensures { self.new ≡ changed_by (changes.Opened shares price is_dead) self.old }
    {
        let opened = self.progress.opened(shares, price);
        if is_dead {
            self.progress = opened.gone();
            self.unask();
        } else {
            self.progress = opened;
        }
    }

    /// It is in the book under its oldest pending replace, or dead at once. `AllocError` leaves it as it was.
    fn replace_by(&mut self, shares: u32, price: u32, is_dead: bool) -> Result<(), AllocError>
        requires { Fits (changes.Replaced shares price is_dead) self.old }
        ensures changed { IfOk result (λ nothing. self.new
            ≡ replaced_as shares price is_dead self.old self.old.replaces) }
        ensures err { OnErr result (self.new ≡ self.old) }
    {
        self.earlier.reserve(1)?;
        if let Some(replacing) = self.replaces.take_first() {
            let live = self.token;
            let token = replacing.token;
            let cl_ord_id = replacing.message.into_cl_ord_id();
            self.progress = self.progress.replaced(shares, price);
            push_earlier(&mut self.earlier, live);
            self.token = token;
            self.cl_ord_id = cl_ord_id;
            self.answer(live);
            if is_dead {
                self.progress = self.progress.gone();
                self.unask();
            }
        }
        Ok(())
    }

    /// Takes shares off what is open; it is over if none is left.
    fn reduce(&mut self, shares: u32)
        requires { Fits (changes.Canceled shares) self.old }
        ensures { self.new ≡ changed_by (changes.Canceled shares) self.old }
    {
        if shares == self.progress.unfilled {
            self.progress = self.progress.gone();
            self.unask();
        } else {
            self.progress = self.progress.reduced(shares);
        }
    }

    /// One trade more; it is over where nothing is left. `AllocError` leaves it as it was.
    fn add_trade(&mut self, alloc: Global, told: ToldTrade) -> Result<(), AllocError>
        requires { Fits (changes.Traded told) self.old }
        ensures changed { IfOk result (λ nothing. self.new ≡ changed_by (changes.Traded told) self.old) }
        ensures err { OnErr result (self.new ≡ self.old) }
    {
        self.trades.push(alloc, told)?;
        let (shares, price) = (told.trade.shares, told.trade.price);
        if shares == self.progress.unfilled {
            self.progress = self.progress.filled(shares, price);
            self.unask();
        } else {
            self.progress = self.progress.traded(shares, price);
        }
        Ok(())
    }

    /// A trade is taken back.
    fn break_trade(&mut self, told: ToldTrade)
        requires { Fits (changes.Broken told) self.old }
        ensures { self.new ≡ changed_by (changes.Broken told) self.old }
    {
        self.trades.mark(told.trade.match_number);
        self.progress = self.progress.broken(told.trade.shares, told.trade.price);
    }

    /// The market rejects it.
    fn refuse(&mut self)
        requires { Fits changes.Refused self.old }
        ensures { self.new ≡ changed_by changes.Refused self.old }
    {
        self.progress = self.progress.refused();
        self.unask();
    }

    /// Its oldest pending replace is rejected: none is pending any more, and the Cancel Orders of their tokens are
    /// answered.
    fn end_replaces(&mut self)
        ensures { self.new ≡ changed_by changes.NotReplaced self.old }
    {
        self.cancel = without_replaces(self.cancel.take(), self.replaces.as_slice());
        self.replaces.clear();
    }

    /// The Cancel Order of a token is answered.
    fn answer(&mut self, token: [u8; 14])
        ensures { self.new ≡ at self.old self.old.replaces (still_after (bytes_eq token) self.old.cancel) }
    {
        self.cancel = match self.cancel.take() {
            None => None,
            Some(cancelling) => without(cancelling, token),
        };
    }

    /// No request is pending.
    fn unask(&mut self)
        ensures { self.new ≡ unasked self.old }
    {
        self.replaces.clear();
        self.cancel = None;
    }
}

/// The progress, over where the order is dead at once.
fn over_if(is_dead: bool, progress: Progress) -> Progress
    ensures answered { progress.stage ≡ Working → result.stage ≢ Waiting }
    ensures after { (o : OrderRecord) → progressed result o
        ≡ with_quantities (over_if is_dead (progressed progress o)) o }
{
    if is_dead { progress.gone() } else { progress }
}

/// The tokens of these replaces, of which there are four at most.
fn tokens_of(replaces: &[Replacing]) -> NextTokens
    requires { length replaces.now ≤ 4 }
    ensures { result ≡ map replacing_token replaces.now }
{
    let mut tokens = NextTokens::new();
    for replacing in replaces {
        tokens.push(replacing.token);
    }
    tokens
}
