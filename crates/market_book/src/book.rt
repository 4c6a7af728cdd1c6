//! The market's book, stepped by messages and choices.

ghost use Rattle.std.specs.Prelude.{◌≡◌, ◌≤◌, ◌<◌, ◌+◌, ◌-◌, ◌^◌, [], ◌∷◌, IfOk, OnErr, false, Some, suc};
ghost use Rattle.std.specs.List.{find};
ghost use Rattle.ouch_codec.specs.declared.inbound.Inbound.TheVariants as asked;
ghost use Rattle.market_law.specs.Machine as law;
ghost use Rattle.market_law.specs.Messages as say;
ghost use Rattle.market_law.specs.Rows as rows;
ghost use Rattle.market_law.specs.declared.choice.Choice.TheVariants as choose;
ghost use Rattle.market_book.specs.Places.{IsFirstAt};
ghost use Rattle.market_book.specs.Steps.{IsStepOf};

use crate::order::BookedOrder;
use crate::places::{first_live, first_with_trade, is_one_of};
use crate::saying;
use market_law::{BookRow, Breaking, Choice, Letter, Removal, Trading};
use ouch_codec::{Cancel, EnterOrder, Inbound, OrderState, Outbound, Replace};
use std::alloc::{AllocError, Global};
use std::marker::Model;

/// What the market keeps of the orders that it was sent.
///
/// Contracts see it as the law's machine.
#[derive(Drop)]
pub struct Book {
    /// The tokens that are used for good, the newest first.
    used: Vec<[u8; 14]>,
    /// How many trades there were.
    matches: u64,
    /// The newest first.
    orders: Vec<BookedOrder>,
}

impl Model for Book {
    ghost use Rattle.market_law.specs.Machine as law;

    ghost Value = { law.Machine };

    ghost view = { λ b. record { used = b.used.items; matches = b.matches; book = b.orders.items } };
}

impl Book {
    /// No orders. Takes no memory.
    pub fn new(alloc: Global) -> Book
        ensures { result ≡ law.opening_machine }
    {
        Book {
            used: Vec::new(alloc),
            matches: 0,
            orders: Vec::new(alloc),
        }
    }

    /// What the market answers to a message, by this choice: nothing, or one message. A choice that the answer hasn't
    /// counts as its first one. `AllocError` leaves the book as it was.
    ///
    /// Source: OUCH 4.2, "Inbound Messages" and "Outbound Messages".
    pub fn inbound(
        &mut self,
        alloc: Global,
        message: &Inbound,
        choice: Choice,
    ) -> Result<Vec<Outbound>, AllocError>
        ensures step { IfOk result (λ says.
            IsStepOf (law.inbound self.old message.now choice) self.new says.items) }
        ensures err { OnErr result (self.new ≡ self.old) }
    {
        match message {
            Inbound::Enter(order) => self.enter(alloc, order, choice),
            Inbound::Replace(request) => self.replace(alloc, request, choice),
            Inbound::Cancel(request) => self.cancel(alloc, request, choice),
        }
    }

    /// What the market does by itself, by this choice: nothing, or what it says in one message. A choice that isn't for
    /// it to take, or not now, does nothing. `AllocError` leaves the book as it was.
    ///
    /// Source: OUCH 4.2, "Outbound Messages".
    pub fn act(&mut self, alloc: Global, choice: Choice) -> Result<Vec<Outbound>, AllocError>
        ensures step { IfOk result (λ says. IsStepOf (law.act self.old choice) self.new says.items) }
        ensures err { OnErr result (self.new ≡ self.old) }
    {
        match choice {
            Choice::Execute(trading) => self.trade(alloc, &trading),
            Choice::TakeOff(removal) => self.take_off(alloc, &removal),
            Choice::Break(breaking) => self.break_trade(alloc, &breaking),
            Choice::SystemEvent(event) => one(alloc, saying::system_event(event)),
            _ => Ok(Vec::new(alloc)),
        }
    }

    /// What the book has of the order that goes by this token, or went by it before a replace: zeros and no side where
    /// there is none. Takes no memory.
    pub fn row(&self, token: &[u8; 14]) -> BookRow
        ensures { result ≡ rows.row self.now.book token.now }
    {
        row_in(self.orders.as_slice(), token)
    }

    /// A new order comes.
    fn enter(
        &mut self,
        alloc: Global,
        order: &EnterOrder,
        choice: Choice,
    ) -> Result<Vec<Outbound>, AllocError>
        ensures step { IfOk result (λ says.
            IsStepOf (law.inbound self.old (asked.Enter order.now) choice) self.new says.items) }
        ensures err { OnErr result (self.new ≡ self.old) }
    {
        if is_one_of(&order.token, self.used.as_slice()) {
            return Ok(Vec::new(alloc));
        }
        match choice {
            Choice::Refuse(reason) => self.reject(
                alloc,
                order.token,
                saying::rejected_order(order, reason),
            ),
            Choice::AcceptDead => self.accept(alloc, order, OrderState::Dead),
            _ => self.accept(alloc, order, OrderState::Live),
        }
    }

    /// A new order is taken.
    fn accept(
        &mut self,
        alloc: Global,
        order: &EnterOrder,
        state: OrderState,
    ) -> Result<Vec<Outbound>, AllocError>
        ensures step { IfOk result (λ says.
            IsStepOf (law.accept self.old order.now state) self.new says.items) }
        ensures err { OnErr result (self.new ≡ self.old) }
    {
        let says = one(alloc, saying::accepted(order, state))?;
        self.used.reserve(1)?;
        self.orders
            .insert(0, BookedOrder::new(alloc, order, state))?;
        // There is room for it.
        self.used.insert(0, order.token)?;
        Ok(says)
    }

    /// A new order or a replacement isn't taken, which this message says. Its token is used from now on.
    fn reject(
        &mut self,
        alloc: Global,
        token: [u8; 14],
        message: Outbound,
    ) -> Result<Vec<Outbound>, AllocError>
        ensures step { IfOk result (λ says.
            IsStepOf (law.saying (law.use_token token self.old) message) self.new says.items) }
        ensures err { OnErr result (self.new ≡ self.old) }
    {
        let says = one(alloc, message)?;
        self.used.insert(0, token)?;
        Ok(says)
    }

    /// A Replace Order comes.
    fn replace(
        &mut self,
        alloc: Global,
        request: &Replace,
        choice: Choice,
    ) -> Result<Vec<Outbound>, AllocError>
        ensures step { IfOk result (λ says.
            IsStepOf (law.inbound self.old (asked.Replace request.now) choice) self.new says.items) }
        ensures err { OnErr result (self.new ≡ self.old) }
    {
        let Some(place) = first_live(self.orders.as_slice(), &request.token) else {
            return Ok(Vec::new(alloc));
        };
        if is_one_of(&request.replacement_token, self.used.as_slice()) {
            return Ok(Vec::new(alloc));
        }
        match choice {
            Choice::Refuse(reason) => self.reject(
                alloc,
                request.replacement_token,
                saying::rejected_replacement(request, reason),
            ),
            Choice::TakeOff(_) => self.cancel_all(alloc, place, request.token),
            Choice::AcceptDead => self.move_order(alloc, place, request, OrderState::Dead),
            _ => self.move_order(alloc, place, request, OrderState::Live),
        }
    }

    /// The order at this place goes by the request's new token, or has nothing left to be open.
    fn move_order(
        &mut self,
        alloc: Global,
        place: usize,
        request: &Replace,
        state: OrderState,
    ) -> Result<Vec<Outbound>, AllocError>
        requires { IsFirstAt (law.is_live_as request.now.token) self.old.book place }
        ensures step { IfOk result (λ says. (c : law.BookOrder)
            → law.live_order self.old request.now.token ≡ Some c
            → IsStepOf (law.replace self.old request.now c (law.Replaces state)) self.new says.items) }
        ensures err { OnErr result (self.new ≡ self.old) }
    {
        let left = request.shares.saturating_sub(self.orders[place].executed());
        if left == 0 {
            return self.cancel_all(alloc, place, request.token);
        }
        let message = saying::replaced(self.orders[place].entered(), request, left, state);
        let says = one(alloc, message)?;
        self.used.reserve(1)?;
        let order = &mut self.orders[place];
        order.replace(request, left, state)?;
        // There is room for it.
        self.used.insert(0, request.replacement_token)?;
        Ok(says)
    }

    /// All that is open of the order at this place is cancelled.
    fn cancel_all(
        &mut self,
        alloc: Global,
        place: usize,
        token: [u8; 14],
    ) -> Result<Vec<Outbound>, AllocError>
        requires { IsFirstAt (law.is_live_as token) self.old.book place }
        ensures step { IfOk result (λ says. (c : law.BookOrder)
            → law.live_order self.old token ≡ Some c
            → IsStepOf (law.cancel_all self.old token c) self.new says.items) }
        ensures err { OnErr result (self.new ≡ self.old) }
    {
        let order = &mut self.orders[place];
        let shares = order.unfilled();
        let says = one(alloc, saying::canceled(order, shares))?;
        order.take_off(shares);
        Ok(says)
    }

    /// A Cancel Order comes.
    fn cancel(
        &mut self,
        alloc: Global,
        request: &Cancel,
        choice: Choice,
    ) -> Result<Vec<Outbound>, AllocError>
        ensures step { IfOk result (λ says.
            IsStepOf (law.inbound self.old (asked.Cancel request.now) choice) self.new says.items) }
        ensures err { OnErr result (self.new ≡ self.old) }
    {
        let Some(place) = first_live(self.orders.as_slice(), &request.token) else {
            return Ok(Vec::new(alloc));
        };
        if request.shares != 0 {
            return Ok(Vec::new(alloc));
        }
        match choice {
            Choice::AcceptDead => one(alloc, saying::cancel_pending(&self.orders[place])),
            Choice::Refuse(_) => one(alloc, saying::cancel_reject(&self.orders[place])),
            _ => self.cancel_all(alloc, place, request.token),
        }
    }

    /// A trade, where the order is live, as much of it is open, the minimum quantity allows it, and a match number is
    /// left.
    fn trade(&mut self, alloc: Global, trading: &Trading) -> Result<Vec<Outbound>, AllocError>
        ensures step { IfOk result (λ says.
            IsStepOf (law.act self.old (choose.Execute trading.now)) self.new says.items) }
        ensures err { OnErr result (self.new ≡ self.old) }
    {
        let Some(place) = first_live(self.orders.as_slice(), &trading.token) else {
            return Ok(Vec::new(alloc));
        };
        if !self.orders[place].may_trade(trading.shares) {
            return Ok(Vec::new(alloc));
        }
        let Some(match_number) = self.matches.checked_add(1) else {
            return Ok(Vec::new(alloc));
        };
        let order = &mut self.orders[place];
        let says = one(alloc, saying::executed(order, trading, match_number))?;
        order.trade(match_number, trading)?;
        self.matches = match_number;
        Ok(says)
    }

    /// Shares leave the book, where the order is live and as much of it is open.
    fn take_off(&mut self, alloc: Global, removal: &Removal) -> Result<Vec<Outbound>, AllocError>
        ensures step { IfOk result (λ says.
            IsStepOf (law.act self.old (choose.TakeOff removal.now)) self.new says.items) }
        ensures err { OnErr result (self.new ≡ self.old) }
    {
        let Some(place) = first_live(self.orders.as_slice(), &removal.token) else {
            return Ok(Vec::new(alloc));
        };
        if !self.orders[place].is_open_for(removal.shares) {
            return Ok(Vec::new(alloc));
        }
        let order = &mut self.orders[place];
        let says = one(alloc, saying::canceled(order, removal.shares))?;
        order.take_off(removal.shares);
        Ok(says)
    }

    /// A trade is taken back, where one of this number stands.
    fn break_trade(
        &mut self,
        alloc: Global,
        breaking: &Breaking,
    ) -> Result<Vec<Outbound>, AllocError>
        ensures step { IfOk result (λ says.
            IsStepOf (law.act self.old (choose.Break breaking.now)) self.new says.items) }
        ensures err { OnErr result (self.new ≡ self.old) }
    {
        let Some(place) = first_with_trade(self.orders.as_slice(), breaking.match_number) else {
            return Ok(Vec::new(alloc));
        };
        let order = &mut self.orders[place];
        let says = one(alloc, saying::broken_trade(order, breaking))?;
        order.break_trade(breaking.match_number);
        Ok(says)
    }
}

/// One message.
fn one(alloc: Global, message: Outbound) -> Result<Vec<Outbound>, AllocError>
    ensures { IfOk result (λ says. says.items ≡ message ∷ []) }
{
    let mut says = Vec::new(alloc);
    says.push(message)?;
    Ok(says)
}

/// What these have of the order that has had the token.
fn row_in(orders: &[BookedOrder], token: &[u8; 14]) -> BookRow
    ensures { result ≡ rows.row orders.now token.now }
{
    for order in orders {
        if order.has_had(token) {
            return order.row();
        }
    }
    BookRow {
        side: None,
        executed: 0,
        unfilled: 0,
        cancelled: 0,
        value: 0,
    }
}
