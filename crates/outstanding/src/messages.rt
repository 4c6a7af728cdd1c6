//! The list of outstanding messages.

ghost use Rattle.std.specs.Prelude.{◌≡◌, ◌+◌, ◌≤◌, ◌++◌, [], map, take, decimal, length};
ghost use Rattle.std.specs.Prelude.{IfOk, OnErr};
ghost use Rattle.order_law.specs.ouch_codec.Inbound.{inbound_bytes};
ghost use Rattle.outstanding.specs.Kept.{bytes_on, kept_from, left_by};
ghost use Rattle.outstanding.specs.Marks.{asked_of, unanswered};

use crate::asked::AskedMessage;
use crate::marking::is_unanswered;
use crate::places::Places;
use ouch_codec::{Inbound, Outbound};
use std::alloc::{AllocError, Global};
use std::marker::Model;

/// What the ports were asked and haven't answered, the oldest first. Contracts see it as it is now and as it was
/// settled: `undo` puts back what was there at the last `settle`, and no messages where there was none.
pub struct AskedMessages {
    places: Places,
    /// How many there were when they were settled.
    count: usize,
    ghost within: { count ≤ length places.items },
}

// Not derived: then each way out drops it in one call (docs/DECISIONS.md, "Drops").
impl Drop for AskedMessages {
    fn drop(self) {
        let AskedMessages {
            places: _,
            count: _,
        } = self;
    }
}

impl Model for AskedMessages {
    ghost use Rattle.std.specs.Prelude.{take};
    ghost use Rattle.outstanding.specs.Kept as kept;
    ghost use Rattle.outstanding.specs.Marks.{held, unanswered};

    ghost Value = { kept.HeldMessages };

    ghost view = { λ a. record {
      messages = unanswered a.places.items;
      settled = held (take a.count a.places.items);
      room = a.places.room;
    } };
}

impl AskedMessages {
    /// No messages. Takes no memory.
    pub fn new(alloc: Global) -> AskedMessages
        ensures messages { result.messages ≡ [] }
        ensures settled { result.settled ≡ [] }
    {
        AskedMessages {
            places: Places::new(alloc),
            count: 0,
        }
    }

    /// Makes room for this many more messages. `AllocError` leaves the list as it was.
    pub fn reserve(&mut self, more: usize) -> Result<(), AllocError>
        ensures room { IfOk result (λ nothing. more ≤ self.new.room) }
        ensures same { self.new.messages ≡ self.old.messages }
        ensures settled { self.new.settled ≡ self.old.settled }
    {
        self.places.reserve(more)
    }

    /// Adds messages that a port is asked of an order, behind the others. `AllocError` leaves the list as it was.
    pub fn push(&mut self, port: u16, order_id: u64, messages: &[Inbound]) -> Result<(), AllocError>
        ensures pushed { IfOk result (λ nothing. self.new.messages
            ≡ self.old.messages ++ kept_from port (decimal order_id) messages.now) }
        ensures settled { self.new.settled ≡ self.old.settled }
        ensures err { OnErr result (self.new.messages ≡ self.old.messages) }
    {
        self.reserve(messages.len())?;
        self.push_reserved(port, order_id, messages);
        Ok(())
    }

    /// The same if there is room: it takes no memory.
    pub fn push_reserved(&mut self, port: u16, order_id: u64, messages: &[Inbound])
        requires { length messages.now ≤ self.old.room }
        ensures pushed { self.new.messages ≡ self.old.messages ++ kept_from port (decimal order_id) messages.now }
        ensures settled { self.new.settled ≡ self.old.settled }
    {
        push_each(&mut self.places, port, order_id, messages);
    }

    /// A message from the market was handled on a port, on the order with this OrderID, which is closed now or not:
    /// removes what the message answers of what the port was asked of the order, and all if the order is closed. `next`
    /// has the tokens that the order's pending replaces asked for before the message, the oldest first: a Rejected of
    /// one answers those behind it too. Takes no memory.
    ///
    /// Source: OUCH 4.2, "Outbound Messages".
    pub fn answer(
        &mut self,
        port: u16,
        heard: &Outbound,
        order_id: u64,
        is_closed: bool,
        next: &[[u8; 14]],
    )
        ensures left { self.new.messages ≡ left_by port heard.now next.now (decimal order_id) is_closed self.old.messages }
        ensures settled { self.new.settled ≡ self.old.settled }
    {
        self.places.answer(port, heard, order_id, is_closed, next);
    }

    /// From now on the messages are put back to those of now. Takes no memory.
    pub fn settle(&mut self)
        ensures messages { self.new.messages ≡ self.old.messages }
        ensures settled { self.new.settled ≡ self.old.messages }
    {
        self.places.settle();
        self.count = self.places.as_slice().len();
    }

    /// Puts the messages back to those that were settled. Takes no memory.
    pub fn undo(&mut self)
        ensures messages { self.new.messages ≡ self.old.settled }
        ensures settled { self.new.settled ≡ self.old.settled }
    {
        self.places.unmark();
        self.places.truncate(self.count);
    }

    /// Copies of a port's own messages, in the order in which it was asked them.
    ///
    /// Source: SoupBinTCP 3.00, "Login Request Packet".
    pub fn on_port(&self, alloc: Global, port: u16) -> Result<Vec<Inbound>, AllocError>
        ensures { IfOk result (λ messages. map inbound_bytes messages.items ≡ bytes_on port self.now.messages) }
    {
        copies_on(alloc, self.places.as_slice(), port)
    }
}

/// Puts messages of one order behind the others, where there is room.
fn push_each(places: &mut Places, port: u16, order_id: u64, messages: &[Inbound])
    requires { length messages.now ≤ places.old.room }
    ensures { places.new.items ≡ places.old.items ++ map (asked_of port order_id) messages.now }
{
    for message in messages {
        places.push(port, order_id, message);
    }
}

/// Copies of the messages of one port that aren't answered, in order.
fn copies_on(alloc: Global, kept: &[AskedMessage], port: u16) -> Result<Vec<Inbound>, AllocError>
    ensures { IfOk result (λ messages. map inbound_bytes messages.items ≡ bytes_on port (unanswered kept.now)) }
{
    let mut messages = Vec::new(alloc);
    for asked in kept {
        if is_unanswered(asked) && asked.port == port {
            messages.push(asked.message)?;
        }
    }
    Ok(messages)
}
