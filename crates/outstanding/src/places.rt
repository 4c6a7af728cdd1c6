//! The places of messages.

ghost use Rattle.std.specs.Prelude.{◌≡◌, ◌+◌, ◌≤◌, ◌<◌, ◌^◌, ◌++◌, ◌∷◌, [], map, filter, take, decimal, length};
ghost use Rattle.std.specs.Prelude.{vec_len, vec_capacity, IfOk};
ghost use Rattle.outstanding.specs.Chaining.{AreNoted};
ghost use Rattle.outstanding.specs.Leading.{AreChained};
ghost use Rattle.outstanding.specs.Kept.{is_answered_by};
ghost use Rattle.outstanding.specs.Marks.{asked_of, settled_one, is_held, is_unanswered, marked_by, unmarked};

use crate::asked::{Answer, AskedMessage};
use crate::chains::Chains;
use crate::marking::{is_unanswered, mark, settle_marked, unmark};
use ouch_codec::{Inbound, Outbound};
use std::alloc::{AllocError, Global};
use std::marker::Model;

/// How many settled messages keep their places, however few the others are.
const FEW: usize = 64;

/// Messages in the order in which they were asked. Contracts see them, and for how many more there is room.
///
/// An order's are found by a chain, and those that were answered since the messages were settled by a list of their
/// places. One that is settled keeps its place until most are settled.
#[derive(Drop)]
pub(crate) struct Places {
    messages: Vec<AskedMessage>,
    chains: Chains,
    /// The places of those that were answered since they were settled.
    given: Vec<u32>,
    /// How many are settled.
    settled: usize,
    /// For how many more there is room.
    room: usize,
    ghost chained: { AreChained chains messages.items },
    ghost noted: { AreNoted given.items messages.items },
    ghost messages_fit: { room + vec_len messages ≤ vec_capacity messages },
    ghost chains_fit: { room + vec_len messages ≤ vec_capacity chains.older },
    ghost given_fit: { room + (vec_len given + length (filter is_unanswered messages.items)) ≤ vec_capacity given },
    ghost few: { room + vec_len messages < 2 ^ 32 },
    ghost buckets: { 0 < room → 0 < vec_len chains.heads },
}

impl Model for Places {
    ghost use Rattle.outstanding.specs.Chaining.{Placed};

    ghost Value = { Placed };

    ghost view = { λ p. record { items = p.messages.items; room = p.room } };
}

impl Places {
    /// No messages. Takes no memory.
    pub fn new(alloc: Global) -> Places
        ensures { result.items ≡ [] }
    {
        Places {
            messages: Vec::new(alloc),
            chains: Chains {
                heads: Vec::new(alloc),
                older: Vec::new(alloc),
            },
            given: Vec::new(alloc),
            settled: 0,
            room: 0,
        }
    }

    /// The messages, the oldest first.
    pub fn as_slice(&self) -> &[AskedMessage]
        ensures { result.now ≡ self.now.items }
    {
        self.messages.as_slice()
    }

    /// Makes room for so many more. `AllocError` leaves the messages as they were.
    pub fn reserve(&mut self, more: usize) -> Result<(), AllocError>
        ensures room { IfOk result (λ nothing. more ≤ self.new.room) }
        ensures items { self.new.items ≡ self.old.items }
    {
        self.room = 0;
        self.messages.reserve(more)?;
        self.chains.reserve(&self.messages, more)?;
        self.given.reserve(self.messages.len() + more)?;
        self.room = more;
        Ok(())
    }

    /// One more, of an order, for which there is room.
    pub fn push(&mut self, port: u16, order_id: u64, message: &Inbound)
        requires { 1 ≤ self.old.room }
        ensures items { self.new.items ≡ self.old.items ++ asked_of port order_id message.now ∷ [] }
        ensures room { self.new.room + 1 ≡ self.old.room }
    {
        self.chains.link(order_id);
        self.messages.push_reserved(AskedMessage {
            order_id,
            message: *message,
            port,
            answer: Answer::Awaited,
        });
        self.room -= 1;
    }

    /// Marks those of an order that a message from the market on a port answers, and all if it closes the order.
    pub fn answer(
        &mut self,
        port: u16,
        heard: &Outbound,
        order_id: u64,
        is_closed: bool,
        next: &[[u8; 14]],
    )
        ensures { self.new.items
            ≡ map (marked_by (is_answered_by port heard.now next.now (decimal order_id) is_closed)) self.old.items }
    {
        mark(
            &mut self.messages,
            &mut self.chains,
            &mut self.given,
            port,
            heard,
            order_id,
            is_closed,
            next,
        );
    }

    /// Settles those that were answered, and frees the places of all that are settled where they are most.
    pub fn settle(&mut self)
        ensures unanswered { filter is_unanswered self.new.items ≡ filter is_unanswered self.old.items }
        ensures held { filter is_held self.new.items ≡ filter is_unanswered self.new.items }
    {
        self.settle_marked();
        if self.is_sparse() {
            self.compact();
        }
    }

    /// Settles those that were answered.
    fn settle_marked(&mut self)
        ensures { self.new.items ≡ map settled_one self.old.items }
    {
        self.settled = self.settled.saturating_add(self.given.len());
        settle_marked(&mut self.messages, &mut self.given);
    }

    /// Whether most are settled.
    fn is_sparse(&self) -> bool {
        self.settled > FEW && self.settled > self.messages.len() / 2
    }

    /// Frees the places of those that are answered.
    fn compact(&mut self)
        ensures { self.new.items ≡ filter is_unanswered self.old.items }
    {
        self.messages.retain(|asked| is_unanswered(asked));
        self.chains.relink(&self.messages);
        self.settled = 0;
    }

    /// Takes back the answers since they were settled.
    pub fn unmark(&mut self)
        ensures { self.new.items ≡ map unmarked self.old.items }
    {
        unmark(&mut self.messages, &mut self.given);
    }

    /// Takes out all but the first so many.
    pub fn truncate(&mut self, count: usize)
        ensures { self.new.items ≡ take count self.old.items }
    {
        truncate(&mut self.messages, &mut self.chains, count);
    }
}

/// Takes out all messages but the first so many.
fn truncate(messages: &mut Vec<AskedMessage>, chains: &mut Chains, count: usize)
    requires { AreChained chains.old messages.old.items }
    ensures items { messages.new.items ≡ take count messages.old.items }
    ensures chained { AreChained chains.new messages.new.items }
    ensures heads { vec_len chains.new.heads ≡ vec_len chains.old.heads }
    ensures chains_fit { vec_capacity chains.new.older ≡ vec_capacity chains.old.older }
    ensures messages_fit { vec_capacity messages.new ≡ vec_capacity messages.old }
{
    while messages.len() > count {
        let asked = messages.take_last();
        chains.unlink(asked.order_id);
    }
}
