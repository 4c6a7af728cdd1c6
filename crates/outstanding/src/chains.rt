//! Where the messages of an order stand.

ghost use Rattle.std.specs.Prelude.{◌≡◌, ◌<◌, ◌≤◌, ◌+◌, ◌^◌, ◌++◌, ◌∷◌, [], ℕ, List, Some, length, slice_get};
ghost use Rattle.std.specs.Prelude.{vec_len, vec_capacity, EachIndex, OnOk, slice_index};
ghost use Rattle.outstanding.specs.declared.asked.AskedMessage.{AskedMessage};
ghost use Rattle.outstanding.specs.Chaining.{Reaches, bucket};
ghost use Rattle.outstanding.specs.Leading.{AreChained};
ghost use Rattle.outstanding.specs.Marks.{is_settled};

use crate::asked::{Answer, AskedMessage};
use std::alloc::AllocError;

/// How many messages there may be.
const MOST: usize = u32::MAX as usize;

/// Chains that lead from the newest message of an order to its oldest, past those of others. Orders are spread over
/// buckets, each with a chain; a message has a place from 0, and one that is settled may be left out.
///
/// A reach says how many of the first messages hold what a chain still leads to: the last of these is the next one, and
/// at 0 the chain ends.
#[derive(Drop)]
pub(crate) struct Chains {
    /// Of each bucket, the reach among all messages.
    pub heads: Vec<u32>,
    /// Of each message, the reach of its bucket among those that are older.
    pub older: Vec<u32>,
}

impl Chains {
    /// Makes room for so many messages more. `AllocError` leaves the chains as they lead.
    pub fn reserve(&mut self, messages: &[AskedMessage], more: usize) -> Result<(), AllocError>
        requires chained { AreChained self.old messages.now }
        ensures chained { AreChained self.new messages.now }
        ensures room { OnOk result (vec_len self.new.older + more ≤ vec_capacity self.new.older) }
        ensures heads { OnOk result (0 < more → 0 < vec_len self.new.heads) }
        ensures few { OnOk result (vec_len self.new.older + more < 2 ^ 32) }
        ensures kept { vec_capacity self.old.older ≤ vec_capacity self.new.older }
    {
        self.older.reserve(more)?;
        if self.older.len() + more > MOST {
            return Err(AllocError);
        }
        if self.heads.len() < self.older.len() + more {
            self.heads.resize(self.older.capacity(), 0)?;
            self.relink(messages);
        }
        Ok(())
    }

    /// The chains of these messages, for which there is room.
    pub fn relink(&mut self, messages: &[AskedMessage])
        requires heads { 0 < length messages.now → 0 < vec_len self.old.heads }
        requires room { length messages.now ≤ vec_capacity self.old.older }
        requires few { length messages.now < 2 ^ 32 }
        ensures chained { AreChained self.new messages.now }
        ensures heads { vec_len self.new.heads ≡ vec_len self.old.heads }
        ensures room { vec_capacity self.new.older ≡ vec_capacity self.old.older }
    {
        empty(&mut self.heads);
        self.older.clear();
        for asked in messages {
            self.link(asked.order_id);
        }
    }

    /// Links a message of an order behind the others, for which there is room.
    pub fn link(&mut self, order_id: u64)
        requires heads { 0 < vec_len self.old.heads }
        requires room { vec_len self.old.older < vec_capacity self.old.older }
        requires few { vec_len self.old.older + 1 < 2 ^ 32 }
        ensures chained { (xs : List AskedMessage) (x : AskedMessage) → x.order_id ≡ order_id
            → AreChained self.old xs
            → AreChained self.new (xs ++ x ∷ []) }
        ensures heads { vec_len self.new.heads ≡ vec_len self.old.heads }
        ensures room { vec_capacity self.new.older ≡ vec_capacity self.old.older }
        ensures more { vec_len self.new.older ≡ vec_len self.old.older + 1 }
    {
        let bucket = bucket_of(order_id, self.heads.len());
        self.older.push_reserved(self.heads[bucket]);
        self.heads[bucket] = self.older.len() as u32;
    }

    /// Takes out the newest message, which is of an order.
    pub fn unlink(&mut self, order_id: u64)
        requires heads { 0 < vec_len self.old.heads }
        requires some { 0 < vec_len self.old.older }
        ensures chained { (xs : List AskedMessage) (x : AskedMessage) → x.order_id ≡ order_id
            → AreChained self.old (xs ++ x ∷ [])
            → AreChained self.new xs }
        ensures heads { vec_len self.new.heads ≡ vec_len self.old.heads }
        ensures room { vec_capacity self.new.older ≡ vec_capacity self.old.older }
    {
        let bucket = bucket_of(order_id, self.heads.len());
        self.heads[bucket] = self.older.take_last();
    }

    /// The reach of an order among all messages: where its chain begins. What is settled there is left out from now on.
    pub fn first(&mut self, messages: &[AskedMessage], order_id: u64) -> u32
        requires chained { AreChained self.old messages.now }
        ensures chained { AreChained self.new messages.now }
        ensures reach { Reaches (vec_len self.old.heads) messages.now (bucket (vec_len self.old.heads) order_id)
            result (length messages.now) }
        ensures heads { vec_len self.new.heads ≡ vec_len self.old.heads }
        ensures room { vec_capacity self.new.older ≡ vec_capacity self.old.older }
    {
        if self.heads.is_empty() {
            return 0;
        }
        let bucket = bucket_of(order_id, self.heads.len());
        let reach = self.past_settled(messages, self.heads[bucket]);
        self.heads[bucket] = reach;
        reach
    }

    /// The reach of a message's bucket among those that are older: where its chain goes on. What is settled there is
    /// left out from now on.
    pub fn next(&mut self, messages: &[AskedMessage], place: u32) -> u32
        requires chained { AreChained self.old messages.now }
        requires inside { place < length messages.now }
        ensures chained { AreChained self.new messages.now }
        ensures reach { (x : AskedMessage) → slice_get messages.now place ≡ Some x
            → Reaches (vec_len self.old.heads) messages.now (bucket (vec_len self.old.heads) x.order_id) result place }
        ensures below { result ≤ place }
        ensures heads { vec_len self.new.heads ≡ vec_len self.old.heads }
        ensures room { vec_capacity self.new.older ≡ vec_capacity self.old.older }
    {
        let reach = self.past_settled(messages, self.older[place as usize]);
        self.older[place as usize] = reach;
        reach
    }

    /// A reach without the settled messages at its end.
    fn past_settled(&self, messages: &[AskedMessage], from: u32) -> u32
        requires chained { AreChained self.now messages.now }
        requires inside { from ≤ length messages.now }
        ensures reach { (b k : ℕ) → Reaches (vec_len self.now.heads) messages.now b from k
            → Reaches (vec_len self.now.heads) messages.now b result k }
        ensures below { result ≤ from }
    {
        let mut reach = from;
        while reach > 0 {
            let place = reach as usize - 1;
            if !is_settled(&messages[place]) {
                return reach;
            }
            reach = self.older[place];
        }
        reach
    }
}

/// Whether a message is settled.
fn is_settled(asked: &AskedMessage) -> bool
    ensures { result ≡ is_settled asked.now }
{
    matches!(asked.answer, Answer::Settled)
}

/// Writes 0 into each.
fn empty(reaches: &mut Vec<u32>)
    ensures items { EachIndex reaches.new.items (λ k. slice_index reaches.new.items k ≡ 0) }
    ensures len { vec_len reaches.new ≡ vec_len reaches.old }
{
    for reach in reaches.iter_mut() {
        *reach = 0;
    }
}

/// The bucket of an order, of so many.
fn bucket_of(order_id: u64, buckets: usize) -> usize
    requires { 0 < buckets }
    ensures bucket { result ≡ bucket buckets order_id }
    ensures inside { result < buckets }
{
    let mixed = order_id.wrapping_mul(0x9e37_79b9_7f4a_7c15) >> 32;
    (mixed % buckets as u64) as usize
}
