//! Marks on messages that are answered.

ghost use Rattle.std.specs.Prelude.{◌≡◌, ◌≢◌, ◌+◌, ◌≤◌, ◌<◌, [], ℕ, false, true, map, filter, decimal, length};
ghost use Rattle.std.specs.Prelude.{vec_len, vec_capacity, slice_index_or, slice_set};
ghost use Rattle.outstanding.specs.declared.asked.AskedMessage.{AskedMessage};
ghost use Rattle.outstanding.specs.Chaining.{AreNoted};
ghost use Rattle.outstanding.specs.Leading.{AreChained};
ghost use Rattle.outstanding.specs.Kept.{is_answered_by, seen};
ghost use Rattle.outstanding.specs.Marks.{settled_one, is_unanswered, marked_by, unmarked};

use crate::answering::answers;
use crate::asked::{Answer, AskedMessage};
use crate::chains::Chains;
use ouch_codec::Outbound;

/// Goes along an order's chain and marks those that a message from the market on a port answers, or whose order it
/// closes. Their places are noted, for which there is room.
pub(crate) fn mark(
    messages: &mut Vec<AskedMessage>,
    chains: &mut Chains,
    given: &mut Vec<u32>,
    port: u16,
    heard: &Outbound,
    order_id: u64,
    is_closed: bool,
    next: &[[u8; 14]],
)
    requires chained { AreChained chains.old messages.old.items }
    requires noted { AreNoted given.old.items messages.old.items }
    requires room { vec_len given.old + length (filter is_unanswered messages.old.items) ≤ vec_capacity given.old }
    ensures items { messages.new.items
        ≡ map (marked_by (is_answered_by port heard.now next.now (decimal order_id) is_closed)) messages.old.items }
    ensures chained { AreChained chains.new messages.new.items }
    ensures noted { AreNoted given.new.items messages.new.items }
    ensures room { vec_len given.new + length (filter is_unanswered messages.new.items)
        ≤ vec_len given.old + length (filter is_unanswered messages.old.items) }
    ensures heads { vec_len chains.new.heads ≡ vec_len chains.old.heads }
    ensures chains_fit { vec_capacity chains.new.older ≡ vec_capacity chains.old.older }
    ensures messages_fit { vec_capacity messages.new ≡ vec_capacity messages.old }
    ensures given_fit { vec_capacity given.new ≡ vec_capacity given.old }
{
    let mut reach = chains.first(messages, order_id);
    while reach > 0 {
        let place = reach - 1;
        mark_at(
            messages, given, place, port, heard, order_id, is_closed, next,
        );
        reach = chains.next(messages, place);
    }
}

/// Marks the one at a place, if it is answered now.
fn mark_at(
    messages: &mut Vec<AskedMessage>,
    given: &mut Vec<u32>,
    place: u32,
    port: u16,
    heard: &Outbound,
    order_id: u64,
    is_closed: bool,
    next: &[[u8; 14]],
)
    requires inside { place < vec_len messages.old }
    requires noted { AreNoted given.old.items messages.old.items }
    requires room { vec_len given.old + length (filter is_unanswered messages.old.items) ≤ vec_capacity given.old }
    ensures items { (d : AskedMessage) → messages.new.items ≡ slice_set messages.old.items place
        (marked_by (is_answered_by port heard.now next.now (decimal order_id) is_closed)
        (slice_index_or messages.old.items place d)) }
    ensures noted { AreNoted given.new.items messages.new.items }
    ensures room { vec_len given.new + length (filter is_unanswered messages.new.items)
        ≤ vec_len given.old + length (filter is_unanswered messages.old.items) }
    ensures messages_fit { vec_capacity messages.new ≡ vec_capacity messages.old }
    ensures given_fit { vec_capacity given.new ≡ vec_capacity given.old }
{
    if is_answered_now(
        &messages[place as usize],
        port,
        heard,
        order_id,
        is_closed,
        next,
    ) {
        messages[place as usize].answer = Answer::Given;
        given.push_reserved(place);
    }
}

/// Whether a message from the market on a port answers one that isn't answered, or closes its order.
fn is_answered_now(
    asked: &AskedMessage,
    port: u16,
    heard: &Outbound,
    order_id: u64,
    is_closed: bool,
    next: &[[u8; 14]],
) -> bool
    ensures yes { result ≡ true → (is_unanswered asked.now ≡ true)
        × (is_answered_by port heard.now next.now (decimal order_id) is_closed (seen asked.now) ≡ true) }
    ensures no { result ≡ false
        → marked_by (is_answered_by port heard.now next.now (decimal order_id) is_closed) asked.now ≡ asked.now }
{
    is_unanswered(asked) && is_answered(asked, port, heard, order_id, is_closed, next)
}

/// Whether it isn't answered.
pub(crate) fn is_unanswered(asked: &AskedMessage) -> bool
    ensures { result ≡ is_unanswered asked.now }
{
    matches!(asked.answer, Answer::Awaited)
}

/// Whether a message from the market on a port answers one that is kept, or closes its order: the order is looked at
/// before any token.
fn is_answered(
    asked: &AskedMessage,
    port: u16,
    heard: &Outbound,
    order_id: u64,
    is_closed: bool,
    next: &[[u8; 14]],
) -> bool
    ensures { result ≡ is_answered_by port heard.now next.now (decimal order_id) is_closed (seen asked.now) }
{
    asked.port == port
        && (asked.order_id == order_id && (answers(heard, next, &asked.message) || is_closed))
}

/// Settles those that were answered, at the places that are noted.
pub(crate) fn settle_marked(messages: &mut Vec<AskedMessage>, given: &mut Vec<u32>)
    requires { AreNoted given.old.items messages.old.items }
    ensures items { messages.new.items ≡ map settled_one messages.old.items }
    ensures messages_fit { vec_capacity messages.new ≡ vec_capacity messages.old }
    ensures none { given.new.items ≡ [] }
    ensures given_fit { vec_capacity given.new ≡ vec_capacity given.old }
{
    while let Some(place) = given.pop() {
        let place = place as usize;
        if place < messages.len() {
            settle_one(&mut messages[place]);
        }
    }
}

/// Settles one, if it was answered.
fn settle_one(asked: &mut AskedMessage)
    ensures { asked.new ≡ settled_one asked.old }
{
    if matches!(asked.answer, Answer::Given) {
        asked.answer = Answer::Settled;
    }
}

/// Has those awaited again that were answered, at the places that are noted.
pub(crate) fn unmark(messages: &mut Vec<AskedMessage>, given: &mut Vec<u32>)
    requires { AreNoted given.old.items messages.old.items }
    ensures items { messages.new.items ≡ map unmarked messages.old.items }
    ensures room { length (filter is_unanswered messages.new.items)
        ≤ vec_len given.old + length (filter is_unanswered messages.old.items) }
    ensures messages_fit { vec_capacity messages.new ≡ vec_capacity messages.old }
    ensures none { given.new.items ≡ [] }
    ensures given_fit { vec_capacity given.new ≡ vec_capacity given.old }
{
    while let Some(place) = given.pop() {
        let place = place as usize;
        if place < messages.len() {
            unmark_one(&mut messages[place]);
        }
    }
}

/// Has one awaited again, if it was answered.
fn unmark_one(asked: &mut AskedMessage)
    ensures { asked.new ≡ unmarked asked.old }
{
    if matches!(asked.answer, Answer::Given) {
        asked.answer = Answer::Awaited;
    }
}
