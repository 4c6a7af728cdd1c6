//! A client of whom the generator draws messages.

use fix_stamp::stamp;
use gate_events::ClientNumber;
use seeded_choices::Chance;
use std::alloc::{AllocError, Global};
use std::io::{self, Write};

/// The ClOrdIDs of an order, that of its new order first.
#[derive(Drop)]
struct Order {
    ids: Vec<u32>,
}

/// What a client knows of itself.
#[derive(Drop)]
pub struct Client {
    pub number: ClientNumber,
    /// Its last link.
    pub link: u64,
    /// MsgSeqNum (34) of its next message.
    next: u64,
    /// How many ClOrdIDs it has used.
    ids: u32,
    orders: Vec<Order>,
}

impl Client {
    /// A client that has said nothing yet. Takes no memory.
    pub fn new(alloc: Global, number: ClientNumber) -> Client {
        Client {
            number,
            link: 0,
            next: 1,
            ids: 0,
            orders: Vec::new(alloc),
        }
    }

    /// The text of a logon, whose numbers begin anew in one of eight.
    pub fn log_on(&mut self, alloc: Global, chance: &mut Chance, at: u64) -> io::Result<Vec<u8>> {
        if chance.once_in(8) {
            self.next = 1;
            return self.text(alloc, "A", b"98=0\x01108=30\x01141=Y\x01", at);
        }
        self.text(alloc, "A", b"98=0\x01108=30\x01", at)
    }

    /// The text of a reset to the client's own number, whatever was lost before.
    pub fn reset(&mut self, alloc: Global, at: u64) -> io::Result<Vec<u8>> {
        let mut body = Vec::new(alloc);
        write!(body, "36={}\x01", self.next.saturating_add(1))?;
        self.text(alloc, "4", body.as_slice(), at)
    }

    /// The text of a message: a new order, a replace, a cancel, or one of a session.
    pub fn message(&mut self, alloc: Global, chance: &mut Chance, at: u64) -> io::Result<Vec<u8>> {
        match chance.number_below(20) {
            0..=7 => self.new_order(alloc, chance, at),
            8..=14 => self.replace(alloc, chance, at),
            15..=17 => self.cancel(alloc, chance, at),
            18 => self.text(alloc, "0", b"", at),
            _ => self.text(alloc, "2", b"7=1\x0116=0\x01", at),
        }
    }

    /// A new order.
    fn new_order(&mut self, alloc: Global, chance: &mut Chance, at: u64) -> io::Result<Vec<u8>> {
        let mut body = Vec::new(alloc);
        self.push_new_order(alloc, &mut body, chance)?;
        self.text(alloc, "D", body.as_slice(), at)
    }

    /// Adds the fields of a new order.
    fn push_new_order(
        &mut self,
        alloc: Global,
        body: &mut Vec<u8>,
        chance: &mut Chance,
    ) -> io::Result<()> {
        let (id, is_new) = self.some_id(chance);
        let total = drawn_total(chance);
        let side = drawn_side(chance);
        write!(body, "11=A{id}\x0154={side}\x0155=INTC\x01")?;
        write!(body, "38={total}\x0140=2\x01")?;
        push_price(body, chance)?;
        push_life_or(body, chance, b"59=4\x01")?;
        push_minimum(body, chance, total)?;
        push_options(body, chance)?;
        if is_new {
            self.orders.push(Order {
                ids: vec![in alloc; id]?,
            })?;
        }
        Ok(())
    }

    /// A replace.
    fn replace(&mut self, alloc: Global, chance: &mut Chance, at: u64) -> io::Result<Vec<u8>> {
        let mut body = Vec::new(alloc);
        self.push_replace(&mut body, chance)?;
        self.text(alloc, "G", body.as_slice(), at)
    }

    /// Adds the fields of a replace.
    fn push_replace(&mut self, body: &mut Vec<u8>, chance: &mut Chance) -> io::Result<()> {
        let (id, is_new) = self.some_id(chance);
        let total = drawn_total(chance);
        let place = self.push_order(body, chance)?;
        write!(body, "11=A{id}\x0138={total}\x0140=2\x01")?;
        push_price(body, chance)?;
        push_life_or(body, chance, b"")?;
        push_minimum(body, chance, total)?;
        if is_new && place < self.orders.len() {
            self.orders[place].ids.push(id)?;
        }
        Ok(())
    }

    /// A cancel.
    fn cancel(&mut self, alloc: Global, chance: &mut Chance, at: u64) -> io::Result<Vec<u8>> {
        let mut body = Vec::new(alloc);
        self.push_cancel(&mut body, chance)?;
        self.text(alloc, "F", body.as_slice(), at)
    }

    /// Adds the fields of a cancel.
    fn push_cancel(&mut self, body: &mut Vec<u8>, chance: &mut Chance) -> io::Result<()> {
        let (id, _) = self.some_id(chance);
        self.push_order(body, chance)?;
        write!(body, "11=A{id}\x0154=1\x0155=INTC\x01")?;
        Ok(())
    }

    /// A ClOrdID: the next one, or in one of twenty one that may be used; and whether it is the next one.
    fn some_id(&mut self, chance: &mut Chance) -> (u32, bool) {
        if chance.once_in(20) {
            return (chance.number_below(self.ids.saturating_add(1)), false);
        }
        self.ids = self.ids.saturating_add(1);
        (self.ids, true)
    }

    /// OrigClOrdID (41): mostly of one of the newest orders, and there the newest id; in one of ten an unknown one. The
    /// place of its order.
    fn push_order(&self, body: &mut Vec<u8>, chance: &mut Chance) -> io::Result<usize> {
        let count = self.orders.len();
        if count == 0 || chance.once_in(10) {
            body.extend_from_slice(b"41=NONE\x01")?;
            return Ok(count);
        }
        let back = if chance.once_in(8) {
            count
        } else {
            count.min(3)
        };
        let place = count - 1 - chance.below(back).min(count - 1);
        let ids = &self.orders[place].ids;
        let back = if chance.once_in(4) { ids.len() } else { 1 };
        let id = newest_but(ids.as_slice(), chance.below(back));
        write!(body, "41=A{id}\x01")?;
        Ok(place)
    }

    /// A message's text with its header.
    fn text(&mut self, alloc: Global, kind: &str, body: &[u8], at: u64) -> io::Result<Vec<u8>> {
        let mut text = Vec::new(alloc);
        self.push_text(&mut text, kind, body, at)?;
        self.next = self.next.saturating_add(1);
        Ok(text)
    }

    /// Adds a message's header and body.
    fn push_text(&self, text: &mut Vec<u8>, kind: &str, body: &[u8], at: u64) -> io::Result<()> {
        let number = self.number.number();
        let next = self.next;
        write!(
            text,
            "35={kind}\x0149=C{number}\x0156=GATE\x0134={next}\x0152="
        )?;
        text.extend_from_slice(&stamp(at))?;
        text.extend_from_slice(b"\x01")?;
        text.extend_from_slice(body)?;
        Ok(())
    }
}

/// The id so many before the newest; 0 where there is none.
fn newest_but(ids: &[u32], back: usize) -> u32 {
    if back < ids.len() {
        ids[ids.len() - 1 - back]
    } else {
        0
    }
}

/// Side (54): buy, sell, sell short, sell short exempt.
fn drawn_side(chance: &mut Chance) -> u32 {
    match chance.number_below(4) {
        0 => 1,
        1 => 2,
        2 => 5,
        _ => 6,
    }
}

/// OrderQty (38).
fn drawn_total(chance: &mut Chance) -> u32 {
    match chance.number_below(12) {
        0 => 1 + chance.number_below(999_999),
        1 => 1 + chance.number_below(50),
        2..=4 => 100,
        5 => 101,
        6 => 200,
        7 => 400,
        8 => 600,
        9 => 1_000,
        _ => 500,
    }
}

/// Price (44).
fn push_price(body: &mut Vec<u8>, chance: &mut Chance) -> io::Result<()> {
    write!(body, "44=10.{:02}\x01", chance.number_below(100))?;
    Ok(())
}

/// TimeInForce (59): none, day, immediate or cancel, or else this.
fn push_life_or(
    body: &mut Vec<u8>,
    chance: &mut Chance,
    otherwise: &[u8],
) -> Result<(), AllocError> {
    match chance.number_below(10) {
        0..=3 => Ok(()),
        4..=5 => body.extend_from_slice(b"59=0\x01"),
        6..=7 => body.extend_from_slice(b"59=3\x01"),
        _ => body.extend_from_slice(otherwise),
    }
}

/// MinQty (110), of one order in five.
fn push_minimum(body: &mut Vec<u8>, chance: &mut Chance, total: u32) -> io::Result<()> {
    if chance.once_in(5) {
        write!(
            body,
            "110={}\x01",
            chance.number_below(total.saturating_add(1))
        )?;
    }
    Ok(())
}

/// ExecInst (18) and OrderCapacity (528), of few orders.
fn push_options(body: &mut Vec<u8>, chance: &mut Chance) -> Result<(), AllocError> {
    if chance.once_in(8) {
        body.extend_from_slice(b"18=6\x01")?;
    }
    if chance.once_in(8) {
        body.extend_from_slice(b"528=P\x01")?;
    }
    Ok(())
}
