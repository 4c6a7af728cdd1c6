//! A gate that keeps what it was given, and gives events back at times.

ghost use Rattle.std.specs.Prelude.{◌≡◌, [], map, IfOk};
ghost use Rattle.gate_events.specs.Seen.{link_out_seen};

use gate_events::{Event, LinkOut, Recipient, ShortList};
use link_io::Gate;
use seeded_choices::Chance;
use std::alloc::{AllocError, Global};
use std::sync::Wait;
use std::sync::atomic::{AtomicU64, Ordering};

/// A gate that keeps the events that were put and the lists that were taken. It gives an event back once in so many
/// times.
pub struct Kept {
    alloc: Global,
    chance: Chance,
    back_once_in: usize,
    /// Whether it gives each event back.
    pub is_full: bool,
    pub events: Vec<Event>,
    /// The lists that lie there, the last one first.
    pub lists: Vec<ShortList<LinkOut>>,
    pub given: Vec<ShortList<LinkOut>>,
    /// How many bytes of frames it was told.
    pub sent: AtomicU64,
    /// How often it was to wake its line's writer.
    pub woken: AtomicU64,
}

/// Written by hand, so that one call drops all.
impl Drop for Kept {
    fn drop(self) {
        let Kept {
            alloc: _,
            chance: _,
            back_once_in: _,
            is_full: _,
            events: _,
            lists: _,
            given: _,
            sent: _,
            woken: _,
        } = self;
    }
}

impl Kept {
    /// Nothing was put, and nothing lies there.
    pub fn new(alloc: Global, chance: Chance, back_once_in: usize) -> Kept
        ensures given { result.given.items ≡ [] }
    {
        Kept {
            alloc,
            chance,
            back_once_in,
            is_full: false,
            events: Vec::new(alloc),
            lists: Vec::new(alloc),
            given: Vec::new(alloc),
            sent: AtomicU64::new(0),
            woken: AtomicU64::new(0),
        }
    }

    /// A `Close` of a link lies there.
    pub fn lay_close(&mut self, link: u64) -> Result<(), AllocError>
        ensures given { self.new.given ≡ self.old.given }
    {
        Ok(self.lists.push(ShortList::of(LinkOut::Close { link }))?)
    }

    /// The list lies there again, where memory ran out for a copy of it: its place is still there.
    fn put_back(&mut self, list: ShortList<LinkOut>)
        ensures events { self.new.events ≡ self.old.events }
        ensures given { self.new.given ≡ self.old.given }
    {
        let _ = self.lists.push(list);
    }
}

impl Gate for Kept {
    ghost use Rattle.std.specs.Prelude.{None, map};
    ghost use Rattle.gate_events.specs.Seen.{event_seen, link_out_seen};

    ghost was_put = { λ g. map event_seen g.events.items };

    ghost was_taken = { λ g. map (λ v. map link_out_seen v.items) g.given.items };

    ghost output_for = { λ _. None };

    ghost gave_back = { λ _. Unit {0} };

    fn recipient(&self) -> Option<Recipient> {
        None
    }

    fn put(&mut self, event: Event) -> Result<(), Event> {
        if self.is_full || self.chance.once_in(self.back_once_in) {
            return Err(event);
        }
        match self.events.push(event) {
            Ok(()) => Ok(()),
            Err(refused) => Err(refused.value),
        }
    }

    fn take(&mut self) -> Option<ShortList<LinkOut>> {
        let list = self.lists.pop()?;
        let Ok(copy) = copy_of(self.alloc, list.as_slice()) else {
            self.put_back(list);
            return None;
        };
        match self.given.push(copy) {
            Ok(()) => Some(list),
            Err(_) => {
                self.put_back(list);
                None
            }
        }
    }

    fn turn<R: Wait>(&mut self, _rt: &R, _alloc: Global) -> Result<u32, AllocError> {
        Ok(0)
    }

    fn tell_sent(&self, frames: &[u8]) {
        self.sent.fetch_add(frames.len() as u64, Ordering::SeqCst);
    }

    fn wake_writer(&self) {
        self.woken.fetch_add(1, Ordering::SeqCst);
    }
}

/// A copy of a list.
fn copy_of(alloc: Global, list: &[LinkOut]) -> Result<ShortList<LinkOut>, AllocError>
    ensures { IfOk result (λ copy. map link_out_seen copy.items ≡ map link_out_seen list.now) }
{
    let mut copy = ShortList::new();
    for out in list {
        copy.push(alloc, copy_of_out(alloc, out)?)?;
    }
    Ok(copy)
}

/// A copy of one of what links are told.
fn copy_of_out(alloc: Global, out: &LinkOut) -> Result<LinkOut, AllocError>
    ensures { IfOk result (λ copy. link_out_seen copy ≡ link_out_seen out.now) }
{
    match out {
        LinkOut::Write { link, bytes } => Ok(LinkOut::Write {
            link: *link,
            bytes: Vec::from_slice(alloc, bytes.as_slice())?,
        }),
        LinkOut::Close { link } => Ok(LinkOut::Close { link: *link }),
    }
}
