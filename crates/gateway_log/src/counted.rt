//! The links of clients, counted: who has to end with them knows when they are over.

use gate_serving::{LinkEnd, Opened, Opener};
use link_io::LinkFault;
use std::alloc::{AllocError, Global};
use std::sync::atomic::{AtomicBool, AtomicU8, AtomicU32, Ordering};

/// What the lines of a gateway share of their links.
#[derive(Drop)]
pub struct LinkStates {
    pub clients: ClientCounts,
    /// For each port the letter with which its last login was rejected; 0 where it wasn't.
    pub letters: Vec<AtomicU8>,
}

impl LinkStates {
    /// Of so many clients and ports, none of which has had a link.
    pub fn of(alloc: Global, clients: u32, ports: usize) -> Result<LinkStates, AllocError> {
        let mut letters = Vec::with_capacity(alloc, ports)?;
        for _ in 0..ports {
            letters.push(AtomicU8::new(0))?;
        }
        Ok(LinkStates {
            clients: ClientCounts::of(clients),
            letters,
        })
    }

    /// Where the letter of the port of this number, from 1, is kept.
    pub fn letter_of(&self, number: u16) -> Option<&AtomicU8> {
        self.letters.get(usize::from(number).wrapping_sub(1))
    }
}

/// How a gateway's clients stand.
#[derive(Drop)]
pub struct ClientCounts {
    /// How many may have a further link.
    left: AtomicU32,
    /// How many wait for a link, or have one.
    busy: AtomicU32,
}

impl ClientCounts {
    /// Of so many clients, none of which waits or has a link. Takes no memory.
    pub fn of(clients: u32) -> ClientCounts {
        ClientCounts {
            left: AtomicU32::new(clients),
            busy: AtomicU32::new(0),
        }
    }

    /// Whether no client waits for a link or has one.
    pub fn are_idle(&self) -> bool {
        self.busy.load(Ordering::SeqCst) == 0
    }
}

/// The links of a client. Once the last client has no further one, `is_over` is set.
#[derive(Drop)]
pub struct CountedLinks<'a, O> {
    links: O,
    counts: &'a ClientCounts,
    is_over: &'a AtomicBool,
}

impl<'a, O> CountedLinks<'a, O> {
    /// These links, as those of one of the clients that are counted. Takes no memory.
    pub fn new(links: O, counts: &'a ClientCounts, is_over: &'a AtomicBool) -> CountedLinks<'a, O> {
        CountedLinks {
            links,
            counts,
            is_over,
        }
    }
}

impl<'a, O: Opener> Opener for CountedLinks<'a, O> {
    ghost opened = { λ l. O.opened l.links };

    ghost has_ended = { λ l. O.has_ended l.links };

    type Reader = O::Reader;

    type Writer = O::Writer;

    type Closer = O::Closer;

    fn open(&mut self) -> Option<Result<Opened<O::Reader, O::Writer, O::Closer>, LinkFault>> {
        self.counts.busy.fetch_add(1, Ordering::SeqCst);
        let opened = self.links.open();
        match &opened {
            Some(Ok(_)) => {}
            Some(Err(_)) => {
                self.counts.busy.fetch_sub(1, Ordering::SeqCst);
            }
            None => {
                self.counts.busy.fetch_sub(1, Ordering::SeqCst);
                if self.counts.left.fetch_sub(1, Ordering::SeqCst) == 1 {
                    self.is_over.store(true, Ordering::SeqCst);
                }
            }
        }
        opened
    }

    fn ended(&mut self, end: LinkEnd) {
        self.counts.busy.fetch_sub(1, Ordering::SeqCst);
        self.links.ended(end);
    }
}
