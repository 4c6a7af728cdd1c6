//! A port's links, and when it is left alone.

ghost use Rattle.std.specs.Prelude.{◌≡◌};

use crate::context::Context;
use desk::Shared;
use desk_rings::DeskName;
use gate_serving::{LinkEnd, Opened, Opener};
use gateway_log::{LinkLog, NextLogin, Whose, pause_behind};
use gateway_watch::fault_name;
use link_io::LinkFault;
use soup_session::PortState;
use std::alloc::Global;
use std::hash::RandomState;
use std::sync::Wait;
use std::sync::atomic::{AtomicBool, AtomicU8, Ordering};
use std::thread;
use std::time::{Clock, Duration};

/// How often in a second a pause looks whether the day is over.
const LOOKS: u64 = 100;

fn look() -> Duration {
    Duration::from_millis(10)
}

/// The links of a port, of which its fault is told once: as the link that ended by it is gone, or before the next.
///
/// Where ports are left alone there is no further link once the port is faulted, or its market has ended the session,
/// which is told then; and behind a login that was rejected the next comes after a pause (`pause_behind`).
#[derive(Drop)]
pub(crate) struct PortLinks<'a, C, K: DeskName, R> {
    rt: &'a R,
    shared: &'a Shared<K, RandomState>,
    /// The number of the port, from 1.
    number: u16,
    opener: C,
    leaves_alone: bool,
    is_reported: bool,
    alloc: Global,
    /// The letter with which the last login was rejected; 0 where it wasn't.
    letter: Option<&'a AtomicU8>,
    /// How many logins were rejected, one after the other.
    rejected: u32,
    is_over: &'a AtomicBool,
}

impl<'a, C, K: DeskName, R: Wait + Clock + Eprint> PortLinks<'a, C, K, R> {
    /// Of the port of this number, until the day is over; whether it is left alone at times. Takes no memory.
    pub(crate) fn new(
        context: &Context<'a, K, R>,
        number: u16,
        opener: C,
        leaves_alone: bool,
    ) -> PortLinks<'a, C, K, R> {
        PortLinks {
            rt: context.rt,
            shared: context.shared,
            number,
            opener,
            leaves_alone,
            is_reported: false,
            alloc: context.alloc,
            letter: context.states.letter_of(number),
            rejected: 0,
            is_over: context.is_over,
        }
    }

    /// Tells why there is no further link, where there is none and that wasn't reported.
    fn look(&mut self)
        ensures { self.new.opener ≡ self.old.opener }
    {
        if self.is_reported {
            return;
        }
        if let Some(fault) = self.shared.port_fault(self.rt, self.number) {
            self.is_reported = true;
            self.link_log()
                .log_port_fault(fault.number(), fault_name(fault));
        } else if self.leaves_alone && self.is_ended() {
            self.is_reported = true;
            self.link_log().log("session ended by the market");
        }
    }

    /// Whether the market has ended the port's session. Not where memory is refused: then it is looked at again.
    fn is_ended(&self) -> bool {
        match self.shared.status(self.rt, self.alloc) {
            Ok(status) => match status
                .ports()
                .get(usize::from(self.number).saturating_sub(1))
            {
                Some(row) => matches!(row.state, PortState::Ended),
                None => false,
            },
            Err(_) => false,
        }
    }

    /// Waits behind a login that was rejected, until the next may come or the day is over.
    fn wait(&mut self)
        ensures { self.new.opener ≡ self.old.opener }
    {
        let letter = match self.letter {
            Some(letter) => letter.swap(0, Ordering::SeqCst),
            None => 0,
        };
        if letter == 0 {
            self.rejected = 0;
            return;
        }
        self.rejected = self.rejected.saturating_add(1);
        let seconds = pause_behind(letter, self.rejected);
        self.link_log().log_of(&NextLogin { seconds });
        for _ in 0..seconds * LOOKS {
            if self.is_over.load(Ordering::SeqCst) {
                return;
            }
            thread::sleep(self.rt, look());
        }
    }

    /// Who tells of this port.
    fn link_log(&self) -> LinkLog<'a, R> {
        LinkLog::new(self.rt, Whose::Port(usize::from(self.number)))
    }
}

impl<'a, C: Opener, K: DeskName, R: Wait + Clock + Eprint> Opener for PortLinks<'a, C, K, R> {
    ghost opened = { λ t. C.opened t.opener };

    ghost use Rattle.std.specs.Prelude.{◌≡◌, ◌⊎◌, true};

    ghost has_ended = { λ t. C.has_ended t.opener ⊎ (t.is_reported ≡ true) };

    type Reader = C::Reader;

    type Writer = C::Writer;

    type Closer = C::Closer;

    fn open(&mut self) -> Option<Result<Opened<C::Reader, C::Writer, C::Closer>, LinkFault>> {
        self.look();
        if self.leaves_alone && self.is_reported {
            return None;
        }
        if self.leaves_alone {
            self.wait();
        }
        self.opener.open()
    }

    fn ended(&mut self, end: LinkEnd) {
        self.opener.ended(end);
        self.look();
    }
}
