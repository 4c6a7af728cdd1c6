//! What is told of links as they come and go.

use fix_stamp::stamp;
use gate_serving::{LinkEnd, Opened, Opener};
use gate_workers::WriterEnd;
use link_io::LinkFault;
use std::fmt::{Display, Formatter};
use std::time::Clock;
use std::{fmt, str};

/// What is told of: a client or a port, by its number from 1, or the gateway itself.
#[derive(Clone, Copy, Debug, PartialEq, Eq)]
pub enum Whose {
    Client(usize),
    Port(usize),
    Gateway,
}

impl Display for Whose {
    fn fmt<W: fmt::Write>(&self, f: &mut Formatter<W>) -> fmt::Result {
        match self {
            Whose::Client(number) => write!(f, "C{number}"),
            Whose::Port(number) => write!(f, "P{number}"),
            Whose::Gateway => write!(f, "gateway:"),
        }
    }
}

/// Tells on standard error of the links of a client or port, a line at a time behind its moment in UTC.
#[derive(Drop)]
pub struct LinkLog<'a, R> {
    rt: &'a R,
    whose: Whose,
}

impl<'a, R: Clock + Eprint> LinkLog<'a, R> {
    /// Of these links. Takes no memory.
    pub fn new(rt: &'a R, whose: Whose) -> LinkLog<'a, R> {
        LinkLog { rt, whose }
    }

    /// Tells what came of a link. Where that can't be written it is lost.
    pub fn log(&self, what: &str) {
        let at = self.now();
        let at = str::from_utf8(&at).unwrap_or("");
        let _ = eprintln!(self.rt; "{at} {} {what}", self.whose);
    }

    /// The same of what can be shown.
    pub fn log_of<D: Display>(&self, what: &D) {
        let at = self.now();
        let at = str::from_utf8(&at).unwrap_or("");
        let _ = eprintln!(self.rt; "{at} {} {what}", self.whose);
    }

    /// Tells how a link has ended.
    pub fn log_end(&self, end: &LinkEnd) {
        match (end.fault(), end.writer) {
            (Some(fault), _) => self.log_fault(fault),
            (None, Ok(WriterEnd::Closed)) => self.log("closed by the gateway"),
            (None, _) => self.log("gone"),
        }
    }

    /// Tells of a link's fault.
    fn log_fault(&self, fault: LinkFault) {
        let at = self.now();
        let at = str::from_utf8(&at).unwrap_or("");
        let _ = eprintln!(self.rt;
            "{at} {} link fault {}: {fault}",
            self.whose,
            fault.number()
        );
    }

    /// Tells how many bytes of a link were part of no frame.
    pub fn log_skipped(&self, count: u64) {
        let at = self.now();
        let at = str::from_utf8(&at).unwrap_or("");
        let _ = eprintln!(self.rt; "{at} {} skipped {count} bytes", self.whose);
    }

    /// Tells why a port is faulted, by the fault's number and name.
    pub fn log_port_fault(&self, number: u8, name: &str) {
        let at = self.now();
        let at = str::from_utf8(&at).unwrap_or("");
        let _ = eprintln!(self.rt; "{at} {} port fault {number}: {name}", self.whose);
    }

    /// Now, as UTCTimestamp; the first moment of 1970 where the system's can't be had.
    fn now(&self) -> [u8; 21] {
        match self.rt.since_1970() {
            Ok(since) => stamp(u64::try_from(since.as_millis()).unwrap_or(0)),
            Err(_) => stamp(0),
        }
    }
}

/// An opener that tells of each of its links: `up`, `gone`, `closed by the gateway`, `link fault n`. Of links that
/// can't be opened, one after the other, it tells once.
#[derive(Drop)]
pub struct LoggedOpener<'a, O, R> {
    link_log: LinkLog<'a, R>,
    opener: O,
    is_in_vain: bool,
}

impl<'a, O, R: Clock + Eprint> LoggedOpener<'a, O, R> {
    /// Of these links. Takes no memory.
    pub fn new(link_log: LinkLog<'a, R>, opener: O) -> LoggedOpener<'a, O, R> {
        LoggedOpener {
            link_log,
            opener,
            is_in_vain: false,
        }
    }
}

impl<'a, O: Opener, R: Clock + Eprint> Opener for LoggedOpener<'a, O, R> {
    ghost opened = { λ t. O.opened t.opener };

    ghost has_ended = { λ t. O.has_ended t.opener };

    type Reader = O::Reader;

    type Writer = O::Writer;

    type Closer = O::Closer;

    fn open(&mut self) -> Option<Result<Opened<O::Reader, O::Writer, O::Closer>, LinkFault>> {
        let opened = self.opener.open();
        let was_in_vain = self.is_in_vain;
        self.is_in_vain = matches!(opened, Some(Err(_)));
        match &opened {
            Some(Ok(_)) => self.link_log.log("up"),
            Some(Err(_)) if was_in_vain => {}
            Some(Err(fault)) => self.link_log.log_fault(*fault),
            None => {}
        }
        opened
    }

    fn ended(&mut self, end: LinkEnd) {
        self.link_log.log_end(&end);
        self.opener.ended(end);
    }
}
