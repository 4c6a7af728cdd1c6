//! How it is told that a client's Logon is refused, and that a market rejects a login.

use fix_fields::Fields;
use fix_session::LogonFault;
use soup_packets::Packet;
use std::fmt;
use std::fmt::{Display, Formatter};

/// Why a Logon is refused: the field, with what it has, and what it is to have.
#[derive(Drop)]
pub struct RefusedLogon<'f> {
    pub fault: LogonFault,
    pub frame: &'f Fields,
}

impl<'f> Display for RefusedLogon<'f> {
    fn fmt<W: fmt::Write>(&self, f: &mut Formatter<W>) -> fmt::Result {
        let (tag, why) = reason_of(self.fault);
        f.write_str("Logon refused: ")?;
        if tag == 0 {
            return f.write_str(why);
        }
        write!(f, "{tag}=")?;
        if let Some(value) = self.frame.first(tag) {
            write_shown(f, value)?;
        }
        write!(f, " {why}")
    }
}

/// The tag that a fault is about, 0 of none, and what is wrong with it.
fn reason_of(fault: LogonFault) -> (u32, &'static str) {
    match fault {
        LogonFault::Type => (35, "is no Logon"),
        LogonFault::Sender => (49, "isn't this client's name"),
        LogonFault::Target => (56, "isn't the gateway's name"),
        LogonFault::Number => (34, "is no number from 1"),
        LogonFault::Encryption => (98, "isn't 0"),
        LogonFault::Interval => (108, "isn't 0 to 3600"),
        LogonFault::ResetFlag => (141, "is neither Y nor N"),
        LogonFault::Malformed => (0, "a tag stands twice, or has no value"),
        LogonFault::ResetNumber => (34, "isn't 1, with 141=Y"),
    }
}

/// That a login is rejected, with the market's letter.
#[derive(Drop)]
pub struct RejectedLogin<'p>(pub &'p Packet);

impl<'p> Display for RejectedLogin<'p> {
    fn fmt<W: fmt::Write>(&self, f: &mut Formatter<W>) -> fmt::Result {
        f.write_str("login rejected: ")?;
        write_shown(f, self.0.payload.as_slice())?;
        f.write_str(match self.0.payload.as_slice() {
            [b'A'] => ", user or password",
            [b'S'] => ", no such session",
            _ => "",
        })
    }
}

/// Writes bytes, with a dot for each that isn't printable ASCII.
fn write_shown<W: fmt::Write>(f: &mut Formatter<W>, bytes: &[u8]) -> fmt::Result {
    for byte in bytes {
        f.write_char(match *byte {
            32..=126 => char::from(*byte),
            _ => '.',
        })?;
    }
    Ok(())
}
