//! How long a port isn't connected again whose login the market rejects.

ghost use Rattle.std.specs.Prelude.{◌≤◌};

use std::fmt;
use std::fmt::{Display, Formatter};

/// The pause before the next login, in seconds, behind so many that were rejected with this letter, one after the
/// other: where no session is available (`S`) 10, 20, 40, and then 60; where user or password is wrong (`A`, and any
/// other letter) 60, 120, 240, 480, and then 600, since markets lock an account that tries again and again.
///
/// Source: SoupBinTCP 3.00, "Login Rejected Packet".
pub fn pause_behind(letter: u8, times: u32) -> u64
    ensures least { 10 ≤ result }
    ensures most { result ≤ 600 }
{
    if letter == b'S' {
        match times {
            0 | 1 => 10,
            2 => 20,
            3 => 40,
            _ => 60,
        }
    } else {
        match times {
            0 | 1 => 60,
            2 => 120,
            3 => 240,
            4 => 480,
            _ => 600,
        }
    }
}

/// When a login is tried again that was rejected.
#[derive(Drop)]
pub struct NextLogin {
    pub seconds: u64,
}

impl Display for NextLogin {
    fn fmt<W: fmt::Write>(&self, f: &mut Formatter<W>) -> fmt::Result {
        let seconds = self.seconds;
        write!(f, "next login in {seconds} s")
    }
}
