//! Why the first message of a link isn't answered.

ghost use Rattle.std.specs.Prelude.{◌≡◌, ◌==◌, ◌&&◌, not, is_none};
ghost use Rattle.session_law.specs.Table as table;
ghost use Rattle.fix_session.specs.LogonFaults as faults;

use crate::session::Session;
use fix_fields::Fields;
use session_reading::{is, is_interval, is_letter, is_reset_flag, is_type, numbered, resets};

/// Why a link's first message is no Logon that is answered: the link is closed without a word.
///
/// Source: FIX 4.4 Volume 2, "Logon"; the limits are the gateway's own.
#[derive(Clone, Copy, Debug, PartialEq, Eq)]
pub enum LogonFault {
    /// It is of another type (35).
    Type,
    /// SenderCompID (49) isn't the client's name.
    Sender,
    /// TargetCompID (56) isn't the gateway's name.
    Target,
    /// MsgSeqNum (34) is no number from 1.
    Number,
    /// EncryptMethod (98) isn't 0.
    Encryption,
    /// HeartBtInt (108) isn't 0 to 3,600.
    Interval,
    /// ResetSeqNumFlag (141) is there, and neither Y nor N.
    ResetFlag,
    /// A tag stands twice, or has no value.
    Malformed,
    /// ResetSeqNumFlag (141) is Y, and MsgSeqNum (34) isn't 1.
    ResetNumber,
}

/// Why a link's first message is answered by nothing but the link's end; `None` of a Logon that is answered, by a Logon
/// or, if its number is too low, by a Logout. Takes no memory.
pub fn logon_fault(session: &Session, m: &Fields) -> Option<LogonFault>
    ensures fault { result ≡ faults.logon_fault session.now.session m.now }
    ensures answered { is_none result ≡ (table.is_logon session.now.session m.now
        && not (table.resets m.now && not (table.message_number m.now == 1))) }
{
    if !is_type(m, b'A') {
        return Some(LogonFault::Type);
    }
    if !is(m, 49, session.client()) {
        return Some(LogonFault::Sender);
    }
    if !is(m, 56, session.gate()) {
        return Some(LogonFault::Target);
    }
    if numbered(m) == 0 {
        return Some(LogonFault::Number);
    }
    if !is_letter(m, 98, b'0') {
        return Some(LogonFault::Encryption);
    }
    if !is_interval(m) {
        return Some(LogonFault::Interval);
    }
    if !is_reset_flag(m) {
        return Some(LogonFault::ResetFlag);
    }
    if m.first_fault().is_some() {
        return Some(LogonFault::Malformed);
    }
    if resets(m) && numbered(m) != 1 {
        return Some(LogonFault::ResetNumber);
    }
    None
}
