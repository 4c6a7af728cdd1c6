//! The type of a message, its number, and what a SequenceReset says.

ghost use Rattle.std.specs.Prelude.{◌≡◌, ◌<◌, ◌^◌, ◌||◌, ◌∷◌, [], true, false, MatchOption, IfSome, unwrap_or, codes};
ghost use Rattle.std.specs.Prelude.{bytes_eq};
ghost use Rattle.std.specs.List.{list_all};
ghost use Rattle.fix_types.specs.fix_fields.Reasons.{session_reject_number};
ghost use Rattle.session_law.specs.Messages as law;
ghost use Rattle.session_law.specs.Table as table;

use crate::words::{has, is_byte, is_letter, number};
use fix_types::{Fields, SessionRejectReason};

/// Whether a message has this type (35) of one letter or digit.
pub fn is_type(m: &Fields, letter: u8) -> bool
    ensures { result ≡ table.is_type (letter ∷ []) m.now }
{
    is_letter(m, 35, letter)
}

/// Whether a type is one or two letters or digits.
pub fn is_other_type(kind: &[u8]) -> bool
    ensures { result ≡ table.is_other_type kind.now }
{
    kind.len() >= 1 && (kind.len() <= 2 && are_letters_or_digits(kind))
}

fn are_letters_or_digits(kind: &[u8]) -> bool
    ensures { result ≡ list_all table.is_letter_or_digit kind.now }
{
    kind.iter().all(|byte| is_letter_or_digit(*byte))
}

fn is_letter_or_digit(byte: u8) -> bool
    ensures { result ≡ table.is_letter_or_digit byte }
{
    byte.is_ascii_alphabetic() || byte.is_ascii_digit()
}

/// MsgSeqNum (34), 0 where it is missing or no number.
pub fn numbered(m: &Fields) -> u64
    ensures value { result ≡ table.message_number m.now }
    ensures small { result < 10 ^ 18 }
{
    match number(m, 34) {
        Some(number) => number,
        None => 0,
    }
}

/// Whether it is a SequenceReset.
pub fn is_sequence_reset(m: &Fields) -> bool
    ensures { result ≡ table.is_type (codes "4") m.now }
{
    is_type(m, b'4')
}

/// Whether it is a SequenceReset without GapFill (123=Y).
pub fn is_plain_reset(m: &Fields) -> bool
    ensures { result ≡ table.is_plain_reset m.now }
{
    is_sequence_reset(m) && !is_letter(m, 123, b'Y')
}

/// NewSeqNo (36), where that is a number and at least so much.
pub fn new_number(m: &Fields, least: u64) -> Option<u64>
    ensures value { MatchOption result
        (table.is_from least (law.short_number 36 m.now) ≡ false)
        (λ n. (table.is_from least (law.short_number 36 m.now) ≡ true)
        × (unwrap_or (law.short_number 36 m.now) 0 ≡ n)) }
    ensures small { IfSome result (λ n. n < 10 ^ 18) }
{
    let number = number(m, 36)?;
    if number >= least { Some(number) } else { None }
}

/// Why a NewSeqNo is refused (SessionRejectReason, 373): it is missing, no number, or not above.
pub fn new_number_reason(m: &Fields) -> SessionRejectReason
    ensures { session_reject_number result ≡ table.new_number_reason m.now }
{
    if !has(m, 36) {
        SessionRejectReason::RequiredTagMissing
    } else if number(m, 36).is_none() {
        SessionRejectReason::IncorrectDataFormat
    } else {
        SessionRejectReason::ValueIsIncorrect
    }
}

/// Whether nothing is answered to a type: Heartbeat, Reject, BusinessMessageReject.
pub fn is_silent(kind: &[u8]) -> bool
    ensures { result ≡ (bytes_eq kind.now (codes "0")
        || (bytes_eq kind.now (codes "3") || bytes_eq kind.now (codes "j"))) }
{
    is_byte(kind, b'0') || (is_byte(kind, b'3') || is_byte(kind, b'j'))
}
