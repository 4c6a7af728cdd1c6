//! What a Login Accepted says, by the words of a line: the session and the next sequence number.
//!
//! Source: SoupBinTCP 3.00, "Login Accepted Packet": a session of 10 bytes and a number of 20, padded left.

ghost use Rattle.std.specs.Prelude.{◌≡◌, ◌-◌, ◌&&◌, ◌++◌, IfSome, is_some, length, nat_le, replicate};
ghost use Rattle.script_lines.specs.Forms.{fits_forms};
ghost use Rattle.script_lines.specs.Words.{words_of};
ghost use Rattle.script_lines.specs.Login as spec;

use crate::words::{first_word, only_word};
use wire_bytes::are_digits;

/// The bytes of a session.
const SESSION_BYTES: usize = 10;

/// The bytes of a sequence number.
const NUMBER_BYTES: usize = 20;

/// What a Login Accepted says: its two fields, each padded left with spaces.
#[derive(Clone, Copy)]
pub struct Login {
    pub session: [u8; SESSION_BYTES],
    /// The number of the next sequenced packet, in digits.
    pub number: [u8; NUMBER_BYTES],
}

/// `S N`.
pub fn login_of(text: &[u8]) -> Option<Login>
    ensures said { IfSome result (λ login. spec.SaysLogin (words_of text.now) login.session login.number) }
    ensures understood { is_some result ≡ fits_forms spec.login_forms (words_of text.now) }
{
    let (session, text) = first_word(text)?;
    let next = only_word(text)?;
    Some(Login {
        session: session_of(session)?,
        number: sequence_number(next)?,
    })
}

/// The session that a word names: a word of 1 to 10 bytes, padded left with spaces.
#[tactic(auto, unfolding(crate::specs::Login::is_session))]
fn session_of(word: &[u8]) -> Option<[u8; SESSION_BYTES]>
    ensures field { IfSome result (λ session. session ≡ spec.session_field word.now) }
    ensures form { is_some result ≡ spec.is_session word.now }
{
    padded_left(word)
}

/// The field of a sequence number: a word of 1 to 20 digits, padded left with spaces. Whether 64 bits hold the number
/// is the session's to judge.
#[tactic(auto, unfolding(crate::specs::Login::is_sequence_number))]
fn sequence_number(word: &[u8]) -> Option<[u8; NUMBER_BYTES]>
    ensures field { IfSome result (λ number. number ≡ spec.number_field word.now) }
    ensures form { is_some result ≡ spec.is_sequence_number word.now }
{
    if are_digits(word) {
        padded_left(word)
    } else {
        None
    }
}

/// A word of 1 to `N` bytes, padded left with spaces to `N`; `None` of any other.
fn padded_left<const N: usize>(word: &[u8]) -> Option<[u8; N]>
    ensures field { IfSome result (λ field. field ≡ replicate (N - length word.now) 32 ++ word.now) }
    ensures form { is_some result ≡ (nat_le 1 (length word.now) && nat_le (length word.now) N) }
{
    if word.is_empty() {
        return None;
    }
    if word.len() > N {
        return None;
    }
    let mut field = [b' '; N];
    let bytes = &mut field[..];
    bytes[N - word.len()..].copy_from_slice(word);
    Some(field)
}
