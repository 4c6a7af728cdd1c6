//! Texts, where they are as they should be.

ghost use Rattle.std.specs.Prelude.{◌≡◌, length, option_map};
ghost use Rattle.toml.specs.View.{view};
ghost use Rattle.operator_settings.specs.Rules as rules;

use toml::Value;
use wire_bytes::{are_digits, number_of};
use wire_law::are_visible;

/// Whether so many are from the least to the most.
fn is_between(least: usize, most: usize, count: usize) -> bool
    ensures { result ≡ rules.is_between least most count }
{
    least <= count && count <= most
}

/// Whether these are 1 to 5 digits, of a number of at most 65,535.
fn is_tcp_port(digits: &[u8]) -> bool
    ensures { result ≡ rules.is_tcp_port digits.now }
{
    if !is_between(1, 5, digits.len()) {
        return false;
    }
    if !are_digits(digits) {
        return false;
    }
    match number_of(digits) {
        Some(number) => number <= 65_535,
        None => false,
    }
}

/// Whether a colon stands in a text, behind which is a TCP port.
fn ends_in_port(text: &[u8]) -> bool
    ensures { result ≡ rules.ends_in_port text.now }
{
    let [byte, rest @ ..] = text else {
        return false;
    };
    *byte == b':' && is_tcp_port(rest) || ends_in_port(rest)
}

/// Whether a text is a host, a colon and a TCP port.
fn is_address(text: &[u8]) -> bool
    ensures { result ≡ rules.is_address text.now }
{
    if text.len() > 255 {
        return false;
    }
    if !are_visible(text) {
        return false;
    }
    let [_, rest @ ..] = text else {
        return false;
    };
    ends_in_port(rest)
}

/// Whether a text is 16 to 64 bytes that are seen.
fn is_token(text: &[u8]) -> bool
    ensures { result ≡ rules.is_token text.now }
{
    is_between(16, 64, text.len()) && are_visible(text)
}

/// Whether an address is of this machine itself.
pub(crate) fn is_of_this_machine(address: &str) -> bool
    ensures { result ≡ rules.is_of_this_machine address.now }
{
    let text = address.as_bytes();
    is_at(b"127.0.0.1:", text) || is_at(b"[::1]:", text) || is_at(b"localhost:", text)
}

/// Whether this host stands in front of digits.
fn is_at(host: &[u8], text: &[u8]) -> bool
    ensures { result ≡ rules.is_at host.now text.now }
{
    match text.strip_prefix(host) {
        Some(digits) => are_digits(digits),
        None => false,
    }
}

/// A value's text, where it is an address.
pub(crate) fn address_of(value: &Value) -> Option<&str>
    ensures { option_map (λ s. s.now) result ≡ rules.text_of rules.is_address (view value.now) }
{
    let text = value.as_str()?;
    if is_address(text.as_bytes()) {
        Some(text)
    } else {
        None
    }
}

/// A value's text, where it is a token.
pub(crate) fn token_of(value: &Value) -> Option<&str>
    ensures { option_map (λ s. s.now) result ≡ rules.text_of rules.is_token (view value.now) }
{
    let text = value.as_str()?;
    if is_token(text.as_bytes()) {
        Some(text)
    } else {
        None
    }
}
