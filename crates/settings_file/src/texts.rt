//! The texts of keys, where they are what their rules ask.

ghost use Rattle.std.specs.Prelude.{◌≡◌, ◌≤◌, ◌||◌, ℕ, List, map, length, drop, option_map, is_some, bytes_eq};
ghost use Rattle.std.specs.List.{list_all, list_any};
ghost use Rattle.gate_law.specs.Limits as limits;
ghost use Rattle.toml.specs.View.{view};
ghost use Rattle.settings_file.specs.Rules as rules;
ghost use Rattle.settings_file.specs.Rules.{kept_text};

use toml::Value;
use wire_bytes::{are_digits, number_of};
use wire_law::{are_printable, are_visible};

/// The text of a key, where it has one.
pub fn text_in<'a>(table: &'a Value, key: &str) -> Option<&'a str>
    ensures { option_map (λ s. s.now) result ≡ rules.text_in key.now (view table.now) }
{
    match table.get(key) {
        Some(value) => value.as_str(),
        None => None,
    }
}

/// Whether so many are from the least to the most.
pub fn is_between(least: usize, most: usize, count: usize) -> bool
    ensures { result ≡ limits.is_between least most count }
{
    least <= count && count <= most
}

/// Whether this text may be a name: 1 to 20 bytes, each from 33 to 126.
fn is_name(text: &str) -> bool
    ensures { result ≡ limits.is_name text.now }
{
    is_between(1, 20, text.len()) && are_visible(text.as_bytes())
}

/// Whether the text of this key is this one.
pub fn is_this(table: &Value, key: &str, text: &str) -> bool
    ensures { result ≡ rules.is_this text.now (rules.text_in key.now (view table.now)) }
{
    match text_in(table, key) {
        Some(other) => other == text,
        None => false,
    }
}

/// Whether one of these tables has this text at a key.
fn is_text_of(tables: &[Value], key: &str, text: &str) -> bool
    ensures { result ≡ rules.is_text_of key.now (map view tables.now) text.now }
{
    have_text(tables, key, text)
}

/// The same, said of the values.
fn have_text(tables: &[Value], key: &str, text: &str) -> bool
    ensures { result ≡ list_any (λ t. rules.is_this text.now (rules.text_in key.now (view t))) tables.now }
{
    tables.iter().any(|table| is_this(table, key, text))
}

/// The name at a key, where no earlier table has it.
pub fn own_name<'a>(earlier: &[Value], table: &'a Value, key: &str) -> Option<&'a str>
    ensures { option_map (λ s. s.now) result
        ≡ kept_text (view table.now) (rules.own_name key.now (map view earlier.now)) }
{
    let text = text_in(table, key)?;
    if is_name(text) && !is_text_of(earlier, key, text) {
        Some(text)
    } else {
        None
    }
}

/// Whether these are 1 to 5 digits, of a number of at most 65,535.
fn is_tcp_port(digits: &[u8]) -> bool
    ensures { result ≡ rules.is_tcp_port digits.now }
{
    if !is_between(1, 5, digits.len()) {
        return false;
    }
    if !are_digits(digits) {
        return false;
    }
    match number_of(digits) {
        Some(number) => number <= 65_535,
        None => false,
    }
}

/// Whether a colon stands in a text, behind which is a TCP port.
fn ends_in_port(text: &[u8]) -> bool
    ensures { result ≡ rules.ends_in_port text.now }
{
    let [byte, rest @ ..] = text else {
        return false;
    };
    *byte == b':' && is_tcp_port(rest) || ends_in_port(rest)
}

/// Whether a text is a host, a colon and a TCP port.
fn is_address(text: &[u8]) -> bool
    ensures { result ≡ rules.is_address text.now }
{
    if text.len() > 255 {
        return false;
    }
    if !are_visible(text) {
        return false;
    }
    let [_, rest @ ..] = text else {
        return false;
    };
    ends_in_port(rest)
}

/// The address at a key.
pub fn address<'a>(table: &'a Value, key: &str) -> Option<&'a str>
    ensures { option_map (λ s. s.now) result ≡ kept_text (view table.now) (rules.address key.now) }
{
    let text = text_in(table, key)?;
    if is_address(text.as_bytes()) {
        Some(text)
    } else {
        None
    }
}

/// The address at a key, where no earlier table has it.
pub fn own_address<'a>(earlier: &[Value], table: &'a Value, key: &str) -> Option<&'a str>
    ensures { option_map (λ s. s.now) result
        ≡ kept_text (view table.now) (rules.own_address key.now (map view earlier.now)) }
{
    let text = text_in(table, key)?;
    if is_address(text.as_bytes()) && !is_text_of(earlier, key, text) {
        Some(text)
    } else {
        None
    }
}

/// The user of a port.
pub fn user(table: &Value) -> Option<&str>
    ensures { option_map (λ s. s.now) result ≡ kept_text (view table.now) rules.user }
{
    let text = text_in(table, "user")?;
    if is_between(1, 6, text.len()) {
        Some(text)
    } else {
        None
    }
}

/// The password of a port.
pub fn password(table: &Value) -> Option<&str>
    ensures { option_map (λ s. s.now) result ≡ kept_text (view table.now) rules.password }
{
    let text = text_in(table, "password")?;
    if text.len() <= 10 { Some(text) } else { None }
}

/// The name of a client's port, where one of these ports has it.
pub fn port_name<'a>(ports: &[Value], table: &'a Value) -> Option<&'a str>
    ensures { option_map (λ s. s.now) result ≡ kept_text (view table.now) (rules.port_name (map view ports.now)) }
{
    let text = text_in(table, "port")?;
    if is_text_of(ports, "name", text) {
        Some(text)
    } else {
        None
    }
}

/// The firm of a client.
pub fn firm(table: &Value) -> Option<&str>
    ensures { option_map (λ s. s.now) result ≡ kept_text (view table.now) rules.firm }
{
    let text = text_in(table, "firm")?;
    if is_between(1, 4, text.len()) && are_printable(text.as_bytes()) {
        Some(text)
    } else {
        None
    }
}

/// The text at a key that is one of these letters.
pub fn letter<'a>(table: &'a Value, key: &str, letters: &[u8]) -> Option<&'a str>
    ensures { option_map (λ s. s.now) result ≡ kept_text (view table.now) (rules.letter key.now letters.now) }
{
    let text = text_in(table, key)?;
    if is_letter_of(letters, text.as_bytes()) {
        Some(text)
    } else {
        None
    }
}

/// Whether a text is one of these letters, alone.
fn is_letter_of(letters: &[u8], text: &[u8]) -> bool
    ensures { result ≡ rules.is_letter_of letters.now text.now }
{
    text.len() == 1 && text.iter().all(|byte| is_one_of(letters, *byte))
}

/// Whether a letter is one of these.
fn is_one_of(letters: &[u8], letter: u8) -> bool
    ensures { result ≡ limits.is_byte_of letters.now letter }
{
    letters.iter().any(|known| *known == letter)
}
