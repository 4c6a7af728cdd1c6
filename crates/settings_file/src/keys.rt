//! The keys of a table.

ghost use Rattle.std.specs.Prelude.{◌≡◌, ℕ, List, map, option_map, not, find, bytes_eq, string_bytes};
ghost use Rattle.std.specs.BTreeMap.{keys as keys_of_map};
ghost use Rattle.std.specs.List.{list_any};
ghost use Rattle.toml.specs.View.{table_view, view};
ghost use Rattle.settings_file.specs.Rules as rules;
ghost use Rattle.settings_file.specs.Rules.{member_keys};

use toml::{Table, Value};

/// The first key of a table, in byte order, that isn't one of these.
pub fn first_other<'a>(table: &'a Value, keys: &[&str]) -> Option<&'a str>
    ensures { option_map (λ s. s.now) result
        ≡ rules.first_other (map (λ s. s.now) keys.now) (view table.now) }
{
    match table.as_table() {
        Some(table) => other_in(table, keys),
        None => None,
    }
}

/// The same of the map that a table is.
fn other_in<'a>(table: &'a Table, keys: &[&str]) -> Option<&'a str>
    ensures { option_map (λ s. s.now) result
        ≡ find (λ key. not (list_any (bytes_eq key) (map (λ s. s.now) keys.now))) (member_keys (table_view table.now)) }
{
    match other_key(table, keys) {
        Some(key) => Some(key.as_str()),
        None => None,
    }
}

/// The same key, as the map has it.
fn other_key<'a>(table: &'a Table, keys: &[&str]) -> Option<&'a String>
    ensures { option_map (λ k. k.now) result
        ≡ find (λ key. not (list_any (λ k. bytes_eq (string_bytes key) k.now) keys.now)) (keys_of_map table.now) }
{
    table.keys().find(|key| !is_one_of(key.as_str(), keys))
}

/// Whether this key is one of these.
fn is_one_of(key: &str, keys: &[&str]) -> bool
    ensures { result ≡ list_any (λ k. bytes_eq key.now k.now) keys.now }
{
    keys.iter().any(|known| key == *known)
}

/// The number, from 1, of the table behind these.
pub fn number_behind(earlier: &[Value]) -> usize
    ensures { result ≡ rules.number_behind (map view earlier.now) }
{
    earlier.len() + 1
}
