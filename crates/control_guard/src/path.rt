//! What is asked for, by path.

ghost use Rattle.std.specs.Prelude.{◌≡◌, option_map};
ghost use Rattle.control_guard.specs.Guard as spec;

use crate::asked::{Act, Asked, View};
use wire_bytes::{are_digits, number_of};

/// What a path and its query ask for, where there are so many clients; `None` where there is no such path.
pub(crate) fn asked_at(clients: u16, path: &[u8], query: Option<&[u8]>) -> Option<Asked>
    ensures { result ≡ spec.asked_at clients path.now (option_map (λ t. t.now) query.entry) }
{
    match query {
        None => asked_plainly(path),
        Some(query) => asked_by_query(clients, path, query),
    }
}

/// What a path without a query asks for.
fn asked_plainly(path: &[u8]) -> Option<Asked>
    ensures { result ≡ spec.asked_plainly path.now }
{
    if path == b"/".as_slice() {
        Some(Asked::Show(View::Page))
    } else if path == b"/status.json".as_slice() {
        Some(Asked::Show(View::Json))
    } else if path == b"/metrics".as_slice() {
        Some(Asked::Show(View::Metrics))
    } else if path == b"/end".as_slice() {
        Some(Asked::Do(Act::End))
    } else {
        None
    }
}

/// What a path with a query asks for.
fn asked_by_query(clients: u16, path: &[u8], query: &[u8]) -> Option<Asked>
    ensures { result ≡ spec.asked_by_query clients path.now query.now }
{
    if path == b"/end".as_slice() && query == b"now".as_slice() {
        Some(Asked::Do(Act::EndNow))
    } else if path == b"/disconnect".as_slice() {
        disconnect_of(clients, query)
    } else {
        None
    }
}

/// Whom a query has disconnected: `client=C2`, where there are so many clients.
fn disconnect_of(clients: u16, query: &[u8]) -> Option<Asked>
    ensures { result ≡ spec.disconnect_of clients query.now }
{
    match query.strip_prefix(b"client=C") {
        Some(digits) => disconnect_in(clients, digits),
        None => None,
    }
}

/// The same by the digits of the client's number.
fn disconnect_in(clients: u16, digits: &[u8]) -> Option<Asked>
    ensures { result ≡ spec.disconnect_in clients digits.now }
{
    if !are_digits(digits) {
        return None;
    }
    match number_of(digits) {
        Some(number) if 1 <= number && number <= u64::from(clients) => {
            Some(Asked::Do(Act::Disconnect(number as u16)))
        }
        _ => None,
    }
}
