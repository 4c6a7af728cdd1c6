//! The table.

ghost use Rattle.std.specs.Prelude.{◌≡◌, bytes_eq, map, option_map};
ghost use Rattle.std.specs.List.{list_any};
ghost use Rattle.control_guard.specs.Guard as spec;

use crate::asked::{Act, Asked, View};
use crate::path::asked_at;
use crate::request::{Method, Request, Rules};
use crate::secret::is_same_secret;

/// Why a request is refused.
#[derive(Clone, Copy, PartialEq, Eq)]
pub enum Refusal {
    /// 403: its `Host` is none of the endpoint's own names, as of a page whose attacker's DNS gives this address.
    ForeignHost,
    /// 401: it doesn't give the token.
    NoToken,
    /// 403: a page of another site asks for it.
    ForeignOrigin,
    /// 404.
    NoSuchPath,
    /// 405.
    WrongMethod,
}

/// What becomes of a request.
#[derive(Clone, Copy)]
pub enum Verdict {
    /// This is done.
    Does(Act),
    /// This is shown.
    Shows(View),
    /// Nothing, for this reason.
    Refused(Refusal),
}

/// What becomes of a request, by the first row that holds: another host's name, no token where one is set, no such
/// path, another method than the path's, a page of another site. Takes no memory.
pub fn judged(request: &Request<'_>, rules: &Rules) -> Verdict
    ensures { result ≡ spec.verdict (spec.own_of rules.now) (spec.sent_of request.now) }
{
    if !is_own_host(request.host, &rules.hosts) {
        return Verdict::Refused(Refusal::ForeignHost);
    }
    if !gives_token(request.token, &rules.token) {
        return Verdict::Refused(Refusal::NoToken);
    }
    match asked_at(rules.clients, request.path, request.query) {
        None => Verdict::Refused(Refusal::NoSuchPath),
        Some(Asked::Show(view)) => shows(view, request),
        Some(Asked::Do(act)) => does(act, request, rules),
    }
}

/// What becomes of a request that something be shown. A page of another site may ask for it: it isn't let read it.
fn shows(view: View, request: &Request<'_>) -> Verdict
    ensures { result ≡ spec.verdict_to_view view request.now.method }
{
    match request.method {
        Method::Get => Verdict::Shows(view),
        Method::Post | Method::Other => Verdict::Refused(Refusal::WrongMethod),
    }
}

/// What becomes of a request that something be done.
fn does(act: Act, request: &Request<'_>, rules: &Rules) -> Verdict
    ensures { result ≡ spec.verdict_to_act act (spec.own_of rules.now) (spec.sent_of request.now) }
{
    match request.method {
        Method::Get | Method::Other => Verdict::Refused(Refusal::WrongMethod),
        Method::Post => {
            if is_own_origin(request.origin, &rules.hosts) {
                Verdict::Does(act)
            } else {
                Verdict::Refused(Refusal::ForeignOrigin)
            }
        }
    }
}

/// Whether a `Host` is one of these.
fn is_own_host(host: Option<&[u8]>, hosts: &Vec<Vec<u8>>) -> bool
    ensures { result ≡ spec.is_own_host (map (λ v. v.items) hosts.now.items) (option_map (λ t. t.now) host.entry) }
{
    match host {
        Some(host) => names_one(host, hosts.as_slice()),
        None => false,
    }
}

/// Whether one of these hosts is named.
fn names_one(name: &[u8], hosts: &[Vec<u8>]) -> bool
    ensures { result ≡ list_any (λ v. bytes_eq name.now v.items) hosts.now }
{
    hosts.iter().any(|own| name == own.as_slice())
}

/// Whether an `Origin` is of one of these hosts, or there is none.
fn is_own_origin(origin: Option<&[u8]>, hosts: &Vec<Vec<u8>>) -> bool
    ensures { result ≡ spec.is_own_origin (map (λ v. v.items) hosts.now.items) (option_map (λ t. t.now) origin.entry) }
{
    match origin {
        Some(origin) => is_of_one(origin, hosts.as_slice()),
        None => true,
    }
}

/// Whether an origin is of one of these hosts.
fn is_of_one(origin: &[u8], hosts: &[Vec<u8>]) -> bool
    ensures { result ≡ list_any (λ v. spec.is_origin_of v.items origin.now) hosts.now }
{
    hosts.iter().any(|own| is_origin_of(origin, own.as_slice()))
}

/// Whether an origin is `http://` and this host.
fn is_origin_of(origin: &[u8], host: &[u8]) -> bool
    ensures { result ≡ spec.is_origin_of host.now origin.now }
{
    match origin.strip_prefix(b"http://") {
        Some(rest) => rest == host,
        None => false,
    }
}

/// Whether the token is given, where there is one.
fn gives_token(given: Option<&[u8]>, wanted: &Option<Vec<u8>>) -> bool
    ensures { result ≡ spec.gives_token (option_map (λ v. v.items) wanted.now) (option_map (λ t. t.now) given.entry) }
{
    match (wanted, given) {
        (None, _) => true,
        (Some(wanted), Some(given)) => is_same_secret(given, wanted.as_slice()),
        (Some(_), None) => false,
    }
}
