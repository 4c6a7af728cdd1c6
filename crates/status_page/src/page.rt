//! The page.

ghost use Rattle.std.specs.Prelude.{◌≡◌, ◌++◌, ◌/◌, IfOk, OnOk, List, ℕ, map, string_bytes};
ghost use Rattle.status_page.specs.Page as spec;

use crate::clients::push_clients;
use crate::day::{DayNames, age_of, is_late};
use crate::pieces::{push_count, push_told};
use crate::ports::{push_alarms, push_ports};
use fix_stamp::stamp;
use gateway_watch::Shown;
use std::alloc::{AllocError, Global};

/// What stands before the body. It fetches nothing, and asks for the page anew each five seconds. On a narrow screen
/// each row of a table is a block of three columns, and each cell has its column's name above it.
const HEAD: &str = "<!doctype html><html lang=\"en\"><meta charset=\"utf-8\">\
<meta name=\"viewport\" content=\"width=device-width\"><meta http-equiv=\"refresh\" content=\"5\">\
<title>gateway</title><style>\
:root{color-scheme:light dark;--line:#d5d9e0;--dim:#667085;--good:#12805c;--bad:#c0362c;--warn:#a15c07;--soft:#f4f6f9}\
@media(prefers-color-scheme:dark){:root{--line:#343b46;--dim:#98a2b3;--good:#4cc38a;--bad:#ff7a70;--warn:#f5b44c;\
--soft:#1b2027}}\
body{font:14px/1.45 system-ui,sans-serif;margin:0 auto;max-width:1180px;padding:20px}\
h1{font-size:20px;margin:0}h2{font-size:15px;margin:26px 0 6px}p{margin:2px 0;color:var(--dim)}\
.t{overflow-x:auto}table{border-collapse:collapse;width:100%}\
th{font-weight:600;text-align:left;color:var(--dim);font-size:12px}\
th,td{padding:5px 14px 5px 0;border-bottom:1px solid var(--line);vertical-align:top;white-space:nowrap}\
.n{text-align:right;font-variant-numeric:tabular-nums}.g{color:var(--good)}.b{color:var(--bad);font-weight:600}\
.w{color:var(--warn);font-weight:600}.d{color:var(--dim)}\
.alarm{background:var(--soft);border-left:4px solid var(--bad);padding:8px 12px;margin:10px 0}\
@media(max-width:560px){body{font-size:13px;padding:12px}.t table,.t tbody{display:block}.t tr:first-child{display:none}\
.t tr{display:grid;grid-template-columns:repeat(3,1fr);padding:6px 0;border-bottom:1px solid var(--line)}\
.t td{border:0;padding:2px 8px 2px 0;white-space:normal;overflow-wrap:anywhere;text-align:left}\
.t td::before{display:block;font-size:11px;font-weight:400;color:var(--dim);content:\"client\"}\
.t td:nth-child(2)::before{content:\"name\"}.t td:nth-child(3)::before{content:\"session\"}\
.t td:nth-child(4)::before{content:\"link\"}.t td:nth-child(5)::before{content:\"open orders\"}\
.t td:nth-child(6)::before{content:\"executed\"}.t td:nth-child(7)::before{content:\"value\"}\
.t td:nth-child(8)::before{content:\"next in\"}.t td:nth-child(9)::before{content:\"next out\"}\
.t~.t td::before{content:\"port\"}.t~.t td:nth-child(2)::before{content:\"address\"}\
.t~.t td:nth-child(3)::before{content:\"session\"}.t~.t td:nth-child(4)::before{content:\"reason\"}\
.t~.t td:nth-child(5)::before{content:\"link\"}.t~.t td:nth-child(6)::before{content:\"next\"}}\
</style>";

/// What stands behind it.
const FOOT: &str = "<p style=\"margin-top:22px\"><a href=\"/status.json\">status.json</a> &middot; \
<a href=\"/metrics\">metrics</a></p></html>\n";

/// The page of a day: alarms first, then clients and ports.
///
/// Source: HTML Living Standard.
pub fn page_of(
    alloc: Global,
    names: &DayNames,
    shown: &Option<Shown>,
    now: u64,
) -> Result<String, AllocError>
    ensures { IfOk result (λ page. (before : List ℕ) × (after : List ℕ)
        × (string_bytes page ≡ before ++ spec.body names.now shown.now now ++ after)) }
{
    let mut page = String::from_str(alloc, HEAD)?;
    push_body(&mut page, names, shown, now)?;
    page.push_str(FOOT)?;
    Ok(page)
}

/// Adds what is said of the day.
#[tactic(auto, unfolding(crate::specs::Page::body))]
fn push_body(
    page: &mut String,
    names: &DayNames,
    shown: &Option<Shown>,
    now: u64,
) -> Result<(), AllocError>
    ensures { OnOk result (string_bytes page.new ≡ string_bytes page.old ++ spec.body names.now shown.now now) }
{
    push_top(page, names, shown)?;
    push_late(page, names, shown, now)?;
    push_status(page, names, shown)?;
    Ok(())
}

/// Adds whose day it is, and from when to when.
#[tactic(auto, unfolding(crate::specs::Page::top))]
fn push_top(page: &mut String, names: &DayNames, shown: &Option<Shown>) -> Result<(), AllocError>
    ensures { OnOk result (string_bytes page.new ≡ string_bytes page.old ++ spec.top names.now shown.now) }
{
    push_title(page, names.gateway.as_slice())?;
    push_moment(page, shown)?;
    push_span(page, names.begun, names.ends)?;
    Ok(())
}

/// Adds whose day it is.
#[tactic(auto, unfolding(crate::specs::Page::title))]
fn push_title(page: &mut String, gateway: &[u8]) -> Result<(), AllocError>
    ensures { OnOk result (string_bytes page.new ≡ string_bytes page.old ++ spec.title gateway.now) }
{
    push_told(page, "<h1>", gateway)?;
    page.push_str("</h1><p>")?;
    Ok(())
}

/// Adds from when to when the day is.
#[tactic(auto, unfolding(crate::specs::Page::span))]
fn push_span(page: &mut String, begun: u64, ends: Option<u64>) -> Result<(), AllocError>
    ensures { OnOk result (string_bytes page.new ≡ string_bytes page.old ++ spec.span begun ends) }
{
    push_told(page, "since ", &stamp(begun))?;
    push_end(page, ends)?;
    page.push_str("</p>\n")?;
    Ok(())
}

/// Adds when all stood as it is shown, and after how many events; nothing where nothing is shown yet.
fn push_moment(page: &mut String, shown: &Option<Shown>) -> Result<(), AllocError>
    ensures { OnOk result (string_bytes page.new ≡ string_bytes page.old ++ spec.moment shown.now) }
{
    match shown {
        Some(shown) => push_moment_of(page, shown),
        None => Ok(()),
    }
}

/// Adds the same of a board.
#[tactic(auto, unfolding(crate::specs::Page::moment_of))]
fn push_moment_of(page: &mut String, shown: &Shown) -> Result<(), AllocError>
    ensures { OnOk result (string_bytes page.new ≡ string_bytes page.old ++ spec.moment_of shown.now) }
{
    push_told(page, "as it stood at ", &stamp(shown.at))?;
    push_count(page, " UTC, after ", shown.status.events())?;
    page.push_str(" events; ")?;
    Ok(())
}

/// Adds when the day ends.
fn push_end(page: &mut String, ends: Option<u64>) -> Result<(), AllocError>
    ensures { OnOk result (string_bytes page.new ≡ string_bytes page.old ++ spec.end ends) }
{
    match ends {
        Some(ends) => push_told(page, "; the day ends at ", &stamp(ends)),
        None => page.push_str("; the day ends when it is told to"),
    }
}

/// Adds that what is shown is late, where it is.
fn push_late(
    page: &mut String,
    names: &DayNames,
    shown: &Option<Shown>,
    now: u64,
) -> Result<(), AllocError>
    ensures { OnOk result (string_bytes page.new ≡ string_bytes page.old ++ spec.late names.now shown.now now) }
{
    if is_late(names, shown, now) {
        push_age_alarm(page, shown, now)
    } else {
        Ok(())
    }
}

/// Adds that what is shown is old, or that nothing is.
#[tactic(auto, unfolding(crate::specs::Page::age_alarm))]
fn push_age_alarm(page: &mut String, shown: &Option<Shown>, now: u64) -> Result<(), AllocError>
    ensures { OnOk result (string_bytes page.new ≡ string_bytes page.old ++ spec.age_alarm shown.now now) }
{
    page.push_str("<div class=\"alarm\"><b>")?;
    push_age(page, shown, now)?;
    page.push_str("</b>: memory is refused, or the gateway hangs.</div>\n")?;
    Ok(())
}

/// Adds how old it is.
fn push_age(page: &mut String, shown: &Option<Shown>, now: u64) -> Result<(), AllocError>
    ensures { OnOk result (string_bytes page.new ≡ string_bytes page.old ++ spec.age shown.now now) }
{
    match shown {
        Some(shown) => {
            push_count(page, "This is ", age_of(shown, now) / 1_000)?;
            page.push_str(" s old")
        }
        None => page.push_str("Nothing is known"),
    }
}

/// Adds how all stood; nothing where nothing is shown yet.
fn push_status(page: &mut String, names: &DayNames, shown: &Option<Shown>) -> Result<(), AllocError>
    ensures { OnOk result (string_bytes page.new ≡ string_bytes page.old ++ spec.status names.now shown.now) }
{
    match shown {
        Some(shown) => push_board(
            page,
            names.clients.as_slice(),
            names.ports.as_slice(),
            shown,
        ),
        None => Ok(()),
    }
}

/// Adds how all stood, by these names and addresses.
fn push_board(
    page: &mut String,
    names: &[Vec<u8>],
    addresses: &[Vec<u8>],
    shown: &Shown,
) -> Result<(), AllocError>
    ensures { OnOk result (string_bytes page.new ≡ string_bytes page.old
        ++ spec.board (map (λ v. v.items) names.now) (map (λ v. v.items) addresses.now) shown.now) }
{
    push_alarms(page, 1, addresses, shown.status.ports())?;
    push_clients(page, names, shown.status.clients())?;
    push_ports(page, addresses, shown.status.ports())
}
