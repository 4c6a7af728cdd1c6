//! The metrics, in the text format of Prometheus.

ghost use Rattle.std.specs.Prelude.{◌≡◌, ◌++◌, IfOk, OnOk, map};
ghost use Rattle.status_metrics.specs.Metrics as spec;

use crate::client_metric::ClientMetric;
use crate::port_metric::PortMetric;
use gate_core::{ClientRow, PortRow};
use gateway_watch::Shown;
use itoa::Buffer;
use status_page::{DayNames, first_name, other_names};
use std::alloc::{AllocError, Global};

/// The metrics of a day: each with a line for each client or port. Before anything is shown there is the start alone.
///
/// Source: Prometheus text format 0.0.4.
pub fn metrics_of(
    alloc: Global,
    names: &DayNames,
    shown: &Option<Shown>,
    now: u64,
) -> Result<Vec<u8>, AllocError>
    ensures { IfOk result (λ text. text.items ≡ spec.metrics names.now shown.now now) }
{
    let mut text = Vec::new(alloc);
    push_start(&mut text, names.begun)?;
    if let Some(shown) = shown {
        push_shown(&mut text, names, shown, now)?;
    }
    Ok(text)
}

/// Adds when the day began.
#[tactic(auto, unfolding(crate::specs::Metrics::start))]
fn push_start(text: &mut Vec<u8>, begun: u64) -> Result<(), AllocError>
    ensures { OnOk result (text.new.items ≡ text.old.items ++ spec.start begun) }
{
    push_head(
        text,
        b"gateway_start_time_seconds",
        b"gauge",
        b"When the day began, in seconds since 1970.",
    )?;
    push_number(text, b"gateway_start_time_seconds ", begun / 1_000)?;
    Ok(())
}

/// Adds how all stood.
fn push_shown(
    text: &mut Vec<u8>,
    names: &DayNames,
    shown: &Shown,
    now: u64,
) -> Result<(), AllocError>
    ensures { OnOk result (text.new.items ≡ text.old.items ++ spec.board names.now shown.now now) }
{
    push_age(text, now.saturating_sub(shown.at))?;
    push_events(text, shown.status.events())?;
    push_clients(text, names.clients.as_slice(), shown.status.clients())?;
    push_ports(text, names.ports.as_slice(), shown.status.ports())?;
    Ok(())
}

/// Adds how old the board is, of milliseconds.
#[tactic(auto, unfolding(crate::specs::Metrics::age_of))]
fn push_age(text: &mut Vec<u8>, age: u64) -> Result<(), AllocError>
    ensures { OnOk result (text.new.items ≡ text.old.items ++ spec.age_of age) }
{
    push_head(
        text,
        b"gateway_board_age_seconds",
        b"gauge",
        b"How old what is said here of clients and ports is.",
    )?;
    push_number(text, b"gateway_board_age_seconds ", age / 1_000)?;
    Ok(())
}

/// Adds how many events were stepped.
#[tactic(auto, unfolding(crate::specs::Metrics::events_of))]
fn push_events(text: &mut Vec<u8>, events: u64) -> Result<(), AllocError>
    ensures { OnOk result (text.new.items ≡ text.old.items ++ spec.events_of events) }
{
    push_head(
        text,
        b"gateway_events_total",
        b"counter",
        b"Events that were stepped since the day began.",
    )?;
    push_number(text, b"gateway_events_total ", events)?;
    Ok(())
}

/// Adds the metrics of clients.
#[tactic(auto, unfolding(crate::specs::Metrics::clients))]
fn push_clients(text: &mut Vec<u8>, names: &[Vec<u8>], rows: &[ClientRow]) -> Result<(), AllocError>
    ensures { OnOk result (text.new.items ≡ text.old.items ++ spec.clients (map (λ v. v.items) names.now) rows.now) }
{
    push_client_metric(text, ClientMetric::Up, names, rows)?;
    push_client_metric(text, ClientMetric::OpenOrders, names, rows)?;
    push_executed(text, names, rows)?;
    push_client_metric(text, ClientMetric::NextIn, names, rows)?;
    push_client_metric(text, ClientMetric::NextOut, names, rows)?;
    Ok(())
}

/// Adds the metrics of what clients executed.
fn push_executed(
    text: &mut Vec<u8>,
    names: &[Vec<u8>],
    rows: &[ClientRow],
) -> Result<(), AllocError>
    ensures { OnOk result (text.new.items ≡ text.old.items ++ spec.executed (map (λ v. v.items) names.now) rows.now) }
{
    push_client_metric(text, ClientMetric::ExecutedShares, names, rows)?;
    push_client_metric(text, ClientMetric::ExecutedValue, names, rows)
}

/// Adds a metric of clients.
#[tactic(auto, unfolding(crate::specs::Metrics::client_metric))]
fn push_client_metric(
    text: &mut Vec<u8>,
    metric: ClientMetric,
    names: &[Vec<u8>],
    rows: &[ClientRow],
) -> Result<(), AllocError>
    ensures { OnOk result (text.new.items ≡ text.old.items
        ++ spec.client_metric metric (map (λ v. v.items) names.now) rows.now) }
{
    push_head(text, metric.name(), b"gauge", metric.help())?;
    push_client_lines(text, metric, names, rows)?;
    Ok(())
}

/// Adds a line for each client.
fn push_client_lines(
    text: &mut Vec<u8>,
    metric: ClientMetric,
    names: &[Vec<u8>],
    rows: &[ClientRow],
) -> Result<(), AllocError>
    ensures { OnOk result (text.new.items ≡ text.old.items
        ++ spec.client_lines metric (map (λ v. v.items) names.now) rows.now) }
{
    match rows {
        [row, rows @ ..] => {
            push_line(
                text,
                metric.name(),
                b"client",
                first_name(names),
                metric.of(row),
            )?;
            push_client_lines(text, metric, other_names(names), rows)
        }
        [] => Ok(()),
    }
}

/// Adds the metrics of ports.
#[tactic(auto, unfolding(crate::specs::Metrics::ports))]
fn push_ports(text: &mut Vec<u8>, names: &[Vec<u8>], rows: &[PortRow]) -> Result<(), AllocError>
    ensures { OnOk result (text.new.items ≡ text.old.items ++ spec.ports (map (λ v. v.items) names.now) rows.now) }
{
    push_port_metric(text, PortMetric::Up, names, rows)?;
    push_port_metric(text, PortMetric::Faulted, names, rows)?;
    push_port_metric(text, PortMetric::Next, names, rows)?;
    Ok(())
}

/// Adds a metric of ports.
#[tactic(auto, unfolding(crate::specs::Metrics::port_metric))]
fn push_port_metric(
    text: &mut Vec<u8>,
    metric: PortMetric,
    names: &[Vec<u8>],
    rows: &[PortRow],
) -> Result<(), AllocError>
    ensures { OnOk result (text.new.items ≡ text.old.items
        ++ spec.port_metric metric (map (λ v. v.items) names.now) rows.now) }
{
    push_head(text, metric.name(), b"gauge", metric.help())?;
    push_port_lines(text, metric, names, rows)?;
    Ok(())
}

/// Adds a line for each port.
fn push_port_lines(
    text: &mut Vec<u8>,
    metric: PortMetric,
    names: &[Vec<u8>],
    rows: &[PortRow],
) -> Result<(), AllocError>
    ensures { OnOk result (text.new.items ≡ text.old.items
        ++ spec.port_lines metric (map (λ v. v.items) names.now) rows.now) }
{
    match rows {
        [row, rows @ ..] => {
            push_line(
                text,
                metric.name(),
                b"port",
                first_name(names),
                u128::from(metric.of(row)),
            )?;
            push_port_lines(text, metric, other_names(names), rows)
        }
        [] => Ok(()),
    }
}

/// Adds what stands before the lines of a metric.
fn push_head(text: &mut Vec<u8>, metric: &[u8], kind: &[u8], help: &[u8]) -> Result<(), AllocError>
    ensures { OnOk result (text.new.items ≡ text.old.items ++ spec.head metric.now kind.now help.now) }
{
    push_comment(text, b"# HELP ", metric, help)?;
    push_comment(text, b"# TYPE ", metric, kind)
}

/// Adds a line that says something of a metric.
#[tactic(auto, unfolding(crate::specs::Metrics::comment))]
fn push_comment(
    text: &mut Vec<u8>,
    word: &[u8],
    metric: &[u8],
    said: &[u8],
) -> Result<(), AllocError>
    ensures { OnOk result (text.new.items ≡ text.old.items ++ spec.comment word.now metric.now said.now) }
{
    text.extend_from_slice(word)?;
    text.extend_from_slice(metric)?;
    text.push(b' ')?;
    text.extend_from_slice(said)?;
    text.push(b'\n')?;
    Ok(())
}

/// Adds the line of a client or port.
fn push_line(
    text: &mut Vec<u8>,
    metric: &[u8],
    label: &[u8],
    name: &[u8],
    value: u128,
) -> Result<(), AllocError>
    ensures { OnOk result (text.new.items ≡ text.old.items ++ spec.line metric.now label.now name.now value) }
{
    text.extend_from_slice(metric)?;
    text.push(b'{')?;
    text.extend_from_slice(label)?;
    text.extend_from_slice(b"=\"")?;
    push_quoted(text, name)?;
    push_sum(text, b"\"} ", value)
}

/// Adds a label's value, in which a backslash, a quote and the end of a line stand behind a backslash.
fn push_quoted(text: &mut Vec<u8>, name: &[u8]) -> Result<(), AllocError>
    ensures { OnOk result (text.new.items ≡ text.old.items ++ spec.quoted name.now) }
{
    for byte in name {
        push_quoted_byte(text, *byte)?;
    }
    Ok(())
}

/// Adds a byte of it.
fn push_quoted_byte(text: &mut Vec<u8>, byte: u8) -> Result<(), AllocError>
    ensures { OnOk result (text.new.items ≡ text.old.items ++ spec.quoted_byte byte) }
{
    if byte == b'\\' {
        text.extend_from_slice(b"\\\\")
    } else if byte == b'"' {
        text.extend_from_slice(b"\\\"")
    } else if byte == b'\n' {
        text.extend_from_slice(b"\\n")
    } else {
        text.push(byte)?;
        Ok(())
    }
}

/// Adds a word, a number and the end of the line.
fn push_number(text: &mut Vec<u8>, word: &[u8], number: u64) -> Result<(), AllocError>
    ensures { OnOk result (text.new.items ≡ text.old.items ++ spec.counted word.now number) }
{
    let mut buffer = Buffer::new();
    text.extend_from_slice(word)?;
    text.extend_from_slice(buffer.format(number).as_bytes())?;
    text.push(b'\n')?;
    Ok(())
}

/// The same of a number that may have more than 64 bits.
fn push_sum(text: &mut Vec<u8>, word: &[u8], number: u128) -> Result<(), AllocError>
    ensures { OnOk result (text.new.items ≡ text.old.items ++ spec.counted word.now number) }
{
    let mut buffer = Buffer::new();
    text.extend_from_slice(word)?;
    text.extend_from_slice(buffer.format(number).as_bytes())?;
    text.push(b'\n')?;
    Ok(())
}
