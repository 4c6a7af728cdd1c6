//! The parts before the first event, by the settings.

ghost use Rattle.std.specs.Prelude.{◌≡◌, ◌≤◌, ℕ, [], None, length, map, IfOk};
ghost use Rattle.order_core.specs.State.{IsAfterTurns, core_clients, core_numbers};
ghost use Rattle.gate_settings.specs.to_market.TermsSeen.{terms_seen};
ghost use Rattle.gate_settings.specs.Kept.{IsNamed};
ghost use Rattle.gate_law.specs.Settings.{client_name, terms};
ghost use Rattle.gate_law.specs.Lists.{nothing_yet};
ghost use Rattle.gate_sessions.specs.Leaving.{ClientLeaves};
ghost use Rattle.gate_sessions.specs.Lines.{ClientsLeave, ClientLinks, PortsLeave, PortLinks, NextWithin};
ghost use Rattle.gate_core.specs.State.{ArePortsOf, AreAmong, HasNumbers, IsShaped, ArePartsOf};

use super::Parts;
use fix_fields::Text;
use gate_sessions::{ClientLine, Clients, PortLine, Ports};
use gate_settings::{ClientSettings, Settings};
use order_core::{ClientTerms, OrderCore};
use std::alloc::{AllocError, Global};
use std::hash::BuildHasher;

impl<S: BuildHasher + Drop> Parts<S> {
    /// The parts of these settings before the first event, with the order level of their clients.
    pub(crate) fn new(
        alloc: Global,
        settings: &Settings,
        orders: OrderCore<S>,
    ) -> Result<Parts<S>, AllocError>
        requires after { IsAfterTurns (terms settings.now) [] orders }
        requires clients { core_clients orders ≡ length settings.now.clients }
        requires issued { core_numbers orders ≡ 0 }
        ensures parts { IfOk result (λ parts. ArePartsOf settings.now nothing_yet parts) }
        ensures shaped { IfOk result (λ parts. IsShaped parts) }
        ensures numbers { IfOk result (λ parts. HasNumbers 0 parts) }
    {
        Ok(Parts {
            clients: Clients {
                lines: client_lines(alloc, settings)?,
            },
            ports: Ports {
                lines: port_lines(alloc, settings)?,
            },
            client_ports: client_ports(alloc, settings)?,
            orders,
        })
    }
}

/// A line for each client, with no link, of a session that has had no call.
fn client_lines(alloc: Global, settings: &Settings) -> Result<Vec<ClientLine>, AllocError>
    ensures leave { IfOk result (λ lines. ClientsLeave settings.now (λ client. []) lines.items) }
    ensures links { IfOk result (λ lines. ClientLinks (λ client. None) lines.items) }
    ensures length { IfOk result (λ lines. length lines.items ≡ length settings.now.clients) }
    ensures few { IfOk result (λ lines. length lines.items ≤ 64) }
{
    let mut lines = Vec::new(alloc);
    for client in settings.clients() {
        lines.push(client_line(alloc, settings, client)?)?;
    }
    Ok(lines)
}

/// The line of one client.
fn client_line(
    alloc: Global,
    settings: &Settings,
    client: &ClientSettings,
) -> Result<ClientLine, AllocError>
    requires { IsNamed client.now }
    ensures leaves { IfOk result (λ line. (c : ℕ) → client_name settings.now c ≡ client.now.comp
        → ClientLeaves settings.now c [] line.session.session) }
    ensures link { IfOk result (λ line. line.link ≡ None) }
{
    let gate = Text::copied(alloc, settings.comp())?;
    let name = Text::copied(alloc, client.comp.as_slice())?;
    Ok(ClientLine::new(alloc, gate, name))
}

/// A line for each port, with no link, of a session that has made no call.
fn port_lines(alloc: Global, settings: &Settings) -> Result<Vec<PortLine>, AllocError>
    ensures leave { IfOk result (λ lines. PortsLeave settings.now (λ p. []) lines.items) }
    ensures links { IfOk result (λ lines. PortLinks (λ p. None) lines.items) }
    ensures next { IfOk result (λ lines. NextWithin 1 lines.items) }
    ensures length { IfOk result (λ lines. length lines.items ≡ length settings.now.ports) }
    ensures few { IfOk result (λ lines. length lines.items ≤ 16) }
{
    let mut lines = Vec::new(alloc);
    for port in settings.ports() {
        lines.push(PortLine::new(&port.user, &port.password))?;
    }
    Ok(lines)
}

/// The port of each client, by the client's place.
fn client_ports(alloc: Global, settings: &Settings) -> Result<Vec<u16>, AllocError>
    ensures are { IfOk result (λ ports. ArePortsOf settings.now ports.items) }
    ensures among { IfOk result (λ ports. AreAmong (length settings.now.ports) ports.items) }
    ensures length { IfOk result (λ ports. length ports.items ≡ length settings.now.clients) }
{
    let mut ports = Vec::new(alloc);
    for client in settings.clients() {
        ports.push(client.terms.port)?;
    }
    Ok(ports)
}

/// The order level of these clients, with no orders, with the fixed seed.
pub(crate) fn orders(alloc: Global, settings: &Settings) -> Result<OrderCore, AllocError>
    ensures after { IfOk result (λ orders. IsAfterTurns (terms settings.now) [] orders) }
    ensures clients { IfOk result (λ orders. core_clients orders ≡ length settings.now.clients) }
    ensures issued { IfOk result (λ orders. core_numbers orders ≡ 0) }
{
    let terms = client_terms(alloc, settings)?;
    OrderCore::new(alloc, &terms)
}

/// The order level of these clients, with no orders, with a hasher.
pub(crate) fn orders_with_hasher<S: BuildHasher + Clone + Drop>(
    alloc: Global,
    hasher: S,
    settings: &Settings,
) -> Result<OrderCore<S>, AllocError>
    ensures after { IfOk result (λ orders. IsAfterTurns (terms settings.now) [] orders) }
    ensures clients { IfOk result (λ orders. core_clients orders ≡ length settings.now.clients) }
    ensures issued { IfOk result (λ orders. core_numbers orders ≡ 0) }
{
    let terms = client_terms(alloc, settings)?;
    OrderCore::with_hasher(alloc, hasher, &terms)
}

/// The terms of each client, by the client's place.
fn client_terms(alloc: Global, settings: &Settings) -> Result<Vec<ClientTerms>, AllocError>
    ensures { IfOk result (λ all. map terms_seen all.items ≡ terms settings.now) }
{
    let mut all = Vec::new(alloc);
    for client in settings.clients() {
        all.push(client.terms)?;
    }
    Ok(all)
}
