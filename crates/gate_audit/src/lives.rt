//! What the market said of the orders that were accepted.

ghost use Rattle.std.specs.Prelude.{◌≡◌, ◌≤◌, ◌++◌, IfOk, length, map, reverse};
ghost use Rattle.gate_law.specs.Events.{History};
ghost use Rattle.gate_audit.specs.Pairs as read;
ghost use Rattle.gate_audit.specs.Pairs.{handled_for};
ghost use Rattle.gate_audit.specs.Read.{for_clients};
ghost use Rattle.gate_audit.specs.Called.{AreHandled, heard_on};
ghost use Rattle.gate_audit.specs.Passes.{said_of};

use crate::messages::HandledSoFar;
use crate::opening::Opening;
use crate::openings::Openings;
use gate_core::Settings;
use order_accounts::MessageShelves;
use order_law::Account;
use std::alloc::{AllocError, Global};

/// Shelves for the messages of a port: of more tokens than these several may lead to one shelf.
const MOST_SHELVES: u64 = 1 << 32;

/// What the market said of each of these orders, by client and then in the order of acceptance, from its first token
/// on, in the messages of its client's port that were handled.
///
/// Source: OUCH 4.2, "Outbound Messages".
pub fn lives_of(
    alloc: Global,
    settings: &Settings,
    openings: &Openings,
    ports: Vec<HandledSoFar>,
) -> Result<Vec<Account>, AllocError>
    requires { length ports.items ≡ length settings.now.ports }
    ensures { IfOk result (λ said. (h : History) → AreHandled settings.now h 0 ports.items
        → said.items ≡ for_clients (λ c.
        map (said_of (handled_for settings.now h c)) (read.orders_of c openings.now.orders.items))
        (length settings.now.clients)) }
{
    let handled = shelved_messages(alloc, ports, openings.given)?;
    let mut said = Vec::with_capacity(alloc, openings.orders.len())?;
    for place in 0..settings.clients().len() {
        let client = (place + 1) as u16;
        let own = &settings.clients()[place];
        let port = usize::from(own.terms.port) - 1;
        say_all(alloc, client, &openings.orders, &handled[port], &mut said)?;
    }
    Ok(said)
}

/// The messages of each port, on shelves for so many tokens.
fn shelved_messages(
    alloc: Global,
    ports: Vec<HandledSoFar>,
    tokens: u64,
) -> Result<Vec<MessageShelves>, AllocError>
    ensures { IfOk result (λ handled. handled.items ≡ map heard_on ports.items) }
{
    let shelves = tokens.min(MOST_SHELVES) as usize + 1;
    let mut handled = Vec::new(alloc);
    for port in ports {
        handled.push(MessageShelves::of(alloc, port.into_handled(), shelves)?)?;
    }
    Ok(handled)
}

/// What these messages say of a client's orders, behind what was said before.
fn say_all(
    alloc: Global,
    client: u16,
    openings: &[Opening],
    handled: &MessageShelves,
    said: &mut Vec<Account>,
) -> Result<(), AllocError>
    ensures { IfOk result (λ u. said.new.items ≡ said.old.items
        ++ map (said_of (reverse handled.now)) (read.orders_of client openings.now)) }
{
    for opening in openings {
        if opening.client == client {
            let life = handled.life(alloc, &opening.root.bytes(), opening.side)?;
            said.push(life.account())?;
        }
    }
    Ok(())
}
