//! A closed world, played: what comes of its steps, and the audit of it beside the markets' books.

ghost use Rattle.std.specs.Prelude.{◌≡◌, ◌++◌, true, List, IfOk, map, reverse};
ghost use Rattle.order_machine.specs.Runs.{IsTableRun};
ghost use Rattle.gate_law.specs.Settings as law;
ghost use Rattle.gate_law.specs.Holds.{Holds};
ghost use Rattle.world_law.specs.World as world;
ghost use Rattle.world_law.specs.World.{LeadsTo, World};
ghost use Rattle.world_law.specs.Promises.{turns_of};
ghost use Rattle.closed_world.specs.Steps.{step_seen};
ghost use Rattle.closed_world.specs.Worlds.{IsAsWorld, IsWorld};
ghost use Rattle.gate_audit.specs.Pairs as read;
ghost use Rattle.gate_audit.specs.Played as played;
ghost use Rattle.gate_audit.specs.Played.{KeepsPromises, Plays};

use crate::opening::Opening;
use crate::openings::openings_of;
use crate::order_pair::OrderPair;
use crate::pairs::audit;
use closed_world::{ClosedWorld, WorldStep};
use gate_core::Settings;
use gate_journal::History;
use market_law::BookRow;
use order_accounts::ReadingFault;
use std::alloc::{AllocError, Global};
use world_law::{
    at_rest_both_agree, cancels_of_a_request_find_one_token, fill_or_kill_executes_all_or_nothing,
    no_batch_has_a_fault, orders_stay_within_what_was_accepted, what_is_asked_is_done_once,
};

/// What came of a closed world's steps.
#[derive(Drop)]
pub struct Played {
    /// The core's events with their batches, the oldest first.
    pub history: History,
    /// What the market has of each order that was accepted, in the order of `pairs`: zeros and no side of an order that
    /// never came there, or that it rejected.
    pub books: Vec<BookRow>,
    /// Each order that was accepted by both of its accounts, as `audit` has them.
    pub pairs: Vec<OrderPair>,
}

/// What comes of these steps, one after another, from no step on: a core, a market for each port that the settings
/// have, and the connections between them, in memory. A step that can't be taken does nothing.
///
/// The refusals are those of `audit`: `TooLarge` where an account has a number that is larger than its integer holds,
/// or more tokens were given than there are; or else `NoMemory`.
///
/// Source: FIX 4.4 Volumes 2 and 4; OUCH 4.2; SoupBinTCP 3.00.
pub fn play(alloc: Global, settings: &Settings, steps: &[WorldStep]) -> Result<Played, ReadingFault>
    ensures { IfOk result (λ done. Plays settings.now (reverse (map step_seen steps.now)) done.history done.books.items
        done.pairs.items) }
{
    let world = world_after(alloc, settings, steps)?;
    promises(settings);
    let books = books_of(alloc, settings, &world)?;
    let history = world.into_history();
    let pairs = audit(alloc, &history, settings)?;
    Ok(Played {
        history,
        books,
        pairs,
    })
}

/// The world of these settings after these steps.
fn world_after(
    alloc: Global,
    settings: &Settings,
    steps: &[WorldStep],
) -> Result<ClosedWorld, AllocError>
    ensures { IfOk result (λ world. IsWorld settings.now (reverse (map step_seen steps.now)) world) }
{
    let mut world = ClosedWorld::new(alloc, settings)?;
    for step in steps {
        world.step(alloc, step)?;
    }
    Ok(world)
}

/// What the markets have of the orders that were accepted, by client and then in the order of acceptance.
fn books_of(
    alloc: Global,
    settings: &Settings,
    world: &ClosedWorld,
) -> Result<Vec<BookRow>, ReadingFault>
    ensures { IfOk result (λ books. (x : World) → IsAsWorld settings.now x world.now
        → books.items ≡ played.books settings.now x) }
{
    let openings = openings_of(alloc, world.history())?;
    let mut books = Vec::new(alloc);
    for place in 0..settings.clients().len() {
        let client = (place + 1) as u16;
        let own = &settings.clients()[place];
        let port = own.terms.port;
        push_rows(world, client, port, openings.orders.as_slice(), &mut books)?;
    }
    Ok(books)
}

/// What the market of a port has of a client's orders, behind the rows before.
fn push_rows(
    world: &ClosedWorld,
    client: u16,
    port: u16,
    openings: &[Opening],
    books: &mut Vec<BookRow>,
) -> Result<(), AllocError>
    ensures { IfOk result (λ u. (s : law.Settings) (x : World) → IsAsWorld s x world.now → law.has_port s port ≡ true
        → books.new.items ≡ books.old.items ++ map (played.book_of x port) (read.orders_of client openings.now)) }
{
    for opening in openings {
        if opening.client == client {
            books.push(world.row(port, &opening.root.bytes()))?;
        }
    }
    Ok(())
}

/// What holds of every world of these settings that steps lead to. It does nothing: its contract is what the laws say.
fn promises(settings: &Settings)
    ensures { (steps : List world.WorldStep) (w : World) → LeadsTo settings.now steps w → Holds settings.now w.history
        → IsTableRun (law.terms settings.now) (turns_of settings.now w) → KeepsPromises settings.now w }
{
    // known of it: the settings are served
    let _comp = settings.comp();
    no_batch_has_a_fault();
    what_is_asked_is_done_once();
    cancels_of_a_request_find_one_token();
    orders_stay_within_what_was_accepted();
    fill_or_kill_executes_all_or_nothing();
    at_rest_both_agree();
}
