//! A step of the closed world.

use gate_events::Event;
use market_law::Choice;

/// A step of the closed world. Ports go by their numbers, from 1 in the order of the settings. A step that can't be
/// taken does nothing.
#[derive(Debug, Drop)]
pub enum WorldStep {
    /// A client's event, or a tick, with its own link and moment. It can't be taken where it is a port's link that
    /// comes or goes, or a port's packet: those are made by the other steps.
    Client(Event),
    /// A connection of this port opens. It can't be taken beside another one.
    Connect(u16),
    /// The oldest packet on its way to this port's market is delivered; the market answers by this choice, where the
    /// answer is free. It can't be taken where none is on its way.
    ToMarket(u16, Choice),
    /// The oldest packet on its way from this port's market is delivered. It can't be taken where none is on its way.
    ToCore(u16),
    /// This port's market does this by itself.
    Act(u16, Choice),
    /// The connection of this port ends, and what is on its way on it is lost. It can't be taken where there is none.
    Lose(u16),
}
