//! The closed world: a core, a market for each port, and the connections between them, stepped by what a list of steps
//! says. Of the clients nothing is assumed.
//!
//! In go steps: a client's event, a tick, a connection that opens or ends, the next packet that is delivered, what a
//! market does by itself. Each event of the core is kept with its batch. Nothing here reads a clock or a socket. Of
//! each port its market and its connection, with what is on its way, are one value beside the core: `src/port_line.rt`.
//!
//! Source: SoupBinTCP 3.00, "Packets Sent by the Client", "Packets Sent by the Server"; OUCH 4.2.
#![tactic(auto)]

mod connection;
mod events;
mod places;
mod port_line;
mod step;
mod world;

pub use connection::Connection;
pub use port_line::PortLine;
pub use step::WorldStep;
pub use world::ClosedWorld;
