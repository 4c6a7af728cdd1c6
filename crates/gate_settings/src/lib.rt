//! The settings of the gateway's core: its own name, its ports and its clients, kept right by their type.
//!
//! `Settings` has only settings that are served: who makes one asks `Settings::are_served` before, and who has one
//! needs no test any more. Which settings are served is `gate_law`'s definition (`is_served`), and each function of
//! `limits.rt` is a line of it.
//!
//! Source: FIX 4.4 Volume 2, "Standard Message Header"; SoupBinTCP 3.00, "Login Request Packet"; OUCH 4.2, "Enter
//! Order Message". How many ports and clients there may be, and how long a name, is this gateway's own.
#![tactic(auto)]

mod client_settings;
mod limits;
mod port_settings;
mod settings;

pub use client_settings::ClientSettings;
pub use port_settings::PortSettings;
pub use settings::Settings;
