//! A payload of the market, judged by the table of orders.

ghost use Rattle.std.specs.Prelude.{◌<◌, ◌^◌, IfOk};
ghost use Rattle.market_messages.specs.Turns.{Steps};

use crate::judged::Judged;
use crate::market_fault::fault_of;
use crate::on_orders::hear_message;
use order_table::Table;
use ouch_codec::{DecodeRefusal, Outbound};
use std::alloc::{AllocError, Global};
use std::hash::BuildHasher;

/// Judges a payload that a port's session delivered, by what it is decoded as; `issued` reports were issued so far, of
/// all clients.
///
/// The faults, the first that holds: `OutsideProfile` (the type of no message), `Undecodable` (another length than its
/// type's, a field outside its set, or no byte at all), `UnknownToken` (no order of this port has it), `NotLawful` (it
/// doesn't fit the order). A Priority Update and a System Event change nothing. The one error is that memory ran out.
///
/// Source: OUCH 4.2, "Outbound Messages".
pub fn hear<S: BuildHasher + Drop>(
    alloc: Global,
    issued: u64,
    table: &Table<S>,
    port: u16,
    heard: &Result<Outbound, DecodeRefusal>,
) -> Result<Judged, AllocError>
    requires { issued < 2 ^ 60 }
    ensures { IfOk result (Steps issued port heard.now table.now) }
{
    match heard {
        Err(refusal) => Ok(Judged::Faulty(fault_of(*refusal))),
        Ok(message) => hear_message(alloc, issued, table, port, message),
    }
}
