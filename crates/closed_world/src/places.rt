//! Ports by their numbers.

ghost use Rattle.std.specs.Prelude.{◌≡◌, ◌+◌, ◌<◌, ◌&&◌, nat_le, is_some, length, IfOk, IfSome};
ghost use Rattle.world_law.specs.World.{opening_world};
ghost use Rattle.closed_world.specs.Worlds.{AreLines};

use crate::port_line::PortLine;
use std::alloc::{AllocError, Global};

/// So many ports to which nothing has come yet.
pub fn opening_lines(alloc: Global, count: usize) -> Result<Vec<PortLine>, AllocError>
    ensures count { IfOk result (λ ports. length ports.items ≡ count) }
    ensures lines { IfOk result (λ ports. AreLines opening_world ports.items) }
{
    let mut ports = Vec::new(alloc);
    for _ in 0..count {
        ports.push(PortLine::new(alloc))?;
    }
    Ok(ports)
}

/// The place of a number from 1, where there are so many.
pub fn place_of(number: u16, count: usize) -> Option<usize>
    ensures known { is_some result ≡ (nat_le 1 number && nat_le number count) }
    ensures place { IfSome result (λ place. (number ≡ place + 1) × (place < count)) }
{
    let place = usize::from(number).checked_sub(1)?;
    if place < count { Some(place) } else { None }
}
