//! The ends of a desk's queues, handed out by position.

ghost use Rattle.std.specs.Prelude.{◌≡◌, ℕ, [], All, Some, map, length, slice_get, IfOk};
ghost use Rattle.desk_rings.specs.Rings.{Putting, Taking};
ghost use Rattle.desk_rings.specs.Made.{IsFreshEvents, IsFreshLists, inlet_name, outlet_name};

use crate::inlet::Inlet;
use crate::name::DeskName;
use crate::outlet::Outlet;
use crate::rings::{EventRing, OutputRing};
use std::alloc::{AllocError, Global};
use std::collections::VecDeque;

/// The inlets of a desk, by position: nothing was put by them yet, and they know of room for 1,024 events.
pub fn inlets_of<K: DeskName>(
    alloc: Global,
    rings: VecDeque<EventRing>,
) -> Result<Vec<Inlet<K>>, AllocError>
    requires named { map inlet_name rings.items ≡ K.inlets }
    requires fresh { All IsFreshEvents rings.items }
    ensures length { IfOk result (λ inlets. length inlets.items ≡ length K.inlets) }
    ensures fresh { IfOk result (λ inlets. (k : ℕ) (inlet : Putting) → slice_get inlets.items k ≡ Some inlet
        → (inlet.at ≡ k) × (inlet.put ≡ []) × (inlet.free ≡ 1_024)) }
{
    let mut rings = rings;
    let mut inlets = Vec::new(alloc);
    while let Some(ring) = rings.pop_front() {
        let at = inlets.len();
        inlets.push(inlet_at(at, ring))?;
    }
    Ok(inlets)
}

/// The outlets of a desk, by position: nothing was taken by them yet.
pub fn outlets_of<K: DeskName>(
    alloc: Global,
    rings: VecDeque<OutputRing>,
) -> Result<Vec<Outlet<K>>, AllocError>
    requires named { map outlet_name rings.items ≡ K.outlets }
    requires fresh { All IsFreshLists rings.items }
    ensures length { IfOk result (λ outlets. length outlets.items ≡ length K.outlets) }
    ensures fresh { IfOk result (λ outlets. (k : ℕ) (outlet : Taking) → slice_get outlets.items k ≡ Some outlet
        → (outlet.at ≡ k) × (outlet.took ≡ [])) }
{
    let mut rings = rings;
    let mut outlets = Vec::new(alloc);
    while let Some(ring) = rings.pop_front() {
        let at = outlets.len();
        outlets.push(outlet_at(at, ring))?;
    }
    Ok(outlets)
}

/// The inlet of a queue, at its position.
fn inlet_at<K: DeskName>(at: usize, ring: EventRing) -> Inlet<K>
    requires named { slice_get K.inlets at ≡ Some (inlet_name ring) }
    requires fresh { IsFreshEvents ring }
    ensures { (result.at ≡ at) × (result.put ≡ []) × (result.free ≡ 1_024) }
{
    let EventRing { source, producer } = ring;
    Inlet::new(at, source, producer)
}

/// The outlet of a queue, at its position.
fn outlet_at<K: DeskName>(at: usize, ring: OutputRing) -> Outlet<K>
    requires named { slice_get K.outlets at ≡ Some (outlet_name ring) }
    requires fresh { IsFreshLists ring }
    ensures { (result.at ≡ at) × (result.took ≡ []) }
{
    let OutputRing { to, consumer } = ring;
    Outlet::new(at, to, consumer)
}
