//! How a desk is opened.

ghost use Rattle.std.specs.Prelude.{◌≡◌, ℕ, [], Some, length, slice_get, vec_len, IfOk};
ghost use Rattle.desk_rings.specs.Rings.{Putting, Taking};

use crate::shared::Shared;
use desk_rings::{DeskName, EventRing, Inlet, Outlet, OutputRing, inlets_of, outlets_of};
use desk_side::{Side, open_side};
use desk_steps::{Desk, RecordedCore};
use gate_settings::Settings;
use std::alloc::{AllocError, Global};
use std::collections::VecDeque;
use std::hash::{BuildHasher, BuildHasherDefault, FoldHasher};
use std::marker::Model;
use std::thread::Parker;

/// A core and rings, of which a desk can be opened. Contracts see the settings and which rings they are.
#[derive(Drop)]
pub struct Parts<S: BuildHasher + Drop = BuildHasherDefault<FoldHasher>> {
    recorded: RecordedCore<S>,
    side: Side,
    inlets: VecDeque<EventRing>,
    outlets: VecDeque<OutputRing>,
}

impl<S: BuildHasher + Drop> Model for Parts<S> {
    ghost use Rattle.std.specs.Prelude.{map};
    ghost use Rattle.desk_rings.specs.Made.{inlet_name, outlet_name};
    ghost use Rattle.desk.specs.Offered.{Offered, IsOffer};

    ghost Value = { Offered };

    ghost view = { λ p. record {
      settings = p.recorded.settings;
      inlets = map inlet_name p.inlets.items;
      outlets = map outlet_name p.outlets.items;
    } };

    ghost invariant = { λ p. IsOffer p.recorded p.side p.inlets.items p.outlets.items };
}

impl Parts {
    ghost use Rattle.std.specs.Prelude.{◌≡◌, ◌+◌, ℕ, Some, length, slice_get, IfOk};
    ghost use Rattle.desk.specs.Offered.{AreFor};

    /// The core of these settings, with the fixed seed, and rings of 1,024: an inlet for each client, then for each
    /// port, then one for the clock; an outlet for each client, then for each port. `AllocError` gives the settings up.
    pub fn new(alloc: Global, settings: Settings) -> Result<Parts, AllocError>
        ensures settings { IfOk result (λ parts. parts.settings ≡ settings) }
        ensures rings { IfOk result (λ parts. AreFor (length settings.clients) (length settings.ports) parts) }
    {
        let clients = settings.clients().len();
        let ports = settings.ports().len();
        let (side, inlets, outlets) = open_side(alloc, clients, ports)?;
        let recorded = RecordedCore::new(alloc, settings)?;
        Ok(Parts {
            recorded,
            side,
            inlets,
            outlets,
        })
    }
}

impl<S: BuildHasher + Clone + Drop> Parts<S> {
    ghost use Rattle.std.specs.Prelude.{◌≡◌, ◌+◌, ℕ, Some, length, slice_get, IfOk};
    ghost use Rattle.desk.specs.Offered.{AreFor};

    /// The same, with the core's indexes over a hasher.
    pub fn with_hasher(alloc: Global, hasher: S, settings: Settings) -> Result<Parts<S>, AllocError>
        ensures settings { IfOk result (λ parts. parts.settings ≡ settings) }
        ensures rings { IfOk result (λ parts. AreFor (length settings.clients) (length settings.ports) parts) }
    {
        let clients = settings.clients().len();
        let ports = settings.ports().len();
        let (side, inlets, outlets) = open_side(alloc, clients, ports)?;
        let recorded = RecordedCore::with_hasher(alloc, hasher, settings)?;
        Ok(Parts {
            recorded,
            side,
            inlets,
            outlets,
        })
    }
}

/// The desk of these parts under its lock, and the ends for threads, by position. K names the rings; the caller picks
/// it. `AllocError` gives the parts up.
pub fn open_desk<K: DeskName, S: BuildHasher + Drop>(
    alloc: Global,
    parts: Parts<S>,
) -> Result<(Shared<K, S>, Vec<Inlet<K>>, Vec<Outlet<K>>), AllocError>
    requires named { (parts.inlets ≡ K.inlets) × (parts.outlets ≡ K.outlets) }
    ensures inlets { IfOk result (λ r. (length r.1.items ≡ length K.inlets) × ((k : ℕ) (x : Putting)
        → slice_get r.1.items k ≡ Some x → (x.at ≡ k) × (x.put ≡ []) × (x.free ≡ 1_024))) }
    ensures outlets { IfOk result (λ r. (length r.2.items ≡ length K.outlets) × ((d : ℕ) (x : Taking)
        → slice_get r.2.items d ≡ Some x → (x.at ≡ d) × (x.took ≡ []))) }
    ensures wakers { IfOk result (λ r. vec_len r.0.wakers ≡ length K.outlets) }
{
    let Parts {
        recorded,
        side,
        inlets,
        outlets,
    } = parts;
    let puts = inlets_of::<K>(alloc, inlets)?;
    let takes = outlets_of::<K>(alloc, outlets)?;
    let wakers = wakers_of(alloc, takes.len())?;
    Ok((Shared::new(Desk::new(recorded, side), wakers), puts, takes))
}

/// So many wakers.
fn wakers_of(alloc: Global, count: usize) -> Result<Vec<Parker>, AllocError>
    ensures { IfOk result (λ wakers. vec_len wakers ≡ count) }
{
    let mut wakers = Vec::new(alloc);
    for _ in 0..count {
        wakers.push(Parker::new())?;
    }
    Ok(wakers)
}
