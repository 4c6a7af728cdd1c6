//! A reader's gate that has the desk turned, and writes what that told.

ghost use Rattle.std.specs.Prelude.{◌≡◌, [], ℕ, Some, slice_get};
ghost use Rattle.desk.specs.desk_rings.Rings.{Taking};

use super::show;
use super::steps::{show_line, show_wake};
use crate::events::{Here, event_of};
use case_lines::shown as typed;
use desk::{DeskName, Inlet, Outlet, Parts, Shared, open_desk};
use desk_gates::{InletGate, OutletGate, OutletWriter};
use link_io::{Gate, Prompt};
use script_steps::fixed_settings;
use std::alloc::{AllocError, Global};
use std::hash::{BuildHasherDefault, FoldHasher};
use std::io::{self, Write};
use std::marker::Brand;
use std::sync::{Mutex, Wait};
use std::time::Clock;

/// The Logon of the first client from MsgType (35) on.
///
/// Source: FIX 4.4 Volume 2, "Logon".
const LOGON: &[u8] =
    b"35=A\x0149=C1\x0156=GATE\x0134=1\x0152=19700101-00:00:00.000\x0198=0\x01108=30\x01";

/// The client's first link, at moment 0.
const HERE: Here = Here { link: 1, at: 0 };

/// A stream of which is kept what was written promptly.
#[derive(Drop)]
struct Kept<'a> {
    written: &'a Mutex<Vec<u8>>,
}

impl<'a> Write for Kept<'a> {
    fn write(&mut self, _buf: &[u8]) -> io::Result<usize> {
        Ok(0)
    }

    fn flush(&mut self) -> io::Result<()> {
        Ok(())
    }
}

impl<'a> Prompt for Kept<'a> {
    ghost did_try = { λ _ _ _ _. Unit {0} };

    fn write_promptly(&mut self, buf: &[u8]) -> io::Result<usize> {
        let Some(mut written) = self.written.try_lock() else {
            return Ok(0);
        };
        match written.extend_from_slice(buf) {
            Ok(()) => Ok(buf.len()),
            Err(_) => Ok(0),
        }
    }
}

/// The writer of the first client's outlet.
type FirstWriter<'w, 'a, K> = OutletWriter<
    Kept<'w>,
    OutletGate<'a, K, BuildHasherDefault<FoldHasher>>,
>;

/// The gate of the first client's reader.
type FirstGate<'p, 'w, 'a, K> = InletGate<
    'p,
    'a,
    Kept<'w>,
    OutletGate<'a, K, BuildHasherDefault<FoldHasher>>,
    K,
    BuildHasherDefault<FoldHasher>,
>;

/// The first client logs on: shows what its reader's gate stepped, whether its writer was woken before the gate was to
/// wake it, and then; last what is on its stream, though no writer was at work.
pub fn show_writer<R: Wait + Clock>(
    rt: &R,
    alloc: Global,
    shown: &mut Vec<u8>,
) -> Result<(), AllocError> {
    let parts = Parts::new(alloc, fixed_settings(alloc)?)?;
    run_writer::<Brand, _>(rt, alloc, parts, shown)
}

fn run_writer<K: DeskName, R: Wait + Clock>(
    rt: &R,
    alloc: Global,
    parts: Parts,
    shown: &mut Vec<u8>,
) -> Result<(), AllocError>
    requires named { (parts.inlets ≡ K.inlets) × (parts.outlets ≡ K.outlets) }
{
    let (shared, inlets, outlets) = open_desk::<K, _>(alloc, parts)?;
    let written = Mutex::new(Vec::new(alloc));
    log_on(rt, alloc, &shared, &written, inlets, outlets, shown)?;
    let bytes = written.lock(rt);
    show_line(typed(alloc, bytes.as_slice())?.as_str(), shown)
}

/// The first client logs on over its inlet, with a link of its outlet's writer open.
fn log_on<'w, 'a, K: DeskName, R: Wait + Clock>(
    rt: &R,
    alloc: Global,
    shared: &'a Shared<K>,
    written: &'w Mutex<Vec<u8>>,
    inlets: Vec<Inlet<K>>,
    outlets: Vec<Outlet<K>>,
    shown: &mut Vec<u8>,
) -> Result<(), AllocError>
    requires fresh { (d : ℕ) (x : Taking) → slice_get outlets.items d ≡ Some x → (x.at ≡ d) × (x.took ≡ []) }
{
    match first_writer(shared, outlets) {
        Some(outlet_writer) => {
            let outlet_writers = vec![in alloc; outlet_writer]?;
            open_first(rt, alloc, outlet_writers.as_slice(), Kept { written });
            turn_with(rt, alloc, shared, outlet_writers.as_slice(), inlets, shown)
        }
        None => Ok(()),
    }
}

/// The writer of the first outlet.
fn first_writer<'w, 'a, K: DeskName>(
    shared: &'a Shared<K>,
    outlets: Vec<Outlet<K>>,
) -> Option<FirstWriter<'w, 'a, K>>
    requires fresh { (d : ℕ) (x : Taking) → slice_get outlets.items d ≡ Some x → (x.at ≡ d) × (x.took ≡ []) }
{
    let mut outlets = outlets;
    if outlets.is_empty() {
        return None;
    }
    let outlet = outlets.swap_remove(0);
    Some(OutletWriter::new(OutletGate::new(shared, outlet)))
}

/// Opens the first link of the first writer on a stream.
fn open_first<'w, 'a, K: DeskName, R: Wait>(
    rt: &R,
    alloc: Global,
    outlet_writers: &[FirstWriter<'w, 'a, K>],
    stream: Kept<'w>,
) {
    if let [outlet_writer, ..] = outlet_writers {
        let _ = outlet_writer
            .shared_writer()
            .open(rt, alloc, 1, 1, 100, stream);
    }
}

/// The first client's link comes up, and it logs on, over the gate of its inlet.
fn turn_with<'p, 'w, 'a, K: DeskName, R: Wait + Clock>(
    rt: &R,
    alloc: Global,
    shared: &'a Shared<K>,
    outlet_writers: &'p [FirstWriter<'w, 'a, K>],
    inlets: Vec<Inlet<K>>,
    shown: &mut Vec<u8>,
) -> Result<(), AllocError> {
    let mut inlets = inlets;
    inlets.truncate(1);
    match inlets.pop() {
        Some(inlet) => {
            let mut gate = InletGate::new(shared, outlet_writers, inlet);
            put_logon(alloc, &mut gate)?;
            show_turn(rt, alloc, shared, &mut gate, shown)
        }
        None => Ok(()),
    }
}

/// Puts that the client's link is up, and its Logon, at a gate that takes both.
fn put_logon<K: DeskName>(
    alloc: Global,
    gate: &mut FirstGate<'_, '_, '_, K>,
) -> Result<(), AllocError> {
    for (word, text) in [("client_up", b"".as_slice()), ("client", LOGON)] {
        if let Some(event) = event_of(alloc, word, 1, HERE, text)? {
            let _ = gate.put(event);
        }
    }
    Ok(())
}

/// Has a gate turn, and shows how many steps that made, and whether the first outlet was woken before the gate was to
/// wake its writer, and behind that.
fn show_turn<K: DeskName, R: Wait + Clock>(
    rt: &R,
    alloc: Global,
    shared: &Shared<K>,
    gate: &mut FirstGate<'_, '_, '_, K>,
    shown: &mut Vec<u8>,
) -> Result<(), AllocError> {
    show(shown, "steps", u64::from(gate.turn(rt, alloc)?))?;
    show_wake(rt, shared, 0, 50, shown)?;
    gate.wake_writer();
    show_wake(rt, shared, 0, 10_000, shown)
}
