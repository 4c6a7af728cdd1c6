//! Lines as their two halves, and back.

ghost use Rattle.std.specs.Prelude.{◌≡◌, ◌≤◌, [], true, length, vec_len, vec_capacity, IfOk};
ghost use Rattle.std.specs.List.{All, AllZip};
ghost use Rattle.gate_serving.specs.Halves.{IsJoined, IsSplit};

use crate::halves::{Reads, Writes};
use crate::line::Line;
use crate::opener::Opener;
use crate::slot::Slot;
use std::alloc::{AllocError, Global};

/// The two halves of a line.
pub(crate) type Halves<'a, O, A, B> = (
    Reads<'a, O, A>,
    Writes<'a, B, <O as Opener>::Writer, <O as Opener>::Closer>,
);

/// This many slots, each without a link.
pub(crate) fn slots_of<W: Drop, K: Drop>(
    alloc: Global,
    count: usize,
) -> Result<Vec<Slot<W, K>>, AllocError>
    ensures { IfOk result (λ slots. vec_len slots ≡ count) }
{
    let mut slots = Vec::new(alloc);
    for _ in 0..count {
        slots.push(Slot::new())?;
    }
    Ok(slots)
}

/// The halves of the lines, in their order, each with a slot of its own between them. Takes no memory.
pub(crate) fn split<'a, O: Opener + Drop, A: Drop, B: Drop>(
    lines: Vec<Line<O, A, B>>,
    slots: &'a [Slot<O::Writer, O::Closer>],
    halves: Vec<Halves<'a, O, A, B>>,
) -> Vec<Halves<'a, O, A, B>>
    requires slots { length slots.now ≡ vec_len lines }
    requires empty { halves.items ≡ [] }
    requires room { vec_len lines ≤ vec_capacity halves }
    ensures lines { AllZip IsSplit lines.items result.items }
{
    let mut halves = halves;
    for line in lines {
        let slot = &slots[halves.len()];
        let reads = Reads {
            peer: line.peer,
            steps: line.steps,
            fault: line.fault,
            opener: line.opener,
            worker: line.reader,
            slot,
            all_over: false,
        };
        let writes = Writes {
            peer: line.peer,
            steps: line.steps,
            worker: line.writer,
            slot,
        };
        let Ok(()) = halves.push((reads, writes)) else {
            unreachable!()
        };
    }
    halves
}

/// The lines of the halves, in their order, and whether all links of all lines are over. Takes no memory.
pub(crate) fn joined<'a, O: Opener + Drop, A: Drop, B: Drop>(
    halves: Vec<Halves<'a, O, A, B>>,
    lines: Vec<Line<O, A, B>>,
) -> (Vec<Line<O, A, B>>, bool)
    requires empty { lines.items ≡ [] }
    requires room { vec_len halves ≤ vec_capacity lines }
    ensures lines { AllZip IsJoined halves.entry.items result.0.items }
    ensures all_over { result.1 ≡ true → All (λ half. half.0.all_over ≡ true) halves.entry.items }
{
    let mut lines = lines;
    let mut all_over = true;
    for (reads, writes) in halves {
        all_over = both(all_over, reads.all_over);
        let line = Line {
            peer: reads.peer,
            steps: reads.steps,
            fault: reads.fault,
            opener: reads.opener,
            reader: reads.worker,
            writer: writes.worker,
        };
        let Ok(()) = lines.push(line) else {
            unreachable!()
        };
    }
    (lines, all_over)
}

fn both(one: bool, other: bool) -> bool
    ensures { result ≡ true → (one ≡ true) × (other ≡ true) }
{
    one && other
}
