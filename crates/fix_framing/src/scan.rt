//! The parts of a text.

ghost use Rattle.std.specs.Prelude.{◌≡◌, ◌≤◌, ◌++◌, [], length, drop, IfOk, OnOk, OnErr};
ghost use Rattle.wire_streams.specs.Buffer.{Counts};
ghost use Rattle.fix_framing.specs.Stream.{parts, place};
ghost use Rattle.fix_framing.specs.Scanned.{scanned_parts, StandsFramed, StandsNext};
ghost use Rattle.fix_framing.specs.Seen.{IsAhead};

use crate::place::{Framed, Framing, Place, framing_of, place_of};
use fix_fields::{Fields, FieldsView};
use std::alloc::{AllocError, Global};
use wire_streams::StreamBuffer;

/// The parts of a text: its frames, how many bytes were skipped, how many bytes both take, and whether too long a frame
/// stands behind them.
#[derive(Drop)]
pub(crate) struct Scanned {
    pub(crate) frames: Vec<Fields>,
    pub(crate) skipped: usize,
    pub(crate) used: usize,
    pub(crate) is_over: bool,
}

/// What comes next in a text, behind the bytes that are skipped: a frame of this size, if one is whole; else
/// what has to wait for more, or too long a frame.
#[derive(Clone, Copy)]
pub(crate) struct Next {
    pub(crate) skipped: usize,
    pub(crate) size: Option<usize>,
    pub(crate) is_over: bool,
}

/// The same, with the fields of the frame.
#[derive(Drop)]
pub(crate) struct NextFrame {
    pub(crate) skipped: usize,
    pub(crate) frame: Option<Framed>,
    pub(crate) is_over: bool,
}

/// The parts of a text. Each byte of a frame is read a bounded number of times.
pub(crate) fn scan(alloc: Global, text: &[u8]) -> Result<Scanned, AllocError>
    ensures parts { IfOk result (λ scanned. scanned_parts scanned (drop scanned.used text.now) ≡ parts text.now) }
    ensures used { IfOk result (λ scanned. scanned.used ≤ length text.now) }
{
    let mut frames = Vec::new(alloc);
    let mut skipped = 0usize;
    let mut at = 0usize;
    loop {
        let (_, rest) = text.split_at(at);
        match place_of(alloc, rest)? {
            Place::Frame(framed) => {
                let size = framed.size;
                frames.push(framed.fields)?;
                at += size;
            }
            Place::Skipped => {
                skipped += 1;
                at += 1;
            }
            Place::Waiting => {
                return Ok(Scanned {
                    frames,
                    skipped,
                    used: at,
                    is_over: false,
                });
            }
            Place::TooLong => {
                return Ok(Scanned {
                    frames,
                    skipped,
                    used: at,
                    is_over: true,
                });
            }
        }
    }
}

/// Takes a piece behind what is held, and drops the frames and what is skipped. An error leaves the buffer as it was.
pub(crate) fn scan_in(
    alloc: Global,
    buffer: &mut StreamBuffer,
    piece: &[u8],
) -> Result<Scanned, AllocError>
    requires { buffer.old.offered ≡ [] }
    ensures parts { IfOk result (λ scanned. scanned_parts scanned buffer.new.kept.held
        ≡ parts (buffer.old.kept.held ++ piece.now)) }
    ensures counts { OnOk result (Counts (length piece.now) buffer.old.kept buffer.new.kept) }
    ensures none { buffer.new.offered ≡ [] }
    ensures err { OnErr result (buffer.new ≡ buffer.old) }
{
    if buffer.held().is_empty() {
        scan_piece(alloc, buffer, piece)
    } else {
        scan_joined(alloc, buffer, piece)
    }
}

/// The same where nothing is held: only what is left of the piece is copied.
fn scan_piece(alloc: Global, buffer: &mut StreamBuffer, piece: &[u8]) -> Result<Scanned, AllocError>
    requires held { buffer.old.kept.held ≡ [] }
    requires none { buffer.old.offered ≡ [] }
    ensures parts { IfOk result (λ scanned. scanned_parts scanned buffer.new.kept.held
        ≡ parts (buffer.old.kept.held ++ piece.now)) }
    ensures counts { OnOk result (Counts (length piece.now) buffer.old.kept buffer.new.kept) }
    ensures none { buffer.new.offered ≡ [] }
    ensures err { OnErr result (buffer.new ≡ buffer.old) }
{
    let scanned = scan(alloc, piece)?;
    buffer.put_behind(alloc, piece, scanned.used)?;
    Ok(scanned)
}

/// The same where something is held: the piece is appended.
fn scan_joined(
    alloc: Global,
    buffer: &mut StreamBuffer,
    piece: &[u8],
) -> Result<Scanned, AllocError>
    requires { buffer.old.offered ≡ [] }
    ensures parts { IfOk result (λ scanned. scanned_parts scanned buffer.new.kept.held
        ≡ parts (buffer.old.kept.held ++ piece.now)) }
    ensures counts { OnOk result (Counts (length piece.now) buffer.old.kept buffer.new.kept) }
    ensures none { buffer.new.offered ≡ [] }
    ensures err { OnErr result (buffer.new ≡ buffer.old) }
{
    buffer.offer(alloc, piece)?;
    match scan(alloc, buffer.joined()) {
        Ok(scanned) => {
            buffer.accept();
            buffer.pass(scanned.used);
            Ok(scanned)
        }
        Err(error) => {
            buffer.refuse();
            Err(error)
        }
    }
}

/// What comes next in a text. Takes no memory.
pub(crate) fn next_of(text: &[u8]) -> Next
    ensures { StandsNext result text.now }
{
    let mut at = 0usize;
    loop {
        let (_, rest) = text.split_at(at);
        match ahead_of(rest) {
            Framing::Skipped => at += 1,
            Framing::Whole(size) => {
                return Next {
                    skipped: at,
                    size: Some(size),
                    is_over: false,
                };
            }
            Framing::Waiting => {
                return Next {
                    skipped: at,
                    size: None,
                    is_over: false,
                };
            }
            Framing::TooLong => {
                return Next {
                    skipped: at,
                    size: None,
                    is_over: true,
                };
            }
        }
    }
}

/// What stands in front of a stream: whole only where it is a frame. Takes no memory.
fn ahead_of(stream: &[u8]) -> Framing
    ensures { IsAhead result (place stream.now) }
{
    match framing_of(stream) {
        Framing::Whole(size) => {
            let (text, _) = stream.split_at(size);
            match FieldsView::of(text) {
                Some(_) => Framing::Whole(size),
                None => Framing::Skipped,
            }
        }
        other => other,
    }
}

/// What comes next in a text, with the fields of a frame. Only a frame takes memory, two growths.
pub(crate) fn next_frame_of(alloc: Global, text: &[u8]) -> Result<NextFrame, AllocError>
    ensures { IfOk result (λ next. StandsFramed next text.now) }
{
    let mut at = 0usize;
    loop {
        let (_, rest) = text.split_at(at);
        match place_of(alloc, rest)? {
            Place::Skipped => at += 1,
            Place::Frame(framed) => {
                return Ok(NextFrame {
                    skipped: at,
                    frame: Some(framed),
                    is_over: false,
                });
            }
            Place::Waiting => {
                return Ok(NextFrame {
                    skipped: at,
                    frame: None,
                    is_over: false,
                });
            }
            Place::TooLong => {
                return Ok(NextFrame {
                    skipped: at,
                    frame: None,
                    is_over: true,
                });
            }
        }
    }
}
