//! Numbers sent again: bodies with their numbers, and one gap fill for each run of others.

ghost use Rattle.std.specs.Prelude.{◌≡◌, ◌<◌, ◌≤◌, ◌+◌, ◌^◌, ◌∷◌, ◌++◌, [], length, map, OnOk, IfOk, IfSome, codes};
ghost use Rattle.std.specs.Prelude.{Some};
ghost use Rattle.std.specs.Prelude.{slice_range};
ghost use Rattle.fix_framing.specs.fix_fields.Field.{field};
ghost use Rattle.fix_framing.specs.fix_fields.Printed.{PrintsFields, fields_in};
ghost use Rattle.session_reading.specs.session_law.Messages.{number_as_field};
ghost use Rattle.session_reading.specs.session_law.Session as law;
ghost use Rattle.session_writing.specs.Keeping.{ArePlaces, slots_at};
ghost use Rattle.session_writing.specs.Heads.{frame_with};
ghost use Rattle.session_writing.specs.Resent.{HeadsFit};
ghost use Rattle.session_writing.specs.Written.{told_bytes, told_frames};

use crate::head::FrameHead;
use crate::names::Names;
use crate::output::{SessionOut, frame_of_body};
use crate::place::KeptPlace;
use crate::resent_text::ResentText;
use crate::stamped::Stamped;
use fix_framing::frame_of_text;
use fix_printing::PrintedFields;
use session_law::Kind;
use std::alloc::{AllocError, Global};

/// Appends the numbers of these places in a text again, the first of which has this number.
pub(crate) fn append_resent(
    alloc: Global,
    outs: &mut Vec<SessionOut>,
    names: &Names,
    text: &[u8],
    places: &[KeptPlace],
    first: u64,
    at: u64,
) -> Result<(), AllocError>
    requires places { ArePlaces text.now places.now }
    requires room { first + length places.now < 2 ^ 64 }
    ensures { OnOk result (map told_bytes outs.new.items ≡ map told_bytes outs.old.items
        ++ told_frames names.now.gate names.now.client (law.resent at first first (slots_at text.now places.now))) }
{
    let now = Stamped::of(at);
    let mut resent = ResentText::new(alloc, names, &now)?;
    let mut start = first;
    let mut number = first;
    for place in places {
        match *place {
            KeptPlace::Filled => {}
            KeptPlace::Body {
                kind,
                start: from,
                end,
                at: issued,
            } => {
                append_gap(alloc, outs, names, start, number, &now)?;
                let body = part_of(text, from, end);
                append_again(
                    alloc,
                    outs,
                    names,
                    &mut resent,
                    number,
                    kind,
                    &now,
                    issued,
                    body,
                )?;
                start = number + 1;
            }
        }
        number += 1;
    }
    append_gap(alloc, outs, names, start, number, &now)
}

/// Appends a body that is sent again at a moment, and was first sent at another.
fn append_again(
    alloc: Global,
    outs: &mut Vec<SessionOut>,
    names: &Names,
    resent: &mut ResentText,
    number: u64,
    kind: Kind,
    now: &Stamped,
    issued: u64,
    body: &[u8],
) -> Result<(), AllocError>
    requires heads { HeadsFit resent.old names.now.gate names.now.client now.now }
    requires body { PrintsFields body.now }
    ensures told { OnOk result (map told_bytes outs.new.items ≡ map told_bytes outs.old.items
        ++ told_frames names.now.gate names.now.client (frame_with
        (record { number = number; kind = kind; at = now.now; first = Some issued }) (fields_in body.now) ∷ [])) }
    ensures heads { OnOk result (HeadsFit resent.new names.now.gate names.now.client now.now) }
{
    resent.print(names, number, kind, now, issued, body)?;
    let bytes = frame_of_text(alloc, resent.frame().text())?;
    outs.push(SessionOut::Frame(bytes))?;
    Ok(())
}

/// Appends a gap fill from a number to before another, where there are numbers between, sent at this moment.
fn append_gap(
    alloc: Global,
    outs: &mut Vec<SessionOut>,
    names: &Names,
    start: u64,
    next: u64,
    now: &Stamped,
) -> Result<(), AllocError>
    ensures { OnOk result (map told_bytes outs.new.items ≡ map told_bytes outs.old.items
        ++ told_frames names.now.gate names.now.client (law.gap now.now start next)) }
{
    if start < next {
        let body = gap_body(alloc, next)?;
        let head = FrameHead {
            number: start,
            kind: Kind::SequenceReset,
            at: now.at(),
            first: Some(now.at()),
        };
        append_frame(alloc, outs, names, head, now, now, body.text())
    } else {
        Ok(())
    }
}

/// What stands in a text from one place to another.
pub(crate) fn part_of(text: &[u8], start: usize, end: usize) -> &[u8]
    requires ordered { start ≤ end }
    requires ends { end ≤ length text.now }
    ensures { result.now ≡ slice_range text.now start end }
{
    &text[start..end]
}

/// What a gap fill says: the number that comes next, and that it fills a gap.
fn gap_body(alloc: Global, next: u64) -> Result<PrintedFields, AllocError>
    ensures { IfOk result (λ body. body ≡ number_as_field 36 next ∷ field 123 (codes "Y") ∷ []) }
{
    let mut body = PrintedFields::with_capacity(alloc, 32)?;
    body.push_number(36, next)?;
    body.push(123, b"Y")?;
    Ok(body)
}

/// Appends a frame whose body is the fields of this text, sent at a moment, and first at another where it is sent
/// again.
fn append_frame(
    alloc: Global,
    outs: &mut Vec<SessionOut>,
    names: &Names,
    head: FrameHead,
    now: &Stamped,
    first: &Stamped,
    body: &[u8],
) -> Result<(), AllocError>
    requires now { now.now ≡ head.at }
    requires first { IfSome head.first (λ at. first.now ≡ at) }
    requires body { PrintsFields body.now }
    ensures { OnOk result (map told_bytes outs.new.items ≡ map told_bytes outs.old.items
        ++ told_frames names.now.gate names.now.client (frame_with head (fields_in body.now) ∷ [])) }
{
    let bytes = frame_of_body(alloc, names, head, now, first, body)?;
    outs.push(SessionOut::Frame(bytes))?;
    Ok(())
}
