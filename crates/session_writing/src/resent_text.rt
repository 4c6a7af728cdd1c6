//! The text of bodies that are sent again.
//!
//! Source: FIX 4.4 Volume 2, "Standard Message Header", "Message Recovery".

ghost use Rattle.std.specs.Prelude.{◌≡◌, ◌++◌, ◌∷◌, Some, IfOk, OnOk};
ghost use Rattle.fix_framing.specs.fix_fields.Printed.{PrintsFields, fields_in};
ghost use Rattle.fix_stamp.specs.Stamp.{stamp_text};
ghost use Rattle.session_reading.specs.session_law.Frames.{frame_fields};
ghost use Rattle.session_reading.specs.session_law.Messages.{number_as_field};
ghost use Rattle.session_writing.specs.Heads.{frame_with};
ghost use Rattle.session_writing.specs.Resent.{HeadsFit, moment_fields, start_fields};

use crate::names::Names;
use crate::output::{is_issued, kind_letter};
use crate::stamped::Stamped;
use fix_printing::PrintedFields;
use session_law::Kind;
use std::alloc::{AllocError, Global};

/// Room for MsgType (35) and both names, where they have 60 bytes at most.
const MOST_FRONTS: usize = 160;

/// Room for SendingTime (52), PossDupFlag (43) and OrigSendingTime (122).
const MOST_MOMENTS: usize = 96;

/// Room for most frames.
const MOST_FRAMES: usize = 512;

/// A body that is sent again, as it is printed. One after another is printed in the same buffer, and what two in a row
/// have in common in their headers is printed once.
#[derive(Drop)]
pub struct ResentText {
    /// MsgType (35) of the last body.
    kind: Kind,
    /// The moment at which the last was sent first.
    first: Stamped,
    /// MsgType (35), SenderCompID (49) and TargetCompID (56).
    front: PrintedFields,
    /// SendingTime (52), PossDupFlag (43) and OrigSendingTime (122).
    moments: PrintedFields,
    /// The fields of the last frame.
    frame: PrintedFields,
}

impl ResentText {
    /// For bodies that are sent again between these two at this moment; none is printed yet. Three growths, where the
    /// names have 60 bytes at most.
    pub(crate) fn new(alloc: Global, names: &Names, now: &Stamped) -> Result<ResentText, AllocError>
        ensures { IfOk result (λ text. HeadsFit text names.now.gate names.now.client now.now) }
    {
        let first = Stamped::of(now.at());
        let front = printed_start(alloc, names, Kind::Report)?;
        let moments = printed_moments(alloc, now, &first)?;
        let frame = PrintedFields::with_capacity(alloc, MOST_FRAMES)?;
        Ok(ResentText {
            kind: Kind::Report,
            first,
            front,
            moments,
            frame,
        })
    }

    /// The fields of the last frame, from MsgType (35) on.
    pub(crate) fn frame(&self) -> &PrintedFields
        ensures { result.now ≡ self.now.frame }
    {
        &self.frame
    }

    /// Prints a body that is sent again at this moment: its number, its type, the moment at which it was sent first,
    /// and the text of its fields.
    pub(crate) fn print(
        &mut self,
        names: &Names,
        number: u64,
        kind: Kind,
        now: &Stamped,
        issued: u64,
        body: &[u8],
    ) -> Result<(), AllocError>
        requires heads { HeadsFit self.old names.now.gate names.now.client now.now }
        requires body { PrintsFields body.now }
        ensures frame { OnOk result (self.new.frame ≡ frame_fields stamp_text names.now.gate names.now.client
            (frame_with (record { number = number; kind = kind; at = now.now; first = Some issued })
            (fields_in body.now))) }
        ensures heads { OnOk result (HeadsFit self.new names.now.gate names.now.client now.now) }
    {
        self.turn_to(names, kind)?;
        self.move_to(now, issued)?;
        print_frame(
            &mut self.frame,
            self.front.text(),
            number,
            self.moments.text(),
            body,
        )?;
        if is_issued(kind) {
            self.frame.push_array(60, self.first.text())?;
        }
        Ok(())
    }

    /// The front of a header is of this type now. It is printed where it was of another.
    fn turn_to(&mut self, names: &Names, kind: Kind) -> Result<(), AllocError>
        requires { self.old.front ≡ start_fields self.old.kind names.now.gate names.now.client }
        ensures front { OnOk result (self.new.front ≡ start_fields kind names.now.gate names.now.client) }
        ensures kind { OnOk result (self.new.kind ≡ kind) }
        ensures first { self.new.first ≡ self.old.first }
        ensures moments { self.new.moments ≡ self.old.moments }
    {
        if self.kind != kind {
            self.front.clear();
            push_start(&mut self.front, names, kind)?;
            self.kind = kind;
        }
        Ok(())
    }

    /// The moment of the first sending is this one now. Both moments are printed where it was another.
    fn move_to(&mut self, now: &Stamped, issued: u64) -> Result<(), AllocError>
        requires { self.old.moments ≡ moment_fields now.now self.old.first }
        ensures moments { OnOk result (self.new.moments ≡ moment_fields now.now issued) }
        ensures first { OnOk result (self.new.first ≡ issued) }
        ensures kind { self.new.kind ≡ self.old.kind }
        ensures front { self.new.front ≡ self.old.front }
    {
        if self.first.at() != issued {
            self.first = Stamped::of(issued);
            self.moments.clear();
            push_moments(&mut self.moments, now, &self.first)?;
        }
        Ok(())
    }
}

/// What the header of a frame of this type begins with, as it is printed.
fn printed_start(alloc: Global, names: &Names, kind: Kind) -> Result<PrintedFields, AllocError>
    ensures { IfOk result (λ front. front ≡ start_fields kind names.now.gate names.now.client) }
{
    let mut front = PrintedFields::with_capacity(alloc, MOST_FRONTS)?;
    push_start(&mut front, names, kind)?;
    Ok(front)
}

/// Adds MsgType (35) and the fields of both names.
fn push_start(fields: &mut PrintedFields, names: &Names, kind: Kind) -> Result<(), AllocError>
    ensures { OnOk result (fields.new ≡ fields.old ++ start_fields kind names.now.gate names.now.client) }
{
    fields.push_byte(35, kind_letter(kind))?;
    names.push(fields)
}

/// The moments of a frame that is sent again, as they are printed.
fn printed_moments(
    alloc: Global,
    now: &Stamped,
    first: &Stamped,
) -> Result<PrintedFields, AllocError>
    ensures { IfOk result (λ moments. moments ≡ moment_fields now.now first.now) }
{
    let mut moments = PrintedFields::with_capacity(alloc, MOST_MOMENTS)?;
    push_moments(&mut moments, now, first)?;
    Ok(moments)
}

/// Adds SendingTime (52), PossDupFlag (43) and OrigSendingTime (122).
fn push_moments(
    fields: &mut PrintedFields,
    now: &Stamped,
    first: &Stamped,
) -> Result<(), AllocError>
    ensures { OnOk result (fields.new ≡ fields.old ++ moment_fields now.now first.now) }
{
    fields.push_array(52, now.text())?;
    fields.push_byte(43, b'Y')?;
    fields.push_array(122, first.text())
}

/// Prints a header with MsgSeqNum (34) between its two parts, and a body behind it.
fn print_frame(
    fields: &mut PrintedFields,
    front: &[u8],
    number: u64,
    moments: &[u8],
    body: &[u8],
) -> Result<(), AllocError>
    requires front { PrintsFields front.now }
    requires moments { PrintsFields moments.now }
    requires body { PrintsFields body.now }
    ensures { OnOk result (fields.new ≡ fields_in front.now
        ++ (number_as_field 34 number ∷ (fields_in moments.now ++ fields_in body.now))) }
{
    fields.clear();
    fields.append_text(front)?;
    fields.push_number(34, number)?;
    fields.append_text(moments)?;
    fields.append_text(body)
}
