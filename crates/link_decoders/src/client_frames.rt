//! From a client's bytes to its events: each frame becomes a `ClientMessage`.

ghost use Rattle.std.specs.Prelude.{◌≡◌, ◌≤◌, ◌+◌, ◌++◌, ◌∷◌, [], ℕ, List, length, OnOk, OnErr, IfOk};
ghost use Rattle.std.specs.Prelude.{true, Ok, None};
ghost use Rattle.fix_framing.specs.fix_fields.Field.{Field, fields_text};
ghost use Rattle.fix_framing.specs.Stream.{Passed, left, longest};
ghost use Rattle.link_decoders.specs.Decoding.{NextFrame};

use crate::decode_fault::DecodeFault;
use crate::decoder::Decoder;
use fix_fields::Fields;
use fix_framing::{FrameFault, Framer};
use gate_events::{ClientFrame, ClientNumber, Event};
use std::alloc::{AllocError, Global};
use std::marker::Model;

/// Makes a client's events of the bytes of its link, one for each frame. Contracts see the stream's reader.
///
/// Source: FIX 4.4 Volume 1, "Message Format".
#[derive(Drop)]
pub struct ClientFrames {
    client: ClientNumber,
    link: u64,
    framer: Framer,
}

impl Model for ClientFrames {
    ghost use Rattle.link_decoders.specs.Decoding.{FramesOfLink};

    ghost Value = { FramesOfLink };

    ghost view = { λ f. record { client = f.client; link = f.link; framer = f.framer } };
}

impl ClientFrames {
    /// For a link of which no byte has come. Takes no memory.
    pub fn new(alloc: Global, client: ClientNumber, link: u64) -> ClientFrames
        ensures client { result.client ≡ client }
        ensures link { result.link ≡ link }
        ensures passed { Passed [] [] result.framer }
    {
        ClientFrames {
            client,
            link,
            framer: Framer::new(alloc),
        }
    }
}

impl Decoder for ClientFrames {
    ghost use Rattle.std.specs.Prelude.{length};
    ghost use Rattle.fix_framing.specs.Stream.{left};
    ghost use Rattle.link_decoders.specs.Decoding.{MadeOfFrames, AreAllOfFrames};

    ghost source = { λ f. (f.client, f.link) };

    ghost made = { MadeOfFrames };

    ghost are_all = { AreAllOfFrames };

    ghost to_make = { λ f. length (left f.framer.end).frames };

    ghost skips = { λ f. f.framer.skipped };

    fn feed(&mut self, alloc: Global, piece: &[u8]) -> Result<(), AllocError> {
        self.framer.put(alloc, piece)
    }

    fn make(&mut self, alloc: Global, at: u64) -> Result<Option<Event>, DecodeFault> {
        let Some(fields) = next_frame(&mut self.framer, alloc)? else {
            return Ok(None);
        };
        let frame = ClientFrame::of(fields).unwrap();
        Ok(Some(Event::ClientMessage {
            client: self.client,
            link: self.link,
            at,
            frame,
        }))
    }

    fn is_idle(&self) -> bool {
        has_no_frame(&self.framer)
    }

    /// As the framer counts them; 2^64 - 1 stands for more.
    fn skipped(&self) -> u64 {
        self.framer.skipped()
    }
}

/// Whether the framer holds no byte, and so no frame.
fn has_no_frame(framer: &Framer) -> bool
    ensures { result ≡ true → NextFrame (Ok None) framer.now framer.now }
{
    framer.is_idle()
}

/// Moves the next frame out of the framer.
fn next_frame(framer: &mut Framer, alloc: Global) -> Result<Option<Fields>, DecodeFault>
    ensures { NextFrame result framer.old framer.new }
{
    match framer.next(alloc) {
        Ok(fields) => Ok(fields),
        Err(FrameFault::TooLong) => Err(DecodeFault::Malformed),
        Err(FrameFault::NoMemory) => Err(DecodeFault::NoMemory),
    }
}
