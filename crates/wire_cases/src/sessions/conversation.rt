//! A conversation with one session.

ghost use Rattle.std.specs.Prelude.{◌≡◌, IfOk, None, true};
ghost use Rattle.fix_session.specs.Formats.{application_refusal};

use super::shown::{fields_of, from_client, show_issued, show_message, show_turn};
use case_lines::{Conversation, bytes_of, first_word, number_of};
use fix_framing::{FrameFault, Framer};
use fix_session::{IssuedTurn, Session, SessionTurn, application_of};
use fix_types::{AppBody, CancelReject, Fields, Report, Text, TextFault, TextWire};
use std::alloc::{AllocError, Global};

/// A conversation with one session.
///
/// Each call is made and put back first, so what a step shows also says that nothing was left of that. A call that
/// wants for memory is made again: it has to have left the session as it was.
pub struct Link {
    session: Session,
    framer: Framer,
    at: u64,
    is_whole: bool,
}

/// Written by hand, so that one call drops all.
impl Drop for Link {
    fn drop(self) {
        let Link {
            session: _,
            framer: _,
            at: _,
            is_whole: _,
        } = self;
    }
}

/// A session of C1 with GATE, of which no call was made.
fn new_session(alloc: Global) -> Result<Session, AllocError> {
    let gate = Text::copied(alloc, b"GATE")?;
    let client = Text::copied(alloc, b"C1")?;
    Ok(Session::new(alloc, gate, client))
}

impl Conversation for Link {
    fn begin(&mut self, alloc: Global) -> Result<(), AllocError> {
        self.session = new_session(alloc)?;
        self.framer = Framer::new(alloc);
        self.at = 0;
        self.is_whole = false;
        self.link(alloc, true, &mut Vec::new(alloc))
    }

    fn step(&mut self, alloc: Global, line: &str, shown: &mut Vec<u8>) -> Result<bool, AllocError> {
        let (word, text) = first_word(line);
        match word {
            "at" => return Ok(self.is_at(text)),
            "whole" => self.is_whole = true,
            "up" => self.link(alloc, true, shown)?,
            "gone" => self.link(alloc, false, shown)?,
            "tick" => self.tick(alloc, shown)?,
            "issue" => return self.issue(alloc, text, shown),
            "C1" => return self.message_of(alloc, from_client(alloc, text)?, shown),
            "raw" => return self.message_of(alloc, fields_of(alloc, text)?, shown),
            "bytes" => return self.feed_typed(alloc, text, shown),
            _ => return Ok(false),
        }
        Ok(true)
    }
}

impl Link {
    /// A session whose link comes up at moment 0.
    pub fn new(alloc: Global) -> Result<Link, AllocError> {
        Ok(Link {
            session: new_session(alloc)?,
            framer: Framer::new(alloc),
            at: 0,
            is_whole: false,
        })
    }

    /// The moment is this from now on; whether it is one.
    fn is_at(&mut self, digits: &str) -> bool {
        match number_of(digits) {
            Some(moment) => {
                self.at = moment;
                true
            }
            None => false,
        }
    }

    fn link(&mut self, alloc: Global, is_up: bool, shown: &mut Vec<u8>) -> Result<(), AllocError> {
        self.link_in_vain(alloc, is_up);
        let turn = self.session.on_link(alloc, is_up, self.at);
        show_turn(alloc, shown, &turn, self.is_whole)
    }

    /// The link comes up or goes, and that is put back.
    fn link_in_vain(&mut self, alloc: Global, is_up: bool) {
        self.session.settle();
        let _ = self.session.on_link(alloc, is_up, self.at);
        self.session.undo();
    }

    fn tick(&mut self, alloc: Global, shown: &mut Vec<u8>) -> Result<(), AllocError> {
        self.tick_in_vain(alloc);
        let turn = self.tick_again(alloc)?;
        show_turn(alloc, shown, &turn, self.is_whole)
    }

    /// Time passes, and that is put back.
    fn tick_in_vain(&mut self, alloc: Global) {
        self.session.settle();
        let _ = self.session.on_tick(alloc, self.at);
        self.session.undo();
    }

    /// Time passes, and again where memory is wanting.
    fn tick_again(&mut self, alloc: Global) -> Result<SessionTurn, AllocError> {
        match self.session.on_tick(alloc, self.at) {
            Ok(turn) => Ok(turn),
            Err(_) => self.session.on_tick(alloc, self.at),
        }
    }

    /// Issues a body; false where the text is none.
    fn issue(
        &mut self,
        alloc: Global,
        text: &str,
        shown: &mut Vec<u8>,
    ) -> Result<bool, AllocError> {
        let Some(body) = body_in(alloc, text)? else {
            return Ok(false);
        };
        self.issue_body(alloc, &body, shown)?;
        Ok(true)
    }

    fn issue_body(
        &mut self,
        alloc: Global,
        body: &AppBody,
        shown: &mut Vec<u8>,
    ) -> Result<(), AllocError> {
        self.issue_in_vain(alloc, body);
        let issued = self.issue_again(alloc, body)?;
        show_issued(alloc, shown, &issued, self.is_whole)
    }

    /// Issues a body, and that is put back.
    fn issue_in_vain(&mut self, alloc: Global, body: &AppBody) {
        self.session.settle();
        let _ = self.session.issue(alloc, body, self.at);
        self.session.undo();
    }

    /// Issues a body, and again where memory is wanting.
    fn issue_again(&mut self, alloc: Global, body: &AppBody) -> Result<IssuedTurn, AllocError> {
        match self.session.issue(alloc, body, self.at) {
            Ok(issued) => Ok(issued),
            Err(_) => self.session.issue(alloc, body, self.at),
        }
    }

    fn message_of(
        &mut self,
        alloc: Global,
        fields: Option<Fields>,
        shown: &mut Vec<u8>,
    ) -> Result<bool, AllocError> {
        match fields {
            Some(message) => {
                self.message(alloc, &message, shown)?;
                Ok(true)
            }
            None => Ok(false),
        }
    }

    fn message(
        &mut self,
        alloc: Global,
        message: &Fields,
        shown: &mut Vec<u8>,
    ) -> Result<(), AllocError> {
        self.message_in_vain(alloc, message);
        let turn = self.message_again(alloc, message)?;
        show_turn(alloc, shown, &turn, self.is_whole)?;
        if turn.is_delivered {
            show_message(alloc, shown, &application_of(alloc, message)?)?;
        }
        Ok(())
    }

    /// A message comes, and that is put back.
    fn message_in_vain(&mut self, alloc: Global, message: &Fields) {
        self.session.settle();
        let _ = self.session.on_message(alloc, message, self.at);
        self.session.undo();
    }

    /// A message comes, and again where memory is wanting.
    fn message_again(&mut self, alloc: Global, message: &Fields) -> Result<SessionTurn, AllocError>
        ensures { IfOk result (λ turn. turn.is_delivered ≡ true → application_refusal message.now ≡ None) }
    {
        match self.session.on_message(alloc, message, self.at) {
            Ok(turn) => Ok(turn),
            Err(_) => self.session.on_message(alloc, message, self.at),
        }
    }

    /// Bytes come as they are typed; false where they aren't understood.
    fn feed_typed(
        &mut self,
        alloc: Global,
        text: &str,
        shown: &mut Vec<u8>,
    ) -> Result<bool, AllocError> {
        match bytes_of(alloc, text)? {
            Some(bytes) => {
                self.feed(alloc, bytes.as_slice(), shown)?;
                Ok(true)
            }
            None => Ok(false),
        }
    }

    /// Bytes come, and the messages that they end.
    fn feed(&mut self, alloc: Global, bytes: &[u8], shown: &mut Vec<u8>) -> Result<(), AllocError> {
        match self.framer.feed(alloc, bytes) {
            Ok(messages) => self.messages(alloc, messages.as_slice(), shown),
            Err(FrameFault::TooLong) => shown.extend_from_slice(b"too long\n"),
            Err(FrameFault::NoMemory) => Err(AllocError),
        }
    }

    /// Messages come.
    fn messages(
        &mut self,
        alloc: Global,
        messages: &[Fields],
        shown: &mut Vec<u8>,
    ) -> Result<(), AllocError> {
        for message in messages {
            self.message(alloc, message, shown)?;
        }
        Ok(())
    }
}

/// The report or the cancel reject that a text's fields say; none where they say neither.
fn body_in(alloc: Global, text: &str) -> Result<Option<AppBody>, AllocError> {
    let Some(fields) = fields_of(alloc, text)? else {
        return Ok(None);
    };
    match body_of(alloc, &fields) {
        Ok(body) => Ok(Some(body)),
        Err(TextFault::NoMemory) => Err(AllocError),
        Err(TextFault::Refused(_)) => Ok(None),
    }
}

/// The report or the cancel reject that fields say.
fn body_of(alloc: Global, fields: &Fields) -> Result<AppBody, TextFault> {
    match fields.first(35) {
        Some(b"9") => Ok(AppBody::CancelReject(CancelReject::get(alloc, fields)?)),
        _ => Ok(AppBody::Report(Report::get(alloc, fields)?)),
    }
}
