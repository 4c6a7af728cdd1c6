//! What a history answers that pages are.

use super::reading::pushed_again;
use super::words::first_number;
use case_lines::first_word;
use gate_events::{Batch, ClientNumber, Event, LinkOut, Output, PortNumber, Recipient, Source};
use gate_journal::History;
use std::alloc::{AllocError, Global};
use std::str;

/// What a history is asked for.
#[derive(Clone, Copy)]
pub enum Question {
    /// The events of a source.
    From(Source),
    /// What the links of a client or a port are told.
    To(Recipient),
    /// The faults of its batches.
    Faults,
    /// How many events there are, and how long their pages, pushed again.
    Sizes,
}

/// `from client NUMBER`, `from port NUMBER`, `from clock`, `to client NUMBER`, `to port NUMBER`, `faults`, `sizes`.
pub fn question_of(word: &str, rest: &str) -> Option<Question> {
    match word {
        "from" => Some(Question::From(source_named(rest)?)),
        "to" => Some(Question::To(recipient_named(rest)?)),
        "faults" => Some(Question::Faults),
        "sizes" => Some(Question::Sizes),
        _ => None,
    }
}

/// The source of a text.
fn source_named(text: &str) -> Option<Source> {
    if text == "clock" {
        return Some(Source::Clock);
    }
    let (word, number) = numbered(text)?;
    match word {
        "client" => Some(Source::Client(ClientNumber::of(number)?)),
        "port" => Some(Source::Port(PortNumber::of(number)?)),
        _ => None,
    }
}

/// The client or the port of a text.
fn recipient_named(text: &str) -> Option<Recipient> {
    let (word, number) = numbered(text)?;
    match word {
        "client" => Some(Recipient::Client(ClientNumber::of(number)?)),
        "port" => Some(Recipient::Port(PortNumber::of(number)?)),
        _ => None,
    }
}

/// A word, and the number behind it.
fn numbered(text: &str) -> Option<(&str, u16)> {
    let (word, rest) = first_word(text);
    let (number, _) = first_number(rest)?;
    Some((word, u16::try_from(number).ok()?))
}

/// Shows what the history answers that pages are.
pub fn answer(
    alloc: Global,
    question: Question,
    pages: &[Vec<u8>],
    shown: &mut String,
) -> Result<(), AllocError> {
    match History::read(alloc, pages) {
        Ok(history) => answer_of(alloc, question, &history, shown),
        Err(_) => shown.push_str(" no history"),
    }
}

/// Shows what a history answers.
fn answer_of(
    alloc: Global,
    question: Question,
    history: &History,
    shown: &mut String,
) -> Result<(), AllocError> {
    match question {
        Question::From(source) => show_events(history.from(alloc, source)?.as_slice(), shown),
        Question::To(recipient) => show_lists(history.to(alloc, recipient)?.as_slice(), shown),
        Question::Faults => show_faults(history.batches(alloc)?.as_slice(), shown),
        Question::Sizes => show_sizes(alloc, history, shown),
    }
}

/// Shows events: the kind of each, its client or port, its link and its moment.
fn show_events(events: &[Event], shown: &mut String) -> Result<(), AllocError> {
    for event in events {
        show_event(event, shown)?;
    }
    Ok(())
}

/// Shows an event.
fn show_event(event: &Event, shown: &mut String) -> Result<(), AllocError> {
    let (kind, number, link, at) = parts_of(event);
    match link {
        Some(link) => write!(shown, " {kind} {number} {link} {at};"),
        None => write!(shown, " {kind} {number} {at};"),
    }
}

/// The kind of an event, its client's or port's number, its link, which a tick has none of, and its moment.
fn parts_of(event: &Event) -> (&'static str, u16, Option<u64>, u64) {
    match event {
        Event::ClientUp { client, link, at } => ("ClientUp", client.number(), Some(*link), *at),
        Event::ClientMessage {
            client,
            link,
            at,
            ..
        } => ("ClientMessage", client.number(), Some(*link), *at),
        Event::ClientGone { client, link, at } => ("ClientGone", client.number(), Some(*link), *at),
        Event::PortUp { port, link, at } => ("PortUp", port.number(), Some(*link), *at),
        Event::PortPacket { port, link, at, .. } => {
            ("PortPacket", port.number(), Some(*link), *at)
        }
        Event::PortGone { port, link, at } => ("PortGone", port.number(), Some(*link), *at),
        Event::ClientTick { client, at } => ("ClientTick", client.number(), None, *at),
        Event::PortTick { port, at } => ("PortTick", port.number(), None, *at),
    }
}

/// Shows lists, each in brackets.
fn show_lists(lists: &[Output], shown: &mut String) -> Result<(), AllocError> {
    for list in lists {
        shown.push_str(" [")?;
        show_list(list.as_slice(), shown)?;
        shown.push_str(" ]")?;
    }
    Ok(())
}

/// Shows what a list tells links.
fn show_list(list: &[LinkOut], shown: &mut String) -> Result<(), AllocError> {
    for out in list {
        match out {
            LinkOut::Write { link, bytes } => {
                let text = str::from_utf8(bytes.as_slice()).unwrap_or("no text");
                write!(shown, " write {link} {text};")?;
            }
            LinkOut::Close { link } => write!(shown, " close {link};")?,
        }
    }
    Ok(())
}

/// Shows the faults of batches.
fn show_faults(batches: &[Batch], shown: &mut String) -> Result<(), AllocError> {
    for batch in batches {
        match batch.fault {
            Some(fault) => write!(shown, " {fault:?};")?,
            None => shown.push_str(" none;")?,
        }
    }
    Ok(())
}

/// Shows how many events a history has, and how long their pages are, pushed again.
fn show_sizes(alloc: Global, history: &History, shown: &mut String) -> Result<(), AllocError> {
    write!(shown, " {} events;", history.events(alloc)?.len())?;
    for page in pushed_again(alloc, history)?.pages() {
        write!(shown, " {} bytes;", page.len())?;
    }
    Ok(())
}

/// Whether the last page is this one that the history keeps which pages are, and the last one of its events and batches
/// pushed again.
pub fn is_kept(alloc: Global, pages: &[Vec<u8>], page: &[u8]) -> Result<bool, AllocError> {
    match History::read(alloc, pages) {
        Ok(history) => Ok(
            is_last(&history, page) && is_last(&pushed_again(alloc, &history)?, page),
        ),
        Err(_) => Ok(false),
    }
}

/// Whether the last page of a history is this one.
fn is_last(history: &History, page: &[u8]) -> bool {
    match history.pages().last() {
        Some(last) => last.as_slice() == page,
        None => false,
    }
}
