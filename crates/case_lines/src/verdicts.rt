//! Cases of conversations, each with its verdict.

use crate::bytes::{bytes_of, shown_lines};
use crate::lines::Lines;
use crate::words::first_word;
use std::alloc::{AllocError, Global};
use std::io;

/// What the steps of a case are said to.
pub trait Conversation {
    /// It is as before its first step.
    fn begin(&mut self, alloc: Global) -> Result<(), AllocError>;

    /// Makes the step that a line says, and adds the lines that it shows; false where the line isn't understood, or the
    /// step can't be made.
    fn step(&mut self, alloc: Global, line: &str, shown: &mut Vec<u8>) -> Result<bool, AllocError>;
}

/// Cases of a conversation, of which each is shown with its verdict.
#[derive(Drop)]
pub struct Judged<C> {
    conversation: C,
    case: Case,
    /// The lines with which each case begins.
    first: String,
}

impl<C: Conversation> Judged<C> {
    /// No case yet. Takes no memory.
    pub fn new(alloc: Global, conversation: C) -> Judged<C> {
        Judged {
            conversation,
            case: Case::new(alloc),
            first: String::new(alloc),
        }
    }
}

impl<C: Conversation> Lines for Judged<C> {
    fn take(&mut self, alloc: Global, line: &str, shown: &mut Vec<u8>) -> io::Result<()> {
        let Judged {
            conversation,
            case,
            first,
        } = self;
        Ok(take_line(alloc, conversation, case, first, line, shown)?)
    }

    fn end(&mut self, alloc: Global, shown: &mut Vec<u8>) -> Result<(), AllocError> {
        self.case.end(alloc, shown)
    }
}

/// Does what a line says.
fn take_line<C: Conversation>(
    alloc: Global,
    conversation: &mut C,
    case: &mut Case,
    first: &mut String,
    line: &str,
    shown: &mut Vec<u8>,
) -> Result<(), AllocError> {
    let (word, rest) = first_word(line);
    match word {
        "case" => {
            case.begin(alloc, rest, shown)?;
            conversation.begin(alloc)?;
            take_first(alloc, conversation, case, first.as_str(), shown)
        }
        "first" => {
            first.clear();
            case.begin_none(alloc, shown)
        }
        _ if case.is_none => writeln!(first, "{line}"),
        _ => case.take(alloc, conversation, line, shown),
    }
}

/// Takes the lines with which each case begins.
fn take_first<C: Conversation>(
    alloc: Global,
    conversation: &mut C,
    case: &mut Case,
    first: &str,
    shown: &mut Vec<u8>,
) -> Result<(), AllocError> {
    for line in first.lines() {
        case.take(alloc, conversation, line, shown)?;
    }
    Ok(())
}

/// A case, and what its last step showed and was to show.
struct Case {
    name: String,
    /// Whether no case has begun since the lines with which each begins.
    is_none: bool,
    shown: Vec<u8>,
    wanted: Vec<u8>,
    is_right: bool,
}

/// Written by hand, so that one call drops all.
impl Drop for Case {
    fn drop(self) {
        let Case {
            name: _,
            is_none: _,
            shown: _,
            wanted: _,
            is_right: _,
        } = self;
    }
}

impl Case {
    /// No case yet.
    fn new(alloc: Global) -> Case {
        Case {
            name: String::new(alloc),
            is_none: false,
            shown: Vec::new(alloc),
            wanted: Vec::new(alloc),
            is_right: true,
        }
    }

    /// The case ends, and one of this name begins.
    fn begin(&mut self, alloc: Global, name: &str, shown: &mut Vec<u8>) -> Result<(), AllocError> {
        self.end(alloc, shown)?;
        self.name.push_str(name)
    }

    /// The case ends, and none is there until the next one begins.
    fn begin_none(&mut self, alloc: Global, shown: &mut Vec<u8>) -> Result<(), AllocError> {
        self.end(alloc, shown)?;
        self.is_none = true;
        Ok(())
    }

    /// The case, where there is one, ends, and is shown with whether all that it showed was wanted.
    fn end(&mut self, alloc: Global, shown: &mut Vec<u8>) -> Result<(), AllocError> {
        self.compare(alloc, shown)?;
        if !self.name.as_str().is_empty() {
            shown.extend_from_slice(self.name.as_bytes())?;
            shown.extend_from_slice(verdict_of(self.is_right).as_bytes())?;
        }
        self.name.clear();
        self.is_none = false;
        self.is_right = true;
        Ok(())
    }

    /// Takes a line of the case: a step, or what the last one is to show.
    fn take<C: Conversation>(
        &mut self,
        alloc: Global,
        conversation: &mut C,
        line: &str,
        shown: &mut Vec<u8>,
    ) -> Result<(), AllocError> {
        let is_taken = match line.strip_prefix("-> ") {
            Some(wanted) => self.want(alloc, wanted)?,
            None => {
                self.compare(alloc, shown)?;
                conversation.step(alloc, line, &mut self.shown)?
            }
        };
        if is_taken {
            return Ok(());
        }
        self.is_right = false;
        show_lines(alloc, "not understood", line.as_bytes(), shown)
    }

    /// Wants a line more of the last step; false where it isn't understood.
    fn want(&mut self, alloc: Global, line: &str) -> Result<bool, AllocError> {
        match bytes_of(alloc, line)? {
            Some(bytes) => {
                self.wanted.extend_from_slice(bytes.as_slice())?;
                self.wanted.push(b'\n')?;
                Ok(true)
            }
            None => Ok(false),
        }
    }

    /// Compares what the last step showed with what was wanted of it, and shows both where they differ.
    fn compare(&mut self, alloc: Global, shown: &mut Vec<u8>) -> Result<(), AllocError> {
        if self.shown.as_slice() != self.wanted.as_slice() {
            self.is_right = false;
            show_lines(alloc, "wanted", self.wanted.as_slice(), shown)?;
            show_lines(alloc, "shown", self.shown.as_slice(), shown)?;
        }
        self.wanted.clear();
        self.shown.clear();
        Ok(())
    }
}

/// What stands behind the name of a case.
fn verdict_of(is_right: bool) -> &'static str {
    if is_right { ": right\n" } else { ": WRONG\n" }
}

/// Shows a word, and each of these lines as it is typed.
fn show_lines(
    alloc: Global,
    word: &str,
    lines: &[u8],
    shown: &mut Vec<u8>,
) -> Result<(), AllocError> {
    let typed = shown_lines(alloc, lines)?;
    shown.extend_from_slice(format!(in alloc; "{word}:\n{typed}\n")?.as_bytes())
}
