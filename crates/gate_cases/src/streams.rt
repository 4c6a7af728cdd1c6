//! Scripts by their command line, and over readers and writers that fail, or move a byte at a time.

use crate::calls::add_end;
use case_lines::number_of;
use command_lines::run_program;
use gate_lines::{Flags, run_script};
use std::alloc::{AllocError, Global};
use std::io::{self, ErrorKind, Read, Write};
use std::str;

/// No flag.
const PLAIN: Flags = Flags {
    num: false,
    raw: false,
    cold: false,
};

/// Makes a call on a script, and adds what it shows; false where there is none of this word.
pub fn script_call(
    alloc: Global,
    script: &mut Vec<u8>,
    word: &str,
    rest: &str,
    shown: &mut Vec<u8>,
) -> Result<bool, AllocError> {
    match word {
        "script" => script.clear(),
        "line" => add_line(script, rest.as_bytes())?,
        "empty" => add_empty(script, rest)?,
        "front" => script.truncate(size_of(rest)),
        _ => return run_call(alloc, script.as_slice(), word, rest, shown),
    }
    Ok(true)
}

/// Runs a script in the way of a word.
fn run_call(
    alloc: Global,
    script: &[u8],
    word: &str,
    rest: &str,
    shown: &mut Vec<u8>,
) -> Result<bool, AllocError> {
    match word {
        "command" => command(alloc, script, rest, shown)?,
        "read" => read_torn(alloc, script, false, None, shown)?,
        "read-fails" => read_torn(alloc, script, true, Some(ErrorKind::Other), shown)?,
        "read-no-memory" => read_torn(alloc, script, true, Some(ErrorKind::OutOfMemory), shown)?,
        "write-fails" => write_torn(alloc, script, size_of(rest), true, shown)?,
        "flush-fails" => write_torn(alloc, script, usize::MAX, false, shown)?,
        "held" => hold_back(alloc, script, shown)?,
        "untold" => add_end(shown, b"", untold(alloc, script))?,
        _ => return Ok(false),
    }
    Ok(true)
}

/// A number of bytes or calls; 0 where it is none.
pub fn size_of(digits: &str) -> usize {
    match number_of(digits) {
        Some(number) => usize::try_from(number).unwrap_or(0),
        None => 0,
    }
}

/// Adds a line.
fn add_line(script: &mut Vec<u8>, line: &[u8]) -> Result<(), AllocError> {
    script.extend_from_slice(line)?;
    script.push(b'\n')?;
    Ok(())
}

/// Adds so many empty lines.
fn add_empty(script: &mut Vec<u8>, count: &str) -> Result<(), AllocError> {
    for _ in 0..size_of(count) {
        script.push(b'\n')?;
    }
    Ok(())
}

/// Runs a script by the command line of these words. Of what is told the first line is shown.
fn command(
    alloc: Global,
    script: &[u8],
    rest: &str,
    shown: &mut Vec<u8>,
) -> Result<(), AllocError> {
    let words = words_of(alloc, rest)?;
    let (mut input, mut told) = (script, Vec::new(alloc));
    let status = run_program(alloc, words.as_slice(), &mut input, shown, &mut told);
    add_end(shown, first_line(told.as_slice()), status)
}

/// The words of a command line, behind the program's name.
fn words_of(alloc: Global, rest: &str) -> Result<Vec<String>, AllocError> {
    let mut words = Vec::new(alloc);
    words.push(String::from_str(alloc, "gate_script")?)?;
    for word in rest.as_bytes().split(|byte| *byte == b' ') {
        if !word.is_empty() {
            words.push(String::from_str(alloc, str::from_utf8(word).unwrap_or(""))?)?;
        }
    }
    Ok(words)
}

/// The first line of a text, with its end.
fn first_line(text: &[u8]) -> &[u8] {
    match text.iter().position(|byte| *byte == b'\n') {
        Some(at) => &text[..at + 1],
        None => text,
    }
}

/// A reader that gives one byte at a time, interrupted before each where it is asked to be, and comes to its end, or
/// fails, when these are given.
#[derive(Drop)]
struct Torn<'a> {
    rest: &'a [u8],
    interrupts: bool,
    interrupted: bool,
    fault: Option<ErrorKind>,
}

impl<'a> Read for Torn<'a> {
    fn read(&mut self, buf: &mut [u8]) -> io::Result<usize> {
        self.interrupted = self.interrupts && !self.interrupted;
        if self.interrupted {
            return Err(io::Error::from(ErrorKind::Interrupted));
        }
        match (self.rest, buf) {
            ([first, rest @ ..], [place, ..]) => {
                *place = *first;
                self.rest = rest;
                Ok(1)
            }
            _ => match self.fault {
                Some(kind) => Err(io::Error::from(kind)),
                None => Ok(0),
            },
        }
    }
}

/// Runs what a reader of one byte a read gives, which ends or fails behind the script.
fn read_torn(
    alloc: Global,
    script: &[u8],
    interrupts: bool,
    fault: Option<ErrorKind>,
    shown: &mut Vec<u8>,
) -> Result<(), AllocError> {
    let mut input = Torn {
        rest: script,
        interrupts,
        interrupted: false,
        fault,
    };
    let mut told = Vec::new(alloc);
    let status = run_script(alloc, PLAIN, &mut input, shown, &mut told);
    add_end(shown, told.as_slice(), status)
}

/// A writer that takes so many writes, and fails at the next; or fails when it is flushed.
#[derive(Drop)]
pub struct Failing {
    pub taken: Vec<u8>,
    pub writes_left: usize,
    pub flushes: bool,
}

impl Write for Failing {
    fn write(&mut self, buf: &[u8]) -> io::Result<usize> {
        if self.writes_left == 0 {
            return Err(io::Error::from(ErrorKind::BrokenPipe));
        }
        self.writes_left -= 1;
        self.taken.extend_from_slice(buf)?;
        Ok(buf.len())
    }

    fn flush(&mut self) -> io::Result<()> {
        if self.flushes {
            Ok(())
        } else {
            Err(io::Error::from(ErrorKind::BrokenPipe))
        }
    }
}

/// Runs a script over a writer that fails after so many writes, or when it is flushed.
fn write_torn(
    alloc: Global,
    script: &[u8],
    writes_left: usize,
    flushes: bool,
    shown: &mut Vec<u8>,
) -> Result<(), AllocError> {
    let mut output = Failing {
        taken: Vec::new(alloc),
        writes_left,
        flushes,
    };
    let (mut input, mut told) = (script, Vec::new(alloc));
    let status = run_script(alloc, PLAIN, &mut input, &mut output, &mut told);
    shown.extend_from_slice(output.taken.as_slice())?;
    add_end(shown, told.as_slice(), status)
}

/// The status of a script whose end can't be told.
fn untold(alloc: Global, script: &[u8]) -> u8 {
    let mut faults = Failing {
        taken: Vec::new(alloc),
        writes_left: 0,
        flushes: true,
    };
    let (mut input, mut output) = (script, Vec::new(alloc));
    run_script(alloc, PLAIN, &mut input, &mut output, &mut faults)
}

/// A writer that takes one byte a write, and gives on what it took only when it is flushed.
#[derive(Drop)]
struct Holding {
    held: Vec<u8>,
    given: Vec<u8>,
}

impl Write for Holding {
    fn write(&mut self, buf: &[u8]) -> io::Result<usize> {
        match buf {
            [first, ..] => {
                self.held.push(*first)?;
                Ok(1)
            }
            [] => Ok(0),
        }
    }

    fn flush(&mut self) -> io::Result<()> {
        self.given.extend_from_slice(self.held.as_slice())?;
        self.held.clear();
        Ok(())
    }
}

/// Runs a script over a writer that holds back: shown are what it gave on, and, behind that, what it still holds.
fn hold_back(alloc: Global, script: &[u8], shown: &mut Vec<u8>) -> Result<(), AllocError> {
    let mut output = Holding {
        held: Vec::new(alloc),
        given: Vec::new(alloc),
    };
    let (mut input, mut told) = (script, Vec::new(alloc));
    let status = run_script(alloc, PLAIN, &mut input, &mut output, &mut told);
    shown.extend_from_slice(output.given.as_slice())?;
    shown.extend_from_slice(b"held: ")?;
    shown.extend_from_slice(output.held.as_slice())?;
    shown.push(b'\n')?;
    add_end(shown, told.as_slice(), status)
}
