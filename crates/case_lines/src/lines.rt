//! The lines of an input, one after another.

use std::alloc::{AllocError, Global};
use std::io::{self, Read, Write};

/// Who takes lines.
pub trait Lines {
    /// Does what a line says, and adds what it shows.
    fn take(&mut self, alloc: Global, line: &str, shown: &mut Vec<u8>) -> io::Result<()>;

    /// Adds what is shown behind the last line, where something is.
    fn end(&mut self, _alloc: Global, _shown: &mut Vec<u8>) -> Result<(), AllocError> {
        Ok(())
    }
}

/// Has each line of the input taken, but for remarks and empty ones, and writes what it shows.
pub fn take_lines<L: Lines, R: Read + Drop, W: Write>(
    alloc: Global,
    lines: &mut L,
    input: R,
    output: &mut W,
) -> io::Result<()> {
    let text = io::read_to_string(alloc, input)?;
    take_each(alloc, lines, text.as_str(), output)
}

/// The same of the lines of a text.
fn take_each<L: Lines, W: Write>(
    alloc: Global,
    lines: &mut L,
    text: &str,
    output: &mut W,
) -> io::Result<()> {
    for line in text.lines() {
        let shown = shown_by(alloc, lines, line)?;
        output.write_all(shown.as_slice())?;
    }
    let mut shown = Vec::new(alloc);
    lines.end(alloc, &mut shown)?;
    output.write_all(shown.as_slice())
}

/// What a line shows.
fn shown_by<L: Lines>(alloc: Global, lines: &mut L, line: &str) -> io::Result<Vec<u8>> {
    let mut shown = Vec::new(alloc);
    if !line.is_empty() && !line.starts_with('#') {
        lines.take(alloc, line, &mut shown)?;
    }
    Ok(shown)
}

/// Adds a call with its answer: `CALL = ANSWER`.
pub fn show_answer(shown: &mut Vec<u8>, call: &str, answer: &str) -> Result<(), AllocError> {
    shown.extend_from_slice(call.as_bytes())?;
    shown.extend_from_slice(b" = ")?;
    shown.extend_from_slice(answer.as_bytes())?;
    shown.push(b'\n')?;
    Ok(())
}
