//! Scripts with lines of other clients and of another port between their own.

use std::alloc::{AllocError, Global};

/// Each kind of event of two clients and a port: of C2 on a link beside its current one, of C3 and P2 on their
/// current links, and on links that are gone.
const LINES: [&[u8]; 25] = [
    b"C2 msg 35=1|112=T",
    b"C3 tick",
    b"P2 pkt 000148",
    b"C3 msg 35=1|112=T",
    b"P2 tick",
    b"C2 up",
    b"C2 msg 35=0",
    b"C2 tick",
    b"C2 gone",
    b"C3 raw 8=FIX.4.4|9=5|35=0|10=163|",
    b"C3 up",
    b"C3 msg 35=A|98=0|108=30",
    b"P2 gone",
    b"P2 pkt 00015a",
    b"P2 gone",
    b"P2 tick",
    b"C3 gone",
    b"C3 msg 35=1|112=T",
    b"C3 gone",
    b"P2 up",
    b"P2 tick",
    b"P2 login SESSION001 1",
    b"C3 up",
    b"C3 msg 35=A|98=0|108=30",
    b"P2 pkt 000148",
];

/// Whom a case's lines are of: what is mixed in is of the others.
#[derive(Clone, Copy)]
pub struct Named {
    second: bool,
    third: bool,
}

impl Named {
    /// Those that a script names. The third client and the second port go together.
    pub fn in_script(script: &[u8]) -> Named {
        Named {
            second: has_line_of(script, b"C2 "),
            third: has_line_of(script, b"C3 ") || has_line_of(script, b"P2 "),
        }
    }

    /// Whether a line is of another.
    fn is_of_other(self, line: &[u8]) -> bool {
        !self.second && line.starts_with(b"C2 ")
            || !self.third && (line.starts_with(b"C3 ") || line.starts_with(b"P2 "))
    }

    /// The lines of the others, or the lines that are of none of them.
    pub fn part(self, alloc: Global, text: &[u8], is_others: bool) -> Result<Vec<u8>, AllocError> {
        let mut part = Vec::new(alloc);
        for line in text.split(|byte| *byte == b'\n') {
            if !line.is_empty() && self.is_of_other(line) == is_others {
                push_line(&mut part, line)?;
            }
        }
        Ok(part)
    }

    /// The script with all lines of the others behind each of its own lines; without its own lines but for those that
    /// say the moment, where `has_own` is false.
    pub fn mixed(self, alloc: Global, script: &[u8], has_own: bool) -> Result<Vec<u8>, AllocError> {
        let mut mixed = Vec::new(alloc);
        for line in script.split(|byte| *byte == b'\n') {
            if !line.is_empty() {
                if has_own || line.starts_with(b"at ") {
                    push_line(&mut mixed, line)?;
                }
                self.push_others(&mut mixed)?;
            }
        }
        Ok(mixed)
    }

    /// Adds all lines of the others.
    fn push_others(self, text: &mut Vec<u8>) -> Result<(), AllocError> {
        for line in LINES {
            if self.is_of_other(line) {
                push_line(text, line)?;
            }
        }
        Ok(())
    }
}

/// Whether a line of the script begins with these bytes.
fn has_line_of(script: &[u8], name: &[u8]) -> bool {
    for line in script.split(|byte| *byte == b'\n') {
        if line.starts_with(name) {
            return true;
        }
    }
    false
}

/// Adds a line.
pub fn push_line(text: &mut Vec<u8>, line: &[u8]) -> Result<(), AllocError> {
    text.extend_from_slice(line)?;
    text.push(b'\n')?;
    Ok(())
}
