//! A stream that moves few bytes a call, and fails.

use link_io::Prompt;
use std::alloc::Global;
use std::io::{self, ErrorKind, Read, Write};

/// A stream that moves so many bytes a call, and fails once it has no call left.
#[derive(Drop)]
pub struct Limited {
    /// What it gives, and how much of it was read.
    given: Vec<u8>,
    pub bytes: u64,
    /// What it took.
    pub taken: Vec<u8>,
    size: usize,
    calls_left: u64,
    /// How many calls moved something, or found the end.
    pub calls: u64,
}

impl Limited {
    /// One that fails at once.
    pub fn new(alloc: Global) -> Limited {
        Limited {
            given: Vec::new(alloc),
            bytes: 0,
            taken: Vec::new(alloc),
            size: 0,
            calls_left: 0,
            calls: 0,
        }
    }

    /// It moves so many bytes a call from now on, and fails behind so many calls.
    pub fn limit(&mut self, size: u64, calls: u64) {
        self.size = size as usize;
        self.calls_left = calls;
    }

    /// It gives these bytes from now on.
    pub fn give(&mut self, bytes: Vec<u8>) {
        self.given = bytes;
        self.bytes = 0;
    }

    /// Counts a call, or fails.
    fn call(&mut self) -> io::Result<()> {
        if self.calls_left == 0 {
            return Err(io::Error::from(ErrorKind::BrokenPipe));
        }
        self.calls_left -= 1;
        self.calls = self.calls.saturating_add(1);
        Ok(())
    }
}

impl Read for Limited {
    fn read(&mut self, buf: &mut [u8]) -> io::Result<usize> {
        self.call()?;
        let rest = self.given.get(self.bytes as usize..).unwrap_or(&[]);
        let count = self.size.min(rest.len()).min(buf.len());
        let (first, _) = rest.split_at(count);
        let (places, _) = buf.split_at_mut(count);
        places.copy_from_slice(first);
        self.bytes = self.bytes.saturating_add(count as u64);
        Ok(count)
    }
}

impl Write for Limited {
    fn write(&mut self, buf: &[u8]) -> io::Result<usize> {
        self.call()?;
        let count = self.size.min(buf.len());
        let (first, _) = buf.split_at(count);
        self.taken.extend_from_slice(first)?;
        Ok(count)
    }

    fn flush(&mut self) -> io::Result<()> {
        Ok(())
    }
}

impl Prompt for Limited {
    ghost did_try = { λ _ _ _ _. Unit {0} };

    fn write_promptly(&mut self, buf: &[u8]) -> io::Result<usize> {
        self.write(buf)
    }
}
