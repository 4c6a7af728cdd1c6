//! Streams that move few bytes at once.

use seeded_choices::Chance;
use std::io::{self, ErrorKind, Read, Write};

/// A reader of these bytes, that gives up to so many a read.
#[derive(Drop)]
pub struct Pieces<'a> {
    pub rest: &'a [u8],
    pub chance: Chance,
    pub most: usize,
}

impl<'a> Read for Pieces<'a> {
    fn read(&mut self, buf: &mut [u8]) -> io::Result<usize> {
        let size = self.chance.below(self.most).saturating_add(1);
        let count = size.min(self.rest.len()).min(buf.len());
        let (first, rest) = self.rest.split_at(count);
        let (places, _) = buf.split_at_mut(count);
        places.copy_from_slice(first);
        self.rest = rest;
        Ok(count)
    }
}

/// A writer that takes up to so many bytes a write, and fails once in so many times.
#[derive(Drop)]
pub struct Torn {
    pub taken: Vec<u8>,
    pub chance: Chance,
    pub most: usize,
    pub fails_once_in: usize,
}

impl Write for Torn {
    fn write(&mut self, buf: &[u8]) -> io::Result<usize> {
        if self.chance.once_in(self.fails_once_in) {
            return Err(io::Error::from(ErrorKind::BrokenPipe));
        }
        let count = self
            .chance
            .below(self.most)
            .saturating_add(1)
            .min(buf.len());
        let (first, _) = buf.split_at(count);
        self.taken.extend_from_slice(first)?;
        Ok(count)
    }

    fn flush(&mut self) -> io::Result<()> {
        Ok(())
    }
}
