//! The buffer of a stream's reader.

ghost use Rattle.std.specs.Prelude.{◌≡◌, ◌≤◌, ◌<◌, ◌*◌, ◌^◌, ◌++◌, [], length, vec_len, drop, OnOk, OnErr};
ghost use Rattle.wire_streams.specs.Buffer.{Buffer, Takes, LetsGo, empty_buffer};

use std::alloc::{AllocError, Global};
use std::marker::Model;

/// The bytes of a stream that a reader holds: taken, and not dropped. Behind them may stand a piece that is offered: it
/// can be read with them before it is taken, and given up again.
///
/// Contracts see what is held and offered, how many bytes are free in front, how many bytes were written into the
/// buffer, and how many were taken.
#[derive(Drop)]
pub struct StreamBuffer {
    bytes: Vec<u8>,
    // how many bytes in front were dropped
    start: usize,
    // how many bytes are held or were dropped; those behind are offered
    taken: usize,
    copied: u64,
    fed: u64,
}

impl Model for StreamBuffer {
    ghost use Rattle.std.specs.Prelude.{◌≤◌, ◌<◌, ◌+◌, ◌*◌, ◌^◌, take, drop, length};
    ghost use Rattle.wire_streams.specs.Buffer.{Buffer};

    ghost Value = { Buffer };

    ghost view = { λ b. record {
      kept = record {
        held = drop b.start (take b.taken b.bytes.items);
        room = b.start;
        copied = b.copied;
        fed = b.fed;
      };
      offered = drop b.taken b.bytes.items;
    } };

    ghost invariant = { λ b. (b.start ≤ b.taken) × (b.taken ≤ length b.bytes.items)
        × (b.fed < 2 ^ 62 → b.copied + b.taken ≤ 2 * b.fed) };
}

impl StreamBuffer {
    /// Nothing of a stream. Takes no memory.
    pub fn new(alloc: Global) -> StreamBuffer
        ensures { result ≡ empty_buffer }
    {
        StreamBuffer {
            bytes: Vec::new(alloc),
            start: 0,
            taken: 0,
            copied: 0,
            fed: 0,
        }
    }

    /// Takes a piece. One growth; `AllocError` leaves the buffer as it was.
    pub fn put(&mut self, alloc: Global, piece: &[u8]) -> Result<(), AllocError>
        requires { self.old.offered ≡ [] }
        ensures takes { OnOk result (Takes piece.now (length piece.now) self.old.kept self.new.kept) }
        ensures none { OnOk result (self.new.offered ≡ []) }
        ensures err { OnErr result (self.new ≡ self.old) }
    {
        self.offer(alloc, piece)?;
        self.accept();
        Ok(())
    }

    /// Takes a piece whose first `used` bytes need not be held, if nothing is held: only the rest is written. One
    /// growth; `AllocError` leaves the buffer as it was.
    pub fn put_behind(
        &mut self,
        _alloc: Global,
        piece: &[u8],
        used: usize,
    ) -> Result<(), AllocError>
        requires held { self.old.kept.held ≡ [] }
        requires none { self.old.offered ≡ [] }
        requires used { used ≤ length piece.now }
        ensures takes { OnOk result (Takes (drop used piece.now) (length piece.now) self.old.kept self.new.kept) }
        ensures none { OnOk result (self.new.offered ≡ []) }
        ensures err { OnErr result (self.new ≡ self.old) }
    {
        let (_, rest) = piece.split_at(used);
        self.bytes.extend_from_slice(rest)?;
        self.taken = self.bytes.len();
        self.copied = self.copied.saturating_add(rest.len() as u64);
        self.fed = self.fed.saturating_add(piece.len() as u64);
        Ok(())
    }

    /// Offers a piece. One growth; `AllocError` leaves the buffer as it was.
    pub fn offer(&mut self, _alloc: Global, piece: &[u8]) -> Result<(), AllocError>
        requires { self.old.offered ≡ [] }
        ensures kept { self.new.kept ≡ self.old.kept }
        ensures offered { OnOk result (self.new.offered ≡ piece.now) }
        ensures err { OnErr result (self.new ≡ self.old) }
    {
        self.bytes.extend_from_slice(piece)
    }

    /// Takes what is offered. Takes no memory.
    pub fn accept(&mut self)
        ensures takes { Takes self.old.offered (length self.old.offered) self.old.kept self.new.kept }
        ensures none { self.new.offered ≡ [] }
    {
        let count = self.bytes.len() - self.taken;
        self.taken = self.bytes.len();
        self.copied = self.copied.saturating_add(count as u64);
        self.fed = self.fed.saturating_add(count as u64);
    }

    /// Gives up what is offered. Takes no memory.
    pub fn refuse(&mut self)
        ensures kept { self.new.kept ≡ self.old.kept }
        ensures none { self.new.offered ≡ [] }
    {
        self.bytes.truncate(self.taken);
    }

    /// Drops the first `count` bytes. What is left is moved to the buffer's front if it isn't longer than all that was
    /// dropped before it, so that no more bytes are moved than are dropped. Takes no memory.
    pub fn pass(&mut self, count: usize)
        requires none { self.old.offered ≡ [] }
        requires held { count ≤ length self.old.kept.held }
        ensures passes { LetsGo count self.old.kept self.new.kept }
        ensures none { self.new.offered ≡ [] }
    {
        self.start += count;
        let left = self.taken - self.start;
        if left <= self.start {
            drop_front(&mut self.bytes, self.start);
            self.start = 0;
            self.taken = left;
            self.copied = self.copied.saturating_add(left as u64);
        }
    }

    /// What is held.
    pub fn held(&self) -> &[u8]
        ensures { result.now ≡ self.now.kept.held }
    {
        let (taken, _) = self.bytes.as_slice().split_at(self.taken);
        let (_, held) = taken.split_at(self.start);
        held
    }

    /// What is held, with what is offered behind it.
    pub fn joined(&self) -> &[u8]
        ensures { result.now ≡ self.now.kept.held ++ self.now.offered }
    {
        let (_, joined) = self.bytes.as_slice().split_at(self.start);
        joined
    }

    /// How many bytes were written into the buffer, from a piece or as what is held is moved to the front; 2^64 - 1
    /// stands for more. Takes no memory.
    pub fn copied(&self) -> u64
        ensures now { result ≡ self.now.kept.copied }
        ensures most { self.now.kept.fed < 2 ^ 62 → result ≤ 2 * self.now.kept.fed }
    {
        self.copied
    }

    /// How many bytes were taken; 2^64 - 1 stands for more. Takes no memory.
    pub fn fed(&self) -> u64
        ensures { result ≡ self.now.kept.fed }
    {
        self.fed
    }
}

/// Removes the first `count` bytes. Takes no memory.
fn drop_front(bytes: &mut Vec<u8>, count: usize)
    requires { count ≤ vec_len bytes.old }
    ensures { bytes.new.items ≡ drop count bytes.old.items }
{
    let left = bytes.len() - count;
    bytes.copy_within(count.., 0);
    bytes.truncate(left);
}
