//! Bytes that are put behind and taken off in front.

ghost use Rattle.std.specs.Prelude.{◌≡◌, ◌≤◌, ◌++◌, [], length, drop, OnOk, OnErr};

use ox_bytes::{Bytes, Memory};
use std::alloc::Global;
use std::marker::Model;

/// The memory that is kept where no bytes are.
const KEPT: usize = 65_536;

/// Bytes of which those in front were taken off. Contracts see the list of the others.
#[derive(Drop)]
pub struct Buffer {
    alloc: Global,
    bytes: Vec<u8>,
    start: usize,
}

impl Model for Buffer {
    ghost use Rattle.std.specs.Prelude.{List, ℕ, ◌≤◌, drop, vec_len};

    ghost Value = { List ℕ };

    ghost view = { λ b. drop b.start b.bytes.items };

    ghost invariant = { λ b. b.start ≤ vec_len b.bytes };
}

impl Buffer {
    /// No bytes. It takes no memory until some are put.
    pub fn new(alloc: Global) -> Buffer
        ensures { result ≡ [] }
    {
        Buffer {
            alloc,
            bytes: Vec::new(alloc),
            start: 0,
        }
    }

    /// Bytes that are there, not copied.
    pub fn of(alloc: Global, bytes: Bytes) -> Buffer
        ensures { result ≡ bytes }
    {
        Buffer {
            alloc,
            bytes: bytes.into_vec(),
            start: 0,
        }
    }

    /// The bytes.
    pub fn as_slice(&self) -> &[u8]
        ensures { result.now ≡ self.now }
    {
        self.bytes.as_slice().split_at(self.start).1
    }

    /// Moves the bytes to the front of the memory.
    fn move_to_front(&mut self)
        ensures { self.new ≡ self.old }
    {
        if self.start > 0 {
            let left = self.bytes.len() - self.start;
            self.bytes.copy_within(self.start.., 0);
            self.bytes.truncate(left);
            self.start = 0;
        }
    }

    /// Takes memory for so many bytes more: twice what there is, but at most so much in all, unless
    /// that is too little.
    fn grow(&mut self, more: usize, most: usize) -> Result<(), Memory>
        ensures { self.new ≡ self.old }
    {
        let len = self.bytes.len();
        let needed = len.saturating_add(more);
        let doubled = self.bytes.capacity().saturating_mul(2).min(most);
        if needed > self.bytes.capacity() {
            self.bytes.reserve_exact(needed.max(doubled) - len)?;
        }
        Ok(())
    }

    /// Puts bytes behind the others. Memory grows by doubling up to `most` bytes, and beyond only
    /// as far as it has to. `Memory` where there is none: nothing has changed then.
    pub fn put(&mut self, bytes: &[u8], most: usize) -> Result<(), Memory>
        ensures ok { OnOk result (self.new ≡ self.old ++ bytes.now) }
        ensures err { OnErr result (self.new ≡ self.old) }
    {
        self.move_to_front();
        self.grow(bytes.len(), most)?;
        self.bytes.extend_from_slice(bytes)?;
        Ok(())
    }

    /// Takes off so many bytes in front. Where none is left, memory of more than 65,536 bytes is
    /// given back.
    pub fn take_off(&mut self, n: usize)
        requires { n ≤ length self.old }
        ensures { self.new ≡ drop n self.old }
    {
        self.start += n;
        if self.start == self.bytes.len() {
            self.bytes.truncate(0);
            self.start = 0;
            self.give_back();
        }
    }

    /// Gives back what is too much memory for no bytes.
    fn give_back(&mut self)
        ensures { self.new ≡ self.old }
    {
        self.bytes.shrink_to(KEPT);
    }
}
