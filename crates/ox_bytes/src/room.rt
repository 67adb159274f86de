//! Memory that is taken before it is filled.

ghost use Rattle.std.specs.Prelude.{◌≡◌, ◌+◌, ◌≤◌, [], ◌∷◌, ◌++◌, length, IfOk, OnOk, OnErr};

use crate::bytes::Bytes;
use crate::memory::Memory;
use std::alloc::Global;
use std::marker::Model;

/// Bytes or other values in order, and memory for a number of more, so that they can be put where
/// memory must not run out. Contracts see the values that are filled and the number that is spare.
#[derive(Drop)]
pub struct Room<T> {
    items: Vec<T>,
    free: usize,
}

impl<T> Model for Room<T> {
    ghost use Rattle.std.specs.Prelude.{◌+◌, ◌≤◌, vec_len, vec_capacity};
    ghost use Rattle.ox_bytes.specs.Place.{Space};

    ghost Value = { Space T };

    ghost view = { λ r. record { filled = r.items.items; spare = r.free } };

    ghost invariant = { λ r. vec_len r.items + r.free ≤ vec_capacity r.items };
}

impl<T> Room<T> {
    /// No values, and memory for n. `Memory` where there is none.
    pub fn new(alloc: Global, n: usize) -> Result<Room<T>, Memory>
        ensures filled { IfOk result (λ room. room.filled ≡ []) }
        ensures spare { IfOk result (λ room. room.spare ≡ n) }
    {
        Ok(Room {
            items: Vec::with_capacity(alloc, n)?,
            free: n,
        })
    }

    /// How many values can still be put.
    pub fn spare(&self) -> usize
        ensures { result ≡ self.now.spare }
    {
        self.free
    }

    /// The values so far.
    pub fn as_slice(&self) -> &[T]
        ensures { result.now ≡ self.now.filled }
    {
        self.items.as_slice()
    }

    /// Makes memory for n more. `Memory` where there is none: nothing has changed then.
    pub fn make_room(&mut self, n: usize) -> Result<(), Memory>
        ensures filled { self.new.filled ≡ self.old.filled }
        ensures ok { OnOk result (self.new.spare ≡ n) }
        ensures err { OnErr result (self.new.spare ≡ self.old.spare) }
    {
        self.items.reserve(n)?;
        self.free = n;
        Ok(())
    }

    /// Puts a value behind those that are there, into spare memory, so nothing can fail.
    pub fn push(&mut self, item: T)
        requires { 1 ≤ self.old.spare }
        ensures filled { self.new.filled ≡ self.old.filled ++ item ∷ [] }
        ensures spare { self.new.spare + 1 ≡ self.old.spare }
    {
        self.items.push_reserved(item);
        self.free -= 1;
    }
}

impl Room<u8> {
    /// Puts the bytes behind those that are there. They fit the spare memory, so nothing can fail.
    pub fn put(&mut self, bytes: &[u8])
        requires { length bytes.now ≤ self.old.spare }
        ensures filled { self.new.filled ≡ self.old.filled ++ bytes.now }
        ensures spare { self.new.spare + length bytes.now ≡ self.old.spare }
    {
        let _ = self.items.extend_from_slice(bytes);
        self.free -= bytes.len();
    }

    /// The bytes. The spare memory stays with them, unseen.
    pub fn into_bytes(self) -> Bytes
        ensures { result ≡ self.filled }
    {
        Bytes::from_vec(self.items)
    }
}
