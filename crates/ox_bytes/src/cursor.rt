//! A cursor over bytes.

ghost use Rattle.std.specs.Prelude.{◌≡◌, ◌++◌, ◌<◌, length, Err, OnErr, IfOk, IfErr};
ghost use Rattle.std.specs.Int.{w32, w64, to_le_bytes};
ghost use Rattle.ox_bytes.specs.Reading.{size_of};
ghost use Rattle.ox_bytes.specs.Spelling.{compact};
ghost use Rattle.ox_bytes.specs.Place.{GoesOver};

use crate::compact::{CompactFault, compact_size};
use crate::fields::u64le_field;
use std::marker::Model;

/// Fewer bytes are left than the field needs.
#[derive(Clone, Copy, Debug, PartialEq, Eq)]
pub struct Short;

/// A place in bytes. Contracts see its place, counted from the first byte, and the bytes that are
/// left.
#[derive(Drop)]
pub struct Cursor<'a> {
    left: &'a [u8],
    place: usize,
}

impl<'a> Model for Cursor<'a> {
    ghost use Rattle.std.specs.Prelude.{◌+◌, ◌<◌, ◌^◌, length};
    ghost use Rattle.ox_bytes.specs.Place.{Place};

    ghost Value = { Place };

    ghost view = { λ c. record { place = c.place; left = c.left.now } };

    ghost invariant = { λ c. c.place + length c.left.now < 2 ^ 64 };
}

impl<'a> Cursor<'a> {
    /// The place before the first byte.
    pub fn new(bytes: &'a [u8]) -> Cursor<'a>
        ensures place { result.place ≡ 0 }
        ensures left { result.left ≡ bytes.now }
    {
        Cursor {
            left: bytes,
            place: 0,
        }
    }

    /// How many bytes stand before the cursor.
    pub fn place(&self) -> usize
        ensures { result ≡ self.now.place }
    {
        self.place
    }

    /// The next bytes, that many. `Short` exactly where fewer are left: the cursor stays.
    pub fn take(&mut self, n: usize) -> Result<&'a [u8], Short>
        ensures taken { IfOk result (λ bytes.
            (length bytes.now ≡ n) × GoesOver bytes.now self.old self.new) }
        ensures short { OnErr result (length self.old.left < n) }
        ensures stays { OnErr result (self.new ≡ self.old) }
    {
        if self.left.len() < n {
            return Err(Short);
        }
        let (bytes, left) = self.left.split_at(n);
        self.left = left;
        self.place += n;
        Ok(bytes)
    }

    /// A number of 4 bytes, low byte first. `Short` exactly where fewer are left: the cursor stays.
    pub fn u32le(&mut self) -> Result<u32, Short>
        ensures taken { IfOk result (λ n. GoesOver (to_le_bytes w32 n) self.old self.new) }
        ensures short { OnErr result (length self.old.left < 4) }
        ensures stays { OnErr result (self.new ≡ self.old) }
    {
        let bytes = self.take(4)?;
        Ok(u32::from_le_bytes([bytes[0], bytes[1], bytes[2], bytes[3]]))
    }

    /// A number of 8 bytes, low byte first. `Short` exactly where fewer are left: the cursor stays.
    pub fn u64le(&mut self) -> Result<u64, Short>
        ensures taken { IfOk result (λ n. GoesOver (to_le_bytes w64 n) self.old self.new) }
        ensures short { OnErr result (length self.old.left < 8) }
        ensures stays { OnErr result (self.new ≡ self.old) }
    {
        let (number, left) = u64_front(self.left)?;
        self.left = left;
        self.place += 8;
        Ok(number)
    }

    /// A compact size, in its shortest form alone. `Short` exactly where it is cut, `NotShortest`
    /// exactly where a longer form than needed stands there: the cursor stays in both.
    pub fn compact(&mut self) -> Result<u64, CompactFault>
        ensures taken { IfOk result (λ n. GoesOver (compact n) self.old self.new) }
        ensures fault { IfErr result (λ e. size_of self.old.left ≡ Err e) }
        ensures stays { OnErr result (self.new ≡ self.old) }
    {
        let before = self.left.len();
        let (number, left) = compact_front(self.left)?;
        self.place += before - left.len();
        self.left = left;
        Ok(number)
    }
}

/// A number of 8 bytes and the bytes after it.
fn u64_front(bytes: &[u8]) -> Result<(u64, &[u8]), Short>
    ensures taken { IfOk result (λ x. bytes.now ≡ to_le_bytes w64 x.0 ++ x.1.now) }
    ensures short { OnErr result (length bytes.now < 8) }
{
    match u64le_field(bytes) {
        Ok((number, left)) => Ok((number, left)),
        Err(_) => Err(Short),
    }
}

/// A compact size and the bytes after it.
fn compact_front(bytes: &[u8]) -> Result<(u64, &[u8]), CompactFault>
    ensures taken { IfOk result (λ x. bytes.now ≡ compact x.0 ++ x.1.now) }
    ensures fault { IfErr result (λ e. size_of bytes.now ≡ Err e) }
{
    match compact_size(bytes) {
        Ok((number, left)) => Ok((number, left)),
        Err(fault) => Err(fault),
    }
}
