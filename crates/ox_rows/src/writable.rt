//! What can be put behind bytes.

ghost use Rattle.std.specs.Prelude.{◌≡◌, ℕ, ◌<◌, ◌^◌, ◌++◌, List, OnOk};
ghost use Rattle.std.specs.Int.{w8, w16, w32, w64, w128, to_le_bytes};
ghost use Rattle.ox_rows.specs.Fits.{FitsText, IsHash};
ghost use Rattle.ox_rows.specs.Spelling.{hash, text};

use crate::put::put_text;
use ox_bytes::{Bytes, Memory, put_u32le, put_u64le};

/// A value that has a spelling.
pub trait Writable {
    /// Its spelling.
    ghost spelling: { Self → List ℕ };

    /// Its numbers fit their fields, and it keeps to the form.
    ghost fits: { Self → Type 0 };

    /// It keeps to the form where its type doesn't say so.
    ghost keeps: { Self → Type 0 };

    /// Puts its spelling behind bytes. `Memory` where there is none for it, and where a list in it
    /// has more items than 4 bytes can count.
    fn put(&self, bytes: &mut Bytes) -> Result<(), Memory>
        requires { keeps self.now }
        ensures ok { OnOk result (bytes.new ≡ bytes.old ++ spelling self.now) }
        ensures fits { OnOk result (fits self.now) };
}

impl Writable for u8 {
    ghost spelling = { to_le_bytes w8 };

    ghost fits = { λ n. n < 2 ^ 8 };

    ghost keeps = { λ n. Unit {0} };

    fn put(&self, bytes: &mut Bytes) -> Result<(), Memory> {
        bytes.append(&self.to_le_bytes())
    }
}

impl Writable for u16 {
    ghost spelling = { to_le_bytes w16 };

    ghost fits = { λ n. n < 2 ^ 16 };

    ghost keeps = { λ n. Unit {0} };

    fn put(&self, bytes: &mut Bytes) -> Result<(), Memory> {
        bytes.append(&self.to_le_bytes())
    }
}

impl Writable for u32 {
    ghost spelling = { to_le_bytes w32 };

    ghost fits = { λ n. n < 2 ^ 32 };

    ghost keeps = { λ n. Unit {0} };

    fn put(&self, bytes: &mut Bytes) -> Result<(), Memory> {
        put_u32le(bytes, *self)
    }
}

impl Writable for u64 {
    ghost spelling = { to_le_bytes w64 };

    ghost fits = { λ n. n < 2 ^ 64 };

    ghost keeps = { λ n. Unit {0} };

    fn put(&self, bytes: &mut Bytes) -> Result<(), Memory> {
        put_u64le(bytes, *self)
    }
}

impl Writable for u128 {
    ghost spelling = { to_le_bytes w128 };

    ghost fits = { λ n. n < 2 ^ 128 };

    ghost keeps = { λ n. Unit {0} };

    fn put(&self, bytes: &mut Bytes) -> Result<(), Memory> {
        bytes.append(&self.to_le_bytes())
    }
}

impl Writable for [u8; 32] {
    ghost spelling = { hash };

    ghost fits = { IsHash };

    ghost keeps = { λ n. Unit {0} };

    fn put(&self, bytes: &mut Bytes) -> Result<(), Memory> {
        bytes.append(self)
    }
}

impl Writable for Bytes {
    ghost spelling = { text };

    ghost fits = { FitsText };

    ghost keeps = { λ n. Unit {0} };

    fn put(&self, bytes: &mut Bytes) -> Result<(), Memory> {
        put_text(bytes, self.as_slice())
    }
}
