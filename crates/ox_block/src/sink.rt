//! What takes bytes in order: a hasher, or bytes that are kept. A block is spelled once, for both.

ghost use Rattle.std.specs.Prelude.{◌≡◌, ℕ, List, OnOk, length};
ghost use Rattle.sha2.specs.Hashers.{Holds256};
ghost use Rattle.ox_block.specs.Putting.{Puts};

use ox_bytes::{Bytes, Memory};
use sha2::{Digest, Sha256};
use std::convert::Infallible;

/// Takes bytes, one piece after the other.
pub trait Sink {
    /// What it has taken.
    ghost holds: { Self → List ℕ → Type 0 };

    /// Why it can't take a piece.
    type Fault: Drop;

    /// Takes a piece.
    fn put(&mut self, piece: &[u8]) -> Result<(), Self::Fault>
        ensures { OnOk result (Puts holds piece.now self.old self.new) };
}

impl Sink for Sha256 {
    ghost holds = { Holds256 };

    type Fault = Infallible;

    fn put(&mut self, piece: &[u8]) -> Result<(), Infallible> {
        self.update(piece);
        Ok(())
    }
}

impl Sink for Bytes {
    ghost holds = { λ bytes text. bytes ≡ text };

    type Fault = Memory;

    fn put(&mut self, piece: &[u8]) -> Result<(), Memory> {
        self.append(piece)
    }
}

impl Sink for Vec<u8> {
    ghost holds = { λ bytes text. bytes.items ≡ text };

    type Fault = Memory;

    fn put(&mut self, piece: &[u8]) -> Result<(), Memory> {
        Ok(self.extend_from_slice(piece)?)
    }
}
