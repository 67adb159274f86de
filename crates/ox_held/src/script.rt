//! The script of a segwit address.

ghost use Rattle.std.specs.Prelude.{◌≡◌};
ghost use Rattle.ox_address.specs.Address.{IsSegwit};

use std::marker::Model;

/// The script of a segwit address (BIP 141, "Witness program"). It takes no memory. Contracts see
/// its bytes.
#[derive(Drop)]
pub struct SegwitScript {
    pub(crate) bytes: [u8; 42],
    pub(crate) len: usize,
}

impl Model for SegwitScript {
    ghost use Rattle.std.specs.Prelude.{ℕ, List, take};
    ghost use Rattle.ox_held.specs.Scripts.{IsScript};

    ghost Value = { List ℕ };

    ghost view = { λ script. take script.len script.bytes };

    ghost invariant = { λ script. IsScript script.bytes script.len };
}

impl SegwitScript {
    /// The bytes, to be read in place.
    pub fn as_slice(&self) -> &[u8]
        ensures bytes { result.now ≡ self.now }
        ensures segwit { IsSegwit self.now }
    {
        &self.bytes[..self.len]
    }
}
