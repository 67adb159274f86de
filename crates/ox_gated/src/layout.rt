//! Where the parts of a file stand, in bytes, and what else differs from version to version. The
//! first gate stands at 0.

ghost use Rattle.std.specs.Prelude.{◌≡◌, ◌+◌, ◌≤◌, ◌<◌, ◌^◌, ◌++◌, length};
ghost use Rattle.ox_gated.specs.Layout.{is_summed, layout_of};
ghost use Rattle.ox_gated.specs.RecordLayout.{record_sum};

use crate::head::Head;
use sha2::{Digest, Sha256};

/// The five letters.
pub const MAGIC_AT: usize = 1;

/// The version, in one byte.
pub const VERSION_AT: usize = 6;

/// The profile, in one byte.
pub const PROFILE_AT: usize = 7;

/// How many blocks can be taken back, in two bytes.
pub const DEPTH_AT: usize = 8;

/// The generation, in eight bytes.
pub const GENERATION_AT: usize = 10;

/// The body's length, in eight bytes.
pub const SIZE_AT: usize = 18;

/// SHA-256 of the body, where the version has sums.
pub const SUMS_AT: usize = 26;

/// SHA-256 of the bytes from the letters up to here, where the version has sums.
pub const HEAD_SUM_AT: usize = 58;

/// The body of a file of version 1 or 2. The first record's gate stands behind it.
pub const BODY_AT: usize = 26;

/// The body of a file of version 3.
pub const SUMMED_BODY_AT: usize = 90;

impl Head {
    /// Whether the files of this version have sums: those of version 3.
    pub(crate) fn is_summed(&self) -> bool
        ensures { result ≡ is_summed self.now.version }
    {
        self.version == 3
    }

    /// The five letters behind the gate.
    #[tactic(auto, unfolding(crate::specs::Layout::layout_of))]
    pub(crate) fn letters(&self) -> &'static [u8]
        ensures { result.now ≡ (layout_of self.now.version).letters }
    {
        if self.is_summed() { b"oxid3" } else { b"oxidx" }
    }

    /// Where the body of a file with this head begins, in bytes: at 26 in versions 1 and 2, at 90
    /// in version 3.
    #[tactic(auto, unfolding(crate::specs::Layout::layout_of))]
    pub fn body_at(&self) -> u64
        ensures { result ≡ (layout_of self.now.version).body_at }
    {
        if self.is_summed() {
            SUMMED_BODY_AT as u64
        } else {
            BODY_AT as u64
        }
    }

    /// How many bytes stand before a payload, from its record's gate on.
    #[tactic(auto, unfolding(crate::specs::Layout::layout_of))]
    pub(crate) fn before_payload(&self) -> u64
        ensures value { result ≡ (layout_of self.now.version).before_payload }
        ensures some { 1 ≤ result }
    {
        if self.is_summed() { 41 } else { 5 }
    }
}

/// The sum of a record: of the file's generation, of the place of the record's gate, and of the
/// payload, which is the bytes of `front` and then those of `rest`.
#[tactic(auto, unfolding(crate::specs::RecordLayout::record_sum))]
pub fn record_sum(generation: u64, place: u64, front: &[u8], rest: &[u8]) -> [u8; 32]
    requires { length front.now + length rest.now < 2 ^ 64 }
    ensures { result ≡ record_sum generation place (front.now ++ rest.now) }
{
    let mut hasher = Sha256::new();
    hasher.update(&generation.to_le_bytes());
    hasher.update(&place.to_le_bytes());
    hasher.update(&((front.len() + rest.len()) as u64).to_le_bytes());
    hasher.update(front);
    hasher.update(rest);
    hasher.finalize()
}
