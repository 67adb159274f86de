//! The head of a file.

ghost use Rattle.std.specs.Prelude.{◌≡◌, ◌+◌, ◌≤◌, IfSome, IsTrue, bytes_eq, length, slice_range, take};
ghost use Rattle.std.specs.Int.{w16, w64, from_le_bytes};
ghost use Rattle.ox_gated.specs.Layout.{is_lawful, has_layout, is_closed, head_of, layout_of};
ghost use Rattle.ox_gated.specs.Layout.{head_sum_at, magic_at, summed, summed_body_at, sums_at};

use crate::layout::{
    DEPTH_AT, GENERATION_AT, HEAD_SUM_AT, MAGIC_AT, PROFILE_AT, SIZE_AT, SUMMED_BODY_AT, SUMS_AT,
    VERSION_AT,
};
use sha2::{Digest, Sha256};

/// What a file's head says. It lies behind the file's gate, and the length of the body follows it.
#[derive(Clone, Copy, PartialEq, Eq)]
pub struct Head {
    /// From 1 to 3.
    pub version: u8,
    /// 0 mainnet, 1 regtest, 2 lab.
    pub profile: u8,
    /// How many blocks can be taken back, from 1 to 1,000.
    pub depth: u16,
    /// Counted from 1; the open file of the greater generation is current.
    pub generation: u64,
}

/// A head, and the length that it gives the body.
#[derive(Clone, Copy, PartialEq, Eq)]
pub struct Opening {
    pub head: Head,
    pub size: u64,
}

impl Head {
    /// Whether a file may have it: a version from 1 to 3, a known profile, a depth from 1 to 1,000,
    /// a generation other than 0.
    pub fn is_lawful(&self) -> bool
        ensures { result ≡ is_lawful self.now }
    {
        (self.version == 1 || self.version == 2 || self.version == 3)
            && self.profile < 3
            && 1 <= self.depth
            && self.depth <= 1000
            && self.generation != 0
    }
}

/// The head of an open file, of whose front these bytes are 90 or, where it has fewer, all. None
/// where they are cut, break the form, or aren't as their sum says.
pub fn opening_of(front: &[u8]) -> Option<Opening>
    ensures opening { result ≡ head_of front.now }
    ensures lawful { IfSome result (λ opening. IsTrue (is_lawful opening.head)) }
{
    if front.len() < SUMS_AT {
        return None;
    }
    let opening = Opening {
        head: Head {
            version: front[VERSION_AT],
            profile: front[PROFILE_AT],
            depth: u16_at(front, DEPTH_AT),
            generation: u64_at(front, GENERATION_AT),
        },
        size: u64_at(front, SIZE_AT),
    };
    if opening.head.is_lawful() && has_layout(&opening.head, front) {
        Some(opening)
    } else {
        None
    }
}

/// Whether a file with this front is of length 0 or has a closed first gate.
pub fn is_shut(front: &[u8]) -> bool
    ensures { result ≡ is_closed front.now }
{
    match front {
        [] => true,
        [gate, ..] => *gate == 0,
    }
}

/// Whether these bytes have the letters of this head's version, and where it has sums that of the
/// head, up to the body.
#[tactic(auto, unfolding(crate::specs::Layout::layout_of))]
fn has_layout(head: &Head, front: &[u8]) -> bool
    requires { sums_at ≤ length front.now }
    ensures { result ≡ has_layout (layout_of head.now.version) front.now }
{
    let has_letters = &front[MAGIC_AT..VERSION_AT] == head.letters();
    if head.is_summed() {
        front.len() >= SUMMED_BODY_AT && has_letters && is_head(&front[..SUMMED_BODY_AT])
    } else {
        has_letters
    }
}

/// Whether the bytes before a body are as their sum says.
fn is_head(front: &[u8]) -> bool
    requires { length front.now ≡ summed_body_at }
    ensures { result ≡ summed.is_head front.now }
{
    let sum = Sha256::digest(&front[MAGIC_AT..HEAD_SUM_AT]);
    front[HEAD_SUM_AT..SUMMED_BODY_AT] == sum[..]
}

/// Whether a body is as its sum among the bytes before it says.
#[tactic(auto, unfolding(crate::specs::Layout::layout_of))]
pub fn is_body(head: &Head, front: &[u8], body: &[u8]) -> bool
    requires { (layout_of head.now.version).body_at ≤ length front.now }
    ensures { let layout = layout_of head.now.version in
        result ≡ layout.is_body (take layout.body_at front.now) body.now }
{
    if !head.is_summed() {
        return true;
    }
    is_sum_of_body(front, &Sha256::digest(body))
}

/// Whether this is the body's sum among the bytes before it.
pub fn is_sum_of_body(front: &[u8], sum: &[u8]) -> bool
    requires { head_sum_at ≤ length front.now }
    ensures { result ≡ bytes_eq (slice_range front.now sums_at head_sum_at) sum.now }
{
    &front[SUMS_AT..HEAD_SUM_AT] == sum
}

fn u16_at(bytes: &[u8], at: usize) -> u16
    requires { at + 2 ≤ length bytes.now }
    ensures { result ≡ from_le_bytes w16 (slice_range bytes.now at (at + 2)) }
{
    let (_, rest) = bytes.split_at(at);
    let (number, _) = rest.split_at(2);
    u16::from_le_bytes([number[0], number[1]])
}

fn u64_at(bytes: &[u8], at: usize) -> u64
    requires { at + 8 ≤ length bytes.now }
    ensures { result ≡ from_le_bytes w64 (slice_range bytes.now at (at + 8)) }
{
    let (_, rest) = bytes.split_at(at);
    let (number, _) = rest.split_at(8);
    u64::from_le_bytes([
        number[0], number[1], number[2], number[3], number[4], number[5], number[6], number[7],
    ])
}
