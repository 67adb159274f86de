//! The order of ids: that of their bytes, which the first eight decide nearly always.

ghost use Rattle.std.specs.Prelude.{◌≡◌, ◌≤◌, Some, refl, length, take};
ghost use Rattle.std.specs.Ordering.{nat_cmp};
ghost use Rattle.std.specs.Cmp.{on_po};
ghost use Rattle.std.specs.Cmp.Lexicographic.{slice_cmp, texts_po, texts_ties, on_texts};
ghost use Rattle.std.specs.Slice.Scan.{big_endian};
ghost use Rattle.ox_block.specs.declared.block.Txid.{Txid};

use crate::block::Txid;
use std::cmp::Ordering;

/// The first eight bytes as one number, the first byte the highest.
fn front(bytes: &[u8]) -> u64
    requires { 8 ≤ length bytes.now }
    ensures { result ≡ big_endian 0 (take 8 bytes.now) }
{
    u64::from_be_bytes([
        bytes[0], bytes[1], bytes[2], bytes[3], bytes[4], bytes[5], bytes[6], bytes[7],
    ])
}

/// The order of two byte strings, each of eight bytes at least.
fn order_of(mine: &[u8], others: &[u8]) -> Ordering
    requires mine { 8 ≤ length mine.now }
    requires others { 8 ≤ length others.now }
    ensures { result ≡ slice_cmp nat_cmp mine.now others.now }
{
    let (my_front, other_front) = (front(mine), front(others));
    if my_front == other_front {
        mine.cmp(&others)
    } else {
        my_front.cmp(&other_front)
    }
}

impl PartialOrd for Txid {
    ghost partial_cmp = { λ a b. Some (slice_cmp nat_cmp a.0 b.0) };

    ghost laws = { on_po (λ (id : Txid). id.0) texts_po };

    fn partial_cmp(&self, other: &Txid) -> Option<Ordering> {
        Some(self.cmp(other))
    }
}

impl Ord for Txid {
    ghost cmp = { λ a b. slice_cmp nat_cmp a.0 b.0 };

    ghost total = { on_texts (λ (id : Txid). id.0) };

    ghost matches_partial_cmp = { λ a b. refl };

    ghost matches_eq = { λ a b. texts_ties a.0 b.0 };

    fn cmp(&self, other: &Txid) -> Ordering {
        order_of(&self.0, &other.0)
    }
}
