//! Keys that say by what they are spread over the lines of a map.

ghost use Rattle.std.specs.Prelude.{◌≡◌, ℕ, ◌/◌, ◌%◌, ◌^◌, true};
ghost use Rattle.std.specs.Ordering.{is_eq};
ghost use Rattle.ox_shards.specs.Keys.{spread_of, tag_of};
ghost use Rattle.ox_shards.specs.Laws.{number_alike};

/// A key that says by which number it is spread over the lines of a map.
pub trait Sharded: Ord + Copy {
    /// The number by which a key is spread. Its low bits count most.
    ghost spread: { Self → ℕ };

    /// The number by which this key is spread. Its low bits count most.
    fn spread(&self) -> u64
        ensures { result ≡ spread self.now };

    /// A part of a key that tells it from most others of its line.
    ghost tag: { Self → ℕ };

    /// A part of this key that tells it from most others of its line.
    fn tag(&self) -> u32
        ensures { result ≡ tag self.now };

    /// Equal keys are spread by one number.
    ghost alike: { (a b : Self) → is_eq (Self.cmp a b) ≡ true → spread a ≡ spread b };

    /// Equal keys have one tag.
    ghost same_tag: { (a b : Self) → is_eq (Self.cmp a b) ≡ true → tag a ≡ tag b };
}

/// By what keys are spread that are a transaction's id and an index: eight bytes of the id, which
/// is a hash, and the index, so that what belongs to one transaction stands in as many lines.
pub fn spread_of(id: &[u8; 32], index: u32) -> u64
    ensures { result ≡ spread_of id.now index }
{
    u64::from_le_bytes([id[6], id[7], id[8], id[9], id[10], id[11], id[12], id[13]]).wrapping_add(
        u64::from(index),
    )
}

/// The tag of such a key: four other bytes of the id, and the index.
pub fn tag_of(id: &[u8; 32], index: u32) -> u32
    ensures { result ≡ tag_of id.now index }
{
    u32::from_le_bytes([id[2], id[3], id[4], id[5]]).wrapping_add(index)
}

/// Names of runes: by the low bits of the number that a name is, and by those from the sixteenth.
impl Sharded for u128 {
    ghost spread = { λ name. name % 2 ^ 64 };

    fn spread(&self) -> u64 {
        (*self % (1 << 64)) as u64
    }

    ghost alike = { number_alike (λ name. name % 2 ^ 64) };

    ghost tag = { λ name. name / 2 ^ 16 % 2 ^ 32 };

    fn tag(&self) -> u32 {
        (*self / 65_536 % (1 << 32)) as u32
    }

    ghost same_tag = { number_alike (λ name. name / 2 ^ 16 % 2 ^ 32) };
}
