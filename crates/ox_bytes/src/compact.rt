//! Compact sizes at the front of a slice.

ghost use Rattle.std.specs.Prelude.{◌^◌};
ghost use Rattle.std.specs.Int.{w16, w32, w64};
ghost use Rattle.ox_bytes.specs.Reading.{Reads, size_of, long_size};

/// Why no compact size stands at a place.
#[derive(Clone, Copy, Debug, PartialEq, Eq)]
pub enum CompactFault {
    /// Fewer bytes are left than its first byte asks for, or none at all.
    Short,
    /// The number has a shorter form.
    NotShortest,
}

/// The number in 2 bytes, which a single byte can't hold.
#[tactic(auto, unfolding(crate::specs::Reading::long_size))]
fn size_in_2(bytes: &[u8]) -> Result<(u64, &[u8]), CompactFault>
    ensures { Reads (λ x. (x.0, x.1.now)) result (long_size w16 253 bytes.now) }
{
    if bytes.len() < 2 {
        return Err(CompactFault::Short);
    }
    let (front, rest) = bytes.split_at(2);
    let number = u16::from_le_bytes([front[0], front[1]]);
    if number < 253 {
        return Err(CompactFault::NotShortest);
    }
    Ok((number as u64, rest))
}

/// The number in 4 bytes, which 2 can't hold.
#[tactic(auto, unfolding(crate::specs::Reading::long_size))]
fn size_in_4(bytes: &[u8]) -> Result<(u64, &[u8]), CompactFault>
    ensures { Reads (λ x. (x.0, x.1.now)) result (long_size w32 (2 ^ 16) bytes.now) }
{
    if bytes.len() < 4 {
        return Err(CompactFault::Short);
    }
    let (front, rest) = bytes.split_at(4);
    let number = u32::from_le_bytes([front[0], front[1], front[2], front[3]]);
    if number < 0x1_0000 {
        return Err(CompactFault::NotShortest);
    }
    Ok((number as u64, rest))
}

/// The number in 8 bytes, which 4 can't hold.
#[tactic(auto, unfolding(crate::specs::Reading::long_size))]
fn size_in_8(bytes: &[u8]) -> Result<(u64, &[u8]), CompactFault>
    ensures { Reads (λ x. (x.0, x.1.now)) result (long_size w64 (2 ^ 32) bytes.now) }
{
    if bytes.len() < 8 {
        return Err(CompactFault::Short);
    }
    let (front, rest) = bytes.split_at(8);
    let number = u64::from_le_bytes([
        front[0], front[1], front[2], front[3], front[4], front[5], front[6], front[7],
    ]);
    if number < 0x1_0000_0000 {
        return Err(CompactFault::NotShortest);
    }
    Ok((number, rest))
}

/// A compact size and the bytes after it, or what is wrong with it.
#[tactic(auto, unfolding(crate::specs::Reading::size_of))]
pub fn compact_size(bytes: &[u8]) -> Result<(u64, &[u8]), CompactFault>
    ensures { Reads (λ x. (x.0, x.1.now)) result (size_of bytes.now) }
{
    match bytes {
        [] => Err(CompactFault::Short),
        [253, rest @ ..] => size_in_2(rest),
        [254, rest @ ..] => size_in_4(rest),
        [255, rest @ ..] => size_in_8(rest),
        [first, rest @ ..] => Ok((*first as u64, rest)),
    }
}
