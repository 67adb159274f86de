//! Fields at the front of a slice: each call gives the value and the bytes after it, or the fault
//! with the number of bytes left where the field begins.

ghost use Rattle.std.specs.Prelude.{length};
ghost use Rattle.std.specs.Int.{w32, w64};
ghost use Rattle.ox_bytes.specs.Reading.{Gives, GivesOrMemory, number_at, run_at, compact_at};
ghost use Rattle.ox_bytes.specs.Reading.{string_at};

use crate::bytes::Bytes;
use crate::compact::compact_size;
use crate::fault::{FieldFault, ReadError};
use std::alloc::Global;

/// A number of 4 bytes, low byte first. The fault comes exactly where fewer are left.
#[tactic(auto, unfolding(crate::specs::Reading::number_at))]
pub fn u32le_field(bytes: &[u8]) -> Result<(u32, &[u8]), FieldFault>
    ensures { Gives (λ x. (x.0, x.1.now)) result (number_at w32 bytes.now) }
{
    if bytes.len() < 4 {
        return Err(FieldFault { left: bytes.len() });
    }
    let (front, rest) = bytes.split_at(4);
    let number = u32::from_le_bytes([front[0], front[1], front[2], front[3]]);
    Ok((number, rest))
}

/// A number of 8 bytes, low byte first. The fault comes exactly where fewer are left.
#[tactic(auto, unfolding(crate::specs::Reading::number_at))]
pub fn u64le_field(bytes: &[u8]) -> Result<(u64, &[u8]), FieldFault>
    ensures { Gives (λ x. (x.0, x.1.now)) result (number_at w64 bytes.now) }
{
    if bytes.len() < 8 {
        return Err(FieldFault { left: bytes.len() });
    }
    let (front, rest) = bytes.split_at(8);
    let number = u64::from_le_bytes([
        front[0], front[1], front[2], front[3], front[4], front[5], front[6], front[7],
    ]);
    Ok((number, rest))
}

/// That many bytes. The fault comes exactly where fewer are left.
#[tactic(auto, unfolding(crate::specs::Reading::run_at))]
pub fn run_field(bytes: &[u8], len: u64) -> Result<(&[u8], &[u8]), FieldFault>
    ensures { Gives (λ x. (x.0.now, x.1.now)) result (run_at len bytes.now) }
{
    if (bytes.len() as u64) < len {
        return Err(FieldFault { left: bytes.len() });
    }
    Ok(bytes.split_at(len as usize))
}

/// A compact size, in its shortest form alone. The fault comes exactly where it is cut or longer
/// than it has to be.
#[tactic(auto, unfolding(crate::specs::Reading::compact_at))]
pub fn compact_field(bytes: &[u8]) -> Result<(u64, &[u8]), FieldFault>
    ensures { Gives (λ x. (x.0, x.1.now)) result (compact_at bytes.now) }
{
    match compact_size(bytes) {
        Ok(found) => Ok(found),
        Err(_) => Err(FieldFault { left: bytes.len() }),
    }
}

/// A byte string, copied: its length as a compact size, and its bytes. The length and the bytes are
/// two fields. `Memory` where there is none for the copy.
#[tactic(auto, unfolding(crate::specs::Reading::string_at))]
pub fn string_field(alloc: Global, bytes: &[u8]) -> Result<(Bytes, &[u8]), ReadError>
    ensures { GivesOrMemory (λ x. (x.0, x.1.now)) result (string_at bytes.now) }
{
    let (len, rest) = compact_field(bytes)?;
    let (run, rest) = run_field(rest, len)?;
    Ok((Bytes::copy(alloc, run)?, rest))
}
