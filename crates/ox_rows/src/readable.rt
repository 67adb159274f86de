//! What can be read from the front of bytes.

ghost use Rattle.std.specs.Prelude.{◌≡◌, length};
ghost use Rattle.std.specs.Int.{w8, w16, w32, w64, w128};
ghost use Rattle.ox_bytes.specs.Reading.{Gives, GivesOrMemory, Reader, number_at, run_at};
ghost use Rattle.ox_rows.specs.FrontLaws.{bytes_fronts, number_fronts};
ghost use Rattle.ox_rows.specs.FrontLaws.{optional_fronts, text_fronts};
ghost use Rattle.ox_rows.specs.Front.{ReadsFronts};
ghost use Rattle.ox_rows.specs.Reading.{flag_at, four_at, optional_at, text_at};

use ox_bytes::{Bytes, FieldFault, ReadError, run_field, u32le_field, u64le_field};
use std::alloc::Global;

/// A value that stands at the front of bytes.
pub trait Readable {
    /// How it is read.
    ghost at: { Reader Self };

    /// The value and the bytes behind it. The fault has the number of bytes left where the field
    /// begins that doesn't fit. `Memory` where there is none for the value.
    fn read(alloc: Global, bytes: &[u8]) -> Result<(Self, &[u8]), ReadError>
        ensures { GivesOrMemory (λ x. (x.0, x.1.now)) result (at bytes.now) };

    /// It looks at nothing behind the value.
    ghost fronts: { ReadsFronts at };
}

impl Readable for u8 {
    ghost at = { number_at w8 };

    #[tactic(auto, unfolding(ox_bytes::specs::Reading::number_at))]
    fn read(_alloc: Global, bytes: &[u8]) -> Result<(u8, &[u8]), ReadError> {
        if bytes.is_empty() {
            return Err(ReadError::Fault(FieldFault { left: 0 }));
        }
        let (front, rest) = bytes.split_at(1);
        Ok((u8::from_le_bytes([front[0]]), rest))
    }

    ghost fronts = { number_fronts w8 };
}

impl Readable for u16 {
    ghost at = { number_at w16 };

    #[tactic(auto, unfolding(ox_bytes::specs::Reading::number_at))]
    fn read(_alloc: Global, bytes: &[u8]) -> Result<(u16, &[u8]), ReadError> {
        if bytes.len() < 2 {
            return Err(ReadError::Fault(FieldFault { left: bytes.len() }));
        }
        let (front, rest) = bytes.split_at(2);
        Ok((u16::from_le_bytes([front[0], front[1]]), rest))
    }

    ghost fronts = { number_fronts w16 };
}

impl Readable for u32 {
    ghost at = { number_at w32 };

    fn read(_alloc: Global, bytes: &[u8]) -> Result<(u32, &[u8]), ReadError> {
        Ok(u32le_field(bytes)?)
    }

    ghost fronts = { number_fronts w32 };
}

impl Readable for u64 {
    ghost at = { number_at w64 };

    fn read(_alloc: Global, bytes: &[u8]) -> Result<(u64, &[u8]), ReadError> {
        Ok(u64le_field(bytes)?)
    }

    ghost fronts = { number_fronts w64 };
}

impl Readable for u128 {
    ghost at = { number_at w128 };

    #[tactic(auto, unfolding(ox_bytes::specs::Reading::number_at))]
    fn read(_alloc: Global, bytes: &[u8]) -> Result<(u128, &[u8]), ReadError> {
        if bytes.len() < 16 {
            return Err(ReadError::Fault(FieldFault { left: bytes.len() }));
        }
        let (front, rest) = bytes.split_at(16);
        let mut number = [0; 16];
        number.copy_from_slice(front);
        Ok((u128::from_le_bytes(number), rest))
    }

    ghost fronts = { number_fronts w128 };
}

impl Readable for [u8; 32] {
    ghost at = { run_at 32 };

    #[tactic(auto, unfolding(ox_bytes::specs::Reading::run_at))]
    fn read(_alloc: Global, bytes: &[u8]) -> Result<([u8; 32], &[u8]), ReadError> {
        if bytes.len() < 32 {
            return Err(ReadError::Fault(FieldFault { left: bytes.len() }));
        }
        let (front, rest) = bytes.split_at(32);
        let mut hash = [0; 32];
        hash.copy_from_slice(front);
        Ok((hash, rest))
    }

    ghost fronts = { bytes_fronts 32 };
}

/// Bytes in place: how many in 4 bytes, and these.
#[tactic(auto, unfolding(crate::specs::Reading::text_at))]
pub fn text_of(bytes: &[u8]) -> Result<(&[u8], &[u8]), FieldFault>
    ensures { Gives (λ x. (x.0.now, x.1.now)) result (text_at bytes.now) }
{
    let (size, rest) = u32le_field(bytes)?;
    run_field(rest, size as u64)
}

impl Readable for Bytes {
    ghost at = { text_at };

    fn read(alloc: Global, bytes: &[u8]) -> Result<(Bytes, &[u8]), ReadError> {
        let (text, rest) = text_of(bytes)?;
        Ok((Bytes::copy(alloc, text)?, rest))
    }

    ghost fronts = { text_fronts };
}

/// Whether a value follows.
#[tactic(auto, unfolding(crate::specs::Reading::flag_at))]
fn flag_of(bytes: &[u8]) -> Result<(bool, &[u8]), FieldFault>
    ensures { Gives (λ x. (x.0, x.1.now)) result (flag_at bytes.now) }
{
    match bytes {
        [0, rest @ ..] => Ok((false, rest)),
        [1, rest @ ..] => Ok((true, rest)),
        _ => Err(FieldFault { left: bytes.len() }),
    }
}

/// A value, or none.
pub fn optional_of<T: Readable>(
    alloc: Global,
    bytes: &[u8],
) -> Result<(Option<T>, &[u8]), ReadError>
    ensures { GivesOrMemory (λ x. (x.0, x.1.now)) result (optional_at T.at bytes.now) }
{
    match flag_of(bytes)? {
        (false, rest) => Ok((None, rest)),
        (true, rest) => {
            let (value, rest) = T::read(alloc, rest)?;
            Ok((Some(value), rest))
        }
    }
}

impl<T: Readable> Readable for Option<T> {
    ghost at = { optional_at T.at };

    fn read(alloc: Global, bytes: &[u8]) -> Result<(Option<T>, &[u8]), ReadError> {
        optional_of(alloc, bytes)
    }

    ghost fronts = { optional_fronts T.at T.fronts };
}

/// Four values, one after the other.
#[tactic(auto, unfolding(crate::specs::Reading::four_at))]
pub(crate) fn four_of<A: Readable + Drop, B: Readable + Drop, C: Readable + Drop, D: Readable>(
    alloc: Global,
    bytes: &[u8],
) -> Result<((A, B, C, D), &[u8]), ReadError>
    ensures { GivesOrMemory (λ x. (x.0, x.1.now)) result
        (four_at A.at B.at C.at D.at bytes.now) }
{
    let (first, rest) = A::read(alloc, bytes)?;
    let (second, rest) = B::read(alloc, rest)?;
    let (third, rest) = C::read(alloc, rest)?;
    let (fourth, rest) = D::read(alloc, rest)?;
    Ok(((first, second, third, fourth), rest))
}
