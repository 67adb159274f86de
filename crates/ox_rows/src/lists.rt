//! Lists, read.

ghost use Rattle.ox_bytes.specs.Reading.{GivesOrMemory, times};
ghost use Rattle.ox_rows.specs.FrontLaws.{list_fronts};
ghost use Rattle.ox_rows.specs.Reading.{list_at};

use crate::readable::Readable;
use ox_bytes::{List, ReadError, u32le_field};
use std::alloc::Global;

/// A list: how many values in 4 bytes, and these. However many are told, no memory is taken for
/// those that aren't there. `Memory` where there is none for the values.
pub fn list_of<T: Readable + Drop>(
    alloc: Global,
    bytes: &[u8],
) -> Result<(List<T>, &[u8]), ReadError>
    ensures { GivesOrMemory (λ x. (x.0, x.1.now)) result (list_at T.at bytes.now) }
{
    let (count, rest) = u32le_field(bytes)?;
    values_of(alloc, count, rest)
}

/// That many values.
fn values_of<T: Readable + Drop>(
    alloc: Global,
    count: u32,
    bytes: &[u8],
) -> Result<(List<T>, &[u8]), ReadError>
    ensures { GivesOrMemory (λ x. (x.0, x.1.now)) result (times T.at count bytes.now) }
{
    let mut values = List::new(alloc);
    let mut rest = bytes;
    for _ in 0..count {
        let (value, after) = T::read(alloc, rest)?;
        values.push(value)?;
        rest = after;
    }
    Ok((values, rest))
}

impl<T: Readable + Drop> Readable for List<T> {
    ghost at = { list_at T.at };

    fn read(alloc: Global, bytes: &[u8]) -> Result<(List<T>, &[u8]), ReadError> {
        list_of(alloc, bytes)
    }

    ghost fronts = { list_fronts T.at T.fronts };
}
