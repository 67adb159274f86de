//! Values by rising keys, read.

ghost use Rattle.std.specs.Prelude.{◌≡◌, None};
ghost use Rattle.ox_bytes.specs.Reading.{GivesOrMemory, unless};
ghost use Rattle.ox_rows.specs.Reading.{falls, rising_at};

use crate::next::Reads;
use crate::readable::Readable;
use ox_bytes::{FieldFault, ReadError};
use std::alloc::Global;

/// That many values, each behind its key; keys rise. A key that doesn't is at fault before its
/// value is read. `Memory` where there is none for the values.
pub fn rising_of<K: Readable + Ord + Copy, X: Readable + Drop>(
    alloc: Global,
    count: u32,
    bytes: &[u8],
) -> Result<(Vec<(K, X)>, &[u8]), ReadError>
    ensures { GivesOrMemory (λ x. (x.0.items, x.1.now)) result
        (rising_at K.cmp K.at X.at None count bytes.now) }
{
    let mut rows = Vec::new(alloc);
    let mut last = None;
    let mut rest = bytes;
    for _ in 0..count {
        let (key, behind_key) = key_behind(alloc, last, rest)?;
        let (value, after) = X::read(alloc, behind_key)?;
        rows.push((key, value))?;
        last = Some(key);
        rest = after;
    }
    Ok((rows, rest))
}

/// By the last key, if there is one: the next one rises above it.
impl<K: Readable + Ord + Copy> Reads<K> for Option<K> {
    ghost use Rattle.ox_rows.specs.FrontLaws.{key_fronts};

    ghost at = { λ last. unless (falls K.cmp last) K.at };

    fn read(self, alloc: Global, bytes: &[u8]) -> Result<(K, &[u8]), ReadError> {
        key_behind(alloc, self, bytes)
    }

    ghost fronts = { λ last. key_fronts K.cmp last K.at K.fronts };
}

/// A key that rises above the last one, if there is one.
pub(crate) fn key_behind<K: Readable + Ord + Copy>(
    alloc: Global,
    last: Option<K>,
    bytes: &[u8],
) -> Result<(K, &[u8]), ReadError>
    ensures { GivesOrMemory (λ x. (x.0, x.1.now)) result
        (unless (falls K.cmp last) K.at bytes.now) }
{
    let (key, rest) = K::read(alloc, bytes)?;
    if falls(last, &key) {
        return Err(ReadError::Fault(FieldFault { left: bytes.len() }));
    }
    Ok((key, rest))
}

/// Whether a key doesn't rise above the last one.
fn falls<K: Ord + Copy>(last: Option<K>, key: &K) -> bool
    ensures { result ≡ falls K.cmp last key.now }
{
    match last {
        None => false,
        Some(last) => !last.cmp(key).is_lt(),
    }
}
