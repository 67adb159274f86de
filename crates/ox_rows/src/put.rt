//! Texts, options and lists, put behind bytes.

ghost use Rattle.std.specs.Prelude.{◌≡◌, ◌<◌, ◌^◌, ◌++◌, length, OnOk, IfOk, IfSome};
ghost use Rattle.std.specs.Int.{w32, to_le_bytes};
ghost use Rattle.std.specs.List.{All, flat_map};
ghost use Rattle.ox_rows.specs.Fits.{FitsList, FitsText};
ghost use Rattle.ox_rows.specs.Spelling.{list, optional, text};

use crate::writable::Writable;
use ox_bytes::{Bytes, Memory, put_u32le};

/// Puts a count in 4 bytes behind others. `Memory` where there is none for them, and where they
/// can't count so far.
pub fn put_count(bytes: &mut Bytes, count: usize) -> Result<(), Memory>
    ensures ok { OnOk result (bytes.new ≡ bytes.old ++ to_le_bytes w32 count) }
    ensures fits { OnOk result (count < 2 ^ 32) }
{
    if count > 0xFFFF_FFFF {
        return Err(Memory);
    }
    put_u32le(bytes, count as u32)
}

/// Puts bytes behind others: how many in 4 bytes, and these. `Memory` where there is none for them,
/// and where they are more than 4 bytes can count.
pub fn put_text(bytes: &mut Bytes, string: &[u8]) -> Result<(), Memory>
    ensures ok { OnOk result (bytes.new ≡ bytes.old ++ text string.now) }
    ensures fits { OnOk result (FitsText string.now) }
{
    put_count(bytes, string.len())?;
    bytes.append(string)
}

/// Puts an option: 0, or 1 and the value. `Memory` as for the value.
pub fn put_optional<T: Writable>(bytes: &mut Bytes, value: &Option<T>) -> Result<(), Memory>
    requires { IfSome value.now T.keeps }
    ensures ok { OnOk result (bytes.new ≡ bytes.old ++ optional T.spelling value.now) }
    ensures fits { OnOk result (IfSome value.now T.fits) }
{
    match value {
        None => bytes.append(&[0]),
        Some(value) => {
            bytes.append(&[1])?;
            value.put(bytes)
        }
    }
}

/// Puts a list: how many values in 4 bytes, and these. `Memory` where there is none for them, and
/// where they are more than 4 bytes can count.
pub fn put_list<T: Writable>(bytes: &mut Bytes, values: &[T]) -> Result<(), Memory>
    requires { All T.keeps values.now }
    ensures ok { OnOk result (bytes.new ≡ bytes.old ++ list T.spelling values.now) }
    ensures fits { OnOk result (FitsList T.fits values.now) }
{
    put_count(bytes, values.len())?;
    put_values(bytes, values)
}

/// Puts each value, without a count.
fn put_values<T: Writable>(bytes: &mut Bytes, values: &[T]) -> Result<(), Memory>
    requires { All T.keeps values.now }
    ensures ok { OnOk result (bytes.new ≡ bytes.old ++ flat_map T.spelling values.now) }
    ensures fits { OnOk result (All T.fits values.now) }
{
    for value in values {
        value.put(bytes)?;
    }
    Ok(())
}
