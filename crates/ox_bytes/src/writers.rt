//! Fields put at the end of bytes.

ghost use Rattle.std.specs.Prelude.{◌≡◌, ◌++◌, OnOk, OnErr};
ghost use Rattle.std.specs.Int.{w32, w64, to_le_bytes};
ghost use Rattle.ox_bytes.specs.Spelling.{compact};

use crate::bytes::Bytes;
use crate::memory::Memory;

/// Appends a number in 4 bytes, low byte first. `Memory` where there is none: nothing has changed
/// then.
pub fn put_u32le(bytes: &mut Bytes, number: u32) -> Result<(), Memory>
    ensures ok { OnOk result (bytes.new ≡ bytes.old ++ to_le_bytes w32 number) }
    ensures err { OnErr result (bytes.new ≡ bytes.old) }
{
    bytes.append(&number.to_le_bytes())
}

/// Appends a number in 8 bytes, low byte first. `Memory` where there is none: nothing has changed
/// then.
pub fn put_u64le(bytes: &mut Bytes, number: u64) -> Result<(), Memory>
    ensures ok { OnOk result (bytes.new ≡ bytes.old ++ to_le_bytes w64 number) }
    ensures err { OnErr result (bytes.new ≡ bytes.old) }
{
    bytes.append(&number.to_le_bytes())
}

/// Appends a compact size in its shortest form. `Memory` where there is none: nothing has changed
/// then.
pub fn put_compact(bytes: &mut Bytes, number: u64) -> Result<(), Memory>
    ensures ok { OnOk result (bytes.new ≡ bytes.old ++ compact number) }
    ensures err { OnErr result (bytes.new ≡ bytes.old) }
{
    if number < 253 {
        bytes.append(&[number as u8])
    } else if number < 0x1_0000 {
        let [a, b] = (number as u16).to_le_bytes();
        bytes.append(&[253, a, b])
    } else if number < 0x1_0000_0000 {
        let [a, b, c, d] = (number as u32).to_le_bytes();
        bytes.append(&[254, a, b, c, d])
    } else {
        let [a, b, c, d, e, f, g, h] = number.to_le_bytes();
        bytes.append(&[255, a, b, c, d, e, f, g, h])
    }
}
