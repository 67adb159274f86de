//! Writes into bytes, each whole or not at all.

ghost use Rattle.std.specs.Prelude.{◌≡◌, ◌+◌, ◌≤◌, ◌++◌, length, take, drop, slice_range};
ghost use Rattle.std.specs.Prelude.{if◌then◌else◌, OnOk, OnErr};
ghost use Rattle.ox_outside.specs.Files.{with_bytes};
ghost use Rattle.ox_outside.specs.Disk.{solid_outside};
ghost use Rattle.ox_outside.specs.declared.site.Which.TheVariants.{A, B};
ghost use Rattle.ox_memsite.specs.World.{is_same};

use ox_outside::Which;
use std::alloc::AllocError;

/// Puts bytes over those that stand at this place.
pub fn put_at(file: &mut [u8], at: usize, bytes: &[u8])
    requires { at + length bytes.now ≤ length file.old }
    ensures { file.new ≡ take at file.old ++ bytes.now ++ drop (at + length bytes.now) file.old }
{
    file[at..at + bytes.len()].copy_from_slice(bytes);
}

/// Puts bytes into a file at this place, or behind its end where it is shorter.
pub fn write_at(file: &mut Vec<u8>, at: u64, bytes: &[u8]) -> Result<(), AllocError>
    ensures ok { OnOk result (file.new.items ≡ with_bytes at bytes.now file.old.items) }
    ensures err { OnErr result (file.new.items ≡ file.old.items) }
{
    let start = at.min(file.len() as u64) as usize;
    let over = bytes.len().min(file.len() - start);
    let (front, back) = bytes.split_at(over);
    file.extend_from_slice(back)?;
    put_at(file, start, front);
    Ok(())
}

/// Puts bytes into one of two files so, and leaves the other.
pub fn write_one(
    a: &mut Vec<u8>,
    b: &mut Vec<u8>,
    file: Which,
    at: u64,
    bytes: &[u8],
) -> Result<(), AllocError>
    ensures a { OnOk result (
        a.new.items
        ≡ (if is_same A file then with_bytes at bytes.now a.old.items else a.old.items)) }
    ensures b { OnOk result (
        b.new.items
        ≡ (if is_same B file then with_bytes at bytes.now b.old.items else b.old.items)) }
    ensures err { OnErr result ((a.new.items ≡ a.old.items) × (b.new.items ≡ b.old.items)) }
{
    match file {
        Which::A => write_at(a, at, bytes),
        Which::B => write_at(b, at, bytes),
    }
}

/// Fills the slice with the bytes from this place on.
pub fn copy_range(file: &[u8], at: u64, into: &mut [u8])
    requires { at + length into.old ≤ length file.now }
    ensures { into.new ≡ slice_range file.now at (at + length into.old) }
{
    let start = at as usize;
    let end = start + into.len();
    into.copy_from_slice(&file[start..end]);
}

/// So many places from this one on are covered.
pub fn cover(solid: &mut [bool], at: u64, length: u64)
    ensures { solid.new ≡ solid_outside at length solid.old }
{
    let size = solid.len() as u64;
    let start = at.min(size);
    let end = start + length.min(size - start);
    solid[start as usize..end as usize].fill(false);
}
