//! A file on a disk, made again from what happened to it.

ghost use Rattle.std.specs.Prelude.{◌≡◌, ◌++◌, replicate, slice_get, IfOk, OnOk};
ghost use Rattle.ox_outside.specs.Disk.{synced_disk, after_write, after_torn, filled_bytes};
ghost use Rattle.ox_outside.specs.Disk.{image_with};
ghost use Rattle.ox_memsite.specs.Kept.{kept_at};

use crate::edits::{cover, write_at};
use std::alloc::{AllocError, Global};
use std::marker::Model;

/// A file between two syncs: what a read gives, which bytes no write has covered since the last
/// sync, and the greatest length since.
#[derive(Drop)]
pub struct Replay {
    alloc: Global,
    bytes: Vec<u8>,
    uncovered: Vec<bool>,
    longest: u128,
}

impl Model for Replay {
    ghost use Rattle.ox_outside.specs.Disk.{Disk};

    ghost Value = { Disk };

    ghost view = { λ r.
        record { seen = r.bytes.items; solid = r.uncovered.items; longest = r.longest } };
}

impl Replay {
    /// A file with these bytes, all of them on the disk.
    pub fn new(alloc: Global, bytes: &[u8]) -> Result<Replay, AllocError>
        ensures { IfOk result (λ r. r ≡ synced_disk bytes.now) }
    {
        Ok(Replay {
            alloc,
            bytes: Vec::from_slice(alloc, bytes)?,
            uncovered: Vec::from_elem(alloc, true, bytes.len())?,
            longest: bytes.len() as u128,
        })
    }

    /// A write.
    pub fn write(&mut self, at: u64, bytes: &[u8]) -> Result<(), AllocError>
        ensures { OnOk result (self.new ≡ after_write at bytes.now self.old) }
    {
        write_at(&mut self.bytes, at, bytes)?;
        self.tear(at, bytes.len() as u64);
        Ok(())
    }

    /// A write that failed.
    pub fn tear(&mut self, at: u64, length: u64)
        ensures { self.new ≡ after_torn at length self.old }
    {
        cover(&mut self.uncovered, at, length);
        self.longest = self.longest.max(at as u128 + length as u128);
    }

    /// A sync.
    pub fn sync(&mut self) -> Result<(), AllocError>
        ensures { OnOk result (self.new ≡ synced_disk self.old.seen) }
    {
        self.uncovered = Vec::from_elem(self.alloc, true, self.bytes.len())?;
        self.longest = self.bytes.len() as u128;
        Ok(())
    }

    /// What a crash leaves where each byte that it may change is `fill`, and the length is `keep`
    /// as far as it may be.
    pub fn image(&self, fill: u8, keep: u64) -> Result<Vec<u8>, AllocError>
        ensures { IfOk result (λ image. image.items ≡ image_with fill keep self.now) }
    {
        let mut image = kept_bytes(self.alloc, &self.bytes, &self.uncovered, fill)?;
        let size = (keep as u128).min(self.longest) as usize;
        let behind = size.saturating_sub(self.uncovered.len());
        append_fill(&mut image, behind, fill)?;
        Ok(image)
    }
}

/// The bytes that no write has covered since the last sync, and `fill` in the place of the others.
fn kept_bytes(
    alloc: Global,
    bytes: &[u8],
    uncovered: &[bool],
    fill: u8,
) -> Result<Vec<u8>, AllocError>
    ensures { IfOk result (λ kept. kept.items ≡ filled_bytes fill uncovered.now bytes.now) }
{
    let mut kept = Vec::with_capacity(alloc, uncovered.len())?;
    for (place, is_solid) in uncovered.iter().enumerate() {
        kept.push(kept_byte(byte_at(bytes, place), *is_solid, fill))?;
    }
    Ok(kept)
}

fn byte_at(bytes: &[u8], place: usize) -> Option<u8>
    ensures { result ≡ slice_get bytes.now place }
{
    bytes.get(place).copied()
}

fn kept_byte(byte: Option<u8>, is_solid: bool, fill: u8) -> u8
    ensures { result ≡ kept_at fill is_solid byte }
{
    match byte {
        Some(byte) if is_solid => byte,
        _ => fill,
    }
}

fn append_fill(bytes: &mut Vec<u8>, count: usize, fill: u8) -> Result<(), AllocError>
    ensures { OnOk result (bytes.new.items ≡ bytes.old.items ++ replicate count fill) }
{
    for _ in 0..count {
        bytes.push(fill)?;
    }
    Ok(())
}
