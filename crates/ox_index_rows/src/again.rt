//! Rows that are read and spelled again.

ghost use Rattle.ox_plain.specs.Plain.{index_in};
ghost use Rattle.ox_rows.specs.RowFits.{KeepsIndex};

use ox_bytes::{Bytes, Memory};
use ox_plain::Index;
use ox_rows::{
    RowsFault, read_change, read_index, what_fits_keeps_to_the_form, write_change, write_index,
};
use std::alloc::Global;

/// How often something is read, and how often it is spelled.
#[derive(Clone, Copy)]
pub struct Times {
    /// How often it is read.
    reads: u32,
    /// How often it is spelled.
    writes: u32,
}

impl Times {
    /// An index that is read so many times, and spelled once.
    pub fn of_reads(reads: u32) -> Times {
        Times { reads, writes: 1 }
    }

    /// An index that is read once, and spelled so many times.
    pub fn of_writes(writes: u32) -> Times {
        Times { reads: 1, writes }
    }
}

/// What was read, spelled.
#[derive(Drop)]
pub struct Again {
    /// How many bytes it took.
    pub taken: usize,
    /// How it is spelled.
    pub spelled: Bytes,
}

/// The rows of an index, which are put so many times.
fn index_rows(alloc: Global, index: &Index, times: u32) -> Result<Bytes, Memory>
    requires { KeepsIndex (index_in index.now) }
{
    for _ in 1..times {
        write_index(alloc, index)?;
    }
    write_index(alloc, index)
}

/// How many bytes were read, and how that is spelled.
fn again_of(taken: usize, spelled: Result<Bytes, Memory>) -> Result<Again, RowsFault> {
    match spelled {
        Ok(spelled) => Ok(Again { taken, spelled }),
        Err(_) => Err(RowsFault::Memory),
    }
}

/// An index is read and spelled, so many times each.
pub fn index_again(alloc: Global, bytes: &[u8], times: Times) -> Result<Again, RowsFault> {
    for _ in 1..times.reads {
        read_index(alloc, bytes)?;
    }
    let (index, taken) = read_index(alloc, bytes)?;
    what_fits_keeps_to_the_form();
    again_of(taken, index_rows(alloc, &index, times.writes))
}

/// A change is read and spelled.
pub fn change_again(alloc: Global, bytes: &[u8]) -> Result<Again, RowsFault> {
    let (change, taken) = read_change(alloc, bytes)?;
    what_fits_keeps_to_the_form();
    again_of(taken, write_change(alloc, &change))
}
