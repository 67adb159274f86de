//! The index over a list's runs.

ghost use Rattle.std.specs.Prelude.{◌≡◌, ◌==◌, ◌^◌, ◌<◌, length, slice_get, slice_index, IfOk};
ghost use Rattle.std.specs.List.{list_any};
ghost use Rattle.std.specs.Option.{ForSome};
ghost use Rattle.ox_range.specs.Runs.{numbers_of, AreMaximal};
ghost use Rattle.ox_range_index.specs.Index.{counts_from, AreTablesOf};

use crate::counts::{counts_of, run_at};
use crate::reaches::{Reach, reach_over, reaches_of};
use ox_bytes::Memory;
use ox_range::{Ranges, Run};
use std::alloc::Global;
use std::marker::Model;

/// What a list of several runs is looked up by.
#[derive(Drop)]
struct Tables {
    /// How many satoshis stand before each run.
    counts: Vec<u64>,
    reaches: Vec<Reach>,
}

/// A list of satoshis, with what it is looked up by. Contracts see the list. It may hold a satoshi
/// twice.
#[derive(Drop)]
pub struct RangeIndex<'a> {
    ranges: &'a Ranges,
    len: u64,
    /// `None` where there is at most one run, which is looked at itself.
    tables: Option<Tables>,
}

impl<'a> Model for RangeIndex<'a> {
    ghost use Rattle.std.specs.Prelude.{ℕ, List};
    ghost use Rattle.ox_range_index.specs.Index.{IsIndexOf};

    ghost Value = { List ℕ };

    ghost view = { λ index. index.ranges.now };

    ghost invariant = { λ index. IsIndexOf index.ranges.now index.len index.tables };
}

/// What these runs are looked up by, if they are several.
fn tables_of(alloc: Global, runs: &[Run]) -> Result<Option<Tables>, Memory>
    requires maximal { AreMaximal runs.now }
    requires fits { length (numbers_of runs.now) < 2 ^ 64 }
    ensures { IfOk result (λ tables. ForSome tables (AreTablesOf runs.now)) }
{
    if runs.len() < 2 {
        return Ok(None);
    }
    let counts = counts_of(alloc, runs)?;
    let reaches = reaches_of(alloc, runs)?;
    Ok(Some(Tables { counts, reaches }))
}

/// The satoshi at a place of a list that has these runs, by how many satoshis stand before each.
fn satoshi_at(runs: &[Run], counts: &[u64], place: u64) -> u64
    requires maximal { AreMaximal runs.now }
    requires counted { counts.now ≡ counts_from 0 runs.now }
    requires within { place < length (numbers_of runs.now) }
    ensures { result ≡ slice_index (numbers_of runs.now) place }
{
    let run = run_at(counts, place);
    runs[run].first + (place - counts[run])
}

impl<'a> RangeIndex<'a> {
    /// The list, to be looked up in. It costs by its runs, which it sorts where they are several:
    /// one run takes no memory. `Memory` where there is none for it.
    pub fn new(alloc: Global, ranges: &'a Ranges) -> Result<RangeIndex<'a>, Memory>
        ensures { IfOk result (λ index. index ≡ ranges.now) }
    {
        let len = ranges.len();
        let tables = tables_of(alloc, ranges.runs())?;
        Ok(RangeIndex {
            ranges,
            len,
            tables,
        })
    }

    /// The satoshi at a place, from 0 on. `None` where the list is no longer than that. It costs
    /// by the logarithm of the runs.
    pub fn get(&self, place: u64) -> Option<u64>
        ensures { result ≡ slice_get self.now place }
    {
        if place >= self.len {
            return None;
        }
        match &self.tables {
            None => Some(self.ranges.at(place)),
            Some(tables) => Some(satoshi_at(self.ranges.runs(), &tables.counts, place)),
        }
    }

    /// Whether this satoshi is in the list. It costs by the logarithm of the runs.
    pub fn contains(&self, sat: u64) -> bool
        ensures { result ≡ list_any (λ s. s == sat) self.now }
    {
        match &self.tables {
            None => self.ranges.place_of(sat).is_some(),
            Some(tables) => reach_over(&tables.reaches, sat),
        }
    }
}
