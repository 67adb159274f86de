//! How many numbers stand before each run.

ghost use Rattle.std.specs.Prelude.{◌≡◌, ◌+◌, ◌^◌, ◌<◌, ◌≤◌, length, slice_index, IfOk};
ghost use Rattle.ox_range.specs.Runs.{numbers_of};
ghost use Rattle.ox_range_index.specs.Index.{counts_from};

use ox_bytes::Memory;
use ox_range::Run;
use std::alloc::Global;

/// How many numbers stand before each of these runs.
pub(crate) fn counts_of(alloc: Global, runs: &[Run]) -> Result<Vec<u64>, Memory>
    requires { length (numbers_of runs.now) < 2 ^ 64 }
    ensures { IfOk result (λ counts. counts.items ≡ counts_from 0 runs.now) }
{
    let mut counts = Vec::with_capacity(alloc, runs.len())?;
    let mut before = 0;
    for run in runs {
        counts.push(before)?;
        before += run.count;
    }
    Ok(counts)
}

/// The last of the runs before which at most so many numbers stand, by how many stand before each.
pub(crate) fn run_at(counts: &[u64], place: u64) -> usize
    requires some { 0 < length counts.now }
    requires first { slice_index counts.now 0 ≤ place }
    ensures within { result < length counts.now }
    ensures before { slice_index counts.now result ≤ place }
    ensures behind { result + 1 < length counts.now → place < slice_index counts.now (result + 1) }
{
    let mut low = 0;
    let mut high = counts.len();
    while high - low > 1 {
        let middle = low + (high - low) / 2;
        if counts[middle] <= place {
            low = middle;
        } else {
            high = middle;
        }
    }
    low
}
