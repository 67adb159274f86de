//! How far the runs reach that begin at or below a number.

ghost use Rattle.std.specs.Prelude.{◌≡◌, ◌^◌, ◌<◌, List, IfOk, All};
ghost use Rattle.std.specs.List.{list_any};
ghost use Rattle.std.specs.List.Sorted.{IsNonDecreasingBy, IsPermutation};
ghost use Rattle.ox_range.specs.Runs.{AreMaximal, end_of};
ghost use Rattle.ox_range.specs.declared.runs.Run.{Run};
ghost use Rattle.ox_range_index.specs.Index.{Reaches, covers, reaches_from};

use ox_bytes::Memory;
use ox_range::Run;
use std::alloc::Global;

/// A run's first number, and the greatest end of the runs up to it.
#[derive(Clone, Copy, PartialEq, Eq)]
pub(crate) struct Reach {
    pub(crate) first: u64,
    pub(crate) end: u64,
}

/// The runs by rising first number.
fn sort_runs(alloc: Global, runs: &[Run]) -> Result<Vec<Run>, Memory>
    ensures moved { IfOk result (λ sorted. IsPermutation runs.now sorted.items) }
    ensures rising { IfOk result (λ sorted. IsNonDecreasingBy (λ run. run.first) sorted.items) }
{
    let mut sorted = Vec::from_slice(alloc, runs)?;
    sorted.sort_by_key(|run| run.first)?;
    Ok(sorted)
}

/// How far runs reach that stand by rising first number.
fn reaches_along(alloc: Global, sorted: &[Run]) -> Result<Vec<Reach>, Memory>
    requires { All (λ run. end_of run < 2 ^ 64) sorted.now }
    ensures { IfOk result (λ reaches. reaches.items ≡ reaches_from 0 sorted.now) }
{
    let mut reaches = Vec::with_capacity(alloc, sorted.len())?;
    let mut end = 0;
    for run in sorted {
        end = end.max(run.first + run.count);
        reaches.push(Reach {
            first: run.first,
            end,
        })?;
    }
    Ok(reaches)
}

/// How far these runs reach.
pub(crate) fn reaches_of(alloc: Global, runs: &[Run]) -> Result<Vec<Reach>, Memory>
    requires { AreMaximal runs.now }
    ensures { IfOk result (λ reaches. Reaches runs.now reaches.items) }
{
    let sorted = sort_runs(alloc, runs)?;
    reaches_along(alloc, &sorted)
}

/// Whether one of the runs that reach so far has this number.
pub(crate) fn reach_over(reaches: &[Reach], number: u64) -> bool
    ensures { (runs : List Run) → Reaches runs reaches.now
        → result ≡ list_any (covers number) runs }
{
    let count = reaches.partition_point(|reach| reach.first <= number);
    match count.checked_sub(1) {
        Some(last) => number < reaches[last].end,
        None => false,
    }
}
