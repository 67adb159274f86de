//! How the numbers of runs are cut at a place.

ghost use Rattle.std.specs.Prelude.{◌≡◌, ◌+◌, ◌^◌, ◌<◌, ◌≤◌, ◌∷◌, [], ◌++◌, length};
ghost use Rattle.std.specs.Prelude.{take, drop, IfOk, OnOk, OnErr};
ghost use Rattle.ox_range.specs.Few.{count_in, runs_in, IsKept};
ghost use Rattle.ox_range.specs.Runs.{numbers_of, AreMaximal, AreRunsOf};
ghost use Rattle.ox_range.specs.Runs.{run_at, end_of, front_of, rest_of};

use crate::few::{Long, Runs};
use crate::runs::Run;
use std::alloc::{AllocError, Global};
use std::mem;
use std::rc::Rc;

/// Keeps the runs of the numbers before this place, and gives those of the others. Of one run, and
/// at the end of several, it takes no memory.
pub(crate) fn split(alloc: Global, runs: &mut Runs, place: u64) -> Result<Runs, AllocError>
    requires kept { IsKept runs.old }
    requires within { place ≤ count_in runs.old }
    ensures front { OnOk result (
        numbers_of (runs_in runs.new) ≡ take place (numbers_of (runs_in runs.old))) }
    ensures rest { IfOk result (λ rest.
        numbers_of (runs_in rest) ≡ drop place (numbers_of (runs_in runs.old))) }
    ensures kept { IsKept runs.new }
    ensures rest_kept { IfOk result IsKept }
    ensures err { OnErr result (runs_in runs.new ≡ runs_in runs.old) }
{
    if place == runs.len() {
        return Ok(Runs::Empty);
    }
    if place == 0 {
        return take_all(alloc, runs);
    }
    match runs {
        Runs::Empty => Ok(Runs::Empty),
        Runs::One(run) => {
            let Run { first, count } = *run;
            *runs = Runs::from_numbers(first, place);
            Ok(Runs::from_numbers(first + place, count - place))
        }
        Runs::Many(long) => {
            let rest = split_own(alloc, long, place)?;
            runs.settle();
            Ok(rest)
        }
    }
}

/// Takes all runs out. They are moved, or copied where memory would be left over that was taken for
/// others.
fn take_all(alloc: Global, runs: &mut Runs) -> Result<Runs, AllocError>
    requires { IsKept runs.old }
    ensures none { OnOk result (runs_in runs.new ≡ []) }
    ensures all { IfOk result (λ all. runs_in all ≡ runs_in runs.old) }
    ensures kept { IsKept runs.new }
    ensures all_kept { IfOk result IsKept }
    ensures err { OnErr result (runs_in runs.new ≡ runs_in runs.old) }
{
    if runs.is_snug() {
        return Ok(mem::replace(runs, Runs::Empty));
    }
    let all = Runs::from_slice(alloc, runs.as_slice(), runs.len())?;
    *runs = Runs::Empty;
    Ok(all)
}

/// Keeps the runs of the numbers before this place, and gives those of the others. The list is cut
/// in place where no other shares it, and a copy of it where one does.
fn split_own(alloc: Global, long: &mut Rc<Long>, place: u64) -> Result<Runs, AllocError>
    requires kept { AreRunsOf long.old.value.runs.items long.old.value.len }
    requires within { place ≤ long.old.value.len }
    ensures front { OnOk result (numbers_of long.new.value.runs.items ≡
        take place (numbers_of long.old.value.runs.items)) }
    ensures rest { IfOk result (λ rest.
        numbers_of (runs_in rest) ≡ drop place (numbers_of long.old.value.runs.items)) }
    ensures kept { AreRunsOf long.new.value.runs.items long.new.value.len }
    ensures rest_kept { IfOk result IsKept }
    ensures err { OnErr result (long.new.value.runs.items ≡ long.old.value.runs.items) }
{
    let own = Rc::make_mut(long)?;
    own.split_off(alloc, place)
}

impl Long {
    /// Keeps the runs of the numbers before this place, and gives those of the others.
    fn split_off(&mut self, alloc: Global, place: u64) -> Result<Runs, AllocError>
        requires kept { AreRunsOf self.old.runs.items self.old.len }
        requires within { place ≤ self.old.len }
        ensures front { OnOk result (
            numbers_of self.new.runs.items ≡ take place (numbers_of self.old.runs.items)) }
        ensures rest { IfOk result (λ rest.
            numbers_of (runs_in rest) ≡ drop place (numbers_of self.old.runs.items)) }
        ensures kept { AreRunsOf self.new.runs.items self.new.len }
        ensures rest_kept { IfOk result IsKept }
        ensures err { OnErr result (self.new.runs.items ≡ self.old.runs.items) }
    {
        let rest = split_many(alloc, &mut self.runs, self.len, place)?;
        self.len = place;
        Ok(rest)
    }

    /// Keeps the runs of the numbers before this place. It takes no memory.
    pub(crate) fn truncate(&mut self, place: u64)
        requires kept { AreRunsOf self.old.runs.items self.old.len }
        requires within { place ≤ self.old.len }
        ensures front { numbers_of self.new.runs.items ≡
            take place (numbers_of self.old.runs.items) }
        ensures kept { AreRunsOf self.new.runs.items self.new.len }
    {
        shorten(&mut self.runs, self.len, place);
        self.len = place;
    }
}

/// Keeps the runs of the numbers before this place, and gives those of the others.
fn split_many(alloc: Global, runs: &mut Vec<Run>, len: u64, place: u64) -> Result<Runs, AllocError>
    requires kept { AreRunsOf runs.old.items len }
    requires within { place ≤ len }
    ensures front { OnOk result (
        numbers_of runs.new.items ≡ take place (numbers_of runs.old.items)) }
    ensures rest { IfOk result (λ rest.
        numbers_of (runs_in rest) ≡ drop place (numbers_of runs.old.items)) }
    ensures front_maximal { AreMaximal runs.new.items }
    ensures rest_kept { IfOk result IsKept }
    ensures err { OnErr result (runs.new.items ≡ runs.old.items) }
{
    let (index, before) = cut_at(runs, len, place);
    let count = len - place;
    if before < place {
        split_within(alloc, runs, index, place - before, count)
    } else {
        split_between(alloc, runs, index, count)
    }
}

/// Keeps the runs of the numbers before this place.
fn shorten(runs: &mut Vec<Run>, len: u64, place: u64)
    requires maximal { AreMaximal runs.old.items }
    requires len { length (numbers_of runs.old.items) ≡ len }
    requires within { place ≤ len }
    ensures front { numbers_of runs.new.items ≡ take place (numbers_of runs.old.items) }
    ensures maximal { AreMaximal runs.new.items }
{
    let (index, before) = cut_at(runs, len, place);
    if before < place {
        cut_within(runs, index, place - before);
    } else {
        runs.truncate(index);
    }
}

/// Where the numbers of the runs are cut: the index of the run in which the place stands, and how
/// many numbers stand before that run. It is sought from the end, so it costs by the runs behind
/// it.
fn cut_at(runs: &[Run], len: u64, place: u64) -> (usize, u64)
    requires maximal { AreMaximal runs.now }
    requires len { length (numbers_of runs.now) ≡ len }
    requires within { place ≤ len }
    ensures index { result.0 ≤ length runs.now }
    ensures before { length (numbers_of (take result.0 runs.now)) ≡ result.1 }
    ensures from { result.1 ≤ place }
    ensures inside { result.1 < place →
        (result.0 < length runs.now) × (place < result.1 + (run_at runs.now result.0).count) }
{
    let mut index = runs.len();
    let mut before = len;
    while before > place {
        index -= 1;
        before -= runs[index].count;
    }
    (index, before)
}

/// Keeps the runs before this index, and so many numbers of the run at it.
fn cut_within(runs: &mut Vec<Run>, index: usize, keep: u64)
    requires { index < length runs.old.items }
    ensures { runs.new.items ≡
        take index runs.old.items ++ front_of keep (run_at runs.old.items index) ∷ [] }
{
    runs[index].count = keep;
    runs.truncate(index + 1);
}

/// Takes the runs from this index on out of the list. They have `count` numbers.
fn split_between(
    alloc: Global,
    runs: &mut Vec<Run>,
    index: usize,
    count: u64,
) -> Result<Runs, AllocError>
    requires index { index ≤ length runs.old.items }
    requires rest { AreRunsOf (drop index runs.old.items) count }
    ensures front { OnOk result (runs.new.items ≡ take index runs.old.items) }
    ensures rest { IfOk result (λ rest. runs_in rest ≡ drop index runs.old.items) }
    ensures kept { IfOk result IsKept }
    ensures err { OnErr result (runs.new.items ≡ runs.old.items) }
{
    let rest = Runs::from_slice(alloc, &runs[index..], count)?;
    runs.truncate(index);
    Ok(rest)
}

/// Cuts the run at this index, keeps so many of its numbers, and takes what is behind out of the
/// list, which has `count` numbers.
fn split_within(
    alloc: Global,
    runs: &mut Vec<Run>,
    index: usize,
    keep: u64,
    count: u64,
) -> Result<Runs, AllocError>
    requires index { index < length runs.old.items }
    requires keep { keep < (run_at runs.old.items index).count }
    requires fits { end_of (run_at runs.old.items index) < 2 ^ 64 }
    requires rest { AreRunsOf
        (rest_of keep (run_at runs.old.items index) ∷ drop (index + 1) runs.old.items) count }
    ensures front { OnOk result (runs.new.items ≡
        take index runs.old.items ++ front_of keep (run_at runs.old.items index) ∷ []) }
    ensures rest { IfOk result (λ rest. runs_in rest ≡
        rest_of keep (run_at runs.old.items index) ∷ drop (index + 1) runs.old.items) }
    ensures kept { IfOk result IsKept }
    ensures err { OnErr result (runs.new.items ≡ runs.old.items) }
{
    let run = runs[index];
    let first = Run {
        first: run.first + keep,
        count: run.count - keep,
    };
    let rest = run_in_front(alloc, first, &runs[index + 1..], count)?;
    cut_within(runs, index, keep);
    Ok(rest)
}

/// A run, and others behind it, which have `count` numbers together. Alone it takes no memory.
fn run_in_front(alloc: Global, run: Run, behind: &[Run], count: u64) -> Result<Runs, AllocError>
    requires { AreRunsOf (run ∷ behind.now) count }
    ensures same { IfOk result (λ runs. runs_in runs ≡ run ∷ behind.now) }
    ensures kept { IfOk result IsKept }
{
    if behind.is_empty() {
        return Ok(Runs::One(run));
    }
    let mut runs = Vec::with_capacity(alloc, 1 + behind.len())?;
    runs.push_reserved(run);
    runs.extend_from_slice(behind)?;
    Ok(Runs::Many(Rc::new(alloc, Long { runs, len: count })?))
}
