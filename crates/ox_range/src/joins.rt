//! How runs are put behind others.

ghost use Rattle.std.specs.Prelude.{◌≡◌, ◌+◌, ◌-◌, ◌^◌, ◌<◌, ◌≤◌, ◌↔◌, ◌∷◌, [], ◌++◌, length};
ghost use Rattle.std.specs.Prelude.{IsTrue, IfOk, OnOk, OnErr};
ghost use Rattle.ox_range.specs.Few.{count_in, runs_in, IsKept};
ghost use Rattle.ox_range.specs.Runs.{numbers_of, AreMaximal, AreRunsOf, run_at, GoesOn, Joins};

use crate::few::{Long, Runs};
use crate::runs::Run;
use std::alloc::{AllocError, Global};
use std::rc::Rc;
use std::slice;

/// Puts runs behind others, and joins the two that meet where one goes on with the other. No run
/// behind others, any behind none, and one behind one that it goes on with, take no memory.
pub(crate) fn append(alloc: Global, runs: &mut Runs, tail: &Runs) -> Result<(), AllocError>
    requires kept { IsKept runs.old }
    requires tail { IsKept tail.now }
    requires fits { count_in runs.old + count_in tail.now < 2 ^ 64 }
    ensures numbers { OnOk result (numbers_of (runs_in runs.new) ≡
        numbers_of (runs_in runs.old) ++ numbers_of (runs_in tail.now)) }
    ensures kept { IsKept runs.new }
    ensures err { OnErr result (runs_in runs.new ≡ runs_in runs.old) }
{
    match tail {
        Runs::Empty => Ok(()),
        Runs::One(run) => append_one(alloc, runs, *run),
        Runs::Many(long) => append_many(alloc, runs, long),
    }
}

/// Puts one run behind others, or enlarges the last of them where this goes on with it.
fn append_one(alloc: Global, runs: &mut Runs, next: Run) -> Result<(), AllocError>
    requires kept { IsKept runs.old }
    requires next { AreRunsOf (next ∷ []) next.count }
    requires fits { count_in runs.old + next.count < 2 ^ 64 }
    ensures numbers { OnOk result (numbers_of (runs_in runs.new) ≡
        numbers_of (runs_in runs.old) ++ numbers_of (next ∷ [])) }
    ensures kept { IsKept runs.new }
    ensures err { OnErr result (runs_in runs.new ≡ runs_in runs.old) }
{
    match runs {
        Runs::Empty => {
            *runs = Runs::One(next);
            Ok(())
        }
        Runs::One(run) => {
            if run.first + run.count == next.first {
                run.count += next.count;
            } else {
                let count = run.count + next.count;
                let two = Runs::from_slice(alloc, &[*run, next], count)?;
                *runs = two;
            }
            Ok(())
        }
        Runs::Many(long) => extend_own(long, slice::from_ref(&next), next.count),
    }
}

/// Puts several runs behind others. Behind none they are shared.
fn append_many(alloc: Global, runs: &mut Runs, tail: &Rc<Long>) -> Result<(), AllocError>
    requires kept { IsKept runs.old }
    requires tail { AreRunsOf tail.now.value.runs.items tail.now.value.len }
    requires several { 1 < length tail.now.value.runs.items }
    requires fits { count_in runs.old + tail.now.value.len < 2 ^ 64 }
    ensures numbers { OnOk result (numbers_of (runs_in runs.new) ≡
        numbers_of (runs_in runs.old) ++ numbers_of tail.now.value.runs.items) }
    ensures kept { IsKept runs.new }
    ensures err { OnErr result (runs_in runs.new ≡ runs_in runs.old) }
{
    match runs {
        Runs::Empty => {
            let shared = tail.clone()?;
            *runs = Runs::Many(shared);
            Ok(())
        }
        Runs::One(run) => {
            let many = run_before(alloc, *run, tail)?;
            *runs = Runs::Many(many);
            Ok(())
        }
        Runs::Many(long) => extend_own(long, tail.runs.as_slice(), tail.len),
    }
}

/// A run, and several behind it, in memory of their own.
fn run_before(alloc: Global, run: Run, tail: &Long) -> Result<Rc<Long>, AllocError>
    requires run { AreRunsOf (run ∷ []) run.count }
    requires tail { AreRunsOf tail.now.runs.items tail.now.len }
    requires several { 1 < length tail.now.runs.items }
    requires fits { run.count + tail.now.len < 2 ^ 64 }
    ensures numbers { IfOk result (λ many. numbers_of many.value.runs.items ≡
        numbers_of (run ∷ []) ++ numbers_of tail.now.runs.items) }
    ensures kept { IfOk result (λ many. AreRunsOf many.value.runs.items many.value.len) }
    ensures several { IfOk result (λ many. 1 < length many.value.runs.items) }
{
    let mut runs = Vec::with_capacity(alloc, 1 + tail.runs.len())?;
    runs.push_reserved(run);
    let mut long = Long {
        runs,
        len: run.count,
    };
    long.extend(tail.runs.as_slice(), tail.len)?;
    Ok(Rc::new(alloc, long)?)
}

/// Puts some runs, of `count` numbers, behind those of a list. They are written in place where no
/// other list shares it, and into a copy where one does.
fn extend_own(long: &mut Rc<Long>, tail: &[Run], count: u64) -> Result<(), AllocError>
    requires kept { AreRunsOf long.old.value.runs.items long.old.value.len }
    requires tail { AreRunsOf tail.now count }
    requires some { 0 < length tail.now }
    requires fits { long.old.value.len + count < 2 ^ 64 }
    ensures numbers { OnOk result (numbers_of long.new.value.runs.items ≡
        numbers_of long.old.value.runs.items ++ numbers_of tail.now) }
    ensures kept { AreRunsOf long.new.value.runs.items long.new.value.len }
    ensures length { length long.old.value.runs.items ≤ length long.new.value.runs.items }
    ensures err { OnErr result (long.new.value.runs.items ≡ long.old.value.runs.items) }
{
    let own = Rc::make_mut(long)?;
    own.extend(tail, count)
}

impl Long {
    /// Puts runs, of `count` numbers, behind these, and joins the two that meet where one goes on
    /// with the other.
    pub(crate) fn extend(&mut self, tail: &[Run], count: u64) -> Result<(), AllocError>
        requires kept { AreRunsOf self.old.runs.items self.old.len }
        requires tail { AreRunsOf tail.now count }
        requires fits { self.old.len + count < 2 ^ 64 }
        ensures numbers { OnOk result (numbers_of self.new.runs.items ≡
            numbers_of self.old.runs.items ++ numbers_of tail.now) }
        ensures kept { AreRunsOf self.new.runs.items self.new.len }
        ensures length { OnOk result (length self.old.runs.items + length tail.now
            ≤ length self.new.runs.items + 1) }
        ensures err { OnErr result (self.new.runs.items ≡ self.old.runs.items) }
        ensures same { OnErr result (self.new.len ≡ self.old.len) }
    {
        extend_runs(&mut self.runs, tail)?;
        self.len += count;
        Ok(())
    }
}

/// Puts runs behind others, and joins the two that meet where one goes on with the other.
fn extend_runs(runs: &mut Vec<Run>, tail: &[Run]) -> Result<(), AllocError>
    requires maximal { AreMaximal runs.old.items }
    requires tail { AreMaximal tail.now }
    requires fits { length (numbers_of runs.old.items) + length (numbers_of tail.now) < 2 ^ 64 }
    ensures numbers { OnOk result (
        numbers_of runs.new.items ≡ numbers_of runs.old.items ++ numbers_of tail.now) }
    ensures maximal { AreMaximal runs.new.items }
    ensures length { OnOk result (length runs.old.items + length tail.now
        ≤ length runs.new.items + 1) }
    ensures err { OnErr result (runs.new.items ≡ runs.old.items) }
{
    if goes_on(runs, tail) {
        extend_joined(runs, tail)
    } else {
        runs.extend_from_slice(tail)
    }
}

/// Puts runs behind others whose last run goes on with the first of these.
fn extend_joined(runs: &mut Vec<Run>, tail: &[Run]) -> Result<(), AllocError>
    requires meets { GoesOn runs.old.items tail.now }
    requires fits { (run_at runs.old.items (length runs.old.items - 1)).count
        + (run_at tail.now 0).count < 2 ^ 64 }
    ensures items { OnOk result (Joins runs.old.items tail.now runs.new.items) }
    ensures err { OnErr result (runs.new.items ≡ runs.old.items) }
{
    let seam = runs.len() - 1;
    runs.extend_from_slice(&tail[1..])?;
    runs[seam].count += tail[0].count;
    Ok(())
}

/// Whether the first run of `tail` goes on where the last of `runs` ends.
fn goes_on(runs: &[Run], tail: &[Run]) -> bool
    requires { AreMaximal runs.now }
    ensures { IsTrue result ↔ GoesOn runs.now tail.now }
{
    match (runs.last(), tail.first()) {
        (Some(last), Some(next)) => last.first + last.count == next.first,
        _ => false,
    }
}
