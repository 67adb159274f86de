//! Lost satoshis, put from where they are in memory.

ghost use Rattle.std.specs.Prelude.{◌≡◌, ◌==◌, ◌+◌, ◌<◌, ◌≤◌, ◌++◌, ℕ, List, length, take};
ghost use Rattle.std.specs.Prelude.{OnOk, IfErr, None, Some, if◌then◌else◌, option_to_list};
ghost use Rattle.std.specs.List.{flat_map};
ghost use Rattle.ox_range.specs.Runs.{front_of, numbers_of, run_at, runs_of};
ghost use Rattle.ox_index.specs.Live.{index_in};
ghost use Rattle.ox_rows.specs.Fits.{AreSats, FitsSats};
ghost use Rattle.ox_rows.specs.Spelling.{run, sats};
ghost use Rattle.ox_checkpoint.specs.Putting.{Ended, Puts};

use super::buffer::{Buffer, PutFault, Rows, put_rows};
use ox_bytes::{Bytes, Memory, put_u64le};
use ox_gated::Sink;
use ox_index::Live;
use ox_range::{Growing, Run};
use ox_rows::put_count;

/// Puts the satoshis that no output holds any more, in the order in which they were lost.
pub(super) fn put_lost<W, K: Sink<W>>(
    sink: &mut K,
    world: &mut W,
    buffer: &mut Buffer,
    live: &Live,
) -> Result<(), PutFault<K::Fault>>
    requires taken { (bytes : List ℕ) × K.holds sink.old world.old bytes }
    requires sats { AreSats (index_in live.now).lost }
    ensures put { OnOk result
        (Puts K.holds K.went (sats (index_in live.now).lost)
        sink.old world.old buffer.old.rows sink.new world.new buffer.new.rows) }
    ensures fits { OnOk result (FitsSats (index_in live.now).lost) }
    ensures ended { IfErr result (λ fault.
        Ended K.went K.ended sink.old world.old fault sink.new world.new) }
{
    let (lost, count) = live.lost_sats();
    put_first(sink, world, buffer, lost, count)
}

/// Puts the first of some satoshis, so many: how many maximal runs these have, in 4 bytes, and of
/// each its first number and its count.
fn put_first<W, K: Sink<W>>(
    sink: &mut K,
    world: &mut W,
    buffer: &mut Buffer,
    ranges: &Growing,
    count: u64,
) -> Result<(), PutFault<K::Fault>>
    requires taken { (bytes : List ℕ) × K.holds sink.old world.old bytes }
    requires within { count ≤ length ranges.now }
    requires sats { AreSats (take count ranges.now) }
    ensures put { OnOk result
        (Puts K.holds K.went (sats (take count ranges.now))
        sink.old world.old buffer.old.rows sink.new world.new buffer.new.rows) }
    ensures fits { OnOk result (FitsSats (take count ranges.now)) }
    ensures ended { IfErr result (λ fault.
        Ended K.went K.ended sink.old world.old fault sink.new world.new) }
{
    let (whole, part) = first_runs(ranges, count);
    put_count(&mut buffer.rows, count_of(whole, &part))?;
    put_rows(sink, world, buffer, &Runs(whole))?;
    put_part(&mut buffer.rows, part)?;
    Ok(())
}

/// How many runs these are.
fn count_of(whole: &[Run], part: &Option<Run>) -> usize
    ensures { result ≡ length (whole.now ++ option_to_list part.now) }
{
    match part {
        Some(_) => whole.len() + 1,
        None => whole.len(),
    }
}

/// Maximal runs.
#[derive(Drop)]
struct Runs<'a>(&'a [Run]);

impl<'a> Rows for Runs<'a> {
    ghost use Rattle.ox_range.specs.declared.runs.Run.{Run};
    ghost use Rattle.ox_rows.specs.Spelling.{run};

    ghost Item = { Run };

    ghost items = { λ s. s.0.now };

    ghost spelling = { λ s one. run one };

    ghost fits = { λ s one. Unit {0} };

    ghost keeps = { λ s. Unit {0} };

    fn len(&self) -> usize {
        self.0.len()
    }

    fn put_row(&self, n: usize, bytes: &mut Bytes) -> Result<(), Memory> {
        match self.0.get(n) {
            Some(one) => put_run(bytes, *one),
            None => Ok(()),
        }
    }
}

/// Puts a run: its first number and its count.
fn put_run(bytes: &mut Bytes, one: Run) -> Result<(), Memory>
    ensures { OnOk result (bytes.new ≡ bytes.old ++ run one) }
{
    put_u64le(bytes, one.first)?;
    put_u64le(bytes, one.count)
}

/// Puts a run, if there is one.
fn put_part(bytes: &mut Bytes, part: Option<Run>) -> Result<(), Memory>
    ensures { OnOk result (bytes.new ≡ bytes.old ++ flat_map run (option_to_list part)) }
{
    match part {
        Some(one) => put_run(bytes, one),
        None => Ok(()),
    }
}

/// The maximal runs of the first of some satoshis, so many: those that are there whole, and what is
/// there of the one behind, if anything is.
fn first_runs(ranges: &Growing, count: u64) -> (&[Run], Option<Run>)
    requires { count ≤ length ranges.now }
    ensures { result.0.now ++ option_to_list result.1 ≡ runs_of (take count ranges.now) }
{
    let runs = ranges.runs();
    let (whole, left) = cut_at(runs, count);
    (&runs[..whole], part_at(runs, whole, left))
}

/// The first numbers of the run at an index, so many, if they are any.
fn part_at(runs: &[Run], index: usize, count: u64) -> Option<Run>
    requires { 0 < count → index < length runs.now }
    ensures { result
        ≡ (if count == 0 then None else Some (front_of count (run_at runs.now index))) }
{
    if count == 0 {
        return None;
    }
    Some(Run {
        first: runs[index].first,
        count,
    })
}

/// Where so many numbers of runs end: how many runs are there whole, and how many numbers of the
/// next.
fn cut_at(runs: &[Run], count: u64) -> (usize, u64)
    requires { count ≤ length (numbers_of runs.now) }
    ensures whole { result.0 ≤ length runs.now }
    ensures left { length (numbers_of (take result.0 runs.now)) + result.1 ≡ count }
    ensures part { 0 < result.1
        → (result.0 < length runs.now) × (result.1 < (run_at runs.now result.0).count) }
{
    let mut whole = 0;
    let mut left = count;
    for run in runs {
        if left < run.count {
            return (whole, left);
        }
        left -= run.count;
        whole += 1;
    }
    (whole, left)
}
