//! Satoshis as runs, read and put.

ghost use Rattle.std.specs.Prelude.{◌≡◌, ◌++◌, None, IfOk, OnOk};
ghost use Rattle.std.specs.List.{flat_map};
ghost use Rattle.ox_bytes.specs.Reading.{Gives, GivesOrMemory};
ghost use Rattle.ox_block.specs.Spelling.{most_value};
ghost use Rattle.ox_rows.specs.Fits.{AreSats, FitsSats};
ghost use Rattle.ox_rows.specs.Reading.{IsRight, goes_on, is_wrong_count, run_at, runs_at};
ghost use Rattle.ox_rows.specs.Reading.{sats_at};
ghost use Rattle.ox_rows.specs.Spelling.{run, sats};

use crate::put::put_count;
use crate::readable::Readable;
use ox_bytes::{Bytes, FieldFault, Memory, ReadError, u32le_field, u64le_field};
use ox_range::{Ranges, Run};
use std::alloc::Global;

/// How many satoshis there can be: 21,000,000 coins.
const MOST_SATS: u64 = 2_100_000_000_000_000;

/// Satoshis in an order: how many runs in 4 bytes, and of each its first number and its count. No
/// run goes on where the one before ends, a count is at least 1, and neither a number nor how many
/// there are together is above what there can be. `Memory` where there is none for two runs or
/// more.
#[tactic(auto, unfolding(crate::specs::Reading::sats_at))]
pub fn sats_of(alloc: Global, bytes: &[u8]) -> Result<(Ranges, &[u8]), ReadError>
    ensures { GivesOrMemory (λ x. (x.0, x.1.now)) result (sats_at bytes.now) }
{
    let (count, rest) = u32le_field(bytes)?;
    runs_of(alloc, count, rest)
}

impl Readable for Ranges {
    ghost use Rattle.ox_rows.specs.FrontLaws.{sats_fronts};

    ghost at = { sats_at };

    fn read(alloc: Global, bytes: &[u8]) -> Result<(Ranges, &[u8]), ReadError> {
        sats_of(alloc, bytes)
    }

    ghost fronts = { sats_fronts };
}

/// That many runs.
fn runs_of(alloc: Global, count: u32, bytes: &[u8]) -> Result<(Ranges, &[u8]), ReadError>
    ensures { GivesOrMemory (λ x. (x.0, x.1.now)) result
        (runs_at most_value None count bytes.now) }
{
    let mut sats = Ranges::empty(alloc);
    let mut spare = MOST_SATS;
    let mut end = None;
    let mut rest = bytes;
    for _ in 0..count {
        let (run, after) = run_behind(spare, end, rest)?;
        sats.join(&Ranges::one(alloc, run.first, run.count)?)?;
        spare -= run.count;
        end = Some(run.first + run.count);
        rest = after;
    }
    Ok((sats, rest))
}

/// A run that doesn't go on at an end, of a spare number of satoshis at most.
#[tactic(auto, unfolding(crate::specs::Reading::run_at))]
fn run_behind(spare: u64, end: Option<u64>, bytes: &[u8]) -> Result<(Run, &[u8]), FieldFault>
    ensures read { Gives (λ x. (x.0, x.1.now)) result (run_at spare end bytes.now) }
    ensures range { IfOk result (λ x. IsRight spare x.0.first x.0.count) }
{
    let (first, rest) = u64le_field(bytes)?;
    if goes_on(end, first) {
        return Err(FieldFault { left: bytes.len() });
    }
    let (count, behind) = u64le_field(rest)?;
    if is_wrong_count(spare, first, count) {
        return Err(FieldFault { left: rest.len() });
    }
    Ok((Run { first, count }, behind))
}

/// Whether a number is the one behind a run.
fn goes_on(end: Option<u64>, first: u64) -> bool
    ensures { result ≡ goes_on end first }
{
    end == Some(first)
}

/// Whether the count of a run is 0, or brings a number or the sum above what there can be.
fn is_wrong_count(spare: u64, first: u64, count: u64) -> bool
    ensures { result ≡ is_wrong_count spare first count }
{
    count == 0 || first > MOST_SATS || count > MOST_SATS - first || spare < count
}

/// Puts satoshis: how many maximal runs in 4 bytes, and of each its first number and its count.
/// `Memory` where there is none for them, and where they are more than 4 bytes can count.
pub fn put_sats(bytes: &mut Bytes, ranges: &Ranges) -> Result<(), Memory>
    requires { AreSats ranges.now }
    ensures ok { OnOk result (bytes.new ≡ bytes.old ++ sats ranges.now) }
    ensures fits { OnOk result (FitsSats ranges.now) }
{
    let runs = ranges.runs();
    put_count(bytes, runs.len())?;
    put_runs(bytes, runs)
}

/// Puts each run, without a count.
fn put_runs(bytes: &mut Bytes, runs: &[Run]) -> Result<(), Memory>
    ensures { OnOk result (bytes.new ≡ bytes.old ++ flat_map run runs.now) }
{
    for one in runs {
        put_run(bytes, *one)?;
    }
    Ok(())
}

/// A run, spelled: its first number and its count.
fn run_bytes(one: Run) -> [u8; 16]
    ensures { result ≡ run one }
{
    let mut bytes = [0; 16];
    let (first, count) = bytes.split_at_mut(8);
    first.copy_from_slice(&one.first.to_le_bytes());
    count.copy_from_slice(&one.count.to_le_bytes());
    bytes
}

/// Puts a run, in one piece.
fn put_run(bytes: &mut Bytes, one: Run) -> Result<(), Memory>
    ensures { OnOk result (bytes.new ≡ bytes.old ++ run one) }
{
    bytes.append(&run_bytes(one))
}
