//! Satoshis that come and go, in the order of their runs.

ghost use Rattle.std.specs.Prelude.{◌≡◌, ◌++◌, ℕ, All, IfOk, IfSome, IsTrue};
ghost use Rattle.std.specs.Bool.{OnTrue};
ghost use Rattle.ox_sat.specs.Profiles.{IsProfile};
ghost use Rattle.ox_range.specs.Numbers.{numbers_from};
ghost use Rattle.ox_range.specs.Runs.{numbers_of};
ghost use Rattle.ox_rules.specs.Outputs.{times};
ghost use Rattle.ox_sound.specs.Keeps.{KeepsSats, sats_in};
ghost use Rattle.ox_sound.specs.Once.{IsRun};

use ox_block::OutPoint;
use ox_bytes::Memory;
use ox_model::Change;
use ox_range::{Ranges, Run};
use ox_rules::OutRow;
use ox_sat::{Profile, first, subsidy};
use std::alloc::Global;

/// The runs of rows' satoshis, one row after another, and behind them those of more. `Memory` where
/// there is none for them.
fn runs_in(alloc: Global, rows: &[(OutPoint, OutRow)], more: &Ranges) -> Result<Vec<Run>, Memory>
    ensures numbers { IfOk result (λ runs. numbers_of runs.items ≡ sats_in rows.now ++ more.now) }
    ensures runs { IfOk result (λ runs. All IsRun runs.items) }
{
    let mut runs = Vec::new(alloc);
    for (_, row) in rows {
        runs.extend_from_slice(row.sats.runs())?;
    }
    runs.extend_from_slice(more.runs())?;
    Ok(runs)
}

/// Puts a run behind a list. `false` where that would have more numbers than a `u64` counts.
/// `Memory` where there is none for it.
fn put_behind(alloc: Global, list: &mut Ranges, run: &Run) -> Result<bool, Memory>
    requires { IsRun run.now }
    ensures { IfOk result (λ is. IsTrue is
        → list.new ≡ list.old ++ numbers_from run.now.first run.now.count) }
{
    let Some(_total) = list.len().checked_add(run.count) else {
        return Ok(false);
    };
    let numbers = Ranges::one(alloc, run.first, run.count)?;
    list.join(&numbers)?;
    Ok(true)
}

/// The numbers of runs as one list, if a `u64` counts them. `Memory` where there is none for it.
fn joined(alloc: Global, runs: &[Run]) -> Result<Option<Ranges>, Memory>
    requires { All IsRun runs.now }
    ensures { IfOk result (λ found. IfSome found (λ list. list ≡ numbers_of runs.now)) }
{
    let mut list = Ranges::empty(alloc);
    for run in runs {
        if !put_behind(alloc, &mut list, run)? {
            return Ok(None);
        }
    }
    Ok(Some(list))
}

/// The satoshis of rows and more, in the order of their runs, if a `u64` counts them. `Memory`
/// where there is none for them.
fn in_order(
    alloc: Global,
    rows: &[(OutPoint, OutRow)],
    more: &Ranges,
) -> Result<Option<Ranges>, Memory>
    ensures { IfOk result (λ found. IfSome found (λ list.
        (sat : ℕ) → times sat list ≡ times sat (sats_in rows.now ++ more.now))) }
{
    let mut runs = runs_in(alloc, rows, more)?;
    runs.sort_unstable_by_key(|run| run.first);
    joined(alloc, &runs)
}

/// Whether two lists of satoshis are the same. It costs by their runs.
fn are_same(sats: &Ranges, others: &Ranges) -> bool
    ensures { IsTrue result → sats.now ≡ others.now }
{
    sats.runs() == others.runs()
}

/// Whether the satoshis that come and those that are lost are those that are gone and the new
/// height's. `Memory` where there is none for their runs.
pub(crate) fn do_sats_keep(
    alloc: Global,
    p: &Profile,
    height: u64,
    change: &Change,
) -> Result<bool, Memory>
    requires { IsProfile p.now }
    ensures { IfOk result (λ keep. IsTrue keep → KeepsSats p.now height change.now) }
{
    let Some(came) = in_order(alloc, change.came.as_slice(), &change.lost)? else {
        return Ok(false);
    };
    let new = Ranges::one(alloc, first(p, height), subsidy(p, height))?;
    let Some(gone) = in_order(alloc, change.gone.as_slice(), &new)? else {
        return Ok(false);
    };
    Ok(are_same(&came, &gone))
}
