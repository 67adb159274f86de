//! Satoshis, each in one place.

ghost use Rattle.std.specs.Prelude.{◌≡◌, ◌++◌, All, IfOk};
ghost use Rattle.ox_range.specs.Runs.{numbers_of};
ghost use Rattle.ox_rules.specs.Outputs.{sats_held};
ghost use Rattle.ox_sound.specs.Amounts.{outputs_in};
ghost use Rattle.ox_sound.specs.Once.{IsRun, stand_once, tiles};

use ox_block::OutPoint;
use ox_bytes::Memory;
use ox_range::{Ranges, Run};
use ox_rules::OutRow;
use std::alloc::Global;
use std::collections::BTreeMap;

/// The runs of the outputs' satoshis, one output after another, and behind them those of the lost
/// ones. `Memory` where there is none for them.
fn runs_in(
    alloc: Global,
    outs: &BTreeMap<OutPoint, OutRow>,
    lost: &Ranges,
) -> Result<Vec<Run>, Memory>
    ensures numbers { IfOk result (λ runs.
        numbers_of runs.items ≡ sats_held (outputs_in outs.now) ++ lost.now) }
    ensures runs { IfOk result (λ runs. All IsRun runs.items) }
{
    let mut runs = Vec::new(alloc);
    for row in outs.values() {
        runs.extend_from_slice(row.sats.runs())?;
    }
    runs.extend_from_slice(lost.runs())?;
    Ok(runs)
}

/// Whether the first of these runs begins at 0, each next where the one before ends, and the last
/// ends at `end`; without runs, whether that is 0.
fn do_tile(runs: &[Run], end: u64) -> bool
    requires { All IsRun runs.now }
    ensures { result ≡ tiles 0 runs.now end }
{
    let mut next = 0;
    for run in runs {
        if run.first != next {
            return false;
        }
        next += run.count;
    }
    next == end
}

/// Whether each number below `end` is in one place, an output's list or the lost one, and no other
/// number is in any. No list of numbers is made: it costs by the runs, and by a logarithm for their
/// order. `Memory` where there is none for the runs.
pub(crate) fn are_once(
    alloc: Global,
    outs: &BTreeMap<OutPoint, OutRow>,
    lost: &Ranges,
    end: u64,
) -> Result<bool, Memory>
    ensures { IfOk result (λ once.
        once ≡ stand_once end (sats_held (outputs_in outs.now) ++ lost.now)) }
{
    let mut runs = runs_in(alloc, outs, lost)?;
    runs.sort_unstable_by_key(|run| run.first);
    Ok(do_tile(&runs, end))
}
