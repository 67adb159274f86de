//! The inscriptions on some satoshis, by sequence.

ghost use Rattle.std.specs.Prelude.{◌≡◌, ℕ, ◌<◌, ◌≤◌, ◌+◌, ◌^◌, ◌++◌, [], All, length, IfSome};
ghost use Rattle.std.specs.Prelude.{MatchOption, OnOk};
ghost use Rattle.std.specs.List.{flat_map};
ghost use Rattle.std.specs.List.Sorted.{IsStrictlySortedBy};
ghost use Rattle.std.specs.Ordering.{nat_cmp};
ghost use Rattle.ox_inscribe.specs.Inscriptions.{on};
ghost use Rattle.ox_inscribe.specs.Numbers.{IsFirstOn, is_among};
ghost use Rattle.ox_range.specs.Runs.{AreMaximal, end_of, numbers_of};
ghost use Rattle.ox_replies.specs.Walk.{on_between};

use ox_bytes::{List, Memory};
use ox_model::View;
use ox_range::Run;

/// The next satoshi from a number up, and below another, that bears inscriptions, and the sequences
/// of these, rising; `None` exactly where there is none.
pub fn next_between<V: View>(live: &V, from: u64, end: u64) -> Option<(u64, &[u32])>
    ensures told { MatchOption result (on_between (V.index live.now).inscriptions from end ≡ [])
        (λ next. on_between (V.index live.now).inscriptions from end
        ≡ next.1.now ++ on_between (V.index live.now).inscriptions (next.0 + 1) end) }
    ensures first { IfSome result
        (λ next. IsFirstOn (V.index live.now).inscriptions from (next.0, next.1.now)) }
    ensures between { IfSome result (λ next. (from ≤ next.0) × (next.0 < end)) }
    ensures there { IfSome result
        (λ next. All (λ n. n < length (V.index live.now).inscriptions) next.1.now) }
{
    match live.next_on(from) {
        Some((sat, numbers)) if sat < end => Some((sat, numbers)),
        _ => None,
    }
}

/// Appends the sequences of the inscriptions on a run of satoshis, satoshi by satoshi. `Memory`
/// where there is none for them.
fn append_on_run<V: View>(found: &mut Vec<u32>, live: &V, run: &Run) -> Result<(), Memory>
    requires { run.now.first + run.now.count < 2 ^ 64 }
    ensures { OnOk result (found.new.items ≡ found.old.items
        ++ on_between (V.index live.now).inscriptions run.now.first (end_of run.now)) }
{
    let end = run.first + run.count;
    let mut from = run.first;
    while let Some((sat, numbers)) = next_between(live, from, end) {
        found.extend_from_slice(numbers)?;
        from = sat + 1;
    }
    Ok(())
}

/// Appends the sequences of the inscriptions on the satoshis of these runs, satoshi by satoshi.
/// `Memory` where there is none for them.
pub(crate) fn append_on<V: View>(found: &mut Vec<u32>, live: &V, runs: &[Run]) -> Result<(), Memory>
    requires { AreMaximal runs.now }
    ensures { OnOk result (found.new.items ≡ found.old.items
        ++ flat_map (on (V.index live.now).inscriptions) (numbers_of runs.now)) }
{
    for run in runs {
        append_on_run(found, live, run)?;
    }
    Ok(())
}

/// These numbers, each once and rising.
pub(crate) fn rising(numbers: Vec<u32>) -> List<u32>
    ensures rising { IsStrictlySortedBy nat_cmp result }
    ensures same { (n : ℕ) → is_among n result ≡ is_among n numbers.items }
{
    let mut numbers = numbers;
    numbers.sort_unstable();
    numbers.dedup();
    List::from_vec(numbers)
}
