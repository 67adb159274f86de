//! The runes of which something was counted since.

ghost use Rattle.std.specs.Prelude.{◌≡◌, ◌≤◌, ◌||◌, ◌∷◌, [], IfOk, OnOk, ℕ, is_some, length};
ghost use Rattle.std.specs.Prelude.{nat_lt, not, Option};
ghost use Rattle.std.specs.BTreeMap as maps;
ghost use Rattle.std.specs.Option.{option_or};
ghost use Rattle.std.specs.Ordering.{nat_cmp};
ghost use Rattle.ox_ledger.specs.Part.{with_counts};
ghost use Rattle.ox_ledger.specs.declared.part.Counts.{Counts as Counted};
ghost use Rattle.ox_asof.specs.Past.{AreRecounted, counted_before, counted_by};

use crate::undone::Undone;
use ox_bytes::Memory;
use ox_ledger::{CountChange, Counts};
use ox_model::{RuneRow, View};
use std::alloc::Global;
use std::collections::BTreeMap;

/// Rows of runes by their numbers.
pub(crate) type Rows = BTreeMap<u32, RuneRow>;

/// A rune with other counts.
fn with_counts(row: &RuneRow, counts: Counts) -> RuneRow
    ensures { result ≡ with_counts row.now counts }
{
    RuneRow {
        mints: counts.mints,
        burned: counts.burned,
        ..*row
    }
}

/// Whether no row is to be kept of the rune at a place: it isn't below an end, or one is kept.
fn is_done(rows: &Rows, place: u32, end: u32) -> bool
    ensures { result ≡ (not (nat_lt place end) || is_some (maps.get nat_cmp rows.now place)) }
{
    place >= end || rows.contains_key(&place)
}

/// Keeps the row of the rune that a change of counts names, with the counts before it, if that rune
/// is below an end, and none is kept of it yet. `Memory` where there is none for it.
fn keep_one<V: View>(
    view: &V,
    end: u32,
    change: &CountChange,
    rows: &mut Rows,
) -> Result<(), Memory>
    requires { end ≤ length (V.index view.now).runes }
    ensures { OnOk result ((counts : ℕ → Option Counted)
        → AreRecounted (V.index view.now).runes end counts (maps.get nat_cmp rows.old)
        → AreRecounted (V.index view.now).runes end
        (λ place. option_or (counts place) (counted_before (change.now ∷ []) place))
        (maps.get nat_cmp rows.new)) }
{
    if is_done(rows, change.place, end) {
        return Ok(());
    }
    let row = with_counts(view.rune(change.place), change.before);
    rows.insert(change.place, row)?;
    Ok(())
}

/// Keeps the rows of the runes that these changes of counts name, so that the first one counts.
/// `Memory` where there is none for them.
fn keep_first<V: View>(
    view: &V,
    end: u32,
    changes: &[CountChange],
    rows: &mut Rows,
) -> Result<(), Memory>
    requires { end ≤ length (V.index view.now).runes }
    ensures { OnOk result ((counts : ℕ → Option Counted)
        → AreRecounted (V.index view.now).runes end counts (maps.get nat_cmp rows.old)
        → AreRecounted (V.index view.now).runes end
        (λ place. option_or (counts place) (counted_before changes.now place))
        (maps.get nat_cmp rows.new)) }
{
    for change in changes {
        keep_one(view, end, change, rows)?;
    }
    Ok(())
}

/// The rows, below an end, of runes whose counts undone changes name, with those before the oldest
/// of these. It costs by the changes' counts. `Memory` where there is none for the rows.
pub(crate) fn recounted<V: View>(
    alloc: Global,
    view: &V,
    end: u32,
    undone: &Undone<'_>,
) -> Result<Rows, Memory>
    requires { end ≤ length (V.index view.now).runes }
    ensures { IfOk result (λ rows. AreRecounted (V.index view.now).runes end
        (counted_by undone.now) (maps.get nat_cmp rows)) }
{
    let mut rows = BTreeMap::new(alloc);
    for place in (0..undone.len()).rev() {
        let change = undone.at(place);
        keep_first(view, end, change.runes.counts.as_slice(), &mut rows)?;
    }
    Ok(rows)
}
