//! What is counted of runes, before changes and after them.

ghost use Rattle.std.specs.Prelude.{◌≡◌, ◌&&◌, not, slice_get, slice_set, IfNone};
ghost use Rattle.std.specs.Option.{IfSome};
ghost use Rattle.std.specs.List.{list_all};
ghost use Rattle.ox_ledger.specs.Part.{counts_at, rows_at_end, with_counts};
ghost use Rattle.ox_plain.specs.Ends.{counts_stand, has_counts, places_rise};
ghost use Rattle.ox_plain.specs.Same.{same_counts};

use ox_bytes::List;
use ox_etching::RuneRow;
use ox_ledger::{CountChange, Counts};
use std::alloc::Global;
use std::mem;

/// Whether what is counted of runes is what stands before changes, or after them.
pub(crate) fn counts_stand(runes: &[RuneRow], changes: &[CountChange], before: bool) -> bool
    ensures { result ≡ counts_stand (counts_at before) runes.now changes.now }
{
    places_rise(changes) && all_stand(runes, changes, before)
}

/// Whether the places of changes rise.
fn places_rise(changes: &[CountChange]) -> bool
    ensures { result ≡ places_rise 0 changes.now }
{
    let mut from = 0;
    for change in changes {
        if u64::from(change.place) < from {
            return false;
        }
        from = u64::from(change.place) + 1;
    }
    true
}

/// Whether each change stands before it, or after it, and changes something.
fn all_stand(runes: &[RuneRow], changes: &[CountChange], before: bool) -> bool
    ensures { result ≡ list_all
        (λ change. has_counts (slice_get runes.now change.place) (counts_at before change)
        && not (same_counts change.before change.after)) changes.now }
{
    for change in changes {
        if !has_counts(runes, change.place, counts_at(change, before))
            || change.before == change.after
        {
            return false;
        }
    }
    true
}

/// Whether there is a rune at a place, and this is counted of it.
fn has_counts(runes: &[RuneRow], place: u32, counts: Counts) -> bool
    ensures { result ≡ has_counts (slice_get runes.now place) counts }
{
    match runes.get(place as usize) {
        Some(row) => row.mints == counts.mints && row.burned == counts.burned,
        None => false,
    }
}

/// What is counted before a change, or after it.
fn counts_at(change: &CountChange, before: bool) -> Counts
    ensures { result ≡ counts_at before change.now }
{
    if before { change.before } else { change.after }
}

/// Puts what is counted before changes, or after them.
pub(crate) fn recount_all(
    alloc: Global,
    runes: &mut List<RuneRow>,
    changes: &[CountChange],
    before: bool,
)
    ensures { runes.new ≡ rows_at_end (counts_at before) changes.now 0 runes.old }
{
    let mut rows = mem::replace(runes, List::new(alloc)).into_vec();
    for change in changes.iter().rev() {
        recount(&mut rows, change.place, counts_at(change, before));
    }
    *runes = List::from_vec(rows);
}

/// Puts other counts of the rune at a place, if there is one.
fn recount(rows: &mut Vec<RuneRow>, place: u32, counts: Counts)
    ensures there { IfSome (slice_get rows.old.items place)
        (λ row. rows.new.items ≡ slice_set rows.old.items place (with_counts row counts)) }
    ensures beyond { IfNone (slice_get rows.old.items place) (rows.new.items ≡ rows.old.items) }
{
    let place = place as usize;
    if place < rows.len() {
        rows[place] = with_counts(&rows[place], counts);
    }
}

/// A rune with other counts.
fn with_counts(row: &RuneRow, counts: Counts) -> RuneRow
    ensures { result ≡ with_counts row.now counts }
{
    RuneRow {
        mints: counts.mints,
        burned: counts.burned,
        ..*row
    }
}
