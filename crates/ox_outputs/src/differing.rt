//! The rows in which a table differs from itself at its mark, and the way from one to the other.

ghost use Rattle.std.specs.Prelude.{◌≡◌, ◌++◌, ◌↔◌, All, length, slice_index_or, None};
ghost use Rattle.std.specs.Prelude.{IsTrue, IfOk, OnOk};
ghost use Rattle.std.specs.Option.{option_copied};
ghost use Rattle.std.specs.List.{dedup, position_from};
ghost use Rattle.std.specs.List.Sorted.{IsPermutation, IsSorted, IsStable, IsStrictlySortedBy};
ghost use Rattle.std.specs.Ordering.{eq_by_cmp};
ghost use Rattle.std.specs.BTreeMap.{is_at};
ghost use Rattle.std.specs.Map.{keys_of, lookup};
ghost use Rattle.ox_block.specs.declared.block.OutPoint.{OutPoint};
ghost use Rattle.ox_rules.specs.Differences.{Differ, with_rows};
ghost use Rattle.ox_rules.specs.Outputs.{Outputs, outpoint_cmp};
ghost use Rattle.ox_outputs.specs.Differing.{numbered_from, outpoint_in, pairs_in};
ghost use Rattle.ox_outputs.specs.Differing.{row_at, row_unless, FitIn};
ghost use Rattle.ox_outputs.specs.Fronts.{IsFronted, fronted_cmp};
ghost use Rattle.ox_outputs.specs.Slots.{rows_of, undone, AreSpots};

use crate::fronted::Fronted;
use crate::slot_of::SlotOf;
use crate::slots::Slots;
use ox_block::OutPoint;
use ox_range::Ranges;
use ox_rules::{Memory, OutRow, OutTable, TableRows};
use std::alloc::Global;
use std::cmp::Ordering;

/// The rows that stood before some changes, of which the oldest comes first, and don't stand so
/// now, and the other way round, each by rising outpoint. `Memory` where there is none for them.
pub(crate) fn differing(
    alloc: Global,
    slots: &Slots,
    changed: &[SlotOf],
    before: &[Option<OutRow>],
) -> Result<(TableRows, TableRows), Memory>
    requires paired { length before.now ≡ length changed.now }
    requires known { AreSpots changed.now slots.now }
    ensures { IfOk result (λ rows.
        Differ (undone before.now changed.now (rows_of slots.now)) (rows_of slots.now)
        (record { gone = rows.0; came = rows.1 })) }
{
    let places = oldest(alloc, changed)?;
    let (stood, stand) = counts(slots, changed, before, &places);
    let mut gone = TableRows::from_vec(Vec::with_capacity(alloc, stood)?);
    let mut came = TableRows::from_vec(Vec::with_capacity(alloc, stand)?);
    for one in &places {
        let spot = &changed[one.place];
        let stood = row_before(before, one.place);
        let stands = slots.row(spot.place);
        push_unless(alloc, &mut gone, &spot.at, stood, stands)?;
        push_unless(alloc, &mut came, &spot.at, stands, stood)?;
    }
    Ok((gone, came))
}

/// How many rows stood before the changes at these places, and how many stand now. Room is taken by
/// these numbers, and the slots are read ahead.
fn counts(
    slots: &Slots,
    changed: &[SlotOf],
    before: &[Option<OutRow>],
    places: &[Fronted],
) -> (usize, usize) {
    let mut stood = 0usize;
    let mut stand = 0usize;
    for one in places {
        stood = stood.wrapping_add(usize::from(row_before(before, one.place).is_some()));
        stand = stand.wrapping_add(usize::from(stands(slots, changed, one.place)));
    }
    (stood, stand)
}

/// Whether a row stands where the change at this place was.
fn stands(slots: &Slots, changed: &[SlotOf], place: usize) -> bool {
    match changed.get(place) {
        Some(spot) => slots.row(spot.place).is_some(),
        None => false,
    }
}

/// What stood before the change at this place, if a row did.
fn row_before(before: &[Option<OutRow>], place: usize) -> Option<&OutRow>
    ensures { option_copied result ≡ slice_index_or before.now place None }
{
    match before.get(place) {
        Some(row) => row.as_ref(),
        None => None,
    }
}

/// The place of the oldest change at each outpoint, by rising outpoint.
fn oldest(alloc: Global, changed: &[SlotOf]) -> Result<Vec<Fronted>, Memory>
    ensures places { IfOk result (λ places. (at : OutPoint)
        → lookup (is_at (outpoint_cmp at)) (pairs_in changed.now places.items)
        ≡ position_from (λ spot. eq_by_cmp outpoint_cmp at spot.at) 0 changed.now) }
    ensures ordered { IfOk result (λ places.
        IsStrictlySortedBy outpoint_cmp (keys_of (pairs_in changed.now places.items))) }
{
    let mut places = numbered(alloc, changed)?;
    sort(changed, &mut places)?;
    keep_first(changed, &mut places);
    Ok(places)
}

/// The place of each change, with the front of its outpoint.
fn numbered(alloc: Global, changed: &[SlotOf]) -> Result<Vec<Fronted>, Memory>
    ensures pairs { IfOk result (λ places.
        pairs_in changed.now places.items ≡ numbered_from 0 changed.now) }
    ensures fronts { IfOk result (λ places.
        All (IsFronted (outpoint_in changed.now)) places.items) }
{
    let mut places = Vec::with_capacity(alloc, changed.len())?;
    for spot in changed {
        let place = places.len();
        places.push_reserved(Fronted::new(&spot.at, place));
    }
    Ok(places)
}

/// Sorts places of changes by outpoint. Those of one outpoint keep their order.
fn sort(changed: &[SlotOf], places: &mut Vec<Fronted>) -> Result<(), Memory>
    ensures permutation { IsPermutation places.old.items places.new.items }
    ensures sorted { OnOk result
        (IsSorted (fronted_cmp (outpoint_in changed.now)) places.new.items) }
    ensures stable { OnOk result
        (IsStable (fronted_cmp (outpoint_in changed.now)) places.old.items places.new.items) }
{
    Ok(places.sort_by(|a, b| order_of(changed, a, b))?)
}

/// Keeps the first of those that stand side by side and are of one outpoint.
fn keep_first(changed: &[SlotOf], places: &mut Vec<Fronted>)
    ensures { places.new.items
        ≡ dedup (eq_by_cmp (fronted_cmp (outpoint_in changed.now))) places.old.items }
{
    places.dedup_by(|later, kept| order_of(changed, later, kept).is_eq());
}

/// The order of two changes, by their places: by the fronts of their outpoints, and by the
/// outpoints where these are equal.
fn order_of(changed: &[SlotOf], a: &Fronted, b: &Fronted) -> Ordering
    ensures { result ≡ fronted_cmp (outpoint_in changed.now) a.now b.now }
{
    if a.front == b.front {
        outpoint_in(changed, a.place).cmp(&outpoint_in(changed, b.place))
    } else {
        a.front.cmp(&b.front)
    }
}

/// The outpoint of the change at this place, if there is one.
fn outpoint_in(changed: &[SlotOf], place: usize) -> Option<&OutPoint>
    ensures { option_copied result ≡ outpoint_in changed.now place }
{
    match changed.get(place) {
        Some(spot) => Some(&spot.at),
        None => None,
    }
}

/// Puts a row behind the others, where there is one and the other one isn't the same.
fn push_unless(
    alloc: Global,
    rows: &mut TableRows,
    at: &OutPoint,
    row: Option<&OutRow>,
    other: Option<&OutRow>,
) -> Result<(), Memory>
    ensures { OnOk result (rows.new ≡ rows.old
        ++ row_at at.now (row_unless (option_copied row.entry) (option_copied other.entry))) }
{
    match (row, other) {
        (None, _) => Ok(()),
        (Some(row), Some(other)) if is_same_row(row, other) => Ok(()),
        (Some(row), _) => rows.push((*at, row.copy(alloc)?)),
    }
}

/// Whether two rows are the same.
fn is_same_row(row: &OutRow, other: &OutRow) -> bool
    ensures { IsTrue result ↔ (row.now ≡ other.now) }
{
    row.height == other.height
        && row.script.as_slice() == other.script.as_slice()
        && are_same(&row.sats, &other.sats)
}

/// Whether two lists of satoshis are the same.
fn are_same(sats: &Ranges, others: &Ranges) -> bool
    ensures { IsTrue result ↔ (sats.now ≡ others.now) }
{
    sats.runs() == others.runs()
}

/// Places these rows in a table, where together with its own they hold no satoshi twice. After
/// `Memory` some of them may be placed.
pub(crate) fn place_all<O: OutTable>(
    alloc: Global,
    table: &mut O,
    rows: &TableRows,
) -> Result<(), Memory>
    requires { (before : Outputs) × FitIn before (O.contents table.old) rows.now }
    ensures ok { OnOk result (O.contents table.new ≡ with_rows (O.contents table.old) rows.now) }
    ensures mark { O.marked table.new ≡ O.marked table.old }
{
    let list = rows.as_slice();
    let mut left = list.len();
    while left > 0 {
        left -= 1;
        let (at, row) = &list[left];
        let _displaced = table.place(at, row.copy(alloc)?)?;
    }
    Ok(())
}
