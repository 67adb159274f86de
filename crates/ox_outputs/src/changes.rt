//! Changes of slots, which can be taken back.

ghost use Rattle.std.specs.Prelude.{◌≡◌, ℕ, Option, Some, None, IfOk, IfErr};
ghost use Rattle.std.specs.Prelude.{OnOk, OnErr, [], length, if◌then◌else◌, IsSome, IsSomeAnd};
ghost use Rattle.std.specs.Prelude.{◌≢◌, ◌<◌, ◌∷◌, ◌++◌, IfSome, IfNone, vec_len, vec_capacity};
ghost use Rattle.std.specs.FinMap as map;
ghost use Rattle.ox_block.specs.declared.block.OutPoint.{OutPoint};
ghost use Rattle.ox_range.specs.Runs.{runs_of};
ghost use Rattle.ox_rules.specs.Outputs.{MayStand};
ghost use Rattle.ox_outputs.specs.Located.{LeadTo};
ghost use Rattle.ox_outputs.specs.Locator.{live_at, kept_at};
ghost use Rattle.ox_outputs.specs.Starts.{is_among, firsts_of};
ghost use Rattle.ox_outputs.specs.Slots.{outpoint_at, slot_at, put_slot, rows_of, undone, AreSpots};
ghost use Rattle.ox_outputs.specs.Slots.{tidied_at, filled_before, KeepRows};

use crate::locator::Locator;
use crate::slot_of::SlotOf;
use crate::slots::Slots;
use ox_block::OutPoint;
use ox_range::Ranges;
use ox_rules::{Memory, OutRow, Unplaced};
use std::alloc::Global;

/// Makes room for one more change. `Memory` where there is none. The changes stay.
pub(crate) fn reserve_one(
    changed: &mut Vec<SlotOf>,
    before: &mut Vec<Option<OutRow>>,
) -> Result<(), Memory>
    ensures spots { changed.new.items ≡ changed.old.items }
    ensures rows { before.new.items ≡ before.old.items }
    ensures room { OnOk result (vec_len changed.new < vec_capacity changed.new) }
    ensures room_before { OnOk result (vec_len before.new < vec_capacity before.new) }
{
    changed.reserve(1)?;
    before.reserve(1)?;
    Ok(())
}

/// Notes a change of a slot, in which this stood before. There has to be room for it.
pub(crate) fn note(
    changed: &mut Vec<SlotOf>,
    before: &mut Vec<Option<OutRow>>,
    spot: SlotOf,
    row: Option<OutRow>,
)
    requires room { vec_len changed.old < vec_capacity changed.old }
    requires room_before { vec_len before.old < vec_capacity before.old }
    ensures spots { changed.new.items ≡ changed.old.items ++ spot ∷ [] }
    ensures rows { before.new.items ≡ before.old.items ++ row ∷ [] }
{
    changed.push_reserved(spot);
    before.push_reserved(row);
}

/// Takes the row out of the slot at this spot, if it holds one, and answers it. Its satoshis leave
/// the locator. It takes no memory.
pub(crate) fn take_from(slots: &mut Slots, locator: &mut Locator, spot: SlotOf) -> Option<OutRow>
    requires spot { outpoint_at slots.old spot.place ≡ Some spot.at }
    requires runs { LeadTo (live_at locator.old) slots.old (rows_of slots.old) }
    ensures row { result ≡ map.get (rows_of slots.old) spot.at }
    ensures rows { rows_of slots.new ≡ put_slot (rows_of slots.old) spot.at None }
    ensures places { (p : ℕ) → outpoint_at slots.new p ≡ outpoint_at slots.old p }
    ensures runs { LeadTo (live_at locator.new) slots.new (rows_of slots.new) }
    ensures same { (q : ℕ) → kept_at locator.new q ≡ kept_at locator.old q }
{
    let taken = slots.exchange(spot.place, None);
    if let Some(row) = &taken {
        locator.leave(&row.sats);
    }
    taken
}

/// Copies a row whose satoshis leave the locator, and those of the row come that displaces it in
/// the slot at this place. `Memory` where there is none: the locator is as before.
fn displace_copied(
    locator: &mut Locator,
    row: &OutRow,
    place: u32,
    sats: &Ranges,
    alloc: Global,
) -> Result<OutRow, Memory>
    ensures copy { IfOk result (λ copy. copy ≡ row.now) }
    ensures ok { OnOk result ((q : ℕ) → live_at locator.new q
        ≡ (if is_among (firsts_of (runs_of sats.now)) q then Some place
        else live_at locator.old q)) }
    ensures err { OnErr result ((q : ℕ) → live_at locator.new q ≡ live_at locator.old q) }
    ensures kept { (q : ℕ) → kept_at locator.new q ≡ kept_at locator.old q }
{
    let copy = row.copy(alloc)?;
    locator.arrive(place, sats)?;
    locator.leave(&row.sats);
    Ok(copy)
}

/// The satoshis of a row that now stands where none did come into the locator. It answers the place
/// of the row's slot. Where there is no memory, the row is handed back, and its slot is empty.
fn arrive_at(slots: &mut Slots, locator: &mut Locator, spot: SlotOf) -> Result<u32, Unplaced>
    requires spot { outpoint_at slots.old spot.place ≡ Some spot.at }
    requires runs { LeadTo (live_at locator.old) slots.old
        (map.remove (rows_of slots.old) spot.at) }
    requires may { IsSomeAnd (map.get (rows_of slots.old) spot.at)
        (λ row. MayStand spot.at row.sats (map.remove (rows_of slots.old) spot.at)) }
    ensures place { IfOk result (λ place. place ≡ spot.place) }
    ensures rows { OnOk result (rows_of slots.new ≡ rows_of slots.old) }
    ensures places { (p : ℕ) → outpoint_at slots.new p ≡ outpoint_at slots.old p }
    ensures handed_back { IfErr result (λ e. Some e.row ≡ map.get (rows_of slots.old) spot.at) }
    ensures err { OnErr result (rows_of slots.new ≡ map.remove (rows_of slots.old) spot.at) }
    ensures runs { LeadTo (live_at locator.new) slots.new (rows_of slots.new) }
    ensures same { (q : ℕ) → kept_at locator.new q ≡ kept_at locator.old q }
{
    let Some(row) = slots.row(spot.place) else {
        unreachable!()
    };
    match locator.arrive(spot.place, &row.sats) {
        Ok(()) => Ok(spot.place),
        Err(_) => match slots.exchange(spot.place, None) {
            Some(row) => Err(Unplaced { row }),
            None => unreachable!(),
        },
    }
}

/// Fills the slot at this outpoint, where no row stands, as `fill` does, and answers its place. The
/// row's satoshis come into the locator. Where there is no memory, the row is handed back and all
/// is as before.
pub(crate) fn fill_empty(
    slots: &mut Slots,
    locator: &mut Locator,
    at: OutPoint,
    found: Option<u32>,
    row: OutRow,
) -> Result<u32, Unplaced>
    requires found { IfSome found (λ place. outpoint_at slots.old place ≡ Some at) }
    requires nowhere { IfNone found ((place : ℕ) → outpoint_at slots.old place ≢ Some at) }
    requires none { map.get (rows_of slots.old) at ≡ None }
    requires runs { LeadTo (live_at locator.old) slots.old (rows_of slots.old) }
    requires may { MayStand at row.sats (rows_of slots.old) }
    ensures place { IfOk result (λ place. outpoint_at slots.new place ≡ Some at) }
    ensures rows { OnOk result
        (rows_of slots.new ≡ map.insert (rows_of slots.old) at row) }
    ensures places { (p : ℕ) (q : OutPoint) → outpoint_at slots.old p ≡ Some q
        → outpoint_at slots.new p ≡ Some q }
    ensures handed_back { IfErr result (λ e. e.row ≡ row) }
    ensures err { OnErr result (rows_of slots.new ≡ rows_of slots.old) }
    ensures runs { LeadTo (live_at locator.new) slots.new (rows_of slots.new) }
    ensures same { (q : ℕ) → kept_at locator.new q ≡ kept_at locator.old q }
{
    let place = slots.fill(at, found, row)?;
    arrive_at(slots, locator, SlotOf { at, place })
}

/// A row that another displaced.
#[derive(Drop)]
pub(crate) struct Displaced {
    pub(crate) row: OutRow,
    /// The same once more.
    pub(crate) kept: OutRow,
}

/// Puts a row where another stands, in the slot at this spot, and answers the other twice. The
/// row's satoshis come into the locator, in place of those of the other. Where there is no memory,
/// the row is handed back and all is as before.
pub(crate) fn displace_at(
    slots: &mut Slots,
    locator: &mut Locator,
    spot: SlotOf,
    row: OutRow,
    alloc: Global,
) -> Result<Displaced, Unplaced>
    requires spot { outpoint_at slots.old spot.place ≡ Some spot.at }
    requires stands { IsSome (map.get (rows_of slots.old) spot.at) }
    requires runs { LeadTo (live_at locator.old) slots.old (rows_of slots.old) }
    requires may { MayStand spot.at row.sats (rows_of slots.old) }
    ensures displaced { IfOk result
        (λ other. Some other.row ≡ map.get (rows_of slots.old) spot.at) }
    ensures kept { IfOk result
        (λ other. Some other.kept ≡ map.get (rows_of slots.old) spot.at) }
    ensures rows { OnOk result
        (rows_of slots.new ≡ map.insert (rows_of slots.old) spot.at row) }
    ensures places { (p : ℕ) → outpoint_at slots.new p ≡ outpoint_at slots.old p }
    ensures handed_back { IfErr result (λ e. e.row ≡ row) }
    ensures err { OnErr result (rows_of slots.new ≡ rows_of slots.old) }
    ensures runs { LeadTo (live_at locator.new) slots.new (rows_of slots.new) }
    ensures same { (q : ℕ) → kept_at locator.new q ≡ kept_at locator.old q }
{
    let Some(other) = slots.row(spot.place) else {
        unreachable!()
    };
    let Ok(kept) = displace_copied(locator, other, spot.place, &row.sats, alloc) else {
        return Err(Unplaced { row });
    };
    match slots.exchange(spot.place, Some(row)) {
        Some(row) => Ok(Displaced { row, kept }),
        None => unreachable!(),
    }
}

/// Forgets changes, and takes the slots away in which they left no row: no row is lost, and each
/// other slot stays. Only where a row stood before is its slot looked at, since a change without
/// one filled its slot, and a row that was taken since is another change.
pub(crate) fn settle(slots: &mut Slots, changed: &mut Vec<SlotOf>, before: &mut Vec<Option<OutRow>>)
    ensures rows { rows_of slots.new ≡ rows_of slots.old }
    ensures tidied { length before.old.items ≡ length changed.old.items → (p : ℕ)
        → slot_at slots.new p
        ≡ tidied_at (filled_before changed.old.items before.old.items) slots.old p }
    ensures filled { KeepRows slots.old slots.new }
    ensures none { changed.new.items ≡ [] }
    ensures none_before { before.new.items ≡ [] }
{
    tidy_filled(slots, changed, before);
    changed.clear();
    before.clear();
}

/// Takes the slots away in which changes left no row, of those changes before which one stood.
fn tidy_filled(slots: &mut Slots, changed: &[SlotOf], before: &[Option<OutRow>])
    ensures rows { rows_of slots.new ≡ rows_of slots.old }
    ensures tidied { (p : ℕ) → slot_at slots.new p
        ≡ tidied_at (filled_before changed.now before.now) slots.old p }
    ensures filled { KeepRows slots.old slots.new }
{
    for (spot, row) in changed.iter().zip(before) {
        if row.is_some() {
            slots.tidy(spot.place);
        }
    }
}

/// Takes the empty slots among these away: no row is lost, and each other slot stays.
pub(crate) fn forget(slots: &mut Slots, changed: &mut Vec<SlotOf>)
    ensures rows { rows_of slots.new ≡ rows_of slots.old }
    ensures tidied { (p : ℕ) → slot_at slots.new p ≡ tidied_at changed.old.items slots.old p }
    ensures filled { KeepRows slots.old slots.new }
    ensures none { changed.new.items ≡ [] }
{
    while let Some(spot) = changed.pop() {
        slots.tidy(spot.place);
    }
}

/// Puts back what stood at the changed outpoints, the newest change first.
pub(crate) fn go_back(slots: &mut Slots, changed: &[SlotOf], before: &mut Vec<Option<OutRow>>)
    requires paired { length before.old.items ≡ length changed.now }
    requires known { AreSpots changed.now slots.old }
    ensures rows { rows_of slots.new
        ≡ undone before.old.items changed.now (rows_of slots.old) }
    ensures known { AreSpots changed.now slots.new }
    ensures places { (p : ℕ) → outpoint_at slots.new p ≡ outpoint_at slots.old p }
    ensures none { before.new.items ≡ [] }
{
    while let Some(row) = before.pop() {
        let _changed = slots.exchange(changed[before.len()].place, row);
    }
}
