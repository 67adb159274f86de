//! The slots that hold runs of satoshis, by the runs' first numbers.

ghost use Rattle.std.specs.Prelude.{◌≡◌, ◌≤◌, ℕ, None, Some, IfSome, OnOk, drop, length};
ghost use Rattle.std.specs.Prelude.{if◌then◌else◌};
ghost use Rattle.std.specs.BTreeMap.{is_at};
ghost use Rattle.std.specs.Ordering.{nat_cmp};
ghost use Rattle.ox_outputs.specs.Starts.{slot_from, is_among, firsts_of, before_in, AreLogged};
ghost use Rattle.ox_outputs.specs.Starts.{AreNoted, BeginsLast};
ghost use Rattle.ox_outputs.specs.Located.{standing};
ghost use Rattle.ox_outputs.specs.Packed.{IsPlace};

use crate::cells::Cells;
use crate::slots::Slots;
use ox_range::Run;
use ox_rules::Memory;

/// The places of slots, by the first numbers of the runs that stand or stood there. An entry counts
/// only where the row in its slot has a run that begins so; nothing stands in one where a run came
/// and was put back.
pub(crate) type Starts = Cells;

/// What stood at a number before a change.
#[derive(Clone, Copy)]
pub(crate) struct Before {
    pub(crate) first: u64,
    pub(crate) slot: Option<u32>,
}

/// The slot of the last run that begins at a number or before, of those that stand.
pub(crate) fn last_slot(starts: &Starts, slots: &Slots, number: u64) -> Option<u32>
    ensures some { IfSome result (λ slot. (first : ℕ) × (first ≤ number)
        × (standing slots.now (slot_from starts.now) first ≡ Some slot)) }
    ensures last { (first slot : ℕ)
        → standing slots.now (slot_from starts.now) first ≡ Some slot
        → BeginsLast (standing slots.now (slot_from starts.now)) first number
        → result ≡ Some slot }
{
    let mut at = number;
    while let Some((first, slot)) = starts.last_to(at) {
        let found = slots.counted(first, slot);
        if found.is_some() {
            return found;
        }
        match first.checked_sub(1) {
            Some(before) => at = before,
            None => return None,
        }
    }
    None
}

/// The runs of a slot come. What stood where they begin is noted. The answer is over how many
/// entries they came, which had been left behind. After `Memory` some have come, and all of these
/// are noted behind the earlier changes.
pub(crate) fn put_runs(
    starts: &mut Starts,
    changes: &mut Vec<Before>,
    slot: u32,
    runs: &[Run],
) -> Result<usize, Memory>
    requires logged { AreLogged changes.old.items starts.old }
    requires place { IsPlace (Some slot) }
    ensures ok { OnOk result ((q : ℕ) → slot_from starts.new q
        ≡ (if is_among (firsts_of runs.now) q then Some slot else slot_from starts.old q)) }
    ensures noted { AreNoted changes.old.items changes.new.items
        (slot_from starts.old) (slot_from starts.new) }
    ensures logged { AreLogged changes.new.items starts.new }
{
    let mut over = 0usize;
    for run in runs {
        over = over.wrapping_add(put_run(starts, changes, slot, run.first)?);
    }
    Ok(over)
}

/// The same of a run that begins with one number. After `Memory` it hasn't come.
fn put_run(
    starts: &mut Starts,
    changes: &mut Vec<Before>,
    slot: u32,
    first: u64,
) -> Result<usize, Memory>
    requires logged { AreLogged changes.old.items starts.old }
    requires place { IsPlace (Some slot) }
    ensures ok { OnOk result ((q : ℕ) → slot_from starts.new q
        ≡ (if is_at (nat_cmp first) q then Some slot else slot_from starts.old q)) }
    ensures noted { AreNoted changes.old.items changes.new.items
        (slot_from starts.old) (slot_from starts.new) }
    ensures logged { AreLogged changes.new.items starts.new }
{
    changes.reserve(1)?;
    let stood = starts.put(first, Some(slot))?;
    let stood = stood.flatten();
    changes.push_reserved(Before { first, slot: stood });
    Ok(usize::from(stood.is_some()))
}

/// Puts back what stood before the changes from one on, the newest first. It takes no memory. The
/// changes stay noted.
pub(crate) fn restore(starts: &mut Starts, changes: &[Before], from: usize)
    requires logged { AreLogged changes.now starts.old }
    requires from { from ≤ length changes.now }
    ensures slots { (q : ℕ) → slot_from starts.new q
        ≡ before_in (drop from changes.now) (slot_from starts.old) q }
    ensures logged { AreLogged changes.now starts.new }
{
    let mut left = changes.len();
    while left > from {
        left -= 1;
        let Before { first, slot } = changes[left];
        // only a number that isn't there could lack memory
        let _stood = starts.put(first, slot);
    }
}

/// Takes the entries away that hold nothing, of the numbers at which nothing stood before a change:
/// what came there goes back to nothing.
pub(crate) fn sweep(starts: &mut Starts, changes: &[Before])
    ensures { (q : ℕ) → slot_from starts.new q ≡ slot_from starts.old q }
{
    for change in changes {
        if change.slot.is_none() {
            sweep_one(starts, change.first);
        }
    }
}

/// Takes the entry at a number away if it holds nothing.
fn sweep_one(starts: &mut Starts, first: u64)
    ensures { (q : ℕ) → slot_from starts.new q ≡ slot_from starts.old q }
{
    if let Some(None) = starts.get(first) {
        starts.remove(first);
    }
}

/// Takes the entries away that count for nothing, of those that runs had which went from the slot
/// at this place.
pub(crate) fn drop_stale(starts: &mut Starts, slots: &Slots, place: u32, runs: &[Run])
    ensures { (q : ℕ) → standing slots.now (slot_from starts.new) q
        ≡ standing slots.now (slot_from starts.old) q }
{
    for run in runs {
        drop_one(starts, slots, place, run.first);
    }
}

/// The same of the run that begins with one number.
fn drop_one(starts: &mut Starts, slots: &Slots, place: u32, first: u64)
    ensures { (q : ℕ) → standing slots.now (slot_from starts.new) q
        ≡ standing slots.now (slot_from starts.old) q }
{
    if let Some(Some(held)) = starts.get(first) {
        if held == place && !slots.begins(place, first) {
            starts.remove(first);
        }
    }
}
