//! Which slot holds each satoshi.

ghost use Rattle.std.specs.Prelude.{◌≡◌, ◌≤◌, ℕ, true, false, None, Some, OnOk, OnErr, IfSome};
ghost use Rattle.std.specs.Prelude.{if◌then◌else◌};
ghost use Rattle.ox_range.specs.Runs.{runs_of};
ghost use Rattle.std.proofs.Props.{props};
ghost use Rattle.ox_outputs.specs.Located.{standing};
ghost use Rattle.ox_outputs.specs.Starts.{is_among, firsts_of, slot_from, AreLogged, BeginsLast};

use crate::cells::Cells;
use crate::slot_of::SlotOf;
use crate::slots::Slots;
use crate::starts::{Before, Starts, drop_stale, last_slot, put_runs, restore, sweep};
use ox_range::Ranges;
use ox_rules::{Memory, OutRow};
use std::alloc::Global;

/// Which slot holds each satoshi of some outputs: an entry for each run of satoshis that stand side
/// by side in an output, by its first number. An entry counts only where the row in its slot has a
/// run that begins so: a row that is taken leaves its entries behind, and the next mark takes those
/// away over which no run came. What stood at each number that changed since the mark is noted, so
/// that to go back takes no memory: an entry is not taken away before the next mark.
#[derive(Drop)]
pub(crate) struct Locator {
    starts: Starts,
    /// What stood at the numbers that changed since the mark, the oldest change first.
    changes: Vec<Before>,
    /// How many entries are left of runs that went since the mark. It says nothing, but where it is
    /// 0 no entry is looked for that may be taken away. Where memory ran out an entry may be left
    /// that isn't counted, and counts for nothing.
    gone: usize,
    ghost logged: { AreLogged changes.items starts } by { Prim.hlevel props },
}

impl Locator {
    ghost use Rattle.ox_outputs.specs.Locator.{live_at, kept_at};

    /// No satoshi. It takes no memory until a run comes.
    pub(crate) fn new(alloc: Global) -> Locator
        ensures live { (q : ℕ) → live_at result q ≡ None }
        ensures kept { (q : ℕ) → kept_at result q ≡ None }
    {
        Locator {
            starts: Cells::new(alloc),
            changes: Vec::new(alloc),
            gone: 0,
        }
    }

    /// The slot of the run that begins last of those that stand in these slots and begin at a
    /// satoshi or before: the only slot that may hold it, where no runs overlap.
    pub(crate) fn find(&self, slots: &Slots, sat: u64) -> Option<u32>
        ensures live { IfSome result (λ slot. (first : ℕ) × (first ≤ sat)
            × (standing slots.now (live_at self.now) first ≡ Some slot)) }
        ensures last { (first slot : ℕ) → standing slots.now (live_at self.now) first ≡ Some slot
            → BeginsLast (standing slots.now (live_at self.now)) first sat
            → result ≡ Some slot }
    {
        last_slot(&self.starts, slots, sat)
    }

    /// The runs of these satoshis go, whose row is out of its slot: their entries stay, and count
    /// for nothing. It takes no memory, and costs one step.
    pub(crate) fn leave(&mut self, sats: &Ranges)
        ensures live { (q : ℕ) → live_at self.new q ≡ live_at self.old q }
        ensures kept { (q : ℕ) → kept_at self.new q ≡ kept_at self.old q }
    {
        self.gone = self.gone.wrapping_add(sats.runs().len());
    }

    /// The runs of a slot's satoshis come. `Memory` where there is none: all is as before. It costs
    /// a look-up a run.
    pub(crate) fn arrive(&mut self, slot: u32, sats: &Ranges) -> Result<(), Memory>
        ensures ok { OnOk result ((q : ℕ) → live_at self.new q
            ≡ (if is_among (firsts_of (runs_of sats.now)) q then Some slot
            else live_at self.old q)) }
        ensures err { OnErr result ((q : ℕ) → live_at self.new q ≡ live_at self.old q) }
        ensures kept { (q : ℕ) → kept_at self.new q ≡ kept_at self.old q }
    {
        if slot == u32::MAX {
            // the place that stands for none: so many slots would take 500 GB
            return Err(Memory);
        }
        let from = self.changes.len();
        match put_runs(&mut self.starts, &mut self.changes, slot, sats.runs()) {
            Ok(over) => {
                self.gone = self.gone.wrapping_sub(over);
                Ok(())
            }
            Err(e) => {
                restore(&mut self.starts, &self.changes, from);
                Err(e)
            }
        }
    }

    /// Sets the mark at the runs as they are, for which it is told what changed since the last
    /// mark: the slots, and what stood there. It takes no memory, and costs a look-up for each run
    /// of a row that stood there, if a run went in whose place none came, and else nothing.
    pub(crate) fn begin(&mut self, slots: &Slots, changed: &[SlotOf], before: &[Option<OutRow>])
        ensures live { (q : ℕ) → standing slots.now (live_at self.new) q
            ≡ standing slots.now (live_at self.old) q }
        ensures kept { (q : ℕ) → kept_at self.new q ≡ live_at self.new q }
    {
        if self.gone > 0 {
            tidy_starts(&mut self.starts, slots, changed, before);
            self.gone = 0;
        }
        self.changes.clear();
    }

    /// Goes back to the runs at the mark. It takes no memory.
    pub(crate) fn cancel(&mut self)
        ensures live { (q : ℕ) → live_at self.new q ≡ kept_at self.old q }
        ensures kept { (q : ℕ) → kept_at self.new q ≡ kept_at self.old q }
    {
        restore(&mut self.starts, &self.changes, 0);
        sweep(&mut self.starts, &self.changes);
        self.gone = 0;
        self.changes.clear();
    }
}

/// Takes the entries away that count for nothing, of the runs of the rows that stood in changed
/// slots before.
fn tidy_starts(starts: &mut Starts, slots: &Slots, changed: &[SlotOf], before: &[Option<OutRow>])
    ensures { (q : ℕ) → standing slots.now (slot_from starts.new) q
        ≡ standing slots.now (slot_from starts.old) q }
{
    for (spot, row) in changed.iter().zip(before) {
        if let Some(row) = row {
            drop_stale(starts, slots, spot.place, row.sats.runs());
        }
    }
}
