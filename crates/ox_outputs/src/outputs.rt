//! The unspent outputs.

ghost use Rattle.std.specs.Prelude.{◌≡◌, ◌≢◌, ℕ, true, false, [], IsSome, IfSome, IfNone};
ghost use Rattle.std.specs.Prelude.{IfOk, IfErr, OnOk, OnErr};
ghost use Rattle.std.specs.Prelude.{if◌then◌else◌, Some, None};
ghost use Rattle.std.specs.Option.{option_copied, option_map};
ghost use Rattle.std.specs.FinMap as map;
ghost use Rattle.ox_outputs.specs.Slots.{outpoint_at, rows_of, undone};
ghost use Rattle.ox_outputs.specs.Sound.{AreSound};

use crate::ahead::Ahead;
use crate::changes::{
    Displaced, displace_at, fill_empty, forget, go_back, note, reserve_one, settle, take_from,
};
use crate::differing::{differing, place_all};
use crate::in_order::InOrder;
use crate::locator::Locator;
use crate::slot_of::SlotOf;
use crate::slots::Slots;
use ox_block::{Block, OutPoint, Txids};
use ox_rules::{Memory, OutRow, OutTable, Place, TableRows, Unplaced};
use std::alloc::Global;

/// The unspent outputs: rows by outpoint, in memory. The rows that were taken or displaced since
/// the mark are kept until the next mark, so that to go back takes no memory; where there is no
/// mark, what changes is kept in the same way, and let go when one is set. Beside them stands which
/// slot holds each satoshi.
pub struct Outputs {
    alloc: Global,
    slots: Slots,
    /// The slots in which rows changed, the oldest change first, and what stood there.
    changed: Vec<SlotOf>,
    before: Vec<Option<OutRow>>,
    /// Whether a mark is set, from which on these are the changes.
    marked: bool,
    locator: Locator,
    ahead: Ahead,
    ghost sound: { AreSound slots locator changed.items before.items },
}

/// By hand, so that whoever drops outputs makes one call, and proves nothing of its fields.
impl Drop for Outputs {
    fn drop(self) {
        let Outputs {
            alloc: _alloc,
            slots: _slots,
            changed: _changed,
            before: _before,
            marked: _marked,
            locator: _locator,
            ahead: _ahead,
        } = self;
    }
}

impl Outputs {
    ghost use Rattle.ox_rules.specs.Where.{place_among};
    ghost use Rattle.ox_rules.specs.Differences.{Differ, other_end, without_rows};
    ghost use Rattle.ox_rules.specs.Outputs.{Outputs as Rows, MayStand};
    ghost use Rattle.ox_outputs.specs.Next.{next_of};
    ghost use Rattle.ox_outputs.specs.Table.{rows_in, marked_in, EndsIn};

    /// No outputs, and no mark. It takes no memory until a row is placed.
    pub fn new(alloc: Global) -> Outputs
        ensures rows { rows_in result ≡ map.empty }
        ensures mark { marked_in result ≡ None }
    {
        Outputs {
            alloc,
            slots: Slots::new(alloc),
            changed: Vec::new(alloc),
            before: Vec::new(alloc),
            marked: false,
            locator: Locator::new(alloc),
            ahead: Ahead::new(alloc),
        }
    }

    /// The output that holds a satoshi, and its place there: the first such output in the order of
    /// outpoints, which is the only one. `None` exactly where no output holds it. It costs by the
    /// logarithm of the runs of satoshis, by the runs of the one output that may hold it, and by
    /// the runs that went since the mark and begin right before the satoshi: for each of these by
    /// the runs of the output that stands where it stood, if one does.
    pub fn locate(&self, sat: u64) -> Option<Place>
        ensures { result ≡ place_among (map.entries (rows_in self.now)) sat }
    {
        let place = self.locator.find(&self.slots, sat)?;
        self.slots.locate(place, sat)
    }

    /// The rows by rising outpoint, to be read in this order. It takes 16 bytes a row, and the time
    /// of a sort. `Memory` where there is none for them.
    pub fn in_order(&self) -> Result<InOrder<'_>, Memory>
        ensures { IfOk result (λ order. order ≡ map.entries (rows_in self.now)) }
    {
        self.slots.in_order(self.alloc)
    }

    /// The first row by rising outpoint with its outpoint, or the first past an outpoint; `None`
    /// exactly where there is none. It takes no memory. So it looks at all rows, each time that it
    /// is called: tests alone call it, and who reads all rows in order calls `in_order`.
    pub fn next_row(&self, past: Option<&OutPoint>) -> Option<(&OutPoint, &OutRow)>
        ensures { option_map (λ e. (e.0.now, e.1.now)) result
            ≡ next_of (option_copied past.entry) (map.entries (rows_in self.now)) }
    {
        self.slots.next_row(past)
    }

    /// Says which block comes next, with the ids of its transactions, in order. It is a hint, by
    /// which the outputs that the block spends and makes are read ahead, so that it is moved
    /// faster. No row changes, and where there are few rows nothing is read.
    pub fn expect(&mut self, block: &Block, ids: &Txids)
        ensures rows { rows_in self.new ≡ rows_in self.old }
        ensures mark { marked_in self.new ≡ marked_in self.old }
    {
        self.ahead.expect_block(&self.slots, block, ids);
    }

    /// Takes the row out of a slot, and keeps it for the way back to the mark. `Memory` where there
    /// is none: all is as before.
    fn set_aside(&mut self, spot: SlotOf) -> Result<(), Memory>
        requires { outpoint_at self.old.slots spot.place ≡ Some spot.at }
        ensures ok { OnOk result (rows_in self.new ≡ map.remove (rows_in self.old) spot.at) }
        ensures err { OnErr result (rows_in self.new ≡ rows_in self.old) }
        ensures mark { marked_in self.new ≡ marked_in self.old }
    {
        reserve_one(&mut self.changed, &mut self.before)?;
        let taken = take_from(&mut self.slots, &mut self.locator, spot);
        note(&mut self.changed, &mut self.before, spot, taken);
        Ok(())
    }

    /// Takes the rows at the outpoints of these out, the last first. After `Memory` some of them
    /// may be out.
    fn take_out(&mut self, rows: &TableRows) -> Result<(), Memory>
        ensures ok { OnOk result (rows_in self.new ≡ without_rows (rows_in self.old) rows.now) }
        ensures mark { marked_in self.new ≡ marked_in self.old }
    {
        let list = rows.as_slice();
        let mut left = list.len();
        while left > 0 {
            left -= 1;
            self.take_one(&list[left].0)?;
        }
        Ok(())
    }

    /// Takes the row at an outpoint out, if there is one, and keeps it for the way back to the
    /// mark. `Memory` where there is none: all is as before.
    fn take_one(&mut self, at: &OutPoint) -> Result<(), Memory>
        ensures ok { OnOk result (rows_in self.new ≡ map.remove (rows_in self.old) at.now) }
        ensures mark { marked_in self.new ≡ marked_in self.old }
    {
        self.ahead.step(&self.slots);
        match self.slots.find(at) {
            Some(place) => self.set_aside(SlotOf { at: *at, place }),
            None => Ok(()),
        }
    }

    /// Places a row at an outpoint at which none stands. There may be an empty slot, whose place
    /// was found. Where there is no memory, the row is handed back and all is as before.
    fn place_new(&mut self, at: OutPoint, found: Option<u32>, row: OutRow) -> Result<(), Unplaced>
        requires found { IfSome found (λ place. outpoint_at self.old.slots place ≡ Some at) }
        requires nowhere { IfNone found
            ((place : ℕ) → outpoint_at self.old.slots place ≢ Some at) }
        requires none { map.get (rows_in self.old) at ≡ None }
        requires may { MayStand at row.sats (rows_in self.old) }
        ensures ok { OnOk result (rows_in self.new ≡ map.insert (rows_in self.old) at row) }
        ensures handed_back { IfErr result (λ e. e.row ≡ row) }
        ensures err { OnErr result (rows_in self.new ≡ rows_in self.old) }
        ensures mark { marked_in self.new ≡ marked_in self.old }
    {
        let Ok(()) = reserve_one(&mut self.changed, &mut self.before) else {
            return Err(Unplaced { row });
        };
        let place = fill_empty(&mut self.slots, &mut self.locator, at, found, row)?;
        note(
            &mut self.changed,
            &mut self.before,
            SlotOf { at, place },
            None,
        );
        Ok(())
    }

    /// Places a row where another stands, and answers the other, which is also kept for the way
    /// back. Where there is no memory, the row is handed back and all is as before.
    fn displace(&mut self, spot: SlotOf, row: OutRow) -> Result<OutRow, Unplaced>
        requires spot { outpoint_at self.old.slots spot.place ≡ Some spot.at }
        requires stands { IsSome (map.get (rows_in self.old) spot.at) }
        requires may { MayStand spot.at row.sats (rows_in self.old) }
        ensures displaced { IfOk result
            (λ displaced. Some displaced ≡ map.get (rows_in self.old) spot.at) }
        ensures ok { OnOk result (rows_in self.new ≡ map.insert (rows_in self.old) spot.at row) }
        ensures handed_back { IfErr result (λ e. e.row ≡ row) }
        ensures err { OnErr result (rows_in self.new ≡ rows_in self.old) }
        ensures mark { marked_in self.new ≡ marked_in self.old }
    {
        let Ok(()) = reserve_one(&mut self.changed, &mut self.before) else {
            return Err(Unplaced { row });
        };
        let Displaced {
            row: displaced,
            kept,
        } = displace_at(&mut self.slots, &mut self.locator, spot, row, self.alloc)?;
        note(&mut self.changed, &mut self.before, spot, Some(kept));
        Ok(displaced)
    }

    /// The rows that are gone since the mark was set, and those that came; a row that changed is in
    /// both. Each list stands by rising outpoint. `Memory` where there is none for them.
    pub fn changed(&self) -> Result<(TableRows, TableRows), Memory>
        requires { IsSome (marked_in self.now) }
        ensures { IfOk result (λ rows. (before : Rows) → marked_in self.now ≡ Some before
            → Differ before (rows_in self.now) (record { gone = rows.0; came = rows.1 })) }
    {
        differing(self.alloc, &self.slots, &self.changed, &self.before)
    }

    /// Brings the table to the other end of a difference that ends here: the rows that came are
    /// taken out, and those that are gone are placed again. It asks for a mark, which stays. After
    /// `Memory` the caller goes back by `cancel`.
    pub fn put(&mut self, gone: &TableRows, came: &TableRows) -> Result<(), Memory>
        requires marked { IsSome (marked_in self.old) }
        requires ends { EndsIn (rows_in self.old) (record { gone = gone.now; came = came.now }) }
        ensures ok { OnOk result (rows_in self.new
            ≡ other_end (rows_in self.old) (record { gone = gone.now; came = came.now })) }
        ensures mark { marked_in self.new ≡ marked_in self.old }
    {
        self.ahead.expect_rows(&self.slots, came, gone);
        self.take_out(came)?;
        place_all(self.alloc, self, gone)
    }
}

impl OutTable for Outputs {
    ghost contents = { λ outputs. rows_of outputs.slots };

    ghost marked = { λ outputs. if outputs.marked
        then Some (undone outputs.before.items outputs.changed.items
        (rows_of outputs.slots))
        else None };

    fn get(&self, at: &OutPoint) -> Option<&OutRow> {
        self.slots.get(at)
    }

    fn take(&mut self, at: &OutPoint) -> Result<Option<OutRow>, Memory> {
        self.ahead.step(&self.slots);
        let Some(place) = self.slots.find(at) else {
            return Ok(None);
        };
        let spot = SlotOf { at: *at, place };
        let Some(row) = self.slots.row(place) else {
            return Ok(None);
        };
        let row = row.copy(self.alloc)?;
        self.set_aside(spot)?;
        Ok(Some(row))
    }

    fn place(&mut self, at: &OutPoint, row: OutRow) -> Result<Option<OutRow>, Unplaced> {
        self.ahead.step(&self.slots);
        let found = self.slots.find(at);
        if let Some(place) = found {
            if self.slots.row(place).is_some() {
                let displaced = self.displace(SlotOf { at: *at, place }, row)?;
                return Ok(Some(displaced));
            }
        }
        self.place_new(*at, found, row)?;
        Ok(None)
    }

    fn begin(&mut self) -> Result<(), Memory> {
        self.ahead
            .read_changed(&self.slots, &self.changed, &self.before);
        self.locator.begin(&self.slots, &self.changed, &self.before);
        settle(&mut self.slots, &mut self.changed, &mut self.before);
        self.marked = true;
        Ok(())
    }

    fn cancel(&mut self) {
        go_back(&mut self.slots, &self.changed, &mut self.before);
        forget(&mut self.slots, &mut self.changed);
        self.locator.cancel();
        self.marked = false;
    }
}
