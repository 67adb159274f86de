//! Slots for rows. A slot that is there can be filled and emptied without memory.

ghost use Rattle.std.specs.Prelude.{◌≡◌, ◌≢◌, ◌<◌, ℕ, [], Some, None, IsSome, IfSome, IfNone, IfOk};
ghost use Rattle.std.specs.Prelude.{IfErr, OnOk, OnErr};
ghost use Rattle.std.specs.Option.{option_copied, option_map};
ghost use Rattle.std.specs.FinMap as map;
ghost use Rattle.ox_block.specs.declared.block.OutPoint.{OutPoint};
ghost use Rattle.ox_outputs.specs.Slots.{outpoint_at, slot_at, put_slot, rows_of, unless_empty};
ghost use Rattle.ox_outputs.specs.Slots.{KeepRows};
ghost use Rattle.ox_outputs.specs.Located.{place_held, begins_in, counted};
ghost use Rattle.ox_outputs.specs.Next.{next_of};

use crate::held::{
    Held, begins_at, count, empty_in, exchange_in, give_out, glance_in, locate_in, nothing_held,
    row_in, take_back, vacate,
};
use crate::in_order::{InOrder, in_order};
use crate::next::next_in;
use crate::places::Places;
use ox_block::OutPoint;
use ox_rules::{Memory, OutRow, Place, Unplaced};
use std::alloc::Global;
use std::marker::Model;

/// Slots of outpoints, each with a row or empty. A slot keeps its place while it is there, so that
/// who knows the place needn't look for the outpoint again. Contracts see the slot, or nothing, at
/// each place.
#[derive(Drop)]
pub(crate) struct Slots {
    places: Places,
    held: Held,
}

impl Model for Slots {
    ghost use Rattle.ox_outputs.specs.Slots.{SlotList};
    ghost use Rattle.ox_outputs.specs.Places.{ArePlaced};

    ghost Value = { SlotList };

    ghost view = { λ s. s.held.slots };

    ghost invariant = { λ s. ArePlaced s.places s.held.slots };
}

impl Slots {
    /// No slots. It takes no memory until one is filled.
    pub(crate) fn new(alloc: Global) -> Slots
        ensures { result ≡ [] }
    {
        Slots {
            places: Places::new(alloc),
            held: nothing_held(alloc),
        }
    }

    /// How many slots there are, by which reading ahead is decided. It costs one step.
    pub(crate) fn len(&self) -> usize {
        count(&self.held)
    }

    /// The place of the slot at this outpoint. Where there is none, no row stands there.
    pub(crate) fn find(&self, at: &OutPoint) -> Option<u32>
        ensures some { IfSome result (λ place. outpoint_at self.now place ≡ Some at.now) }
        ensures none { IfNone result (map.get (rows_of self.now) at.now ≡ None) }
        ensures nowhere { IfNone result ((place : ℕ) → outpoint_at self.now place ≢ Some at.now) }
    {
        self.places.find(&self.held, at)
    }

    /// The row in the slot at this outpoint.
    pub(crate) fn get(&self, at: &OutPoint) -> Option<&OutRow>
        ensures { option_copied result ≡ map.get (rows_of self.now) at.now }
    {
        match self.find(at) {
            Some(place) => self.row(place),
            None => None,
        }
    }

    /// The rows by rising outpoint. `Memory` where there is none for their order.
    pub(crate) fn in_order(&self, alloc: Global) -> Result<InOrder<'_>, Memory>
        ensures { IfOk result (λ order. order ≡ map.entries (rows_of self.now)) }
    {
        in_order(alloc, &self.held)
    }

    /// The first row by rising outpoint, or the first past an outpoint. It looks at all slots.
    pub(crate) fn next_row(&self, past: Option<&OutPoint>) -> Option<(&OutPoint, &OutRow)>
        ensures { option_map (λ e. (e.0.now, e.1.now)) result
            ≡ next_of (option_copied past.entry) (map.entries (rows_of self.now)) }
    {
        next_in(&self.held, past.copied())
    }

    /// The row in the slot at this place. No slot has the place 2 ^ 32 - 1.
    pub(crate) fn row(&self, place: u32) -> Option<&OutRow>
        ensures row { (at : OutPoint) → outpoint_at self.now place ≡ Some at
            → option_copied result ≡ map.get (rows_of self.now) at }
        ensures low { IsSome result → place < 4294967295 }
    {
        row_in(&self.held, place)
    }

    /// Where a satoshi is in the row of the slot at this place. `None` where the row doesn't hold
    /// it, or where there is no row. It costs by the row's runs.
    pub(crate) fn locate(&self, place: u32, sat: u64) -> Option<Place>
        ensures { (at : OutPoint) → outpoint_at self.now place ≡ Some at
            → result ≡ place_held at (map.get (rows_of self.now) at) sat }
    {
        locate_in(&self.held, place, sat)
    }

    /// Whether the row in the slot at this place has a run that begins with this number. It costs
    /// by the row's runs.
    pub(crate) fn begins(&self, place: u32, first: u64) -> bool
        ensures { result ≡ begins_in self.now place first }
    {
        begins_at(&self.held, place, first)
    }

    /// A place, if there is one, and the row in the slot there has a run that begins with this
    /// number. It costs by the row's runs.
    pub(crate) fn counted(&self, first: u64, place: Option<u32>) -> Option<u32>
        ensures { result ≡ counted self.now first place }
    {
        match place {
            Some(place) if self.begins(place, first) => Some(place),
            _ => None,
        }
    }

    /// Reads a part of what leads to the slot at this outpoint.
    pub(crate) fn glance_at(&self, at: &OutPoint) -> u32 {
        self.places.glance(at)
    }

    /// The first place, if any, that may be that of the slot at this outpoint, which isn't read.
    pub(crate) fn candidate(&self, at: &OutPoint) -> Option<u32> {
        self.places.candidate(at)
    }

    /// Reads a part of the slot at this place.
    pub(crate) fn glance(&self, place: u32) -> u32 {
        glance_in(&self.held, place)
    }

    /// Changes what the slot at this place holds, and answers what it held.
    pub(crate) fn exchange(&mut self, place: u32, row: Option<OutRow>) -> Option<OutRow>
        requires { IsSome (outpoint_at self.old place) }
        ensures held { (at : OutPoint) → outpoint_at self.old place ≡ Some at
            → result ≡ map.get (rows_of self.old) at }
        ensures rows { (at : OutPoint) → outpoint_at self.old place ≡ Some at
            → rows_of self.new ≡ put_slot (rows_of self.old) at row }
        ensures places { (p : ℕ) → outpoint_at self.new p ≡ outpoint_at self.old p }
    {
        exchange_in(&mut self.held, place, row)
    }

    /// Takes the slot at this place away if it is empty: no row is lost, and each other slot stays.
    pub(crate) fn tidy(&mut self, place: u32)
        ensures rows { rows_of self.new ≡ rows_of self.old }
        ensures here { slot_at self.new place ≡ unless_empty (slot_at self.old place) }
        ensures others { (p : ℕ) → p ≢ place → slot_at self.new p ≡ slot_at self.old p }
        ensures filled { KeepRows self.old self.new }
    {
        if let Some(at) = empty_in(&self.held, place) {
            self.places.remove(&at, place);
            vacate(&mut self.held, place);
        }
    }

    /// Fills the slot at this outpoint, whose place was found, or makes one where none was found,
    /// and answers its place. What the slot held is gone. Where there is no memory, the row is
    /// handed back and no row has changed.
    pub(crate) fn fill(
        &mut self,
        at: OutPoint,
        found: Option<u32>,
        row: OutRow,
    ) -> Result<u32, Unplaced>
        requires found { IfSome found (λ place. outpoint_at self.old place ≡ Some at) }
        requires nowhere { IfNone found ((place : ℕ) → outpoint_at self.old place ≢ Some at) }
        ensures rows { OnOk result (rows_of self.new ≡ map.insert (rows_of self.old) at row) }
        ensures place { IfOk result (λ place. outpoint_at self.new place ≡ Some at) }
        ensures low { IfOk result (λ place. place < 4294967295) }
        ensures places { (p : ℕ) (q : OutPoint) → outpoint_at self.old p ≡ Some q
            → outpoint_at self.new p ≡ Some q }
        ensures handed_back { IfErr result (λ e. e.row ≡ row) }
        ensures err { OnErr result (rows_of self.new ≡ rows_of self.old) }
    {
        if let Some(place) = found {
            let _earlier = exchange_in(&mut self.held, place, Some(row));
            return Ok(place);
        }
        let place = give_out(&mut self.held, at, row)?;
        match self.places.add(at, place) {
            Ok(()) => Ok(place),
            Err(_) => match take_back(&mut self.held, place) {
                Some(row) => Err(Unplaced { row }),
                None => unreachable!(),
            },
        }
    }
}
