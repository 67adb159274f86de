//! What stands at a place: a slot, or none.

ghost use Rattle.std.specs.Prelude.{◌≡◌, Some, None, IsSome, if◌then◌else◌};
ghost use Rattle.std.specs.Option.{option_copied, option_map, option_and_then};
ghost use Rattle.ox_outputs.specs.SlotCells.{cell_of, empty_from, entry_from, slot_in};

use ox_block::{OutPoint, Script, Txid};
use ox_range::Ranges;
use ox_rules::OutRow;
use std::alloc::Global;

/// What is known of a place.
#[derive(Clone, Copy)]
pub(crate) enum Mark {
    /// It is not given out.
    Free,
    /// It is given out, and holds no row.
    Empty,
    /// It holds a row.
    Filled,
}

/// What stands at a place: a slot, or none. Where there is no row, one without script and satoshis
/// stands for it, which takes no memory of its own.
#[derive(Drop)]
pub(crate) struct SlotCell {
    pub(crate) at: OutPoint,
    pub(crate) mark: Mark,
    pub(crate) row: OutRow,
}

impl SlotCell {
    /// The slot of an outpoint, with a row or empty.
    pub(crate) fn new(alloc: Global, at: OutPoint, row: Option<OutRow>) -> SlotCell
        ensures { slot_in result ≡ Some (record { at = at; row = row }) }
    {
        match row {
            Some(row) => SlotCell {
                at,
                mark: Mark::Filled,
                row,
            },
            None => SlotCell {
                at,
                mark: Mark::Empty,
                row: no_row(alloc),
            },
        }
    }

    /// No slot. A number is left in its place.
    pub(crate) fn free(alloc: Global, link: u32) -> SlotCell
        ensures { slot_in result ≡ None }
    {
        SlotCell {
            at: OutPoint {
                txid: Txid([0; 32]),
                index: link,
            },
            mark: Mark::Free,
            row: no_row(alloc),
        }
    }

    /// The row in the slot, which goes with it.
    pub(crate) fn into_row(self) -> Option<OutRow>
        ensures { result ≡ option_and_then (λ slot. slot.row) (slot_in self) }
    {
        match self.mark {
            Mark::Free | Mark::Empty => None,
            Mark::Filled => Some(self.row),
        }
    }
}

/// The parts of a cell, as they stand in their piece. Clauses name the cell by `cell_of`.
#[derive(Clone, Copy)]
pub(crate) struct CellRef<'a> {
    pub(crate) at: &'a OutPoint,
    pub(crate) mark: Mark,
    pub(crate) row: &'a OutRow,
}

impl<'a> CellRef<'a> {
    /// The number that was left where there is no slot.
    pub(crate) fn link(self) -> Option<u32>
        ensures { IsSome result → slot_in (cell_of self.entry) ≡ None }
    {
        match self.mark {
            Mark::Free => Some(self.at.index),
            Mark::Empty | Mark::Filled => None,
        }
    }

    /// The outpoint of the slot.
    pub(crate) fn outpoint(self) -> Option<&'a OutPoint>
        ensures { option_copied result
            ≡ option_map (λ slot. slot.at) (slot_in (cell_of self.entry)) }
    {
        match self.mark {
            Mark::Free => None,
            Mark::Empty | Mark::Filled => Some(self.at),
        }
    }

    /// The row in the slot.
    pub(crate) fn row(self) -> Option<&'a OutRow>
        ensures { option_copied result
            ≡ option_and_then (λ slot. slot.row) (slot_in (cell_of self.entry)) }
    {
        match self.mark {
            Mark::Free | Mark::Empty => None,
            Mark::Filled => Some(self.row),
        }
    }

    /// The outpoint of the slot, if it is empty.
    pub(crate) fn empty(self) -> Option<OutPoint>
        ensures { result ≡ empty_from (slot_in (cell_of self.entry)) }
    {
        match self.mark {
            Mark::Empty => Some(*self.at),
            Mark::Free | Mark::Filled => None,
        }
    }

    /// Whether the slot holds a row.
    pub(crate) fn is_filled(self) -> bool
        ensures { entry_from (slot_in (cell_of self.entry))
            ≡ (if result then Some (self.entry.at.now, self.entry.row.now) else None) }
    {
        match self.mark {
            Mark::Free | Mark::Empty => false,
            Mark::Filled => true,
        }
    }

    /// Reads a little of its outpoint, mark and row, each of which stands elsewhere.
    pub(crate) fn glance(self) -> u32 {
        let row = self.row;
        let part = row.height.wrapping_add(u32::from(row.sats.is_empty()));
        let mark = u32::from(self.is_filled());
        self.at.index.wrapping_add(part).wrapping_add(mark)
    }
}

/// Stands where there is no row. It takes no memory.
fn no_row(alloc: Global) -> OutRow {
    let Ok(script) = Script::copy(alloc, &[]) else {
        unreachable!()
    };
    OutRow {
        script,
        height: 0,
        sats: Ranges::empty(alloc),
    }
}
