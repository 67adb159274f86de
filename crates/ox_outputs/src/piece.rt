//! Cells for slots, side by side in memory that never moves.

ghost use Rattle.std.specs.Prelude.{◌≡◌, ◌↔◌, ◌<◌, ◌∷◌, ◌++◌, [], Some, IsTrue, IfOk, length};
ghost use Rattle.std.specs.Prelude.{slice_get, slice_set};
ghost use Rattle.std.specs.Option.{option_map};
ghost use Rattle.ox_outputs.specs.SlotCells.{cell_of};

use crate::slot_cell::{CellRef, Mark, SlotCell};
use ox_block::OutPoint;
use ox_rules::{Memory, OutRow};
use std::alloc::Global;
use std::marker::Model;
use std::mem;

/// So many places are in a piece.
pub(crate) const PIECE: usize = 16_384;

/// So many places side by side, in memory that is taken at once for all of them, and never moves.
/// Only those that were ever given out have a cell: the first ones. Outpoints, marks and rows stand
/// in lists of their own, since the 36, 1 and 72 bytes of a cell would be padded to 112. Contracts
/// see the cells.
#[derive(Drop)]
pub(crate) struct Piece {
    outpoints: Vec<OutPoint>,
    marks: Vec<Mark>,
    rows: Vec<OutRow>,
}

impl Model for Piece {
    ghost use Rattle.std.specs.Prelude.{List};
    ghost use Rattle.ox_outputs.specs.SlotCells.{AreSideBySide, cells_of};
    ghost use Rattle.ox_outputs.specs.declared.slot_cell.SlotCell.{SlotCell};

    ghost Value = { List SlotCell };

    ghost view = { λ p. cells_of p.outpoints.items p.marks.items p.rows.items };

    ghost invariant = { λ p. AreSideBySide p.outpoints p.marks p.rows };
}

impl Piece {
    /// A piece of which no place was given out. `Memory` where there is none for all of its places.
    pub(crate) fn new(alloc: Global) -> Result<Piece, Memory>
        ensures { IfOk result (λ piece. piece ≡ []) }
    {
        Ok(Piece {
            outpoints: Vec::with_capacity(alloc, PIECE)?,
            marks: Vec::with_capacity(alloc, PIECE)?,
            rows: Vec::with_capacity(alloc, PIECE)?,
        })
    }

    /// The cell with this index, if it was ever given out.
    pub(crate) fn get(&self, index: usize) -> Option<CellRef<'_>>
        ensures { option_map cell_of result ≡ slice_get self.now index }
    {
        if index < self.outpoints.len() {
            Some(CellRef {
                at: &self.outpoints[index],
                mark: self.marks[index],
                row: &self.rows[index],
            })
        } else {
            None
        }
    }

    /// Whether a place of it was never given out.
    pub(crate) fn has_room(&self) -> bool
        ensures { IsTrue result ↔ (length self.now < 16384) }
    {
        self.outpoints.len() < PIECE
    }

    /// Gives the next place out, and answers which of the piece it is.
    pub(crate) fn add(&mut self, cell: SlotCell) -> usize
        requires { length self.old < 16384 }
        ensures cells { self.new ≡ self.old ++ cell ∷ [] }
        ensures index { result ≡ length self.old }
    {
        let index = self.outpoints.len();
        self.outpoints.push_reserved(cell.at);
        self.marks.push_reserved(cell.mark);
        self.rows.push_reserved(cell.row);
        index
    }

    /// Puts a cell in place of another, which is answered.
    pub(crate) fn replace(&mut self, index: usize, cell: SlotCell) -> SlotCell
        requires { index < length self.old }
        ensures was { slice_get self.old index ≡ Some result }
        ensures cells { self.new ≡ slice_set self.old index cell }
    {
        SlotCell {
            at: mem::replace(&mut self.outpoints[index], cell.at),
            mark: mem::replace(&mut self.marks[index], cell.mark),
            row: mem::replace(&mut self.rows[index], cell.row),
        }
    }
}
