//! The cells at the places of pieces.

ghost use Rattle.std.specs.Prelude.{◌≡◌, ◌≤◌, ◌<◌, ℕ, Some, None, IsSome, IfOk, OnErr, length};
ghost use Rattle.std.specs.Option.{option_map};
ghost use Rattle.ox_outputs.specs.Pieces.{HasRoom, Turns, cell_among};
ghost use Rattle.ox_outputs.specs.SlotCells.{cell_of};

use crate::piece::{PIECE, Piece};
use crate::slot_cell::{CellRef, SlotCell};
use ox_rules::Memory;
use std::alloc::Global;

/// There are so many pieces at most. So each place is below 2 ^ 32 - 1.
const MOST: usize = 262_143;

/// The cell at a place, if it was ever given out.
pub(crate) fn cell_at(pieces: &[Piece], place: usize) -> Option<CellRef<'_>>
    ensures cell { option_map cell_of result ≡ cell_among pieces.now place }
    ensures there { IsSome result → IsSome (cell_among pieces.now place) }
{
    match pieces.get(place / PIECE) {
        Some(piece) => piece.get(place % PIECE),
        None => None,
    }
}

/// Puts a cell in place of another, which is answered.
pub(crate) fn replace(pieces: &mut Vec<Piece>, place: usize, cell: SlotCell) -> SlotCell
    requires { IsSome (cell_among pieces.old.items place) }
    ensures was { cell_among pieces.old.items place ≡ Some result }
    ensures turns { Turns pieces.old.items pieces.new.items place cell }
    ensures len { length pieces.new.items ≡ length pieces.old.items }
{
    pieces[place / PIECE].replace(place % PIECE, cell)
}

/// Gives out the next place of the piece with this number, and answers it.
pub(crate) fn add(pieces: &mut Vec<Piece>, number: usize, cell: SlotCell) -> u32
    requires few { length pieces.old.items ≤ 262143 }
    requires room { HasRoom pieces.old.items number }
    ensures none { cell_among pieces.old.items result ≡ None }
    ensures turns { Turns pieces.old.items pieces.new.items result cell }
    ensures len { length pieces.new.items ≡ length pieces.old.items }
    ensures low { result < 4294967295 }
{
    let index = pieces[number].add(cell);
    (number * PIECE + index) as u32
}

/// The number of the last piece, if a place of it was never given out; else a piece is made.
/// `Memory` where there is none for it, or where there are 262,143 pieces: all are as before.
pub(crate) fn ensure_room(pieces: &mut Vec<Piece>, alloc: Global) -> Result<usize, Memory>
    requires few { length pieces.old.items ≤ 262143 }
    ensures few { length pieces.new.items ≤ 262143 }
    ensures room { IfOk result (λ number. HasRoom pieces.new.items number) }
    ensures same { (place : ℕ)
        → cell_among pieces.new.items place ≡ cell_among pieces.old.items place }
    ensures err { OnErr result (pieces.new.items ≡ pieces.old.items) }
{
    let count = pieces.len();
    if count > 0 && pieces[count - 1].has_room() {
        return Ok(count - 1);
    }
    if count == MOST {
        return Err(Memory);
    }
    let piece = Piece::new(alloc)?;
    pieces.push(piece)?;
    Ok(count)
}
