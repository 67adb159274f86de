//! Slots at the places that they were given.

ghost use Rattle.std.specs.Prelude.{◌≡◌, ◌↔◌, ◌<◌, ◌≤◌, ℕ, [], Some, None, false, length};
ghost use Rattle.std.specs.Prelude.{IsTrue, IsSome, IfOk, IfErr, OnErr};
ghost use Rattle.std.specs.Option.{option_copied, option_map, option_map_or, option_and_then};
ghost use Rattle.ox_block.specs.declared.block.OutPoint.{OutPoint};
ghost use Rattle.ox_range.specs.Runs.{runs_of};
ghost use Rattle.ox_outputs.specs.SlotCells.{cell_of, empty_from, entry_from, slot_in};
ghost use Rattle.ox_outputs.specs.Located.{place_held};
ghost use Rattle.ox_outputs.specs.Pieces.{cell_among, slot_among, slots_of};
ghost use Rattle.ox_outputs.specs.Slots.{Updates, row_at, outpoint_at, slot_at, slot_with};
ghost use Rattle.ox_outputs.specs.Starts.{is_among, firsts_of};

use crate::piece::{PIECE, Piece};
use crate::pieces::{add, cell_at, ensure_room, replace};
use crate::slot_cell::{CellRef, SlotCell};
use ox_block::OutPoint;
use ox_range::Run;
use ox_rules::{OutRow, Place, Unplaced};
use std::alloc::Global;
use std::marker::Model;

/// Slots by their places. Free places are a chain: a place that is given back has left in it which
/// was the first before, and is given out again first. Contracts see the slot, or nothing, at each
/// place.
#[derive(Drop)]
pub(crate) struct Held {
    alloc: Global,
    pieces: Vec<Piece>,
    /// The first free place. Where there is none this is any other place, so it is looked at.
    free: u32,
    /// How many places are given out.
    count: usize,
}

impl Model for Held {
    ghost use Rattle.std.specs.Prelude.{◌≤◌, length};
    ghost use Rattle.ox_outputs.specs.Held.{HeldSlots};
    ghost use Rattle.ox_outputs.specs.Pieces.{slots_of};

    ghost Value = { HeldSlots };

    ghost view = { λ h. record { slots = slots_of h.pieces.items } };

    ghost invariant = { λ h. length h.pieces.items ≤ 262143 };
}

/// No slots. It takes no memory until one is made.
pub(crate) fn nothing_held(alloc: Global) -> Held
    ensures { result.slots ≡ [] }
{
    Held {
        alloc,
        pieces: Vec::new(alloc),
        free: 0,
        count: 0,
    }
}

/// How many slots there are, by which room for them is asked for. It costs one step.
pub(crate) fn count(held: &Held) -> usize {
    held.count
}

/// From this place on there is no slot.
pub(crate) fn end(held: &Held) -> usize
    ensures { result ≡ length held.now.slots }
{
    held.pieces.len() * PIECE
}

/// The cell at this place, if it was ever given out.
fn cell_in(held: &Held, place: usize) -> Option<CellRef<'_>>
    ensures slot { option_and_then slot_in (option_map cell_of result)
        ≡ slot_at held.now.slots place }
    ensures low { IsSome result → place < 4294967295 }
{
    cell_at(&held.pieces, place)
}

/// The outpoint of the slot at this place, if there is one.
pub(crate) fn outpoint_in(held: &Held, place: usize) -> Option<&OutPoint>
    ensures { option_copied result ≡ outpoint_at held.now.slots place }
{
    match cell_in(held, place) {
        Some(cell) => cell.outpoint(),
        None => None,
    }
}

/// The row in the slot at this place, if any.
pub(crate) fn row_in(held: &Held, place: u32) -> Option<&OutRow>
    ensures row { option_copied result ≡ row_at held.now.slots place }
    ensures low { IsSome result → place < 4294967295 }
{
    match cell_in(held, place as usize) {
        Some(cell) => cell.row(),
        None => None,
    }
}

/// The outpoint of the slot at this place, if it is empty.
pub(crate) fn empty_in(held: &Held, place: u32) -> Option<OutPoint>
    ensures { result ≡ empty_from (slot_at held.now.slots place) }
{
    match cell_in(held, place as usize) {
        Some(cell) => cell.empty(),
        None => None,
    }
}

/// The cell at this place, if a row stands there.
pub(crate) fn filled_in(held: &Held, place: usize) -> Option<CellRef<'_>>
    ensures { option_map (λ cell. (cell.at.now, cell.row.now)) result
        ≡ entry_from (slot_at held.now.slots place) }
{
    match cell_in(held, place) {
        Some(cell) if cell.is_filled() => Some(cell),
        _ => None,
    }
}

/// Whether the slot at this place is that of an outpoint.
pub(crate) fn is_slot_of(held: &Held, place: u32, at: &OutPoint) -> bool
    ensures { IsTrue result ↔ (outpoint_at held.now.slots place ≡ Some at.now) }
{
    match outpoint_in(held, place as usize) {
        Some(outpoint) => *outpoint == *at,
        None => false,
    }
}

/// Reads a part of the slot at this place.
pub(crate) fn glance_in(held: &Held, place: u32) -> u32 {
    match cell_in(held, place as usize) {
        Some(cell) => cell.glance(),
        None => 0,
    }
}

/// Changes what the slot at this place holds, and answers what it held.
pub(crate) fn exchange_in(held: &mut Held, place: u32, row: Option<OutRow>) -> Option<OutRow>
    requires { IsSome (slot_at held.old.slots place) }
    ensures stood { result ≡ row_at held.old.slots place }
    ensures updates { Updates held.old.slots held.new.slots place
        (slot_with (slot_at held.old.slots place) row) }
    ensures low { place < 4294967295 }
{
    let Some(at) = outpoint_in(held, place as usize).copied() else {
        unreachable!()
    };
    let cell = SlotCell::new(held.alloc, at, row);
    replace(&mut held.pieces, place as usize, cell).into_row()
}

/// Takes this place back, and answers the row that stood there, if any. It takes no memory.
pub(crate) fn take_back(held: &mut Held, place: u32) -> Option<OutRow>
    requires { IsSome (slot_at held.old.slots place) }
    ensures stood { result ≡ row_at held.old.slots place }
    ensures updates { Updates held.old.slots held.new.slots place None }
{
    let cell = SlotCell::free(held.alloc, held.free);
    held.free = place;
    held.count = held.count.wrapping_sub(1);
    replace(&mut held.pieces, place as usize, cell).into_row()
}

/// Takes this place back, and what stands there goes.
pub(crate) fn vacate(held: &mut Held, place: u32)
    requires { IsSome (slot_at held.old.slots place) }
    ensures { Updates held.old.slots held.new.slots place None }
{
    drop(take_back(held, place));
}

/// Gives out a place, and puts a slot there with a row. Where there is no memory for it, or no
/// number below 2 ^ 32 - 16,384, the row is handed back and all places are as before.
pub(crate) fn give_out(held: &mut Held, at: OutPoint, row: OutRow) -> Result<u32, Unplaced>
    ensures free { IfOk result (λ place. slot_at held.old.slots place ≡ None) }
    ensures updates { IfOk result (λ place. Updates held.old.slots held.new.slots place
        (Some (record { at = at; row = Some row }))) }
    ensures low { IfOk result (λ place. place < 4294967295) }
    ensures handed_back { IfErr result (λ e. e.row ≡ row) }
    ensures err { OnErr result (held.new.slots ≡ held.old.slots) }
{
    let place = held.free;
    if let Some(link) = link_at(&held.pieces, place) {
        held.free = link;
        held.count = held.count.wrapping_add(1);
        let cell = SlotCell::new(held.alloc, at, Some(row));
        let _free = replace(&mut held.pieces, place as usize, cell);
        return Ok(place);
    }
    let place = give_new(&mut held.pieces, held.alloc, at, row)?;
    held.count = held.count.wrapping_add(1);
    Ok(place)
}

/// The number that was left at this place, if the place was given out and taken back.
fn link_at(pieces: &[Piece], place: u32) -> Option<u32>
    ensures cell { IsSome result → IsSome (cell_among pieces.now place) }
    ensures none { IsSome result → slot_among pieces.now place ≡ None }
{
    match cell_at(pieces, place as usize) {
        Some(cell) => cell.link(),
        None => None,
    }
}

/// Gives out a place that was never given out, and puts a slot there with a row. Where there is no
/// memory for it, or no number, the row is handed back and all pieces are as before.
fn give_new(
    pieces: &mut Vec<Piece>,
    alloc: Global,
    at: OutPoint,
    row: OutRow,
) -> Result<u32, Unplaced>
    requires few { length pieces.old.items ≤ 262143 }
    ensures few { length pieces.new.items ≤ 262143 }
    ensures free { IfOk result (λ place. slot_among pieces.old.items place ≡ None) }
    ensures updates { IfOk result (λ place. Updates (slots_of pieces.old.items)
        (slots_of pieces.new.items) place (Some (record { at = at; row = Some row }))) }
    ensures low { IfOk result (λ place. place < 4294967295) }
    ensures handed_back { IfErr result (λ e. e.row ≡ row) }
    ensures err { OnErr result (pieces.new.items ≡ pieces.old.items) }
{
    let Ok(number) = ensure_room(pieces, alloc) else {
        return Err(Unplaced { row });
    };
    let cell = SlotCell::new(alloc, at, Some(row));
    Ok(add(pieces, number, cell))
}

/// Where a satoshi is in the row of the slot at this place, if it is there.
pub(crate) fn locate_in(held: &Held, place: u32, sat: u64) -> Option<Place>
    ensures { (at : OutPoint) → outpoint_at held.now.slots place ≡ Some at
        → result ≡ place_held at (row_at held.now.slots place) sat }
{
    let offset = row_in(held, place)?.sats.place_of(sat)?;
    let outpoint = *outpoint_in(held, place as usize)?;
    Some(Place::Out { outpoint, offset })
}

/// Whether the row in the slot at this place has a run that begins with a number.
pub(crate) fn begins_at(held: &Held, place: u32, first: u64) -> bool
    ensures { result ≡ option_map_or (λ row. is_among (firsts_of (runs_of row.sats)) first)
        (row_at held.now.slots place) false }
{
    match row_in(held, place) {
        Some(row) => is_first(row.sats.runs(), first),
        None => false,
    }
}

/// Whether one of these runs begins with a number.
fn is_first(runs: &[Run], first: u64) -> bool
    ensures { result ≡ is_among (firsts_of runs.now) first }
{
    for run in runs {
        if run.first == first {
            return true;
        }
    }
    false
}
