//! The starts of runs, in cells.

ghost use Rattle.std.specs.Prelude.{◌≡◌, ℕ, ◌<◌, ◌≤◌, [], length, None, Some, IsSome, IsOk, true};
ghost use Rattle.std.specs.Prelude.{IfSome, IfNone, IfOk, IfErr, OnOk, OnErr};
ghost use Rattle.std.specs.Prelude.{◌≢◌, ◌+◌, ◌^◌, false};
ghost use Rattle.ox_outputs.specs.Cells.{StartList, CellList, start_at, start_in, cell_at};
ghost use Rattle.ox_outputs.specs.Cells.{starts_from, SetsAt, IsHome, IsNear, IsCut, IsLastTo};
ghost use Rattle.ox_outputs.specs.Cells.{AreAtHome, IsFree, AreNumbers};
ghost use Rattle.ox_outputs.specs.Packed.{IsPlace};

use crate::cell::{Cell, REACH};
use ox_bytes::Memory;
use std::alloc::Global;
use std::collections::BTreeMap;
use std::marker::Model;

/// Starts in cells. Contracts see the cells by the numbers from which they reach, and of each start
/// in a cell its offset from there.
#[derive(Drop)]
pub(crate) struct Cells {
    cells: BTreeMap<u64, Cell>,
    alloc: Global,
}

impl Model for Cells {
    ghost Value = { CellList };

    ghost view = { λ c. c.cells.entries };

    ghost invariant = { λ c. AreAtHome (cell_at c.cells.entries) × AreNumbers c.cells.entries };
}

impl Cells {
    /// No starts. It takes no memory until one comes.
    pub(crate) fn new(alloc: Global) -> Cells
        ensures { (q : ℕ) → start_in result q ≡ None }
    {
        Cells {
            cells: BTreeMap::new(alloc),
            alloc,
        }
    }

    /// What stands at a number, if it is among the starts.
    pub(crate) fn get(&self, first: u64) -> Option<Option<u32>>
        ensures { result ≡ start_in self.now first }
    {
        match self.near(first) {
            Some((from, cell)) => cell.get(first - from),
            None => None,
        }
    }

    /// The last start at a number or before.
    pub(crate) fn last_to(&self, number: u64) -> Option<(u64, Option<u32>)>
        ensures some { IfSome result (λ start. IsLastTo (start_in self.now) number start) }
        ensures none { IfNone result ((q : ℕ) → IsSome (start_in self.now q) → number < q) }
    {
        let mut at = number;
        while let Some((from, cell)) = self.near(at) {
            if let Some((offset, slot)) = cell.last_to(at - from) {
                return Some((from + offset, slot));
            }
            match from.checked_sub(1) {
                Some(before) => at = before,
                None => return None,
            }
        }
        None
    }

    /// Puts a slot, or none, at a number, and answers what stood there. `Memory` where there is
    /// none for a number that wasn't among the starts: all starts are as before.
    pub(crate) fn put(
        &mut self,
        first: u64,
        slot: Option<u32>,
    ) -> Result<Option<Option<u32>>, Memory>
        requires { IsPlace slot }
        ensures ok { OnOk result (SetsAt (start_in self.old) (start_in self.new) first
            (Some slot)) }
        ensures stood { IfOk result (λ stood. stood ≡ start_in self.old first) }
        ensures place { IfOk result (λ stood. IfSome stood (λ slot. IsPlace slot)) }
        ensures err { OnErr result ((q : ℕ) → start_in self.new q ≡ start_in self.old q) }
        ensures there { IsSome (start_in self.old first) → IsOk result }
    {
        let from = self.make_room(first)?;
        self.put_in(from, first, slot)
    }

    /// Takes a number away.
    pub(crate) fn remove(&mut self, first: u64)
        ensures { SetsAt (start_in self.old) (start_in self.new) first None }
    {
        match self.near(first) {
            Some((from, _)) => self.remove_at(from, first),
            None => {}
        }
    }

    /// The cell in which a number may stand, and the number from which it reaches.
    fn near(&self, number: u64) -> Option<(u64, &Cell)>
        ensures some { IfSome result (λ e.
            IsNear (cell_at self.now) number e.0 (starts_from e.0 e.1.now)) }
        ensures none { IfNone result ((from : ℕ) → from ≤ number → cell_at self.now from ≡ None) }
        ensures home { AreAtHome (cell_at self.now) }
        ensures numbers { AreNumbers self.now }
    {
        let mut range = self.cells.range(..=number);
        match range.next_back() {
            Some((from, cell)) => Some((*from, cell)),
            None => None,
        }
    }

    /// Sees to it that a number has a cell with room for it, and answers from where that reaches.
    /// All starts are as before, also where there is no memory.
    fn make_room(&mut self, first: u64) -> Result<u64, Memory>
        ensures same { (q : ℕ) → start_in self.new q ≡ start_in self.old q }
        ensures ok { IfOk result (λ from. IsSome (cell_at self.new from)) }
        ensures home { IfOk result (λ from. IsHome (cell_at self.new) from first) }
        ensures reach { IfOk result (λ from. first < from + 2 ^ 32) }
        ensures there { IsSome (start_in self.old first) → IsOk result }
    {
        match self.near(first) {
            Some((from, cell)) => {
                let offset = first - from;
                if !cell.reaches(offset) {
                    return self.add_cell(base_for(first, from + REACH));
                }
                if cell.takes(offset) {
                    return Ok(from);
                }
                let (low, middle, high) = cell.halves(self.alloc)?;
                let middle = from + middle as u64;
                self.split(from, low, middle, high)?;
                Ok(if first < middle { from } else { middle })
            }
            None => self.add_cell(base_for(first, 0)),
        }
    }

    /// Adds a cell without starts that reaches from a number.
    fn add_cell(&mut self, at: u64) -> Result<u64, Memory>
        requires { IsFree (cell_at self.old) at }
        ensures same { (q : ℕ) → start_in self.new q ≡ start_in self.old q }
        ensures ok { IfOk result (λ from. (from ≡ at) × IsSome (cell_at self.new from)) }
        ensures others { (from : ℕ) → from ≢ at → cell_at self.new from ≡ cell_at self.old from }
    {
        self.cells.insert(at, Cell::new(self.alloc))?;
        Ok(at)
    }

    /// Puts the two parts of a cell in its place. All starts are as before, also where there is no
    /// memory.
    fn split(&mut self, from: u64, low: Cell, middle: u64, high: Cell) -> Result<(), Memory>
        requires cut { IfSome (cell_at self.old from) (λ cell.
            IsCut cell (starts_from from low) middle (starts_from middle high)) }
        requires there { IsSome (cell_at self.old from) }
        ensures same { (q : ℕ) → start_in self.new q ≡ start_in self.old q }
        ensures low { OnOk result ((q : ℕ) → q < middle → IsHome (cell_at self.old) from q
            → IsHome (cell_at self.new) from q) }
        ensures high { OnOk result ((q : ℕ) → middle ≤ q → IsHome (cell_at self.old) from q
            → IsHome (cell_at self.new) middle q) }
        ensures low_there { OnOk result (IsSome (cell_at self.new from)) }
        ensures high_there { OnOk result (IsSome (cell_at self.new middle)) }
    {
        self.cells.insert(middle, high)?;
        // no number is new
        let _whole = self.cells.insert(from, low);
        Ok(())
    }

    /// Puts a slot, or none, at a number in its cell, and answers what stood there.
    fn put_in(
        &mut self,
        from: u64,
        first: u64,
        slot: Option<u32>,
    ) -> Result<Option<Option<u32>>, Memory>
        requires there { IsSome (cell_at self.old from) }
        requires home { IsHome (cell_at self.old) from first }
        requires reach { first < from + 2 ^ 32 }
        requires place { IsPlace slot }
        ensures ok { OnOk result (SetsAt (start_in self.old) (start_in self.new) first
            (Some slot)) }
        ensures stood { IfOk result (λ stood. stood ≡ start_in self.old first) }
        ensures place { IfOk result (λ stood. IfSome stood (λ slot. IsPlace slot)) }
        ensures err { OnErr result ((q : ℕ) → start_in self.new q ≡ start_in self.old q) }
        ensures kept { IsSome (start_in self.old first) → IsOk result }
    {
        match self.cells.get_mut(&from) {
            Some(cell) => cell.put((first - from) as u32, slot),
            None => unreachable!(),
        }
    }

    /// Takes a number out of its cell, and the cell away where it has no starts left.
    fn remove_at(&mut self, from: u64, first: u64)
        requires home { IsHome (cell_at self.old) from first }
        requires there { IsSome (cell_at self.old from) }
        ensures { SetsAt (start_in self.old) (start_in self.new) first None }
    {
        if self.remove_in(from, first) {
            self.drop_cell(from);
        }
    }

    /// Takes a number out of its cell, and answers whether that has no starts left.
    fn remove_in(&mut self, from: u64, first: u64) -> bool
        requires home { IsHome (cell_at self.old) from first }
        requires there { IsSome (cell_at self.old from) }
        ensures set { SetsAt (start_in self.old) (start_in self.new) first None }
        ensures empty { result ≡ true → cell_at self.new from ≡ Some [] }
    {
        match self.cells.get_mut(&from) {
            Some(cell) => {
                cell.remove(first - from);
                cell.len() == 0
            }
            None => unreachable!(),
        }
    }

    /// Takes a cell away that has no starts.
    fn drop_cell(&mut self, from: u64)
        requires { cell_at self.old from ≡ Some [] }
        ensures { (q : ℕ) → start_in self.new q ≡ start_in self.old q }
    {
        self.cells.remove(&from);
    }
}

/// From where a new cell reaches that a number goes into, from a least number on: from a multiple
/// of a cell's reach, if one is between, so that numbers share a cell in whatever order they come.
fn base_for(first: u64, least: u64) -> u64
    requires { least ≤ first }
    ensures least { least ≤ result }
    ensures low { result ≤ first }
    ensures reach { first < result + 2 ^ 32 }
{
    (first - first % REACH).max(least)
}
