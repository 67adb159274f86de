//! A cell: some starts of runs, in order.

ghost use Rattle.std.specs.Prelude.{◌≡◌, ℕ, ◌<◌, ◌≤◌, [], length, None, Some, IsSome, IsOk};
ghost use Rattle.std.specs.Prelude.{true, false, ◌-◌, ◌^◌, All};
ghost use Rattle.std.specs.Prelude.{IfSome, IfNone, IfOk, IfErr, OnOk, OnErr, slice_index_or};
ghost use Rattle.ox_outputs.specs.Cells.{StartList, start_at, first_at, AreRising, AreOffsets};
ghost use Rattle.ox_outputs.specs.Cells.{starts_from, SetsAt, IsCut, IsAt, IsGapFor, IsLastTo};
ghost use Rattle.ox_outputs.specs.Packed.{IsPlace};

use ox_bytes::Memory;
use std::alloc::Global;
use std::marker::Model;

/// Each offset of a start from its cell is below this.
pub(crate) const REACH: u64 = 1 << 32;

/// This stands for no place.
const NONE: u32 = u32::MAX;

/// The offset from its cell of a number with which a run begins or began, with the place of the
/// slot that holds the run, if one does: in 8 bytes, so that the place which stands for none can't
/// be held. Contracts see the offset and the place.
#[derive(Clone, Copy)]
struct Start {
    offset: u32,
    place: u32,
}

impl Model for Start {
    ghost use Rattle.std.specs.Prelude.{ℕ, Option};
    ghost use Rattle.ox_outputs.specs.Packed.{slot_kept, place_of, place_back};

    ghost Value = { ℕ × Option ℕ };

    ghost view = { λ s. (s.offset, slot_kept s.place) };

    ghost inverse = { λ v. record { offset = v.0; place = place_of v.1 } };

    ghost inverse_ok = { λ s met i. record { offset = s.offset; place = place_back s.place i } };
}

impl Start {
    /// An offset with the place of a slot, or none.
    fn new(offset: u32, slot: Option<u32>) -> Start
        requires { IsPlace slot }
        ensures { result ≡ (offset, slot) }
    {
        Start {
            offset,
            place: slot.unwrap_or(NONE),
        }
    }

    /// The offset.
    fn offset(&self) -> u32
        ensures { result ≡ self.now.0 }
    {
        self.offset
    }

    /// The place, if there is one.
    fn slot(&self) -> Option<u32>
        ensures is { result ≡ self.now.1 }
        ensures place { IsPlace result }
    {
        if self.place == NONE {
            None
        } else {
            Some(self.place)
        }
    }

    /// The same with its offset from a cell that reaches from so much further.
    fn less(&self, base: u32) -> Start
        requires { base ≤ self.now.0 }
        ensures { result ≡ (self.now.0 - base, self.now.1) }
    {
        Start {
            offset: self.offset - base,
            place: self.place,
        }
    }
}

/// So many starts are the most of a cell.
const MOST: usize = 512;

/// For so many starts more memory is taken at a time.
const ROOM: usize = 8;

/// Starts by rising offsets from the number from which the cell reaches. Contracts see them as a
/// list.
#[derive(Drop)]
pub(crate) struct Cell {
    starts: Vec<Start>,
}

impl Model for Cell {
    ghost Value = { StartList };

    ghost view = { λ c. c.starts.items };

    ghost invariant = { λ c. AreRising c.starts.items × AreOffsets c.starts.items };
}

impl Cell {
    /// No starts. It takes no memory until one comes.
    pub(crate) fn new(alloc: Global) -> Cell
        ensures { result ≡ [] }
    {
        Cell {
            starts: Vec::new(alloc),
        }
    }

    /// How many starts there are.
    pub(crate) fn len(&self) -> usize
        ensures { result ≡ length self.now }
    {
        self.starts.len()
    }

    /// What stands at an offset, if it is among these.
    pub(crate) fn get(&self, offset: u64) -> Option<Option<u32>>
        ensures { result ≡ start_at self.now offset }
    {
        match self.search(offset) {
            Ok(at) => Some(self.starts[at].slot()),
            Err(_) => None,
        }
    }

    /// Puts a slot, or none, at an offset, and answers what stood there. `Memory` where there is
    /// none for an offset that wasn't among these: all is as before.
    pub(crate) fn put(
        &mut self,
        offset: u32,
        slot: Option<u32>,
    ) -> Result<Option<Option<u32>>, Memory>
        requires { IsPlace slot }
        ensures ok { OnOk result (SetsAt (start_at self.old) (start_at self.new) offset
            (Some slot)) }
        ensures stood { IfOk result (λ stood. stood ≡ start_at self.old offset) }
        ensures place { IfOk result (λ stood. IfSome stood (λ slot. IsPlace slot)) }
        ensures err { OnErr result (self.new ≡ self.old) }
        ensures kept { IsSome (start_at self.old offset) → IsOk result }
    {
        match self.search(offset as u64) {
            Ok(at) => {
                let stood = self.starts[at].slot();
                self.starts[at] = Start::new(offset, slot);
                Ok(Some(stood))
            }
            Err(at) => {
                grow(&mut self.starts)?;
                self.starts.insert(at, Start::new(offset, slot))?;
                Ok(None)
            }
        }
    }

    /// Takes an offset away.
    pub(crate) fn remove(&mut self, offset: u64)
        ensures { SetsAt (start_at self.old) (start_at self.new) offset None }
    {
        match self.search(offset) {
            Ok(at) => {
                let _start = self.starts.remove(at);
                give_back(&mut self.starts);
            }
            Err(_) => {}
        }
    }

    /// The last start at an offset or before.
    pub(crate) fn last_to(&self, offset: u64) -> Option<(u64, Option<u32>)>
        ensures some { IfSome result (λ start. IsLastTo (start_at self.now) offset start) }
        ensures none { IfNone result ((q : ℕ) → IsSome (start_at self.now q) → offset < q) }
    {
        let end = match self.search(offset) {
            Ok(at) => return Some((offset, self.starts[at].slot())),
            Err(at) => at,
        };
        match end.checked_sub(1) {
            Some(last) => {
                let start = self.starts[last];
                Some((start.offset() as u64, start.slot()))
            }
            None => None,
        }
    }

    /// Whether an offset is below 2^32, as all are that can be among these.
    pub(crate) fn reaches(&self, offset: u64) -> bool
        ensures low { result ≡ true → offset < 2 ^ 32 }
        ensures high { result ≡ false → 2 ^ 32 ≤ offset }
        ensures none { (q : ℕ) → IsSome (start_at self.now q) → q < 2 ^ 32 }
    {
        // a look, by which the invariant tells how high they are
        let _starts = &self.starts;
        offset < REACH
    }

    /// Whether an offset can be put among these, since there is room or it is there.
    pub(crate) fn takes(&self, offset: u64) -> bool
        ensures there { IsSome (start_at self.now offset) → result ≡ true }
        ensures full { result ≡ false → 1 < length self.now }
    {
        if self.starts.len() < MOST {
            return true;
        }
        match self.search(offset) {
            Ok(_) => true,
            Err(_) => false,
        }
    }

    /// The starts in two halves, and the offset with which the second begins, from which those of
    /// its starts are counted. `Memory` where there is none for them.
    pub(crate) fn halves(&self, alloc: Global) -> Result<(Cell, u32, Cell), Memory>
        requires { 1 < length self.now }
        ensures { IfOk result (λ parts.
            IsCut self.now parts.0 parts.1 (starts_from parts.1 parts.2)) }
    {
        let count = self.len() / 2;
        let (low, high) = self.starts.split_at(count);
        let middle = high[0].offset();
        let low = copy_of(alloc, low)?;
        let high = copy_from(alloc, high, middle)?;
        Ok((low, middle, high))
    }

    /// Where the offset is, or where it would go.
    fn search(&self, offset: u64) -> Result<usize, usize>
        ensures found { IfOk result (IsAt self.now offset) }
        ensures absent { IfErr result (IsGapFor self.now offset) }
    {
        self.starts
            .binary_search_by_key(&offset, |start| start.offset() as u64)
    }
}

/// Makes room for a start where there is none.
fn grow(starts: &mut Vec<Start>) -> Result<(), Memory>
    ensures { starts.new.items ≡ starts.old.items }
{
    if starts.len() == starts.capacity() {
        starts.reserve_exact(ROOM)?;
    }
    Ok(())
}

/// Gives memory back where there is room for more starts than come at a time.
fn give_back(starts: &mut Vec<Start>)
    ensures { starts.new.items ≡ starts.old.items }
{
    let enough = starts.len().saturating_add(ROOM);
    if starts.capacity() > enough.saturating_add(ROOM) {
        // where it can't be moved, it stays as it is
        let _moved = starts.shrink_to(enough);
    }
}

/// A cell of these starts.
fn copy_of(alloc: Global, starts: &[Start]) -> Result<Cell, Memory>
    requires rising { AreRising starts.now }
    requires low { AreOffsets starts.now }
    ensures { IfOk result (λ cell. cell ≡ starts.now) }
{
    Ok(Cell {
        starts: Vec::from_slice(alloc, starts)?,
    })
}

/// A cell of these starts that reaches from so much further.
fn copy_from(alloc: Global, starts: &[Start], base: u32) -> Result<Cell, Memory>
    requires rising { AreRising starts.now }
    requires low { AreOffsets starts.now }
    requires base { All (λ start. base ≤ start.0) starts.now }
    ensures { IfOk result (λ cell. starts_from base cell ≡ starts.now) }
{
    let mut counted = Vec::with_capacity(alloc, starts.len())?;
    for start in starts {
        counted.push_reserved(start.less(base));
    }
    Ok(Cell { starts: counted })
}
