//! Inscriptions in memory.

ghost use Rattle.std.specs.Prelude.{◌≡◌, ◌+◌, ◌-◌, ◌^◌, ◌<◌, ◌≤◌, [], ◌++◌, length, take};
ghost use Rattle.std.specs.Prelude.{◌==◌, Some, None, IsSome, IfOk, OnOk, OnErr, slice_get};
ghost use Rattle.std.specs.Prelude.{drop, option_map};
ghost use Rattle.ox_inscribe.specs.Inscriptions.{find, on, next_on, children};
ghost use Rattle.ox_inscribe.specs.Moves.{AreMovesOf};
ghost use Rattle.ox_inscribe.specs.Reveal.{reveal_of};
ghost use Rattle.ox_inscribe.specs.Signed.{number_at};

use crate::numbers::numbers_below;
use crate::reveal::reveal_rows;
use crate::row::InsRow;
use crate::rows::Rows;
use crate::shared::SharedRow;
use ox_block::Block;
use ox_bytes::{List, Memory};
use ox_envelope::InsId;
use ox_rules::Moved;
use std::alloc::Global;
use std::marker::Model;

/// Inscriptions in order, with a mark to which they can go back. A row's sequence is its place
/// among them; beside it a row has a signed number, for which the shelf is told its jubilee once.
/// Contracts see the list of rows, beside it the list at the mark or none, and the jubilee.
///
/// The mark copies nothing: rows that stood there and are dropped stay, unseen, until the next
/// mark, so that to go back takes no memory.
pub struct Shelf {
    alloc: Global,
    /// All rows, the unseen ones behind the others.
    rows: Rows,
    /// How many rows are seen.
    shown: u32,
    /// How many stood at the mark.
    mark: Option<u32>,
}

/// By hand, so that whoever drops a shelf makes one call, and proves nothing of its fields.
impl Drop for Shelf {
    fn drop(self) {
        let Shelf {
            alloc: _alloc,
            rows: _rows,
            shown: _shown,
            mark: _mark,
        } = self;
    }
}

impl Model for Shelf {
    ghost use Rattle.std.specs.Prelude.{take, option_map};
    ghost use Rattle.ox_inscribe.specs.Shelved.{IsShelf, Shelved};

    ghost Value = { Shelved };

    ghost view = { λ shelf. record {
      rows = take shelf.shown shelf.rows.rows;
      mark = option_map (λ n. take n shelf.rows.rows) shelf.mark;
      jubilee = shelf.rows.jubilee;
    } };

    ghost invariant = { λ shelf. IsShelf shelf.rows.rows shelf.shown shelf.mark };
}

/// Puts rows behind others, as far as there is memory. They are shared.
fn push_rows(rows: &mut Rows, more: &[SharedRow]) -> Result<(), Memory>
    ensures ok { OnOk result (rows.new.rows ≡ rows.old.rows ++ more.now) }
    ensures front { take (length rows.old.rows) rows.new.rows ≡ rows.old.rows }
    ensures jubilee { rows.new.jubilee ≡ rows.old.jubilee }
{
    for row in more {
        rows.push(row.share()?)?;
    }
    Ok(())
}

/// The same rows once more, which are shared.
fn share_all(alloc: Global, rows: &[SharedRow]) -> Result<List<SharedRow>, Memory>
    ensures { IfOk result (λ shared. shared ≡ rows.now) }
{
    let mut shared = List::from_vec(Vec::with_capacity(alloc, rows.len())?);
    for row in rows {
        shared.push(row.share()?)?;
    }
    Ok(shared)
}

impl Shelf {
    /// No rows, and no mark. Marked rows that are revealed below this jubilee are cursed. It takes
    /// no memory until a row is appended.
    pub fn new(alloc: Global, jubilee: u64) -> Shelf
        ensures rows { result.rows ≡ [] }
        ensures mark { result.mark ≡ None }
        ensures jubilee { result.jubilee ≡ jubilee }
    {
        Shelf {
            alloc,
            rows: Rows::new(alloc, jubilee),
            shown: 0,
            mark: None,
        }
    }

    /// How many rows there are.
    pub fn len(&self) -> u32
        ensures { result ≡ length self.now.rows }
    {
        self.shown
    }

    /// Whether there are none.
    pub fn is_empty(&self) -> bool
        ensures { result ≡ (length self.now.rows == 0) }
    {
        self.len() == 0
    }

    /// The row with a sequence.
    pub fn row(&self, n: u32) -> &InsRow
        requires { n < length self.now.rows }
        ensures { slice_get self.now.rows n ≡ Some result.now }
    {
        self.rows.row(n)
    }

    /// The signed number of the row with a sequence: of a cursed one -1 less the cursed ones before
    /// it, of any other how many others stand before it. It reads no row.
    pub fn number(&self, n: u32) -> i64
        requires { n < length self.now.rows }
        ensures { number_at self.now.jubilee self.now.rows n ≡ Some result }
    {
        self.rows.number(n)
    }

    /// The rows from a sequence on, which are shared, not copied. `Memory` where there is none for
    /// the list of them.
    pub fn rows_from(&self, n: u32) -> Result<List<SharedRow>, Memory>
        requires { n ≤ length self.now.rows }
        ensures { IfOk result (λ rows. rows ≡ drop n self.now.rows) }
    {
        share_all(
            self.alloc,
            &self.rows.as_slice()[n as usize..self.shown as usize],
        )
    }

    /// The sequence of the first row with an id, if there is one.
    pub fn find(&self, id: &InsId) -> Option<u32>
        ensures { result ≡ find self.now.rows id.now }
    {
        let number = self.rows.find(id)?;
        if number < self.shown {
            Some(number)
        } else {
            None
        }
    }

    /// The sequences of the rows on a satoshi, rising.
    pub fn on(&self, sat: u64) -> &[u32]
        ensures { result.now ≡ on self.now.rows sat }
    {
        numbers_below(self.rows.on(sat), self.shown)
    }

    /// The least satoshi from a number up that a row is on, and the sequences of the rows on it,
    /// rising. `None` exactly where there is none.
    pub fn next_on(&self, sat: u64) -> Option<(u64, &[u32])>
        ensures { option_map (λ found. (found.0, found.1.now)) result
            ≡ next_on self.now.rows sat }
    {
        self.rows.next_on(sat, self.shown)
    }

    /// The sequences of the rows among whose parents the id of the row with a sequence stands,
    /// rising.
    pub fn children(&self, of: u32) -> &[u32]
        requires { of < length self.now.rows }
        ensures { result.now ≡ children self.now.rows of }
    {
        numbers_below(self.rows.children(&self.row(of).id), self.shown)
    }

    /// Puts these rows behind the others. They are shared, not copied. While rows that stood at the
    /// mark are dropped, it finds no memory: set the mark anew first. `Memory` where there is none
    /// left: the rows are as before.
    pub fn append(&mut self, rows: &[SharedRow]) -> Result<(), Memory>
        requires { length self.old.rows + length rows.now < 2 ^ 32 }
        ensures ok { OnOk result (self.new.rows ≡ self.old.rows ++ rows.now) }
        ensures err { OnErr result (self.new.rows ≡ self.old.rows) }
        ensures mark { self.new.mark ≡ self.old.mark }
        ensures jubilee { self.new.jubilee ≡ self.old.jubilee }
    {
        if self.rows.len() > self.shown {
            return Err(Memory);
        }
        match push_rows(&mut self.rows, rows) {
            Ok(()) => {
                self.shown = self.rows.len();
                Ok(())
            }
            Err(e) => {
                self.rows.truncate(self.shown);
                Err(e)
            }
        }
    }

    /// Puts the rows that a block at this height reveals behind the others, and answers how many
    /// there are (Ordinal Theory Handbook, "Inscriptions", "Pointer" and "Provenance"). Each
    /// envelope of a transaction other than the coinbase reveals one, in block order; those whose
    /// satoshi goes to the fees come last.
    ///
    /// `moved` says what the block's transactions did with satoshis, as the transfer answers it.
    ///
    /// A transaction without an envelope costs a look at its witnesses. One with envelopes costs by
    /// them and by its runs of satoshis, and each pointer and parent by a logarithm.
    ///
    /// `Memory` where there is none left, or rows that stood at the mark are dropped: set the mark
    /// anew first; or where there would be 4,294,967,296 rows. The rows are then as before.
    pub fn reveal(&mut self, moved: &Moved, block: &Block, height: u32) -> Result<u32, Memory>
        requires { AreMovesOf block.now.txs moved.now.txs }
        ensures rows { OnOk result (self.new.rows ≡ self.old.rows
            ++ reveal_of self.old.rows height block.now.txs moved.now.txs) }
        ensures count { IfOk result (λ count. count
            ≡ length (reveal_of self.old.rows height block.now.txs moved.now.txs)) }
        ensures err { OnErr result (self.new.rows ≡ self.old.rows) }
        ensures mark { self.new.mark ≡ self.old.mark }
        ensures jubilee { self.new.jubilee ≡ self.old.jubilee }
    {
        if self.shown < self.rows.len() {
            return Err(Memory);
        }
        match reveal_rows(self.alloc, &mut self.rows, moved, block, height) {
            Ok(()) => {
                let count = self.rows.len() - self.shown;
                self.shown = self.rows.len();
                Ok(count)
            }
            Err(e) => {
                self.rows.truncate(self.shown);
                Err(e)
            }
        }
    }

    /// Takes the last rows away, so many. It takes no memory.
    pub fn drop_last(&mut self, n: u32)
        requires { n ≤ length self.old.rows }
        ensures rows { self.new.rows ≡ take (length self.old.rows - n) self.old.rows }
        ensures mark { self.new.mark ≡ self.old.mark }
        ensures jubilee { self.new.jubilee ≡ self.old.jubilee }
    {
        let left = self.shown - n;
        let end = left.max(self.mark.unwrap_or(0));
        self.rows.truncate(end);
        self.shown = left;
    }

    /// Sets the mark at the rows as they are, in place of an earlier one. It takes no memory.
    pub fn begin(&mut self)
        ensures rows { self.new.rows ≡ self.old.rows }
        ensures mark { self.new.mark ≡ Some self.old.rows }
        ensures jubilee { self.new.jubilee ≡ self.old.jubilee }
    {
        self.rows.truncate(self.shown);
        self.mark = Some(self.shown);
    }

    /// Goes back to the rows at the mark, which is spent. It takes no memory.
    pub fn cancel(&mut self)
        requires { IsSome self.old.mark }
        ensures rows { Some self.new.rows ≡ self.old.mark }
        ensures mark { self.new.mark ≡ None }
        ensures jubilee { self.new.jubilee ≡ self.old.jubilee }
    {
        if let Some(len) = self.mark {
            self.rows.truncate(len);
            self.shown = len;
        }
        self.mark = None;
    }
}
