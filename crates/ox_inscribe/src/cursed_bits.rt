//! Which rows are cursed, a bit for each.

ghost use Rattle.std.specs.Prelude.{◌≡◌, ◌+◌, ◌*◌, ◌/◌, ◌%◌, ◌^◌, ◌<◌, ◌==◌, [], ◌∷◌, ◌++◌, List};
ghost use Rattle.std.specs.Prelude.{count_by, length, Some, OnOk, OnErr};
ghost use Rattle.ox_inscribe.specs.Shelved.{AreCursed};
ghost use Rattle.ox_inscribe.specs.Signed.{is_cursed, number_at, signed};
ghost use Rattle.ox_inscribe.specs.declared.row.InsRow.{InsRow};

use crate::row::InsRow;
use crate::shared::SharedRow;
use ox_bytes::Memory;
use std::alloc::Global;

/// Which rows are cursed. Three bytes keep it of sixteen rows.
#[derive(Drop)]
pub(crate) struct Cursed {
    /// Marked rows that were revealed below this height are cursed.
    pub(crate) jubilee: u64,
    /// A word for each 64 rows, with a bit for each that is cursed: the first row's is the lowest.
    words: Vec<u64>,
    /// For each word, how many rows before its own are cursed.
    counts: Vec<u32>,
}

/// The bits of a word below that of the row at a place.
fn bits_below(word: u64, place: u32) -> u64
    ensures { result ≡ word % 2 ^ (place % 64) }
{
    word & ((1 << (place % 64)) - 1)
}

/// Whether the bit of the row at a place is set in its word.
fn has_bit(word: u64, place: u32) -> bool
    ensures { result ≡ (word / 2 ^ (place % 64) % 2 == 1) }
{
    (word >> (place % 64)) & 1 == 1
}

/// The number of a cursed row behind so many cursed ones, or of another behind so many others.
fn signed(is_cursed: bool, cursed: u32, others: u32) -> i64
    ensures { result ≡ signed is_cursed cursed others }
{
    if is_cursed {
        -1 - i64::from(cursed)
    } else {
        i64::from(others)
    }
}

impl Cursed {
    /// Those of no rows. It takes no memory.
    pub(crate) fn new(alloc: Global, jubilee: u64) -> Cursed
        ensures none { AreCursed [] result }
        ensures jubilee { result.jubilee ≡ jubilee }
    {
        Cursed {
            jubilee,
            words: Vec::new(alloc),
            counts: Vec::new(alloc),
        }
    }

    /// How many of all rows are cursed.
    fn count(&self) -> u32
        ensures { (rows : List InsRow) → AreCursed rows self.now → length rows < 2 ^ 32
            → result ≡ count_by (is_cursed self.now.jubilee) rows }
    {
        match (self.words.last(), self.counts.last()) {
            (Some(word), Some(count)) => count.wrapping_add(word.count_ones()),
            _ => 0,
        }
    }

    /// Begins a word by its first bit, and by how many rows before are cursed. `Memory` where there
    /// is none for it: nothing has changed then.
    fn begin_word(&mut self, bit: u64, count: u32) -> Result<(), Memory>
        ensures words { OnOk result (self.new.words.items ≡ self.old.words.items ++ bit ∷ []) }
        ensures counts { OnOk result (self.new.counts.items ≡ self.old.counts.items ++ count ∷ []) }
        ensures same_words { OnErr result (self.new.words.items ≡ self.old.words.items) }
        ensures same_counts { OnErr result (self.new.counts.items ≡ self.old.counts.items) }
        ensures jubilee { self.new.jubilee ≡ self.old.jubilee }
    {
        self.words.reserve(1)?;
        self.counts.push(count)?;
        self.words.push_reserved(bit);
        Ok(())
    }

    /// Notes whether a row is cursed, which stands behind the others. `Memory` where there is none
    /// for it: nothing has changed then.
    pub(crate) fn note(&mut self, row: &InsRow, place: u32) -> Result<(), Memory>
        ensures ok { OnOk result ((rows : List InsRow) → AreCursed rows self.old
            → length rows ≡ place → AreCursed (rows ++ row.now ∷ []) self.new) }
        ensures err { OnErr result ((rows : List InsRow) → AreCursed rows self.old
            → AreCursed rows self.new) }
        ensures jubilee { self.new.jubilee ≡ self.old.jubilee }
    {
        let bit = u64::from(row.is_cursed(self.jubilee));
        let index = (place / 64) as usize;
        if index < self.words.len() {
            self.words[index] |= bit << (place % 64);
            return Ok(());
        }
        let count = self.count();
        self.begin_word(bit, count)
    }

    /// Takes the bit of the last row away, and with the first bit of a word the word. Which row it
    /// is matters to the contract alone.
    pub(crate) fn forget(&mut self, row: &InsRow, place: u32)
        ensures rows { (rows : List InsRow) → AreCursed (rows ++ row.now ∷ []) self.old
            → length rows ≡ place → AreCursed rows self.new }
        ensures jubilee { self.new.jubilee ≡ self.old.jubilee }
    {
        let index = (place / 64) as usize;
        if place % 64 == 0 {
            self.words.truncate(index);
            self.counts.truncate(index);
        } else if index < self.words.len() {
            self.words[index] = bits_below(self.words[index], place);
        }
    }

    /// The signed number of the row at a place. It reads a word and a count: the rows are there for
    /// the contract alone.
    pub(crate) fn number(&self, rows: &[SharedRow], place: u32) -> i64
        requires all { AreCursed rows.now self.now }
        requires there { place < length rows.now }
        ensures { number_at self.now.jubilee rows.now place ≡ Some result }
    {
        let index = (place / 64) as usize;
        let word = self.words[index];
        let cursed = self.counts[index] + bits_below(word, place).count_ones();
        signed(has_bit(word, place), cursed, place - cursed)
    }
}
