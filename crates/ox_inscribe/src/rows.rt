//! Rows, where each is found, and which are cursed.

ghost use Rattle.std.specs.Prelude.{◌≡◌, ◌<◌, [], ◌∷◌, ◌++◌, length, take, slice_get, Some};
ghost use Rattle.std.specs.Prelude.{option_map, option_to_list, IsSome, OnOk, OnErr, ◌↔◌};
ghost use Rattle.ox_inscribe.specs.Inscriptions.{find, has_parent, next_on, numbers_where, on};
ghost use Rattle.ox_inscribe.specs.Signed.{number_at};

use crate::cursed_bits::Cursed;
use crate::keys::Keys;
use crate::numbers::numbers_below;
use crate::row::InsRow;
use crate::shared::SharedRow;
use ox_block::Tx;
use ox_bytes::Memory;
use ox_envelope::InsId;
use ox_rules::MovedTx;
use std::alloc::Global;
use std::marker::Model;

/// Fewer than 2^32 rows in order, which are found by id, by satoshi and by parent, and have signed
/// numbers. Contracts see the list of them, and the jubilee by which they are numbered.
#[derive(Drop)]
pub(crate) struct Rows {
    list: Vec<SharedRow>,
    keys: Keys,
    cursed: Cursed,
}

impl Model for Rows {
    ghost use Rattle.ox_inscribe.specs.Shelved.{AreRows, Numbered};

    ghost Value = { Numbered };

    ghost view = { λ all. record { rows = all.list.items; jubilee = all.cursed.jubilee } };

    ghost invariant = { λ all. AreRows all.list.items all.keys all.cursed };
}

impl Rows {
    /// No rows. It takes no memory.
    pub(crate) fn new(alloc: Global, jubilee: u64) -> Rows
        ensures rows { result.rows ≡ [] }
        ensures jubilee { result.jubilee ≡ jubilee }
    {
        Rows {
            list: Vec::new(alloc),
            keys: Keys::new(alloc),
            cursed: Cursed::new(alloc, jubilee),
        }
    }

    /// How many there are.
    pub(crate) fn len(&self) -> u32
        ensures { result ≡ length self.now.rows }
    {
        self.list.len() as u32
    }

    /// The rows, in order.
    pub(crate) fn as_slice(&self) -> &[SharedRow]
        ensures { result.now ≡ self.now.rows }
    {
        &self.list
    }

    /// The row at a place.
    pub(crate) fn row(&self, place: u32) -> &InsRow
        requires { place < length self.now.rows }
        ensures { slice_get self.now.rows place ≡ Some result.now }
    {
        self.list[place as usize].row()
    }

    /// The signed number of the row at a place. It reads no row.
    pub(crate) fn number(&self, place: u32) -> i64
        requires { place < length self.now.rows }
        ensures { number_at self.now.jubilee self.now.rows place ≡ Some result }
    {
        self.cursed.number(&self.list, place)
    }

    /// The place of the first row with an id.
    pub(crate) fn find(&self, id: &InsId) -> Option<u32>
        ensures { result ≡ find self.now.rows id.now }
    {
        self.keys.find(id)
    }

    /// The places of the rows on a satoshi, rising.
    pub(crate) fn on(&self, sat: u64) -> &[u32]
        ensures { result.now ≡ on self.now.rows sat }
    {
        self.keys.on(sat)
    }

    /// The least satoshi from a number up that one of the first rows is on, of so many, and the
    /// places of those on it, rising.
    pub(crate) fn next_on(&self, sat: u64, end: u32) -> Option<(u64, &[u32])>
        ensures { option_map (λ found. (found.0, found.1.now)) result
            ≡ next_on (take end self.now.rows) sat }
    {
        match self.keys.next_on(sat, end) {
            Some((found, places)) => Some((found, numbers_below(places, end))),
            None => None,
        }
    }

    /// The places of the rows among whose parents an id stands, rising.
    pub(crate) fn children(&self, id: &InsId) -> &[u32]
        ensures { result.now ≡ numbers_where (has_parent id.now) 0 self.now.rows }
    {
        self.keys.children(id)
    }

    /// Says which transactions come next, of which it is told what they did. It is a hint, by which
    /// what leads to the ids of their inscriptions is read ahead. It changes nothing.
    pub(crate) fn expect(&mut self, txs: &[Tx], moved: &[MovedTx])
        ensures { self.new ≡ self.old }
    {
        self.keys.expect(txs, moved);
    }

    /// Puts a row behind the others. `Memory` where there is none for it, or there would be 2^32
    /// rows: the rows are as before.
    pub(crate) fn push(&mut self, row: SharedRow) -> Result<(), Memory>
        ensures ok { OnOk result (self.new.rows ≡ self.old.rows ++ row ∷ []) }
        ensures err { OnErr result (self.new.rows ≡ self.old.rows) }
        ensures jubilee { self.new.jubilee ≡ self.old.jubilee }
    {
        if self.list.len() >= u32::MAX as usize {
            return Err(Memory);
        }
        let place = self.list.len() as u32;
        self.list.reserve(1)?;
        self.keys.add(row.row(), place)?;
        if let Err(e) = self.cursed.note(row.row(), place) {
            self.keys.forget(row.row(), place);
            return Err(e);
        }
        self.list.push_reserved(row);
        Ok(())
    }

    /// Takes the last row away and gives it. It takes no memory.
    pub(crate) fn pop(&mut self) -> Option<SharedRow>
        ensures rows { self.old.rows ≡ self.new.rows ++ option_to_list result }
        ensures some { IsSome result ↔ (0 < length self.old.rows) }
        ensures jubilee { self.new.jubilee ≡ self.old.jubilee }
    {
        let row = self.list.pop()?;
        let place = self.list.len() as u32;
        self.keys.forget(row.row(), place);
        self.cursed.forget(row.row(), place);
        Some(row)
    }

    /// Takes the last rows away until so many are left. It takes no memory.
    pub(crate) fn truncate(&mut self, len: u32)
        ensures rows { self.new.rows ≡ take len self.old.rows }
        ensures jubilee { self.new.jubilee ≡ self.old.jubilee }
    {
        while self.len() > len {
            let _row = self.pop();
        }
    }
}
