//! Where rows are, by what they are looked up by.

ghost use Rattle.std.specs.Prelude.{◌≡◌, ◌≤◌, ◌<◌, List, [], ◌∷◌, ◌++◌, length, OnOk, OnErr};
ghost use Rattle.std.specs.Prelude.{option_map};
ghost use Rattle.std.specs.Ordering.{is_eq, nat_cmp};
ghost use Rattle.ox_envelope.specs.declared.id.InsId.{InsId};
ghost use Rattle.ox_inscribe.specs.declared.row.InsRow.{InsRow};
ghost use Rattle.ox_inscribe.specs.Shelved.{AreKeys, AreKeysUpTo, at, first_if, id_cmp, is_first};
ghost use Rattle.ox_inscribe.specs.Shelved.{none_if, starts_below, IsNextBelow, IsNextOf};
ghost use Rattle.ox_shards.specs.Shards.{value_at};

use crate::ahead::read_ahead;
use crate::numbers::{Numbers, add_numbers, drop_numbers, numbers_at};
use crate::row::InsRow;
use ox_block::Tx;
use ox_bytes::Memory;
use ox_envelope::InsId;
use ox_rules::MovedTx;
use ox_shards::Shards;
use std::alloc::Global;
use std::collections::BTreeMap;
use std::ops::Bound;

/// The numbers of rows by id, by satoshi and by parent, of which none is empty.
#[derive(Drop)]
pub(crate) struct Keys {
    alloc: Global,
    /// The first row with an id. Ids begin with hashes, so that they spread over the shards.
    ids: Shards<InsId, u32>,
    sats: BTreeMap<u64, Numbers>,
    parents: BTreeMap<InsId, Numbers>,
    /// What was read ahead, added up. It says nothing, and is there so that no reading is left out.
    read: u32,
}

/// Puts a number at an id that has none.
fn add_first(ids: &mut Shards<InsId, u32>, id: InsId, number: u32) -> Result<(), Memory>
    ensures ok { OnOk result ((q : InsId) → value_at id_cmp ids.new q
        ≡ first_if (is_eq (id_cmp id q)) number (value_at id_cmp ids.old q)) }
    ensures err { OnErr result ((q : InsId)
        → value_at id_cmp ids.new q ≡ value_at id_cmp ids.old q) }
{
    match ids.get(&id) {
        Some(_) => Ok(()),
        None => {
            ids.insert(id, number)?;
            Ok(())
        }
    }
}

/// Whether an id has this number.
fn has_first(ids: &Shards<InsId, u32>, id: &InsId, number: u32) -> bool
    ensures { result ≡ is_first number (value_at id_cmp ids.now id.now) }
{
    match ids.get(id) {
        Some(first) => *first == number,
        None => false,
    }
}

/// Takes an id away that has this number.
fn drop_first(ids: &mut Shards<InsId, u32>, id: &InsId, number: u32)
    ensures { (q : InsId) → value_at id_cmp ids.new q
        ≡ none_if (is_eq (id_cmp id.now q)) number (value_at id_cmp ids.old q) }
{
    if has_first(ids, id, number) {
        ids.remove(id);
    }
}

/// Whether the first of these numbers is below an end.
fn starts_below(numbers: &[u32], end: u32) -> bool
    ensures { result ≡ starts_below end numbers.now }
{
    match numbers.first() {
        Some(first) => *first < end,
        None => false,
    }
}

/// The least satoshi from a number up that has rows, and those.
fn first_from(sats: &BTreeMap<u64, Numbers>, low: u64) -> Option<(u64, &[u32])>
    ensures { IsNextOf sats.now (λ sat. low ≤ sat)
        (option_map (λ found. (found.0, found.1.now)) result) }
{
    let (sat, numbers) = sats.range(low..).next()?;
    Some((*sat, numbers.as_slice()))
}

/// The least satoshi past a number that has rows, and those.
fn first_past(sats: &BTreeMap<u64, Numbers>, low: u64) -> Option<(u64, &[u32])>
    ensures { IsNextOf sats.now (λ sat. low < sat)
        (option_map (λ found. (found.0, found.1.now)) result) }
{
    let past = (Bound::Excluded(low), Bound::Unbounded);
    let (sat, numbers) = sats.range(past).next()?;
    Some((*sat, numbers.as_slice()))
}

impl Keys {
    /// No rows. It takes no memory.
    pub(crate) fn new(alloc: Global) -> Keys
        ensures { AreKeys [] result }
    {
        Keys {
            alloc,
            ids: Shards::new(alloc),
            sats: BTreeMap::new(alloc),
            parents: BTreeMap::new(alloc),
            read: 0,
        }
    }

    /// Says which transactions come next, of which it is told what they did. It is a hint, by which
    /// what leads to the ids of their inscriptions is read ahead. It changes nothing.
    pub(crate) fn expect(&mut self, txs: &[Tx], moved: &[MovedTx])
        ensures { (rows : List InsRow) → AreKeys rows self.old → AreKeys rows self.new }
    {
        let read = read_ahead(&self.ids, txs, moved);
        self.read = self.read.wrapping_add(read);
    }

    /// The first row with an id.
    pub(crate) fn find(&self, id: &InsId) -> Option<u32>
        ensures { result ≡ value_at id_cmp self.now.ids id.now }
    {
        self.ids.get(id).copied()
    }

    /// The rows on a satoshi.
    pub(crate) fn on(&self, sat: u64) -> &[u32]
        ensures { result.now ≡ at nat_cmp self.now.sats sat }
    {
        numbers_at(&self.sats, &sat)
    }

    /// The least satoshi from a number up whose first row stands below an end, and the rows on it.
    pub(crate) fn next_on(&self, sat: u64, end: u32) -> Option<(u64, &[u32])>
        ensures { IsNextBelow self.now.sats sat end
            (option_map (λ found. (found.0, found.1.now)) result) }
    {
        let mut found = first_from(&self.sats, sat)?;
        while !starts_below(found.1, end) {
            found = first_past(&self.sats, found.0)?;
        }
        Some(found)
    }

    /// The rows among whose parents an id stands.
    pub(crate) fn children(&self, id: &InsId) -> &[u32]
        ensures { result.now ≡ at id_cmp self.now.parents id.now }
    {
        numbers_at(&self.parents, id)
    }

    /// Puts a row's number behind those that are looked up as it is. `Memory` where there is none
    /// left: it then stands behind some of them.
    fn add_what_fits(&mut self, row: &InsRow, number: u32) -> Result<(), Memory>
        ensures ok { OnOk result ((rows : List InsRow) → AreKeys rows self.old
            → length rows ≡ number → AreKeys (rows ++ row.now ∷ []) self.new) }
        ensures err { OnErr result ((rows : List InsRow) → AreKeys rows self.old
            → length rows ≡ number → AreKeysUpTo rows row.now self.new) }
    {
        add_first(&mut self.ids, row.id, number)?;
        add_numbers(self.alloc, &mut self.sats, row.sat.as_slice(), number)?;
        add_numbers(
            self.alloc,
            &mut self.parents,
            row.parents.as_slice(),
            number,
        )
    }

    /// Puts a row's number behind those that are looked up as it is. `Memory` where there is none
    /// left: nothing has changed then.
    pub(crate) fn add(&mut self, row: &InsRow, number: u32) -> Result<(), Memory>
        ensures ok { OnOk result ((rows : List InsRow) → AreKeys rows self.old
            → length rows ≡ number → AreKeys (rows ++ row.now ∷ []) self.new) }
        ensures err { OnErr result ((rows : List InsRow) → AreKeys rows self.old
            → length rows ≡ number → AreKeys rows self.new) }
    {
        match self.add_what_fits(row, number) {
            Ok(()) => Ok(()),
            Err(e) => {
                self.forget(row, number);
                Err(e)
            }
        }
    }

    /// Takes the number of the last row away wherever it stands.
    pub(crate) fn forget(&mut self, row: &InsRow, number: u32)
        ensures { (rows : List InsRow) → AreKeysUpTo rows row.now self.old
            → length rows ≡ number → AreKeys rows self.new }
    {
        drop_first(&mut self.ids, &row.id, number);
        drop_numbers(&mut self.sats, row.sat.as_slice(), number);
        drop_numbers(&mut self.parents, row.parents.as_slice(), number);
    }
}
