//! The runes of a chain in the order of their etchings, found by id and by name, with a mark.

ghost use Rattle.std.specs.Prelude.{◌≡◌, ◌↔◌, ◌+◌, ◌<◌, ◌≤◌, ◌++◌, ◌∷◌, ◌-◌, [], length, map, ℕ};
ghost use Rattle.std.specs.Prelude.{drop, take, IfOk};
ghost use Rattle.std.specs.Prelude.{slice_get, slice_set, All, IsSome, IfNone, Some, None};
ghost use Rattle.std.specs.Prelude.{OnOk, OnErr};
ghost use Rattle.std.specs.Option.{option_copied, IfSome};
ghost use Rattle.std.specs.List.Sorted.{IsStrictlySortedBy};
ghost use Rattle.ox_allocation.specs.Balances.{id_cmp, ids_of};
ghost use Rattle.ox_ledger.specs.Balanced.{AreDistinct, cap_in};
ghost use Rattle.ox_ledger.specs.Part.{change_in, changes_from, counts_at, rows_at_end};
ghost use Rattle.ox_ledger.specs.Part.{with_counts};
ghost use Rattle.ox_ledger.specs.Runes.{burn, mint_more};
ghost use Rattle.ox_ledger.specs.Shown.{HasAt, IsAbsent, IsOnly};
ghost use Rattle.ox_ledger.specs.Steps.{CanBurn, CanMint};

use crate::list::MarkedList;
use crate::part::{CountChange, Counts, counts_at, counts_of, with_counts};
use ox_bytes::{List, Memory};
use ox_etching::RuneRow;
use ox_marked::Marked;
use ox_runestone::RuneId;
use std::alloc::Global;
use std::marker::Model;

/// How often a rune can be minted.
fn cap_of(row: &RuneRow) -> u128
    ensures { result ≡ cap_in row.now.terms }
{
    match &row.terms {
        Some(terms) => terms.cap.unwrap_or(0),
        None => 0,
    }
}

/// The mints of a rune with one more, which its cap lets be.
fn one_more(row: &RuneRow) -> u128
    requires { row.now.mints < cap_in row.now.terms }
    ensures { result ≡ row.now.mints + 1 }
{
    let cap = cap_of(row);
    prove!(row.mints < cap);
    row.mints + 1
}

/// The runes by the order of their etchings. No two have one id or one name. Contracts see the
/// list, and the list at the mark.
#[derive(Drop)]
pub(crate) struct RuneTable {
    rows: MarkedList<RuneRow>,
    /// The place of each rune; other ids and names may have places that aren't theirs.
    ids: Marked<RuneId, u32>,
    names: Marked<u128, u32>,
}

impl Model for RuneTable {
    ghost use Rattle.std.specs.Prelude.{List};
    ghost use Rattle.ox_etching.specs.declared.row.RuneRow.{RuneRow};
    ghost use Rattle.ox_ledger.specs.Marks.{WithMark};
    ghost use Rattle.ox_ledger.specs.Indexed.{AreAllIndexed, indexed_then};

    ghost Value = { WithMark (List RuneRow) };

    ghost view = { λ t. record {
      now = t.rows.now;
      mark = indexed_then t.rows.mark t.ids t.names;
    } };

    ghost invariant = { λ t. AreAllIndexed t.rows t.ids t.names };
}

impl RuneTable {
    /// No runes, and no mark. It takes no memory until one is pushed.
    pub(crate) fn new(alloc: Global) -> RuneTable
        ensures { result ≡ record { now = []; mark = None } }
    {
        RuneTable {
            rows: MarkedList::new(alloc),
            ids: Marked::new(alloc),
            names: Marked::new(alloc),
        }
    }

    /// How many runes there are.
    pub(crate) fn len(&self) -> u32
        ensures { result ≡ length self.now.now }
    {
        self.rows.len()
    }

    /// The rune at a place.
    pub(crate) fn get(&self, place: u32) -> &RuneRow
        requires { place < length self.now.now }
        ensures { slice_get self.now.now place ≡ Some result.now }
    {
        self.rows.get(place)
    }

    /// The rune at a place, if there is one.
    fn row_at(&self, place: u32) -> Option<&RuneRow>
        ensures { option_copied result ≡ slice_get self.now.now place }
    {
        if place < self.rows.len() {
            Some(self.rows.get(place))
        } else {
            None
        }
    }

    /// The rune with this id, and its place.
    fn with_id(&self, id: RuneId) -> Option<(u32, RuneRow)>
        ensures some { IfSome result (IsOnly (λ row. row.id) self.now.now id) }
        ensures none { IfNone result (IsAbsent (λ row. row.id) self.now.now id) }
    {
        let place = *self.ids.get(&id)?;
        let row = *self.row_at(place)?;
        if row.id == id {
            Some((place, row))
        } else {
            None
        }
    }

    /// The rune with this name, and its place.
    fn with_name(&self, name: u128) -> Option<(u32, RuneRow)>
        ensures some { IfSome result (IsOnly (λ row. row.name) self.now.now name) }
        ensures none { IfNone result (IsAbsent (λ row. row.name) self.now.now name) }
    {
        let place = *self.names.get(&name)?;
        let row = *self.row_at(place)?;
        if row.name == name {
            Some((place, row))
        } else {
            None
        }
    }

    /// The place of the rune with this id.
    pub(crate) fn by_id(&self, id: RuneId) -> Option<u32>
        ensures { (place : ℕ)
            → (result ≡ Some place) ↔ HasAt (λ row. row.id) self.now.now place id }
    {
        let (place, _) = self.with_id(id)?;
        Some(place)
    }

    /// The place of the rune with this name.
    pub(crate) fn by_name(&self, name: u128) -> Option<u32>
        ensures { (place : ℕ)
            → (result ≡ Some place) ↔ HasAt (λ row. row.name) self.now.now place name }
    {
        let (place, _) = self.with_name(name)?;
        Some(place)
    }

    /// Appends a rune. After `Memory` a part of that may be done.
    pub(crate) fn push(&mut self, row: RuneRow) -> Result<(), Memory>
        requires id { IsAbsent (λ row. row.id) self.old.now row.id }
        requires name { IsAbsent (λ row. row.name) self.old.now row.name }
        ensures ok { OnOk result
            (self.new ≡ record self.old { now = self.old.now ++ row ∷ [] }) }
        ensures mark { self.new.mark ≡ self.old.mark }
    {
        let place = self.rows.len();
        self.ids.put(row.id, Some(place))?;
        self.names.put(row.name, Some(place))?;
        self.rows.push(row)
    }

    /// Puts a rune in the place of another with the same id and name.
    fn set(&mut self, place: u32, row: RuneRow) -> Result<(), Memory>
        requires id { HasAt (λ row. row.id) self.old.now place row.id }
        requires name { HasAt (λ row. row.name) self.old.now place row.name }
        ensures ok { OnOk result
            (self.new ≡ record self.old { now = slice_set self.old.now place row }) }
        ensures err { OnErr result (self.new ≡ self.old) }
    {
        self.rows.set(place, row)
    }

    /// Counts one more mint of the rune with this id.
    pub(crate) fn mint(&mut self, id: RuneId) -> Result<(), Memory>
        requires { All (CanMint id) self.old.now }
        ensures ok { OnOk result
            (self.new ≡ record self.old { now = map (mint_more id) self.old.now }) }
        ensures mark { self.new.mark ≡ self.old.mark }
    {
        match self.with_id(id) {
            Some((place, mut row)) => {
                row.mints = one_more(&row);
                self.set(place, row)
            }
            None => Ok(()),
        }
    }

    /// Counts so much more of the rune with this id as burned.
    fn burn_one(&mut self, id: RuneId, amount: u128) -> Result<(), Memory>
        requires { All (CanBurn ((id, amount) ∷ [])) self.old.now }
        ensures ok { OnOk result
            (self.new ≡ record self.old { now = burn ((id, amount) ∷ []) self.old.now }) }
        ensures mark { self.new.mark ≡ self.old.mark }
    {
        match self.with_id(id) {
            Some((place, mut row)) => {
                row.burned += amount;
                self.set(place, row)
            }
            None => Ok(()),
        }
    }

    /// Counts these amounts as burned. After `Memory` a part of that may be done.
    pub(crate) fn burn(&mut self, burned: &[(RuneId, u128)]) -> Result<(), Memory>
        requires rising { IsStrictlySortedBy id_cmp (ids_of burned.now) }
        requires fits { All (CanBurn burned.now) self.old.now }
        ensures ok { OnOk result
            (self.new ≡ record self.old { now = burn burned.now self.old.now }) }
        ensures mark { self.new.mark ≡ self.old.mark }
    {
        for (id, amount) in burned {
            self.burn_one(*id, *amount)?;
        }
        Ok(())
    }

    /// Appends the change of the counts of the rune at a place, if there were other counts of it at
    /// the mark. The rune that there was at the place then, if there was one, is at hand.
    fn push_change(
        &self,
        counts: &mut List<CountChange>,
        place: u32,
        then: Option<&RuneRow>,
    ) -> Result<(), Memory>
        requires mark { IsSome self.now.mark }
        requires then { IfSome self.now.mark (λ list. place < length list
            → slice_get list place ≡ option_copied then) }
        ensures { OnOk result (IfSome self.now.mark (λ then. counts.new ≡ counts.old
            ++ change_in place (slice_get then place) (slice_get self.now.now place))) }
    {
        if place >= self.rows.len_then() || place >= self.rows.len() {
            return Ok(());
        }
        let Some(then) = then else {
            return Ok(());
        };
        let before = counts_of(then);
        let after = counts_of(self.rows.get(place));
        if before != after {
            counts.push(CountChange {
                place,
                before,
                after,
            })?;
        }
        Ok(())
    }

    /// The changed counts of the runes that there were at the mark, by rising places.
    pub(crate) fn counts_changed(&self, alloc: Global) -> Result<List<CountChange>, Memory>
        requires { IsSome self.now.mark }
        ensures { IfOk result (λ counts. IfSome self.now.mark
            (λ then. counts ≡ changes_from 0 then self.now.now)) }
    {
        let mut counts = List::new(alloc);
        let changes = self.rows.changed()?;
        for (place, then) in &changes {
            self.push_change(&mut counts, *place, *then)?;
        }
        Ok(counts)
    }

    /// The runes that were appended since the mark.
    pub(crate) fn appended(&self, alloc: Global) -> Result<List<RuneRow>, Memory>
        requires { IsSome self.now.mark }
        ensures { IfOk result (λ rows. IfSome self.now.mark
            (λ then. rows ≡ drop (length then) self.now.now)) }
    {
        let mut rows = List::new(alloc);
        for place in self.rows.len_then()..self.rows.len() {
            rows.push(*self.rows.get(place))?;
        }
        Ok(rows)
    }

    /// Puts other counts of the rune at a place.
    fn recount(&mut self, place: u32, counts: Counts) -> Result<(), Memory>
        requires { place < length self.old.now }
        ensures ok { OnOk result (IfSome (slice_get self.old.now place) (λ row.
            self.new ≡ record self.old {
              now = slice_set self.old.now place (with_counts row counts);
            })) }
        ensures mark { self.new.mark ≡ self.old.mark }
    {
        let row = with_counts(self.rows.get(place), counts);
        self.set(place, row)
    }

    /// Puts what is counted before these changes, or after them. After `Memory` a part of that may
    /// be done.
    pub(crate) fn recount_all(
        &mut self,
        changes: &[CountChange],
        before: bool,
    ) -> Result<(), Memory>
        requires { All (λ change. change.place < length self.old.now) changes.now }
        ensures ok { OnOk result (self.new ≡ record self.old {
          now = rows_at_end (counts_at before) changes.now 0 self.old.now;
        }) }
        ensures mark { self.new.mark ≡ self.old.mark }
    {
        for change in changes.iter().rev() {
            self.recount(change.place, counts_at(change, before))?;
        }
        Ok(())
    }

    /// Appends runes. After `Memory` a part of that may be done.
    pub(crate) fn push_all(&mut self, rows: &[RuneRow]) -> Result<(), Memory>
        requires ids { AreDistinct (λ row. row.id) (self.old.now ++ rows.now) }
        requires names { AreDistinct (λ row. row.name) (self.old.now ++ rows.now) }
        ensures ok { OnOk result (self.new ≡ record self.old { now = self.old.now ++ rows.now }) }
        ensures mark { self.new.mark ≡ self.old.mark }
    {
        for row in rows {
            self.push(*row)?;
        }
        Ok(())
    }

    /// Takes the runes behind the first so many away. After `Memory` a part of that may be done.
    pub(crate) fn keep_first(&mut self, count: u32) -> Result<(), Memory>
        requires { count ≤ length self.old.now }
        ensures ok { OnOk result (self.new ≡ record self.old { now = take count self.old.now }) }
        ensures mark { self.new.mark ≡ self.old.mark }
    {
        while self.rows.len() > count {
            self.drop_last()?;
        }
        Ok(())
    }

    /// Takes the last rune away. After `Memory` a part of that may be done.
    fn drop_last(&mut self) -> Result<(), Memory>
        requires { 0 < length self.old.now }
        ensures ok { OnOk result (self.new ≡ record self.old {
          now = take (length self.old.now - 1) self.old.now;
        }) }
        ensures mark { self.new.mark ≡ self.old.mark }
    {
        let place = self.rows.len() - 1;
        let row = *self.rows.get(place);
        self.rows.cut(place);
        self.ids.put(row.id, None)?;
        self.names.put(row.name, None)
    }

    /// Sets the mark at the runes as they are.
    pub(crate) fn begin(&mut self)
        ensures now { self.new.now ≡ self.old.now }
        ensures mark { self.new.mark ≡ Some self.old.now }
    {
        self.rows.begin();
        self.ids.begin();
        self.names.begin();
    }

    /// Goes back to the mark, which is spent.
    pub(crate) fn cancel(&mut self)
        requires { IsSome self.old.mark }
        ensures now { self.old.mark ≡ Some self.new.now }
        ensures mark { self.new.mark ≡ None }
    {
        self.rows.cancel();
        self.ids.cancel();
        self.names.cancel();
    }

    /// Goes back to the mark, which stays.
    pub(crate) fn restore(&mut self)
        requires { IsSome self.old.mark }
        ensures now { self.old.mark ≡ Some self.new.now }
        ensures mark { self.new.mark ≡ self.old.mark }
    {
        self.rows.restore();
        self.ids.restore();
        self.names.restore();
    }
}
