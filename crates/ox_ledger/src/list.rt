//! A list with a mark.

ghost use Rattle.std.specs.Prelude.{◌≡◌, ◌==◌, ◌++◌, ◌∷◌, ◌<◌, ◌≤◌, ℕ, [], false, length, take};
ghost use Rattle.std.specs.Prelude.{slice_get, slice_set, All, IsSome, Some, None, IfOk};
ghost use Rattle.std.specs.Prelude.{OnOk, OnErr};
ghost use Rattle.std.specs.List.{list_any};
ghost use Rattle.std.specs.List.Sorted.{IsStrictlySortedBy};
ghost use Rattle.std.specs.Map.{keys_of};
ghost use Rattle.std.specs.Option.{option_copied, IfSome};
ghost use Rattle.std.specs.Ordering.{nat_cmp};

use crate::kept::Kept;
use ox_bytes::Memory;
use std::alloc::Global;
use std::marker::Model;

/// A list of up to 2^32 - 1 values that goes back to a mark. Contracts see the list, and the list
/// at the mark.
#[derive(Drop)]
pub struct MarkedList<T> {
    /// The values, and perhaps more behind the last one; and those that stood at the mark, where
    /// others were put since.
    values: Kept<T>,
    len: u32,
    /// How many values there were at the mark, if there is one.
    len_then: Option<u32>,
}

impl<T> Model for MarkedList<T> {
    ghost use Rattle.std.specs.Prelude.{List, slice_get};
    ghost use Rattle.std.specs.Option.{option_map, IfSome};
    ghost use Rattle.ox_ledger.specs.Marks.{IsFull, WithMark, listed, stood_in};

    ghost Value = { WithMark (List T) };

    ghost view = { λ l. record {
      now = listed (slice_get l.values.items) l.len;
      mark = option_map (listed (stood_in l.values)) l.len_then;
    } };

    ghost invariant = { λ l. IsFull (slice_get l.values.items) l.len
        × IfSome l.len_then (IsFull (stood_in l.values)) };
}

impl<T> MarkedList<T> {
    /// No values, and no mark. It takes no memory until one is pushed.
    pub fn new(alloc: Global) -> MarkedList<T>
        ensures { result ≡ record { now = []; mark = None } }
    {
        MarkedList {
            values: Kept::new(alloc),
            len: 0,
            len_then: None,
        }
    }

    /// How many values there are.
    pub fn len(&self) -> u32
        ensures { result ≡ length self.now.now }
    {
        self.len
    }

    /// The value at a place.
    pub fn get(&self, place: u32) -> &T
        requires { place < length self.now.now }
        ensures { slice_get self.now.now place ≡ Some result.now }
    {
        self.values.get(place)
    }

    /// How many values there were at the mark.
    pub fn len_then(&self) -> u32
        requires { IsSome self.now.mark }
        ensures { IfSome self.now.mark (λ list. result ≡ length list) }
    {
        self.len_then.unwrap_or(0)
    }
}

impl<T> MarkedList<T> {
    /// The places at which a value was put since the mark, in order; perhaps also some behind the
    /// last value. Each with the value that there was at the mark, if there was one. `Memory` where
    /// there is none for them.
    pub fn changed(&self) -> Result<Vec<(u32, Option<&T>)>, Memory>
        requires { IsSome self.now.mark }
        ensures rising { IfOk result (λ changes.
            IsStrictlySortedBy nat_cmp (keys_of changes.items)) }
        ensures then { IfOk result (λ changes. IfSome self.now.mark (λ list.
            All (λ change. change.0 < length list
            → slice_get list change.0 ≡ option_copied change.1) changes.items)) }
        ensures others { IfOk result (λ changes. IfSome self.now.mark (λ list. (place : ℕ)
            → place < length self.now.now → place < length list
            → list_any (λ p. p == place) (keys_of changes.items) ≡ false
            → slice_get self.now.now place ≡ slice_get list place)) }
    {
        self.values.shown()
    }
}

impl<T: Drop> MarkedList<T> {
    /// Puts a value in the place of another. `Memory` where there is none for it: nothing has
    /// changed then.
    pub fn set(&mut self, place: u32, value: T) -> Result<(), Memory>
        requires { place < length self.old.now }
        ensures ok { OnOk result
            (self.new ≡ record self.old { now = slice_set self.old.now place value }) }
        ensures err { OnErr result (self.new ≡ self.old) }
    {
        let end = self.len_then.unwrap_or(0);
        self.values.put(place, value, end)
    }

    /// Appends a value. `Memory` where there is none for it, or no place: nothing has changed then.
    pub fn push(&mut self, value: T) -> Result<(), Memory>
        ensures ok { OnOk result
            (self.new ≡ record self.old { now = self.old.now ++ value ∷ [] }) }
        ensures err { OnErr result (self.new ≡ self.old) }
    {
        let len = self.len;
        if len == u32::MAX {
            return Err(Memory);
        }
        let end = self.len_then.unwrap_or(0);
        self.values.put(len, value, end)?;
        self.len = len + 1;
        Ok(())
    }

    /// Drops the values behind the first so many. It takes no memory and gives none back.
    pub fn cut(&mut self, len: u32)
        requires { len ≤ length self.old.now }
        ensures { self.new ≡ record self.old { now = take len self.old.now } }
    {
        self.len = len;
    }

    /// Sets the mark at the list as it is.
    pub fn begin(&mut self)
        ensures now { self.new.now ≡ self.old.now }
        ensures mark { self.new.mark ≡ Some self.old.now }
    {
        self.values.forget();
        self.len_then = Some(self.len);
    }

    /// Goes back to the mark, which is spent.
    pub fn cancel(&mut self)
        requires { IsSome self.old.mark }
        ensures now { self.old.mark ≡ Some self.new.now }
        ensures mark { self.new.mark ≡ None }
    {
        self.restore();
        self.len_then = None;
    }

    /// Goes back to the mark, which stays.
    pub fn restore(&mut self)
        requires { IsSome self.old.mark }
        ensures now { self.old.mark ≡ Some self.new.now }
        ensures mark { self.new.mark ≡ self.old.mark }
    {
        self.values.put_back();
        self.len = self.len_then.unwrap_or(0);
    }
}
