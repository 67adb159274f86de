//! Values by their places, and what stood where others were put.

ghost use Rattle.std.specs.Prelude.{◌≡◌, ◌++◌, ◌∷◌, ◌<◌, ◌≤◌, ℕ, [], length, slice_get, slice_set};
ghost use Rattle.std.specs.Prelude.{All, IsSome, Some, IfOk, OnOk, OnErr, if◌then◌else◌};
ghost use Rattle.std.specs.Map.{keys_of};
ghost use Rattle.std.specs.Option.{option_copied, IsSomeAnd};
ghost use Rattle.std.specs.List.Sorted.{IsStrictlySortedBy};
ghost use Rattle.std.specs.Ordering.{is_eq, nat_cmp};
ghost use Rattle.ox_ledger.specs.Marks.{kept_at, stood_in};

use ox_bytes::Memory;
use std::alloc::Global;
use std::collections::BTreeMap;
use std::marker::Model;
use std::mem;

/// Values by their places, and what stood first where others were put. Contracts see both.
#[derive(Drop)]
pub(crate) struct Kept<T> {
    alloc: Global,
    items: Vec<T>,
    stood: BTreeMap<u32, T>,
}

impl<T> Model for Kept<T> {
    ghost use Rattle.ox_ledger.specs.Marks.{AreOfPlaces, Standing};

    ghost Value = { Standing T };

    ghost view = { λ k. record { items = k.items.items; stood = k.stood.entries } };

    ghost invariant = { λ k. AreOfPlaces k.stood.entries k.items.items };
}

impl<T> Kept<T> {
    /// No values, and nothing kept. It takes no memory.
    pub(crate) fn new(alloc: Global) -> Kept<T>
        ensures { result ≡ record { items = []; stood = [] } }
    {
        Kept {
            alloc,
            items: Vec::new(alloc),
            stood: BTreeMap::new(alloc),
        }
    }

    /// How many values there are.
    pub(crate) fn len(&self) -> usize
        ensures { result ≡ length self.now.items }
    {
        self.items.len()
    }

    /// The value at a place.
    pub(crate) fn get(&self, place: u32) -> &T
        requires { place < length self.now.items }
        ensures { slice_get self.now.items place ≡ Some result.now }
    {
        &self.items[place as usize]
    }

    /// The places of which something is kept, in order, each with that. `Memory` where there is
    /// none for them.
    pub(crate) fn shown(&self) -> Result<Vec<(u32, Option<&T>)>, Memory>
        ensures rising { IsStrictlySortedBy nat_cmp (keys_of self.now.stood) }
        ensures places { IfOk result (λ shown. keys_of shown.items ≡ keys_of self.now.stood) }
        ensures stood { IfOk result (λ shown.
            All (λ one. option_copied one.1 ≡ stood_in self.now one.0) shown.items) }
    {
        shown(self.alloc, &self.stood)
    }
}

impl<T: Drop> Kept<T> {
    /// Puts a value at a place, in that of another or behind the last one. At a place before `end`
    /// what stood there first is kept. `Memory` where there is none for it: nothing has changed
    /// then.
    pub(crate) fn put(&mut self, place: u32, value: T, end: u32) -> Result<(), Memory>
        requires { place ≤ length self.old.items }
        ensures items { OnOk result ((q : ℕ) → slice_get self.new.items q
            ≡ (if is_eq (nat_cmp place q) then Some value else slice_get self.old.items q)) }
        ensures stood { (q : ℕ) → q < end → IsSome (stood_in self.old q)
            → stood_in self.new q ≡ stood_in self.old q }
        ensures err { OnErr result (self.new ≡ self.old) }
    {
        if place as usize == self.items.len() {
            self.push(value)
        } else {
            self.replace(place, value, end)
        }
    }

    /// Appends a value.
    fn push(&mut self, value: T) -> Result<(), Memory>
        ensures ok { OnOk result
            (self.new ≡ record self.old { items = self.old.items ++ value ∷ [] }) }
        ensures err { OnErr result (self.new ≡ self.old) }
    {
        self.items.push(value)?;
        Ok(())
    }

    /// Puts a value in the place of another.
    fn replace(&mut self, place: u32, value: T, end: u32) -> Result<(), Memory>
        requires { place < length self.old.items }
        ensures items { OnOk result (self.new.items ≡ slice_set self.old.items place value) }
        ensures stood { (q : ℕ) → q < end → stood_in self.new q ≡ stood_in self.old q }
        ensures err { OnErr result (self.new ≡ self.old) }
    {
        if place >= end || self.stood.contains_key(&place) {
            self.items[place as usize] = value;
            return Ok(());
        }
        let first = mem::replace(&mut self.items[place as usize], value);
        match self.stood.insert(place, first) {
            Ok(_) => Ok(()),
            Err(failed) => {
                let (_, first) = failed.value;
                self.items[place as usize] = first;
                Err(Memory)
            }
        }
    }

    /// Puts what is kept back in its places. Then nothing is kept.
    pub(crate) fn put_back(&mut self)
        ensures items { (q : ℕ) → slice_get self.new.items q ≡ stood_in self.old q }
        ensures stood { self.new.stood ≡ [] }
    {
        while let Some((place, value)) = self.stood.pop_first() {
            self.items[place as usize] = value;
        }
    }

    /// Drops what is kept.
    pub(crate) fn forget(&mut self)
        ensures { self.new ≡ record self.old { stood = [] } }
    {
        self.stood.clear();
    }
}

/// Each place of which something is kept, in order, with that.
fn shown<'a, T>(
    alloc: Global,
    stood: &'a BTreeMap<u32, T>,
) -> Result<Vec<(u32, Option<&'a T>)>, Memory>
    ensures rising { IsStrictlySortedBy nat_cmp (keys_of stood.now.entries) }
    ensures places { IfOk result (λ shown. keys_of shown.items ≡ keys_of stood.now.entries) }
    ensures kept { IfOk result (λ shown. All (λ one. IsSomeAnd (kept_at stood.now.entries one.0)
        (λ value. option_copied one.1 ≡ Some value)) shown.items) }
{
    let mut shown = Vec::with_capacity(alloc, stood.len())?;
    for (place, value) in stood {
        shown.push((*place, Some(value)))?;
    }
    Ok(shown)
}
