//! The changes of the blocks that are kept.

ghost use Rattle.std.specs.Prelude.{◌≡◌, ◌==◌, ◌≤◌, ◌<◌, [], ◌∷◌, Some, None, IsSome, drop, length};
ghost use Rattle.std.specs.Prelude.{◌+◌, ◌-◌, ◌++◌, option_to_list, slice_get, take, OnOk, OnErr};
ghost use Rattle.std.specs.Option.{option_copied};
ghost use Rattle.std.specs.VecDeque.{deque_capacity, deque_len};
ghost use Rattle.ox_index.specs.Changes.{only, put_in, taken_out};

use ox_bytes::Memory;
use ox_model::Change;
use std::alloc::Global;
use std::collections::VecDeque;
use std::marker::Model;
use std::mem;

/// What the last command did to the changes.
#[derive(Drop)]
pub(crate) enum Last {
    /// Nothing that can be gone back over.
    Nothing,
    /// It put one in front. This one, if any, fell off.
    Pushed(Option<Change>),
    /// It took this one from the front.
    Taken(Change),
}

/// The changes of the blocks that are kept, and what the last command took away of them, so that it
/// can be gone back over without memory. Contracts see the list of those that are kept, the newest
/// first, the list of those before the last command, and the change of the block that it took back.
#[derive(Drop)]
pub struct Changes {
    items: VecDeque<Change>,
    last: Last,
    ghost put: { put_in last ≤ deque_len items },
    ghost room: { taken_out last ≤ deque_capacity items - deque_len items },
}

impl Model for Changes {
    ghost use Rattle.ox_index.specs.Changes.{Kept, kept_by};

    ghost Value = { Kept };

    ghost view = { λ c. kept_by c.items.items c.last };
}

impl Changes {
    /// No changes. It takes no memory until one is pushed.
    pub(crate) fn new(alloc: Global) -> Changes
        ensures { result ≡ only [] }
    {
        Changes {
            items: VecDeque::new(alloc),
            last: Last::Nothing,
        }
    }

    /// These changes, the newest first.
    pub(crate) fn of(kept: VecDeque<Change>) -> Changes
        ensures { result ≡ only kept.items }
    {
        Changes {
            items: kept,
            last: Last::Nothing,
        }
    }

    /// How many there are.
    pub fn len(&self) -> usize
        ensures { result ≡ length self.now.kept }
    {
        self.items.len()
    }

    /// Whether there are none.
    pub fn is_empty(&self) -> bool
        ensures { result ≡ (length self.now.kept == 0) }
    {
        self.items.is_empty()
    }

    /// The change at this place, from 0 on, which is the newest; `None` exactly where the place
    /// isn't below `len`.
    pub fn get(&self, place: usize) -> Option<&Change>
        ensures { option_copied result ≡ slice_get self.now.kept place }
    {
        self.items.get(place)
    }

    /// The change of the block that the last command took back, if it took one back.
    pub(crate) fn taken_back(&self) -> Option<&Change>
        ensures { option_copied result ≡ self.now.taken_back }
    {
        match &self.last {
            Last::Taken(change) => Some(change),
            _ => None,
        }
    }

    /// Lets go what the last command took away.
    pub(crate) fn forget(&mut self)
        ensures { self.new ≡ only self.old.kept }
    {
        self.last = Last::Nothing;
    }

    /// Puts a change in front, and keeps the newest ones, so many at most. `Memory` where there is
    /// none for it: nothing has changed then but what the last command took away.
    pub(crate) fn push(&mut self, change: Change, depth: usize) -> Result<(), Memory>
        requires some { 1 ≤ depth }
        requires few { length self.old.kept ≤ depth }
        ensures kept { OnOk result (self.new.kept ≡ take depth (change ∷ self.old.kept)) }
        ensures before { OnOk result (self.new.before ≡ Some self.old.kept) }
        ensures none { OnOk result (self.new.taken_back ≡ None) }
        ensures err { OnErr result (self.new ≡ only self.old.kept) }
    {
        self.last = Last::Nothing;
        self.items.push_front(change)?;
        let fallen = shorten(&mut self.items, depth);
        self.last = Last::Pushed(fallen);
        Ok(())
    }

    /// Takes the newest one away. It stays, so that it can be gone back over.
    pub(crate) fn take_back(&mut self)
        requires { 0 < length self.old.kept }
        ensures kept { self.new.kept ≡ drop 1 self.old.kept }
        ensures before { self.new.before ≡ Some self.old.kept }
        ensures taken { self.new.taken_back ≡ slice_get self.old.kept 0 }
    {
        if let Some(change) = self.items.pop_front() {
            self.last = Last::Taken(change);
        }
    }

    /// Goes back over the last command. It takes no memory.
    pub(crate) fn cancel(&mut self)
        requires { IsSome self.old.before }
        ensures kept { Some self.new.kept ≡ self.old.before }
        ensures spent { self.new ≡ only self.new.kept }
    {
        match mem::replace(&mut self.last, Last::Nothing) {
            Last::Nothing => (),
            Last::Pushed(fallen) => take_off(&mut self.items, fallen),
            Last::Taken(change) => self.items.push_front_reserved(change),
        }
    }
}

/// Takes away the last of these, if they are one more than so many.
fn shorten(items: &mut VecDeque<Change>, depth: usize) -> Option<Change>
    requires { deque_len items.old ≤ depth + 1 }
    ensures fallen { items.old.items ≡ items.new.items ++ option_to_list result }
    ensures left { items.new.items ≡ take depth items.old.items }
{
    if items.len() > depth {
        items.pop_back()
    } else {
        None
    }
}

/// Takes away the first of these, and puts the one that fell off, if any, behind the others again.
/// It takes no memory.
fn take_off(items: &mut VecDeque<Change>, fallen: Option<Change>)
    requires { 1 ≤ deque_len items.old }
    ensures { items.new.items ≡ drop 1 items.old.items ++ option_to_list fallen }
{
    let _newest = items.pop_front();
    if let Some(change) = fallen {
        items.push_back_reserved(change);
    }
}
