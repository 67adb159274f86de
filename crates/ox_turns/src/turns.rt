//! The slots of a server, and the rotation.

ghost use Rattle.std.specs.Prelude.{◌≡◌, ◌≢◌, ◌<◌, ◌≤◌, ◌+◌, ◌++◌, true, Some, None};
ghost use Rattle.std.specs.Prelude.{IfOk, IfErr, OnOk, OnErr, IfSome, IsSome};
ghost use Rattle.std.specs.Prelude.{is_some, get_or, length, replicate, set, vec_len};
ghost use Rattle.std.specs.List.{list_any};
ghost use Rattle.std.specs.Option.{ForSome};
ghost use Rattle.ox_outside.specs.Counts.{NoFault, Rose, greatest};
ghost use Rattle.ox_outside.specs.Crash.{LeavesFiles, OneCall};
ghost use Rattle.ox_links.specs.Rotation.{Who, is_free, link_of, places};
ghost use Rattle.ox_links.specs.Serving.{served_by};
ghost use Rattle.ox_turns.specs.Follows.{Holds};
ghost use Rattle.ox_turns.specs.Places.{IsFirstOn, IsLowestFree, IsNext, IsSeated, channels_of};
ghost use Rattle.ox_turns.specs.Turn.{CutOf, DoorComes, FollowsSome, FromEach, LinkCut, MayTurn};
ghost use Rattle.ox_turns.specs.Turn.{OneTurn, TurnCut, TurnOf, TurnPromises};
ghost use Rattle.ox_turns.specs.declared.slot.Slot.{Slot as Held};

use crate::slot::Slot;
use crate::{Desk, link};
use ox_bytes::Memory;
use ox_links::LINKS;
use ox_outside::{Doorway, Site};
use ox_session::PIECE;
use std::alloc::{AllocError, Global};
use std::marker::Model;

/// The places of the rotation: both doors, and the slots.
const PLACES: usize = 2 + LINKS;

/// Why a turn came to no end.
#[derive(Clone, Copy, Debug, PartialEq, Eq)]
pub enum TurnFault {
    /// A call on a file failed.
    DiskFault,
    /// A door failed.
    DoorFault,
}

/// The links that are open, each in one of 32 slots, and the place in the rotation.
pub struct Turns {
    alloc: Global,
    slots: Vec<Option<Slot>>,
    place: usize,
    room: Vec<u8>,
}

/// By hand, so that whoever drops them makes one call, and proves nothing of their slots.
impl Drop for Turns {
    fn drop(self) {
        let Turns {
            alloc: _alloc,
            slots: _slots,
            place: _place,
            room: _room,
        } = self;
    }
}

impl Model for Turns {
    ghost use Rattle.std.specs.Prelude.{◌≡◌, ◌≤◌, ℕ, vec_len};
    ghost use Rattle.ox_turns.specs.Follows.{Holds};
    ghost use Rattle.ox_turns.specs.Places.{Places};
    ghost use Rattle.ox_turns.specs.Turn.{IsReady};
    ghost use Rattle.ox_turns.specs.declared.slot.Slot.{Slot};

    ghost Value = { Places };

    ghost view = { λ t. record { slots = t.slots.items; place = t.place } };

    ghost invariant = { λ t. (vec_len t.slots ≡ 32) × (t.place ≤ 34) × (vec_len t.room ≡ 65536)
        × ((at : ℕ) (slot : Slot) → Holds t.slots.items at slot → IsReady slot.session) };
}

/// The room of a hearing.
fn room(alloc: Global) -> Result<Vec<u8>, AllocError>
    ensures { IfOk result (λ room. vec_len room ≡ 65536) }
{
    vec![in alloc; 0u8; PIECE]
}

/// Slots without a link.
fn no_links(alloc: Global) -> Result<Vec<Option<Slot>>, AllocError>
    ensures { IfOk result (λ slots. slots.items ≡ replicate 32 None) }
{
    let mut slots = Vec::with_capacity(alloc, LINKS)?;
    for _ in 0..LINKS {
        slots.push(None)?;
    }
    Ok(slots)
}

/// The door of a place of the rotation: the public one's is 0, the operator's 1.
fn door_at(place: usize) -> Doorway
    ensures public { place ≡ 0 → result ≡ Doorway.Public }
    ensures operator { place ≢ 0 → result ≡ Doorway.Operator }
{
    if place == 0 {
        Doorway::Public
    } else {
        Doorway::Operator
    }
}

/// Puts a link into a slot, or none.
fn put(slots: &mut Vec<Option<Slot>>, at: usize, slot: Option<Slot>)
    requires { at < vec_len slots.old }
    ensures items { slots.new.items ≡ set slots.old.items at slot }
    ensures len { vec_len slots.new ≡ vec_len slots.old }
{
    slots[at] = slot;
}

impl Turns {
    /// No link, and the first turn is the public door's. `Memory` where there is none for the slots
    /// and for the room of a hearing.
    pub fn new(alloc: Global) -> Result<Turns, Memory>
        ensures slots { IfOk result (λ turns. turns.slots ≡ replicate 32 None) }
        ensures place { IfOk result (λ turns. turns.place ≡ 0) }
    {
        let slots = no_links(alloc)?;
        let room = room(alloc)?;
        Ok(Turns {
            alloc,
            slots,
            place: 0,
            room,
        })
    }

    /// The lowest slot that has no link.
    fn free(&self) -> Option<usize>
        ensures { IsLowestFree self.now.slots result }
    {
        for at in 0..LINKS {
            if self.slots[at].is_none() {
                return Some(at);
            }
        }
        None
    }

    /// Whether a place of the rotation isn't passed over: a door where a slot is free, a slot where
    /// it has a link.
    fn is_on(&self, place: usize) -> bool
        requires { place < 34 }
        ensures { result
            ≡ is_some (get_or (places (channels_of self.now.slots)) place None) }
    {
        if place < 2 {
            self.free().is_some()
        } else {
            self.slots[place - 2].is_some()
        }
    }

    /// The first place from this one on that isn't passed over.
    fn first_from(&self, place: usize) -> Option<usize>
        requires within { place ≤ 34 }
        requires many { length self.now.slots ≡ 32 }
        ensures first { IsFirstOn (channels_of self.now.slots) place result }
        ensures within { IfSome result (λ at. at < 34) }
    {
        for at in place..PLACES {
            if self.is_on(at) {
                return Some(at);
            }
        }
        None
    }

    /// Whose turn it is, by its place: the first from this place on and round. There always is one,
    /// since a door isn't passed over where a slot is free.
    fn next(&self) -> usize
        ensures next { IsNext (channels_of self.now.slots) self.now.place result }
        ensures within { result < 34 }
    {
        match self.first_from(self.place) {
            Some(at) => at,
            None => match self.first_from(0) {
                Some(at) => at,
                None => 0,
            },
        }
    }

    /// A link takes the lowest free slot.
    fn seat(&mut self, channel: u32, door: Doorway)
        requires number { 1 ≤ channel }
        requires free { list_any is_free (channels_of self.old.slots) ≡ true }
        ensures seated { IsSeated channel door self.old.slots self.new.slots }
        ensures place { self.new.place ≡ self.old.place }
    {
        if let Some(at) = self.free() {
            put(
                &mut self.slots,
                at,
                Some(Slot::new(self.alloc, channel, door)),
            );
        }
    }

    /// The turn of a door. `DoorFault` where it failed.
    fn turn_of_door<S: Site>(&mut self, door: Doorway, site: &mut S) -> Result<(), TurnFault>
        requires free { list_any is_free (channels_of self.old.slots) ≡ true }
        ensures comes { OnOk result (
            DoorComes S.Site door self.old.slots self.new.slots site.old site.new) }
        ensures fails { OnErr result (S.log site.new ≡ S.log site.old) }
        ensures fault { IfErr result (λ fault. fault ≡ TurnFault.DoorFault) }
        ensures failed { OnErr result (Rose (S.counts site.old).door (S.counts site.new).door) }
        ensures place { self.new.place ≡ self.old.place }
        ensures files { LeavesFiles S.seen S.may_leave site.old site.new }
        ensures counted { NoFault (S.counts site.old) (S.counts site.new) }
        ensures call { OneCall S.told S.counts S.clock S.may_leave S.left_since site.old site.new }
    {
        match site.door(door) {
            Ok(Some(channel)) => {
                self.seat(channel, door);
                Ok(())
            }
            Ok(None) => Ok(()),
            Err(_) => Err(TurnFault::DoorFault),
        }
    }

    /// The turn of a slot that has a link. `DiskFault` where a call on a file failed.
    fn turn_of_slot<S: Site, D: Desk<S>>(
        &mut self,
        at: usize,
        site: &mut S,
        desk: &mut D,
    ) -> Result<(), TurnFault>
        requires held { IsSome (get_or self.old.slots at None) }
        requires may { MayTurn S.Site D.Desk self.old.slots site.old desk.old }
        ensures turn { FromEach D.server self.old.slots (D.state desk.old) (S.log site.old)
            (λ start since. (slot : Held) → Holds self.old.slots at slot → OnOk result (
            TurnOf S.Site D.server D.moved D.same start since (link_of slot.channel) self.new.slots
            site.old site.new (D.state desk.new) desk.old desk.new)) }
        ensures cut { FromEach D.server self.old.slots (D.state desk.old) (S.log site.old)
            (λ start since. (slot : Held) → Holds self.old.slots at slot → OnErr result (
            LinkCut D.server (served_by D.server start.state since) (start.log ++ since)
            slot.channel (S.log site.new))) }
        ensures promises { TurnPromises S.Site D.Desk result self.old.slots site.old site.new
            desk.old desk.new }
        ensures place { self.new.place ≡ self.old.place }
        ensures fault { IfErr result (λ fault. fault ≡ TurnFault.DiskFault) }
    {
        match &mut self.slots[at] {
            Some(slot) => match link::step_link(slot, self.room.as_mut_slice(), site, desk) {
                Ok(false) => Ok(()),
                Ok(true) => {
                    put(&mut self.slots, at, None);
                    Ok(())
                }
                Err(_) => {
                    put(&mut self.slots, at, None);
                    Err(TurnFault::DiskFault)
                }
            },
            None => Ok(()),
        }
    }

    /// The turn of this place of the rotation.
    fn turn_at<S: Site, D: Desk<S>>(
        &mut self,
        at: usize,
        site: &mut S,
        desk: &mut D,
    ) -> Result<(), TurnFault>
        requires on { IsSome (get_or (places (channels_of self.old.slots)) at None) }
        requires may { MayTurn S.Site D.Desk self.old.slots site.old desk.old }
        ensures turn { FromEach D.server self.old.slots (D.state desk.old) (S.log site.old)
            (λ start since. (who : Who) → get_or (places (channels_of self.old.slots)) at None
            ≡ Some who → OnOk result (TurnOf S.Site D.server D.moved D.same start since who
            self.new.slots site.old site.new (D.state desk.new) desk.old desk.new)) }
        ensures cut { FromEach D.server self.old.slots (D.state desk.old) (S.log site.old)
            (λ start since. (who : Who) → get_or (places (channels_of self.old.slots)) at None
            ≡ Some who → OnErr result (CutOf D.server start since who (S.log site.new))) }
        ensures promises { TurnPromises S.Site D.Desk result self.old.slots site.old site.new
            desk.old desk.new }
        ensures place { self.new.place ≡ self.old.place }
    {
        if at < 2 {
            self.turn_of_door(door_at(at), site)
        } else {
            self.turn_of_slot(at - 2, site, desk)
        }
    }

    /// Makes one turn: that of a door or of a link, the first from the place in the rotation on and
    /// round. It is one call of `door`, `hear` or `show`; what a link then asks is answered, and
    /// one that is over is shut. `DiskFault` and `DoorFault` come only where that count rose in the
    /// call; at `DoorFault` nothing is logged. Running out of memory ends no turn: the link gives
    /// up, and the reply 503 is due.
    ///
    /// Where the log is told, there has to be a start from which slots and desk follow it: as after
    /// `new` its present length, and the desk's state. Each start from which they follow it is one
    /// after a turn that answers `Ok`.
    pub fn turn<S: Site, D: Desk<S>>(&mut self, site: &mut S, desk: &mut D) -> Result<(), TurnFault>
        requires rests { D.rests desk.old site.old }
        requires asked { D.asked desk.old < greatest }
        requires follows { ForSome (S.log site.old)
            (FollowsSome D.server self.old.slots (D.state desk.old)) }
        ensures turn { FromEach D.server self.old.slots (D.state desk.old) (S.log site.old)
            (λ start since. OnOk result (OneTurn S.Site D.server D.moved D.same start since self.old
            self.new site.old site.new (D.state desk.new) desk.old desk.new)) }
        ensures cut { FromEach D.server self.old.slots (D.state desk.old) (S.log site.old)
            (λ start since. OnErr result (
            TurnCut D.server start since self.old.place (S.log site.new))) }
        ensures promises { TurnPromises S.Site D.Desk result self.old.slots site.old site.new
            desk.old desk.new }
    {
        let at = self.next();
        self.place = at + 1;
        self.turn_at(at, site, desk)
    }
}
