//! The bytes of one hearing.

ghost use Rattle.std.specs.Prelude.{◌≡◌, ◌≤◌, ◌<◌, [], length, take, drop, vec_len, true, Ok, IfOk};
ghost use Rattle.std.specs.Prelude.{OnErr, IsErrOf};
ghost use Rattle.ox_outside.specs.Counts.{Rose, StopsAtFault};
ghost use Rattle.ox_outside.specs.Runs.{OnlyTalks};
ghost use Rattle.ox_outside.specs.Log.{Grows};
ghost use Rattle.ox_feed.specs.Feed.{OnlyHears, room_size};
ghost use Rattle.ox_feed.specs.Held.{Fills};

use crate::lines::FeedFault;
use ox_outside::{Failed, Heard, Site};
use std::alloc::{AllocError, Global};
use std::marker::Model;

/// The most bytes that one call hears.
const ROOM: usize = 65_536;

/// The bytes of the last hearing that haven't been looked at.
#[derive(Drop)]
pub struct Piece {
    room: Vec<u8>,
    from: usize,
    to: usize,
}

impl Model for Piece {
    ghost use Rattle.std.specs.Prelude.{◌≤◌, List, ℕ, take, drop, vec_len};
    ghost use Rattle.ox_feed.specs.Feed.{room_size};

    ghost Value = { List ℕ };

    ghost view = { λ p. drop p.from (take p.to p.room.items) };

    ghost invariant = { λ p.
        (p.from ≤ p.to) × (p.to ≤ vec_len p.room) × (vec_len p.room ≤ room_size) };
}

/// The room of a hearing.
fn room(alloc: Global) -> Result<Vec<u8>, AllocError>
    ensures { IfOk result (λ room. vec_len room ≡ room_size) }
{
    vec![in alloc; 0u8; ROOM]
}

impl Piece {
    /// A piece before the first hearing: without bytes, and without room for any.
    pub fn empty(alloc: Global) -> Piece
        ensures { result ≡ [] }
    {
        Piece {
            room: Vec::new(alloc),
            from: 0,
            to: 0,
        }
    }

    /// The bytes that are still to be looked at.
    pub fn bytes(&self) -> &[u8]
        ensures { result.now ≡ self.now }
    {
        self.room
            .as_slice()
            .split_at(self.to)
            .0
            .split_at(self.from)
            .1
    }

    /// Passes over the first n bytes.
    pub fn pass(&mut self, n: usize)
        requires { n ≤ length self.old }
        ensures { self.new ≡ drop n self.old }
    {
        self.from += n;
    }

    /// Hears bytes on channel 0, at most `most`, where all were passed over. `false` where the
    /// channel has ended.
    pub fn hear<S: Site>(
        &mut self,
        alloc: Global,
        site: &mut S,
        most: usize,
    ) -> Result<bool, FeedFault>
        requires none { self.old ≡ [] }
        requires some { 0 < most }
        ensures logged { Grows (Fills result self.new) (S.log site.old) (S.log site.new) }
        ensures bytes { result ≡ Ok true → 0 < length self.new }
        ensures most { length self.new ≤ most }
        ensures size { length self.new ≤ room_size }
        ensures empty { (result ≡ Ok true → ⊥) → self.new ≡ [] }
        ensures hear_fault { IsErrOf result FeedFault.HearFault
            → Rose ((S.counts site.old).hear 0) ((S.counts site.new).hear 0) }
        ensures counted { StopsAtFault ⊥ (IsErrOf result FeedFault.HearFault) ⊥
            (S.counts site.old) (S.counts site.new) }
        ensures too_much { IsErrOf result FeedFault.TooMuch → ⊥ }
        ensures talks { OnlyTalks S.Site OnlyHears site.old site.new }
    {
        if self.room.is_empty() {
            self.room = room(alloc)?;
        }
        self.room.truncate(most);
        self.from = 0;
        self.to = 0;
        match site.hear(0, self.room.as_mut_slice()) {
            Ok(Heard::Bytes(n)) => {
                self.to = n;
                Ok(true)
            }
            Ok(Heard::End) => Ok(false),
            Ok(Heard::NotYet) => unreachable!(),
            Err(Failed) => Err(FeedFault::HearFault),
        }
    }
}
