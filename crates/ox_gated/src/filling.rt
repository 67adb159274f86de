//! The other file, filled piece by piece behind its closed gate, by whoever knows of no file.

ghost use Rattle.std.specs.Prelude.{◌≡◌, ◌+◌, ◌≤◌, ◌<◌, ◌^◌, ◌++◌, ℕ, List, [], length};
ghost use Rattle.std.specs.Prelude.{IsTrue, IfOk, OnOk, OnErr};
ghost use Rattle.ox_outside.specs.Counts.{IsFailure, Rose, StopsAtFault};
ghost use Rattle.ox_outside.specs.Files.{file_of, other};
ghost use Rattle.ox_gated.specs.Filling.{HasTaken, PoursOn, StaysShut};
ghost use Rattle.ox_gated.specs.Layout.{is_lawful};
ghost use Rattle.ox_gated.specs.OtherFile.{HoldsBoth, first_gate_at};
ghost use Rattle.ox_gated.specs.Tail.{Holds, IsSettled};
ghost use Rattle.ox_gated.specs.Written.{with_write};

use crate::fault::Halt;
use crate::front::summed_front;
use crate::head::Head;
use crate::layout::SUMMED_BODY_AT;
use crate::other_file::{Closed, Filled, other_file};
use crate::sink::Sink;
use crate::tail::{DiskFault, Tail};
use ox_outside::{Failed, Site};
use sha2::{Digest, Sha256};
use std::marker::Model;

/// The greatest length of a body that is filled in.
const LONGEST_BODY: u64 = 0x7fff_ffff_ffff_ffff;

/// A tail beside which the other file is filled with a body, as a file of version 3: each piece is
/// written behind the pieces before it, and hashed. Contracts see the tail, how many bytes of the
/// body were taken, and the hasher.
#[derive(Drop)]
pub struct Filling {
    tail: Tail,
    size: u64,
    hasher: Sha256,
}

impl Model for Filling {
    ghost use Rattle.ox_gated.specs.Filling.{Poured};

    ghost Value = { Poured };

    ghost view = { λ f. record { tail = f.tail; size = f.size; hasher = f.hasher } };
}

/// Writes a piece into the file beside this tail's, behind the closed gate, and syncs nothing.
fn pour<S: Site>(site: &mut S, tail: &Tail, at: u64, piece: &[u8]) -> Result<(), Failed>
    requires behind { 1 ≤ at }
    requires shut { IsTrue (S.told site.old) → StaysShut S.Site tail.now site.old }
    requires within { IsTrue (S.told site.old)
        → at ≤ length (file_of (S.seen site.old) (other tail.now.file)) }
    ensures written { IsTrue (S.told site.old)
        → OnOk result (
        S.seen site.new ≡ with_write (other tail.now.file) at piece.now (S.seen site.old)) }
    ensures pours { PoursOn S.Site tail.now site.old site.new }
    ensures failed { OnErr result (Rose (S.counts site.old).disk (S.counts site.new).disk) }
    ensures counted { StopsAtFault (IsFailure result) ⊥ ⊥ (S.counts site.old) (S.counts site.new) }
{
    site.write(other_file(tail.file()), at, piece)
}

/// Syncs the file beside this tail's: then each crash image of the two is what a read gives.
fn settle_beside<S: Site>(site: &mut S, tail: &Tail) -> Result<(), Failed>
    requires shut { IsTrue (S.told site.old) → StaysShut S.Site tail.now site.old }
    ensures settled { IsTrue (S.told site.old) → OnOk result (IsSettled S.Site site.new) }
    ensures files { S.seen site.new ≡ S.seen site.old }
    ensures pours { PoursOn S.Site tail.now site.old site.new }
    ensures failed { OnErr result (Rose (S.counts site.old).disk (S.counts site.new).disk) }
    ensures counted { StopsAtFault (IsFailure result) ⊥ ⊥ (S.counts site.old) (S.counts site.new) }
{
    site.sync(other_file(tail.file()))
}

impl Closed {
    /// Begins to fill the other file, as one of version 3: where the head and the sums come, zeros
    /// are written behind the closed gate, since a write begins no later than the file ends. No
    /// sync is made. At any moment of the call each crash leaves files that stand for what they
    /// stood for, whichever versions are read. `DiskFault` comes only where a call on a file
    /// failed; the tail is gone then.
    pub fn begin<S: Site>(self, site: &mut S) -> Result<Filling, DiskFault>
        requires { IsTrue (S.told site.old) → Holds S.Site self site.old }
        ensures begun { IfOk result (λ filling. HasTaken S.Site filling site.new []) }
        ensures kept { IfOk result (λ filling. filling.tail ≡ self) }
        ensures pours { PoursOn S.Site self site.old site.new }
        ensures failed { OnErr result (Rose (S.counts site.old).disk (S.counts site.new).disk) }
        ensures counted { StopsAtFault (IsFailure result) ⊥ ⊥
            (S.counts site.old) (S.counts site.new) }
    {
        let tail = self.into_tail();
        pour(site, &tail, 1, &[0; 89])?;
        Ok(Filling {
            tail,
            size: 0,
            hasher: Sha256::new(),
        })
    }
}

impl<S: Site> Sink<S> for Filling {
    ghost use Rattle.std.specs.Prelude.{◌≡◌};
    ghost use Rattle.ox_gated.specs.Filling.{HasTaken, Pours, PoursUntil};
    ghost use Rattle.ox_gated.specs.Pouring.{fills_none, fills_then, fills_until};

    /// `Memory` where the body would be longer than 2^63 - 1 bytes: nothing is written then.
    type Fault = Halt;

    ghost holds = { λ k site body. HasTaken S.Site k site body };

    ghost went = { λ k old l new. (l.tail ≡ k.tail) × Pours S.Site k.tail old new };

    ghost ended = { λ k old halt l new.
        (l.tail ≡ k.tail) × PoursUntil S.Site k.tail old halt new };

    fn take(&mut self, site: &mut S, piece: &[u8]) -> Result<(), Halt> {
        if piece.len() as u64 > LONGEST_BODY - self.size {
            return Err(Halt::Memory);
        }
        match pour(site, &self.tail, SUMMED_BODY_AT as u64 + self.size, piece) {
            Ok(()) => {
                self.hasher.update(piece);
                self.size += piece.len() as u64;
                Ok(())
            }
            Err(Failed) => Err(Halt::Disk),
        }
    }

    ghost no_call = { λ k site body so. fills_none (record {
      told = S.told;
      seen = S.seen;
      log = S.log;
      may_leave = S.may_leave;
      clock = S.clock;
      left_since = S.left_since;
      counts = S.counts;
    })
        S.only_now S.logs_now k site so.stays };

    ghost then_went = { λ k l m w x y first next. fills_then (record {
      told = S.told;
      seen = S.seen;
      log = S.log;
      may_leave = S.may_leave;
      clock = S.clock;
      left_since = S.left_since;
      counts = S.counts;
    }) S.logs_now k l m w x y first next };

    ghost then_ended = { λ k l m w x y halt first next. fills_until (record {
      told = S.told;
      seen = S.seen;
      log = S.log;
      may_leave = S.may_leave;
      clock = S.clock;
      left_since = S.left_since;
      counts = S.counts;
    }) S.logs_now k l m w x y halt first next };
}

impl Filling {
    /// Ends the body: the closed gate is written behind it, then its head, length and sums before
    /// it, and one sync is made. Behind the closed first gate a whole file of version 3 stands
    /// then. At any moment of the call each crash leaves files that stand for what they stood for,
    /// whichever versions are read. `DiskFault` comes only where a call on a file failed; the tail
    /// is gone then.
    pub fn end<S: Site>(self, site: &mut S, head: &Head) -> Result<Filled, DiskFault>
        requires taken { (body : List ℕ) × HasTaken S.Site self site.old body }
        requires head { IsTrue (is_lawful head.now) }
        requires version { head.now.version ≡ 3 }
        requires generation { self.tail.head.generation < head.now.generation }
        ensures holds { IsTrue (S.told site.old)
            → (body : List ℕ) → HasTaken S.Site self site.old body
            → IfOk result (λ filled. HoldsBoth S.Site filled body site.new) }
        ensures kept { (body : List ℕ) → HasTaken S.Site self site.old body
            → IfOk result (λ filled. filled ≡ record {
              tail = self.tail;
              head = head.now;
              gate = first_gate_at head.now body;
            }) }
        ensures pours { PoursOn S.Site self.tail site.old site.new }
        ensures failed { OnErr result (Rose (S.counts site.old).disk (S.counts site.new).disk) }
        ensures counted { StopsAtFault (IsFailure result) ⊥ ⊥
            (S.counts site.old) (S.counts site.new) }
    {
        let gate = SUMMED_BODY_AT as u64 + self.size;
        let front = summed_front(head, self.size, &self.hasher.finalize());
        let tail = self.tail;
        pour(site, &tail, gate, &[0])?;
        pour(site, &tail, 1, &front)?;
        settle_beside(site, &tail)?;
        Ok(Filled::beside(tail, *head, gate))
    }

    /// Gives up what was filled in: the other file stays closed, and the tail goes on. One sync is
    /// made, and at any moment of it each crash leaves files that stand for what they stood for,
    /// whichever versions are read. `DiskFault` comes only where a call on a file failed; the tail
    /// is gone then.
    pub fn give_up<S: Site>(self, site: &mut S) -> Result<Tail, DiskFault>
        requires { IsTrue (S.told site.old) → StaysShut S.Site self.tail site.old }
        ensures holds { IsTrue (S.told site.old)
            → IfOk result (λ tail. Holds S.Site tail site.new) }
        ensures kept { IfOk result (λ tail. tail ≡ self.tail) }
        ensures pours { PoursOn S.Site self.tail site.old site.new }
        ensures failed { OnErr result (Rose (S.counts site.old).disk (S.counts site.new).disk) }
        ensures counted { StopsAtFault (IsFailure result) ⊥ ⊥
            (S.counts site.old) (S.counts site.new) }
    {
        settle_beside(site, &self.tail)?;
        Ok(self.tail)
    }
}
