//! A whole file in place of the current one: the other file is closed, filled and opened.

ghost use Rattle.std.specs.Prelude.{◌≡◌, ◌↔◌, ◌+◌, ◌≤◌, ◌<◌, ◌^◌, List, ℕ, true, length};
ghost use Rattle.std.specs.Prelude.{IsTrue, IfOk, OnOk, OnErr};
ghost use Rattle.ox_outside.specs.Counts.{IsFailure, Rose, StopsAtFault};
ghost use Rattle.ox_outside.specs.Files.{file_of, other};
ghost use Rattle.ox_outside.specs.Runs.{LeavesOnly};
ghost use Rattle.ox_gated.specs.Layout.{is_lawful, layout_of};
ghost use Rattle.ox_gated.specs.OtherFile.{BeginsShut, HoldsBoth, IsOldOrNew, IsSpared, ReadsNew};
ghost use Rattle.ox_gated.specs.OtherFile.{MayTurn, MustTurn};
ghost use Rattle.ox_gated.specs.OtherFile.{filled_with, first_gate_at, tail_of_other};
ghost use Rattle.ox_gated.specs.Reading.{ReadsAlike};
ghost use Rattle.ox_gated.specs.Tail.{Holds};
ghost use Rattle.ox_gated.specs.Writes.{OnlyWrites};
ghost use Rattle.ox_gated.specs.Written.{with_open_gate};

use crate::framed::Checkpoint;
use crate::head::Head;
use crate::layout::SUMMED_BODY_AT;
use crate::tail::{DiskFault, Tail};
use crate::two_pieces::write_pieces_synced;
use crate::writes::write_synced;
use ox_outside::{Site, Which};
use std::marker::Model;

/// A tail beside which the other file is closed. Contracts see the tail.
#[derive(Drop)]
pub struct Closed {
    tail: Tail,
}

impl Model for Closed {
    ghost use Rattle.std.specs.Prelude.{◌≡◌, true};
    ghost use Rattle.ox_gated.specs.Tail.{Kept};

    ghost Value = { Kept };

    ghost view = { λ c. c.tail };

    ghost invariant = { λ c. c.tail.other_closed ≡ true };
}

/// A tail beside which the other file is filled: behind its closed first gate stand a head of a
/// greater generation and a body. Contracts see the tail, that head, and the place of the closed
/// gate behind the body.
#[derive(Drop)]
pub struct Filled {
    tail: Tail,
    head: Head,
    gate: u64,
}

impl Model for Filled {
    ghost use Rattle.std.specs.Prelude.{◌+◌, ◌<◌, ◌^◌, IsTrue};
    ghost use Rattle.ox_gated.specs.Layout.{is_lawful, layout_of};
    ghost use Rattle.ox_gated.specs.OtherFile.{KeptBoth};

    ghost Value = { KeptBoth };

    ghost view = { λ f. record { tail = f.tail; head = f.head; gate = f.gate } };

    ghost invariant = { λ f.
        IsTrue (is_lawful f.head) × (f.head.depth < 2 ^ 16) × (f.head.generation < 2 ^ 64)
        × (f.tail.head.generation < f.head.generation)
        × (f.gate < 2 ^ 63 + (layout_of f.head.version).body_at) };
}

/// How many records a file has at the least when the other one takes its place.
const MOST_RECORDS: u64 = 64;

/// The file that isn't this one.
pub(crate) fn other_file(file: Which) -> Which
    ensures { result ≡ other file }
{
    match file {
        Which::A => Which::B,
        Which::B => Which::A,
    }
}

impl Tail {
    /// Whether the current file has 64 records or more, and its generation isn't the greatest: at
    /// version 2 the next record has to come into the other file then.
    pub fn must_turn(&self) -> bool
        ensures { IsTrue result ↔ MustTurn self.now }
    {
        self.records() >= MOST_RECORDS && self.head().generation != u64::MAX
    }

    /// Whether the other file is due to take the place of the current one, as the same stack
    /// without records: that one is of version 3 and has 64 records or a multiple of that, which
    /// take at least half as many bytes as the body, gates and sums among them, and its generation
    /// isn't the greatest.
    pub fn is_turn_due(&self) -> bool
        ensures { IsTrue result ↔ MayTurn self.now }
    {
        let body = self.first().saturating_sub(SUMMED_BODY_AT as u64);
        let behind = self.gate().saturating_sub(self.first());
        self.head().version == 3
            && self.must_turn()
            && self.records() % MOST_RECORDS == 0
            && body.saturating_sub(behind) <= behind
    }

    /// Closes the other file, unless it is closed: then no call is made. At any moment of it each
    /// crash leaves files that stand for what they stood for, whichever versions are read.
    /// `DiskFault` comes only where a call on a file failed; the tail is gone then.
    pub fn close_other<S: Site>(self, site: &mut S) -> Result<Closed, DiskFault>
        requires { IsTrue (S.told site.old) → Holds S.Site self site.old }
        ensures holds { IsTrue (S.told site.old)
            → IfOk result (λ closed. Holds S.Site closed site.new) }
        ensures shut { IsTrue (S.told site.old)
            → OnOk result (BeginsShut (file_of (S.seen site.new) (other self.file))) }
        ensures spared { IsTrue (S.told site.old)
            → OnOk result (IsSpared self.file (S.seen site.old) (S.seen site.new)) }
        ensures kept { IfOk result (λ closed. closed ≡ record self { other_closed = true }) }
        ensures alike { IsTrue (S.told site.old)
            → OnOk result (ReadsAlike (S.seen site.old) (S.seen site.new)) }
        ensures any_moment { IsTrue (S.told site.old)
            → LeavesOnly S.Site site.old site.new (λ r. ReadsAlike (S.seen site.old) r.files) }
        ensures failed { OnErr result (Rose (S.counts site.old).disk (S.counts site.new).disk) }
        ensures counted { StopsAtFault (IsFailure result) ⊥ ⊥
            (S.counts site.old) (S.counts site.new) }
        ensures writes { OnlyWrites S.Site site.old site.new }
    {
        if self.is_other_closed() {
            return Ok(Closed { tail: self });
        }
        write_synced(site, other_file(self.file()), 0, &[0])?;
        Ok(Closed {
            tail: self.with_other_closed(),
        })
    }

    /// Puts a file of this head and body, without records, in place of the current one: the other
    /// file is closed, filled and opened. At any moment of the call a crash leaves files that stand
    /// for what they stood for before, or for that head and body. At `Ok` it is on the disk: each
    /// crash then leaves the latter. The two may differ in their version. No event of a channel is
    /// logged. `DiskFault` comes only where a call on a file failed; the tail is gone then.
    pub fn turn_to<S: Site>(self, site: &mut S, checkpoint: &Checkpoint) -> Result<Tail, DiskFault>
        requires generation { self.head.generation < checkpoint.now.head.generation }
        requires holds { IsTrue (S.told site.old) → Holds S.Site self site.old }
        ensures holds { IsTrue (S.told site.old)
            → IfOk result (λ tail. Holds S.Site tail site.new) }
        ensures turned { IsTrue (S.told site.old)
            → OnOk result (ReadsNew (other self.file) checkpoint.now (S.seen site.new)) }
        // The file that was current stays as it is.
        ensures spared { IsTrue (S.told site.old)
            → OnOk result (IsSpared self.file (S.seen site.old) (S.seen site.new)) }
        ensures kept { let whole = checkpoint.now in
            IfOk result (λ tail. tail
            ≡ tail_of_other self.file whole.head (first_gate_at whole.head whole.body)) }
        ensures any_moment { IsTrue (S.told site.old)
            → LeavesOnly S.Site site.old site.new
            (λ r. IsOldOrNew (other self.file) checkpoint.now (S.seen site.old) r.files) }
        ensures failed { OnErr result (Rose (S.counts site.old).disk (S.counts site.new).disk) }
        ensures counted { StopsAtFault (IsFailure result) ⊥ ⊥
            (S.counts site.old) (S.counts site.new) }
        ensures writes { OnlyWrites S.Site site.old site.new }
    {
        let closed = self.close_other(site)?;
        let filled = closed.fill_other(site, checkpoint)?;
        filled.open_other(site)
    }
}

impl Closed {
    /// The tail.
    pub fn into_tail(self) -> Tail
        ensures tail { result ≡ self }
        ensures closed { result.other_closed ≡ true }
    {
        self.tail
    }

    /// Writes a file of this head and body, without records, behind the other file's closed gate,
    /// and syncs it. What an older, longer file had behind it stays there. At any moment of the
    /// call each crash leaves files that stand for what they stood for, whichever versions are
    /// read. `DiskFault` comes only where a call on a file failed; the tail is gone then.
    pub fn fill_other<S: Site>(
        self,
        site: &mut S,
        checkpoint: &Checkpoint,
    ) -> Result<Filled, DiskFault>
        requires generation { self.head.generation < checkpoint.now.head.generation }
        requires holds { IsTrue (S.told site.old) → Holds S.Site self site.old }
        ensures holds { IsTrue (S.told site.old)
            → IfOk result (λ filled. HoldsBoth S.Site filled checkpoint.now.body site.new) }
        ensures spared { IsTrue (S.told site.old)
            → OnOk result (IsSpared self.file (S.seen site.old) (S.seen site.new)) }
        ensures kept { let whole = checkpoint.now in
            IfOk result (λ filled. filled ≡ record {
              tail = self;
              head = whole.head;
              gate = first_gate_at whole.head whole.body;
            }) }
        ensures alike { IsTrue (S.told site.old)
            → OnOk result (ReadsAlike (S.seen site.old) (S.seen site.new)) }
        ensures any_moment { IsTrue (S.told site.old)
            → LeavesOnly S.Site site.old site.new (λ r. ReadsAlike (S.seen site.old) r.files) }
        ensures failed { OnErr result (Rose (S.counts site.old).disk (S.counts site.new).disk) }
        ensures counted { StopsAtFault (IsFailure result) ⊥ ⊥
            (S.counts site.old) (S.counts site.new) }
        ensures writes { OnlyWrites S.Site site.old site.new }
    {
        let front = checkpoint.front();
        let behind = checkpoint.behind();
        write_pieces_synced(site, other_file(self.tail.file()), 1, front, behind)?;
        Ok(Filled {
            tail: self.tail,
            head: checkpoint.head(),
            gate: (front.len() + behind.len()) as u64,
        })
    }
}

impl Filled {
    /// A tail beside which the other file is filled with this head, and a body that ends at this
    /// gate.
    pub(crate) fn beside(tail: Tail, head: Head, gate: u64) -> Filled
        requires lawful { IsTrue (is_lawful head) }
        requires generation { tail.head.generation < head.generation }
        requires gate { gate < 2 ^ 63 + (layout_of head.version).body_at }
        ensures { result ≡ record { tail = tail; head = head; gate = gate } }
    {
        Filled { tail, head, gate }
    }

    /// Opens the other file, in a write of its own, and syncs it: it is current then, without a
    /// record. At any moment of the call each crash leaves files that stand for what they stood
    /// for, whichever versions are read, or for what the other file was filled with, where its
    /// version is one of them. `DiskFault` comes only where a call on a file failed; the tail is
    /// gone then.
    pub fn open_other<S: Site>(self, site: &mut S) -> Result<Tail, DiskFault>
        requires { IsTrue (S.told site.old)
            → (body : List ℕ) × HoldsBoth S.Site self body site.old }
        ensures holds { IsTrue (S.told site.old)
            → IfOk result (λ tail. Holds S.Site tail site.new) }
        ensures opened { IsTrue (S.told site.old)
            → (body : List ℕ) → HoldsBoth S.Site self body site.old
            → OnOk result (
            ReadsNew (other self.tail.file) (filled_with self body) (S.seen site.new)) }
        // Its first byte is 1 then, and nothing else of the two files changes.
        ensures files { IsTrue (S.told site.old)
            → OnOk result (
            S.seen site.new ≡ with_open_gate (other self.tail.file) 0 (S.seen site.old)) }
        ensures spared { IsTrue (S.told site.old)
            → OnOk result (IsSpared self.tail.file (S.seen site.old) (S.seen site.new)) }
        ensures kept { IfOk result (λ tail.
            tail ≡ tail_of_other self.tail.file self.head self.gate) }
        ensures any_moment { IsTrue (S.told site.old)
            → (body : List ℕ) → HoldsBoth S.Site self body site.old
            → LeavesOnly S.Site site.old site.new (λ r.
            IsOldOrNew (other self.tail.file) (filled_with self body) (S.seen site.old) r.files) }
        ensures failed { OnErr result (Rose (S.counts site.old).disk (S.counts site.new).disk) }
        ensures counted { StopsAtFault (IsFailure result) ⊥ ⊥
            (S.counts site.old) (S.counts site.new) }
        ensures writes { OnlyWrites S.Site site.old site.new }
    {
        let file = other_file(self.tail.file());
        write_synced(site, file, 0, &[1])?;
        Ok(Tail::at(file, self.head, self.gate, 0, self.gate, false))
    }
}
