//! The tail of two files: where the next record comes.

ghost use Rattle.std.specs.Prelude.{◌≡◌, ◌↔◌, ◌+◌, ◌<◌, ◌^◌, [], true, IsTrue, IfOk, OnOk, OnErr};
ghost use Rattle.ox_outside.specs.Counts.{IsFailure, Rose, StopsAtFault};
ghost use Rattle.ox_outside.specs.Runs.{LeavesOnly};
ghost use Rattle.ox_gated.specs.Writes.{OnlyWrites};
ghost use Rattle.ox_gated.specs.Written.{with_record_behind};

use crate::fault::Halt;
use crate::framed::{Checkpoint, Framed};
use crate::head::Head;
use crate::two_pieces::write_pieces_synced;
use crate::writes::write_synced;
use ox_outside::{Failed, Site, Which};
use std::marker::Model;

/// A call on a file failed. The tail is gone: open the files again.
#[derive(Clone, Copy, Debug, PartialEq, Eq)]
pub struct DiskFault;

impl From<Failed> for DiskFault {
    fn from(_failed: Failed) -> DiskFault {
        DiskFault
    }
}

impl From<DiskFault> for Halt {
    ghost use Rattle.ox_gated.specs.declared.fault.Halt.TheVariants as halts;

    ghost from_gives = { λ _ e. e ≡ halts.Disk };

    fn from(_fault: DiskFault) -> Halt {
        Halt::Disk
    }
}

/// Where the next record comes: behind the closed gate that ends the records of the current file.
#[derive(Drop)]
pub struct Tail {
    file: Which,
    head: Head,
    first: u64,
    records: u64,
    gate: u64,
    other_closed: bool,
}

impl Model for Tail {
    ghost use Rattle.std.specs.Prelude.{◌≤◌, ◌+◌};
    ghost use Rattle.ox_gated.specs.Tail.{Kept};

    ghost Value = { Kept };

    ghost view = { λ t. record {
      file = t.file;
      head = t.head;
      first = t.first;
      records = t.records;
      gate = t.gate;
      other_closed = t.other_closed;
    } };

    ghost invariant = { λ t. t.first + t.records ≤ t.gate };
}

impl Tail {
    ghost use Rattle.std.specs.Prelude.{length, ◌≤◌};
    ghost use Rattle.ox_gated.specs.OtherFile.{ReadsNew};
    ghost use Rattle.ox_gated.specs.Reading.{ReadsMore};
    ghost use Rattle.ox_gated.specs.Tail.{Holds, IsBeforeOrAfter, IsFramedBehind, Fits, new_files};

    /// The tail of files that were read.
    pub(crate) fn at(
        file: Which,
        head: Head,
        first: u64,
        records: u64,
        gate: u64,
        other_closed: bool,
    ) -> Tail
        requires { first + records ≤ gate }
        ensures { result ≡ record {
          file = file;
          head = head;
          first = first;
          records = records;
          gate = gate;
          other_closed = other_closed;
        } }
    {
        Tail {
            file,
            head,
            first,
            records,
            gate,
            other_closed,
        }
    }

    /// The current file.
    pub fn file(&self) -> Which
        ensures { result ≡ self.now.file }
    {
        self.file
    }

    /// The head of the current file.
    pub fn head(&self) -> Head
        ensures { result ≡ self.now.head }
    {
        self.head
    }

    /// The place of the gate behind the body of the current file, where the first record comes.
    pub(crate) fn first(&self) -> u64
        ensures { result ≡ self.now.first }
    {
        self.first
    }

    /// How many records the current file has.
    pub fn records(&self) -> u64
        ensures { result ≡ self.now.records }
    {
        self.records
    }

    /// The place of the last gate of the current file, which is closed.
    pub(crate) fn gate(&self) -> u64
        ensures { result ≡ self.now.gate }
    {
        self.gate
    }

    /// Whether the other file is closed.
    pub(crate) fn is_other_closed(&self) -> bool
        ensures { result ≡ self.now.other_closed }
    {
        self.other_closed
    }

    /// The same tail, once the other file is closed.
    pub(crate) fn with_other_closed(self) -> Tail
        ensures { result ≡ record self { other_closed = true } }
    {
        Tail {
            other_closed: true,
            ..self
        }
    }

    /// Whether a payload of so many bytes can be appended: each place of the file then still fits
    /// 64 bits.
    pub fn fits(&self, size: u64) -> bool
        ensures { IsTrue result ↔ Fits self.now size }
    {
        match self.gate.checked_add(size) {
            Some(end) => end < u64::MAX - self.head.before_payload(),
            None => false,
        }
    }

    /// Appends a record. At `Ok` it is on the disk: each crash then leaves files that have it. At
    /// any moment of the call a crash leaves files that stand for what they stood for before, with
    /// the record behind it or without, whichever versions are read. No event of a channel is
    /// logged. `DiskFault` comes only where a call on a file failed.
    ///
    /// The record is written behind the closed gate, as `frame` gives it, and the gate is then the
    /// byte 1; nothing else of the two files changes.
    pub fn append<S: Site>(self, site: &mut S, framed: &Framed) -> Result<Tail, DiskFault>
        requires framed { IsFramedBehind self framed.now }
        requires fits { Fits self (length framed.now.payload) }
        requires holds { IsTrue (S.told site.old) → Holds S.Site self site.old }
        ensures holds { IsTrue (S.told site.old)
            → IfOk result (λ tail. Holds S.Site tail site.new) }
        ensures appended { IsTrue (S.told site.old)
            → OnOk result (ReadsMore framed.now.payload (S.seen site.old) (S.seen site.new)) }
        ensures files { IsTrue (S.told site.old)
            → OnOk result (S.seen site.new
            ≡ with_record_behind self.file self.gate framed.now.bytes (S.seen site.old)) }
        ensures kept { IfOk result (λ tail.
            (tail.file ≡ self.file) × (tail.head ≡ self.head)
            × (tail.records ≡ self.records + 1)) }
        ensures any_moment { IsTrue (S.told site.old)
            → LeavesOnly S.Site site.old site.new
            (λ r. IsBeforeOrAfter framed.now.payload (S.seen site.old) r.files) }
        ensures failed { OnErr result (Rose (S.counts site.old).disk (S.counts site.new).disk) }
        ensures counted { StopsAtFault (IsFailure result) ⊥ ⊥
            (S.counts site.old) (S.counts site.new) }
        ensures writes { OnlyWrites S.Site site.old site.new }
    {
        let bytes = framed.as_slice();
        write_synced(site, self.file, self.gate + 1, bytes)?;
        write_synced(site, self.file, self.gate, &[1])?;
        Ok(Tail {
            records: self.records + 1,
            gate: self.gate + bytes.len() as u64,
            ..self
        })
    }

    /// Makes two empty files a pair of this head and body, without records: B is closed, and A is
    /// current. At `Ok` it is on the disk: each crash then leaves that pair. `DiskFault` comes only
    /// where a call on a file failed.
    pub fn make<S: Site>(site: &mut S, checkpoint: &Checkpoint) -> Result<Tail, DiskFault>
        requires empty { IsTrue (S.told site.old) → S.seen site.old ≡ record { a = []; b = [] } }
        ensures made { IsTrue (S.told site.old)
            → IfOk result (λ tail. S.seen site.new ≡ new_files checkpoint.now) }
        ensures holds { IsTrue (S.told site.old)
            → IfOk result (λ tail. Holds S.Site tail site.new) }
        ensures stands { IsTrue (S.told site.old)
            → OnOk result (ReadsNew Which.A checkpoint.now (S.seen site.new)) }
        ensures kept { IfOk result (λ tail.
            (tail.file ≡ Which.A) × (tail.head ≡ checkpoint.now.head) × (tail.records ≡ 0)) }
        ensures failed { OnErr result (Rose (S.counts site.old).disk (S.counts site.new).disk) }
        ensures counted { StopsAtFault (IsFailure result) ⊥ ⊥
            (S.counts site.old) (S.counts site.new) }
        ensures writes { OnlyWrites S.Site site.old site.new }
    {
        let front = checkpoint.front();
        let behind = checkpoint.behind();
        write_synced(site, Which::B, 0, &[0])?;
        site.write(Which::A, 0, &[0])?;
        write_pieces_synced(site, Which::A, 1, front, behind)?;
        write_synced(site, Which::A, 0, &[1])?;
        let gate = front.len() as u64 + behind.len() as u64;
        Ok(Tail {
            file: Which::A,
            head: checkpoint.head(),
            first: gate,
            records: 0,
            gate,
            other_closed: true,
        })
    }
}
