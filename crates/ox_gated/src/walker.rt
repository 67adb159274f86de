//! A file of version 3 that is read in pieces: behind its body, record by record.

ghost use Rattle.std.specs.Prelude.{◌≡◌, ◌≤◌, ◌+◌, ℕ, List, length, IsTrue};
ghost use Rattle.std.specs.Prelude.{IfOk, IfErr, IfSome, OnErr};
ghost use Rattle.ox_outside.specs.Files.{file_of};
ghost use Rattle.ox_gated.specs.Begun.{HasNothingBefore, IsFaultBehind};
ghost use Rattle.ox_gated.specs.Gate.{HasFront};
ghost use Rattle.ox_gated.specs.Parts.{AreThere, HasStepped, HasWalked, IsWithin};
ghost use Rattle.ox_gated.specs.Parts.{front_here, tail_at, walked_on};
ghost use Rattle.ox_gated.specs.Readers.{LooksUntil, ReadsGate};
ghost use Rattle.ox_gated.specs.declared.records.Record.{Record};

use crate::fault::GateFault;
use crate::head::Head;
use crate::open::{read_part, refused_at};
use crate::records::{Broken, Record, is_summed_so, summed_gate};
use crate::tail::Tail;
use ox_bytes::Bytes;
use ox_outside::{Site, Which};
use std::alloc::Global;
use std::marker::Model;

/// How many bytes stand before a payload, from its record's gate on, in a file of version 3.
const BEFORE_PAYLOAD: u64 = 41;

/// Where the next record is read of the current file of two, which is of version 3: at the gate
/// behind those that were read.
#[derive(Drop)]
pub struct Walker {
    alloc: Global,
    file: Which,
    head: Head,
    first: u64,
    records: u64,
    place: u64,
    len: u64,
    other_closed: bool,
}

impl Model for Walker {
    ghost use Rattle.std.specs.Prelude.{◌≡◌, ◌≤◌, ◌<◌, ◌+◌, ◌^◌, IsTrue};
    ghost use Rattle.ox_gated.specs.Layout.{is_lawful};
    ghost use Rattle.ox_gated.specs.Parts.{Walked};

    ghost Value = { Walked };

    ghost view = { λ w. record {
      file = w.file;
      head = w.head;
      first = w.first;
      records = w.records;
      place = w.place;
      len = w.len;
      other_closed = w.other_closed;
    } };

    ghost invariant = { λ w. IsTrue (is_lawful w.head) × (w.head.version ≡ 3)
        × (w.first + w.records ≤ w.place) × (w.place ≤ w.len) × (w.len < 2 ^ 64) };
}

impl Walker {
    ghost use Rattle.ox_gated.specs.Layout.{is_lawful};

    /// At the first gate behind a body, before any record is read.
    pub(crate) fn at(
        alloc: Global,
        file: Which,
        head: Head,
        first: u64,
        len: u64,
        other_closed: bool,
    ) -> Walker
        requires lawful { IsTrue (is_lawful head) }
        requires version { head.version ≡ 3 }
        requires within { first ≤ len }
        ensures { result ≡ record {
          file = file;
          head = head;
          first = first;
          records = 0;
          place = first;
          len = len;
          other_closed = other_closed;
        } }
    {
        Walker {
            alloc,
            file,
            head,
            first,
            records: 0,
            place: first,
            len,
            other_closed,
        }
    }

    /// The record at this gate, or none where it is closed.
    fn record_here<S: Site>(&self, site: &mut S) -> Result<Option<Record>, GateFault>
        requires there { IsTrue (S.told site.old)
            → self.now.len ≡ length (file_of (S.seen site.old) self.now.file) }
        ensures gate { ReadsGate S.Site self.now result site.old site.new }
        ensures version { self.now.head.version ≡ 3 }
    {
        let left = self.len - self.place;
        let front = read_part(
            self.alloc,
            site,
            self.file,
            self.place,
            left.min(BEFORE_PAYLOAD),
        )?;
        match summed_gate(&front) {
            Err(Broken) => Err(refused_at(self.file, self.place)),
            Ok(None) => Ok(None),
            Ok(Some((size, sum))) => {
                if size > left - BEFORE_PAYLOAD {
                    return Err(refused_at(self.file, self.place));
                }
                self.record_of(site, size, sum)
            }
        }
    }

    /// The record at this gate, by the length and the sum of its payload, which is there.
    fn record_of<S: Site>(
        &self,
        site: &mut S,
        size: u64,
        sum: &[u8],
    ) -> Result<Option<Record>, GateFault>
        requires within { self.now.place + 41 + size ≤ self.now.len }
        requires there { IsTrue (S.told site.old)
            → self.now.len ≡ length (file_of (S.seen site.old) self.now.file) }
        requires front { let file = file_of (S.seen site.old) self.now.file in
            IsTrue (S.told site.old) → HasFront (front_here self.now file) size sum.now }
        ensures { ReadsGate S.Site self.now result site.old site.new }
    {
        let at = self.place + BEFORE_PAYLOAD;
        let payload = read_part(self.alloc, site, self.file, at, size)?;
        let as_summed = is_summed_so(self.head.generation, self.place, &payload, sum);
        if !as_summed {
            return Err(refused_at(self.file, self.place));
        }
        Ok(Some(Record {
            place: self.place,
            payload: Bytes::from_vec(payload),
        }))
    }

    /// Goes on behind the record at this gate, where there is one.
    fn pass(&mut self, step: &Option<Record>)
        requires { IfSome step.now (IsWithin self.old) }
        ensures { self.new ≡ walked_on self.old step.now }
    {
        if let Some(one) = step {
            self.records += 1;
            self.place += BEFORE_PAYLOAD + one.payload.len() as u64;
        }
    }

    /// Reads the next record: its gate, and its payload, which is as its sum says. None at the
    /// closed gate that ends the records. It changes nothing.
    ///
    /// `NotStore` comes exactly where the gate is missing, or its record is cut or not as its sum
    /// says: with the file and the gate's place, and with nothing before it. `Halt` comes with
    /// `Disk` only where a call on a file failed, and with `Memory` where there is none for the
    /// record.
    pub fn next<S: Site>(&mut self, site: &mut S) -> Result<Option<Record>, GateFault>
        requires there { IsTrue (S.told site.old)
            → AreThere self.old.file self.old.len self.old.other_closed (S.seen site.old) }
        ensures step { IsTrue (S.told site.old)
            → (body : List ℕ) (records : List Record)
            → HasWalked self.old body records (S.seen site.old)
            → IfOk result (λ step. HasStepped S.Site self.new body records step site.new) }
        ensures not_store { IsTrue (S.told site.old)
            → (body : List ℕ) (records : List Record)
            → HasWalked self.old body records (S.seen site.old)
            → IfErr result (IsFaultBehind self.old body records (S.seen site.old)) }
        ensures walker { IfOk result (λ step. self.new ≡ walked_on self.old step) }
        ensures place { IfOk result (λ step. IfSome step (λ one. one.place ≡ self.old.place)) }
        ensures kept { OnErr result (self.new ≡ self.old) }
        ensures nothing_before { IfErr result HasNothingBefore }
        ensures run { LooksUntil S.Site result site.old site.new }
    {
        let step = self.record_here(site)?;
        self.pass(&step);
        Ok(step)
    }

    /// The current file.
    pub fn file(&self) -> Which
        ensures { result ≡ self.now.file }
    {
        self.file
    }

    /// The tail of the records that were read: where these are all, it is that of the files.
    pub fn tail(self) -> Tail
        ensures { result ≡ tail_at self }
    {
        Tail::at(
            self.file,
            self.head,
            self.first,
            self.records,
            self.place,
            self.other_closed,
        )
    }
}
