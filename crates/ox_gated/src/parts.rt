//! A file of version 3 that is read in pieces: first its body.

ghost use Rattle.std.specs.Prelude.{◌≡◌, ◌+◌, ◌≤◌, ◌<◌, ◌^◌, ℕ, List, [], ◌++◌, length, min};
ghost use Rattle.std.specs.Prelude.{slice_range, false, IsTrue, IfOk, IfErr, OnOk, OnErr, IsErrOf};
ghost use Rattle.ox_outside.specs.Counts.{IsFailure, Rose, StopsAtFault};
ghost use Rattle.ox_outside.specs.Files.{Files, file_of};
ghost use Rattle.ox_outside.specs.Runs.{OnlyLooks};
ghost use Rattle.sha2.specs.Hashers.{Holds256};
ghost use Rattle.sha2.specs.Sha256.{sha256};
ghost use Rattle.ox_gated.specs.Begun.{HasParts, HoldsWhole, IsBegun, IsWholeOrUnread};
ghost use Rattle.ox_gated.specs.Layout.{is_lawful, is_summed, summed_body_at};
ghost use Rattle.ox_gated.specs.Opened.{IsBehindLawful, IsExamined, IsFault};
ghost use Rattle.ox_gated.specs.Parts.{AreParts, GoesOn, HasWalked, IsLeft, MovesOn};
ghost use Rattle.ox_gated.specs.Parts.{body_in, is_intact_in, walker_behind};
ghost use Rattle.ox_gated.specs.Readers.{IsDisk, Reads};
ghost use Rattle.ox_gated.specs.Reading.{is_present, reading};
ghost use Rattle.ox_gated.specs.Tail.{IsSettled};

use crate::fault::{GateFault, Halt};
use crate::head::{Head, is_sum_of_body};
use crate::layout::SUMMED_BODY_AT;
use crate::open::{Examined, Opened, examine_settled, is_cut, read_current, read_part, refused_at};
use crate::tail::{DiskFault, Tail};
use crate::walker::Walker;
use ox_bytes::Bytes;
use ox_outside::{Failed, Site, Which};
use sha2::{Digest, Sha256};
use std::alloc::Global;
use std::marker::Model;

/// What was opened of two files.
#[derive(Drop)]
pub enum Begun {
    /// Of version 2 all that they hold.
    Whole(Opened),
    /// Of version 3 the current file, of which no more is known than what stands before its body.
    Parts(Parts),
}

/// The current file of two, of version 3: its body is read in pieces, and then its records one by
/// one.
#[derive(Drop)]
pub struct Parts {
    alloc: Global,
    examined: Examined,
    read: u64,
}

impl Model for Parts {
    ghost use Rattle.std.specs.Prelude.{◌≡◌, ◌≤◌, ◌<◌, ◌+◌, ◌^◌, IsTrue, length};
    ghost use Rattle.ox_gated.specs.Layout.{is_lawful, summed_body_at};
    ghost use Rattle.ox_gated.specs.Parts.{Unread};

    ghost Value = { Unread };

    ghost view = { λ p. record {
      file = p.examined.file;
      head = p.examined.opening.head;
      size = p.examined.opening.size;
      read = p.read;
      len = p.examined.front.len;
      front = p.examined.front.bytes.items;
      other_closed = p.examined.other_closed;
    } };

    ghost invariant = { λ p. IsTrue (is_lawful p.examined.opening.head)
        × (p.examined.opening.head.version ≡ 3)
        × (length p.examined.front.bytes.items ≡ summed_body_at)
        × (summed_body_at + p.examined.opening.size ≤ p.examined.front.len)
        × (p.examined.front.len < 2 ^ 64)
        × (p.read ≤ p.examined.opening.size) };
}

impl Tail {
    /// Begins to open two files of version 2 or 3. Of version 2 all is read, as `open` does; of
    /// version 3 nothing but what stands before the body, so that body and records come in pieces.
    /// It begins with a sync of both files, and changes nothing: at no moment does a crash leave
    /// anything that it didn't leave before. Unless a call failed, each crash image of the two is
    /// then what a read gives.
    ///
    /// `NotStore` comes where the files stand for nothing by what was read, with the file and the
    /// place of the first test that fails: so of version 3 where the body is cut, and not where it
    /// isn't as its sum says. `Halt` comes with `Disk` only where a call on a file failed, and with
    /// `Memory` where there is none for what was to be read.
    pub fn begin<S: Site>(alloc: Global, site: &mut S) -> Result<Begun, GateFault>
        ensures begun { IsTrue (S.told site.old) → IfOk result (IsBegun (S.seen site.old)) }
        ensures holds { IsTrue (S.told site.old) → IfOk result (HoldsWhole S.Site site.new) }
        ensures whole { IfOk result IsWholeOrUnread }
        ensures reads { Reads S.Site (reading is_present) result site.old site.new }
        ensures settled { ¬ IsDisk result → IsSettled S.Site site.new }
    {
        match examine_settled(alloc, site) {
            Ok(examined) => {
                if examined.opening.head.is_summed() {
                    parts_of(alloc, examined)
                } else {
                    whole_of(alloc, site, &examined)
                }
            }
            Err(fault) => Err(fault),
        }
    }
}

/// The current file of two, of version 3, before its body is read, where that is there.
fn parts_of(alloc: Global, examined: Examined) -> Result<Begun, GateFault>
    requires size { let front = examined.front in
        length front.bytes.items ≡ min summed_body_at front.len }
    requires lawful { IsTrue (is_lawful examined.opening.head) }
    requires version { examined.opening.head.version ≡ 3 }
    ensures begun { (files : Files) → IsExamined examined files → IfOk result (IsBegun files) }
    ensures holds { IfOk result HasParts }
    ensures whole { IfOk result IsWholeOrUnread }
    ensures not_store { (files : Files) → IsExamined examined files
        → IfErr result (IsFault (reading is_present files)) }
    ensures behind { IfErr result IsBehindLawful }
    ensures not_disk { ¬ IsDisk result }
{
    let len = examined.front.len;
    if is_cut(len, SUMMED_BODY_AT as u64, examined.opening.size) {
        return Err(refused_at(examined.file, SUMMED_BODY_AT as u64));
    }
    Ok(Begun::Parts(Parts {
        alloc,
        examined,
        read: 0,
    }))
}

/// All that two files hold, of which the current one is of version 2.
fn whole_of<S: Site>(alloc: Global, site: &mut S, examined: &Examined) -> Result<Begun, GateFault>
    requires examined { IsTrue (S.told site.old) → IsExamined examined.now (S.seen site.old) }
    requires size { let front = examined.now.front in
        length front.bytes.items ≡ min summed_body_at front.len }
    requires lawful { IsTrue (is_lawful examined.now.opening.head) }
    requires plain { is_summed examined.now.opening.head.version ≡ false }
    ensures begun { IsTrue (S.told site.old) → IfOk result (IsBegun (S.seen site.old)) }
    ensures holds { IsTrue (S.told site.old) → IsSettled S.Site site.old
        → IfOk result (HoldsWhole S.Site site.new) }
    ensures whole { IfOk result IsWholeOrUnread }
    ensures reads { Reads S.Site (reading is_present) result site.old site.new }
{
    match read_current(alloc, site, None, examined) {
        Ok(opened) => Ok(Begun::Whole(opened)),
        Err(fault) => Err(fault),
    }
}

/// Reads a piece of a file from this place on, and hashes it.
fn hash_piece<S: Site>(
    site: &mut S,
    file: Which,
    at: u64,
    piece: &mut [u8],
    hasher: &mut Sha256,
) -> Result<(), Failed>
    requires { IsTrue (S.told site.old)
        → at + length piece.old ≤ length (file_of (S.seen site.old) file) }
    ensures hashed { IsTrue (S.told site.old)
        → (before : List ℕ) → Holds256 hasher.old before
        → OnOk result (Holds256 hasher.new (before
        ++ slice_range (file_of (S.seen site.old) file) at (at + length piece.old))) }
    ensures looks { OnlyLooks S.Site site.old site.new }
    ensures failed { OnErr result (Rose (S.counts site.old).disk (S.counts site.new).disk) }
    ensures counted { StopsAtFault (IsFailure result) ⊥ ⊥ (S.counts site.old) (S.counts site.new) }
{
    site.read(file, at, piece)?;
    hasher.update(&piece[..]);
    Ok(())
}

/// SHA-256 of a body of this length, which is read in pieces of the room's length.
fn sum_of_body<S: Site>(
    site: &mut S,
    file: Which,
    size: u64,
    room: &mut [u8],
) -> Result<[u8; 32], Failed>
    requires room { 1 ≤ length room.old }
    requires fits { summed_body_at + size < 2 ^ 64 }
    requires there { IsTrue (S.told site.old)
        → summed_body_at + size ≤ length (file_of (S.seen site.old) file) }
    ensures sum { IsTrue (S.told site.old)
        → IfOk result (λ sum. sum ≡ sha256 (
        slice_range (file_of (S.seen site.old) file) summed_body_at (summed_body_at + size))) }
    ensures looks { OnlyLooks S.Site site.old site.new }
    ensures failed { OnErr result (Rose (S.counts site.old).disk (S.counts site.new).disk) }
    ensures counted { StopsAtFault (IsFailure result) ⊥ ⊥ (S.counts site.old) (S.counts site.new) }
{
    let mut hasher = Sha256::new();
    let mut read = 0;
    'pieces: while read < size {
        let next = (size - read).min(room.len() as u64);
        hash_piece(
            site,
            file,
            SUMMED_BODY_AT as u64 + read,
            &mut room[..next as usize],
            &mut hasher,
        )?;
        read += next;
    }
    Ok(hasher.finalize())
}

impl Parts {
    /// The current file.
    pub fn file(&self) -> Which
        ensures { result ≡ self.now.file }
    {
        self.examined.file
    }

    /// The head of the current file.
    pub fn head(&self) -> Head
        ensures head { result ≡ self.now.head }
        ensures lawful { IsTrue (is_lawful result) }
        ensures version { result.version ≡ 3 }
    {
        self.examined.opening.head
    }

    /// Whether the body is as its sum says. All of it is read, in pieces of the room's length, and
    /// none is kept. `DiskFault` comes only where a call on a file failed.
    pub fn is_intact<S: Site>(&self, site: &mut S, room: &mut [u8]) -> Result<bool, DiskFault>
        requires room { 1 ≤ length room.old }
        requires parts { IsTrue (S.told site.old) → AreParts self.now (S.seen site.old) }
        ensures intact { IsTrue (S.told site.old)
            → IfOk result (λ intact. intact ≡ is_intact_in self.now (S.seen site.old)) }
        ensures looks { OnlyLooks S.Site site.old site.new }
        ensures failed { OnErr result (Rose (S.counts site.old).disk (S.counts site.new).disk) }
        ensures counted { StopsAtFault (IsFailure result) ⊥ ⊥
            (S.counts site.old) (S.counts site.new) }
    {
        let examined = &self.examined;
        let sum = sum_of_body(site, examined.file, examined.opening.size, room)?;
        Ok(is_sum_of_body(&examined.front.bytes, &sum))
    }

    /// Puts the next bytes of the body, at most so many, behind the window, and answers whether
    /// there were any. Where it fails the window is as before, and so is what is left. `Disk` comes
    /// only where a call on a file failed, `Memory` where there is none for these bytes.
    pub fn more<S: Site>(
        &mut self,
        site: &mut S,
        window: &mut Bytes,
        most: usize,
    ) -> Result<bool, Halt>
        requires most { 1 ≤ most }
        requires parts { IsTrue (S.told site.old) → AreParts self.old (S.seen site.old) }
        ensures moved { IfOk result (λ some.
            MovesOn most some self.old self.new window.old window.new) }
        ensures left { (rest : List ℕ) → IsLeft S.Site self.old site.old rest
            → OnOk result (GoesOn S.Site self.new site.new window.old window.new rest) }
        ensures kept { OnErr result ((self.new ≡ self.old) × (window.new ≡ window.old)) }
        ensures looks { OnlyLooks S.Site site.old site.new }
        ensures failed { IsErrOf result Halt.Disk
            → Rose (S.counts site.old).disk (S.counts site.new).disk }
        ensures counted { StopsAtFault (IsErrOf result Halt.Disk) ⊥ ⊥
            (S.counts site.old) (S.counts site.new) }
    {
        let size = (self.examined.opening.size - self.read).min(most as u64);
        if size == 0 {
            return Ok(false);
        }
        let at = SUMMED_BODY_AT as u64 + self.read;
        let piece = read_part(self.alloc, site, self.examined.file, at, size)?;
        window.append(&piece)?;
        self.read += size;
        Ok(true)
    }

    /// What stands behind the body, however much of it was read.
    pub fn behind(self) -> Walker
        ensures walker { result ≡ walker_behind self }
        ensures walked { (files : Files) → AreParts self files → IsTrue (is_intact_in self files)
            → HasWalked result (body_in self files) [] files }
    {
        let Examined {
            file,
            opening,
            front,
            other_closed,
        } = self.examined;
        Walker::at(
            self.alloc,
            file,
            opening.head,
            SUMMED_BODY_AT as u64 + opening.size,
            front.len,
            other_closed,
        )
    }
}
