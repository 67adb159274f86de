//! The two files of a site in memory, and what is noted of calls on them.

ghost use Rattle.std.specs.Prelude.{◌≡◌, ◌+◌, ◌≤◌, length, slice_range, OnOk, OnErr};
ghost use Rattle.ox_outside.specs.Files.{file_of};
ghost use Rattle.ox_memsite.specs.World.{after_step, after_disk_fault, seen_of, Ends};
ghost use Rattle.ox_memsite.specs.World.{EndsUnlessListed};
ghost use Rattle.ox_memsite.specs.declared.step.Step.TheVariants.{Wrote, Tore, Synced};

use super::MemSite;
use super::log::make_room;
use crate::edits::{copy_range, write_one};
use crate::step::Step;
use ox_bytes::{Bytes, Memory};
use ox_outside::{Failed, Which};

impl MemSite {
    /// The bytes of a file as a read gives them.
    pub fn file(&self, file: Which) -> &[u8]
        ensures { result.now ≡ file_of (seen_of self.now) file }
    {
        match file {
            Which::A => &self.a,
            Which::B => &self.b,
        }
    }

    /// The length of a file in bytes. It fails exactly where the call's number is listed.
    pub fn len(&mut self, file: Which) -> Result<u64, Failed>
        ensures outcome { EndsUnlessListed
            (λ n before after. (n ≡ length (file_of (seen_of before) file)) × (after ≡ before))
            after_disk_fault result self.old self.new }
    {
        if self.next_call() {
            self.fail_disk();
            return Err(Failed);
        }
        Ok(self.file(file).len() as u64)
    }

    /// Fills the slice with the bytes of a file from this place on. It fails exactly where the
    /// call's number is listed.
    pub fn read(&mut self, file: Which, at: u64, into: &mut [u8]) -> Result<(), Failed>
        requires { at + length into.old ≤ length (file_of (seen_of self.old) file) }
        ensures outcome { EndsUnlessListed
            (λ _ before after.
            (into.new ≡ slice_range (file_of (seen_of before) file) at (at + length into.old))
            × (after ≡ before))
            after_disk_fault result self.old self.new }
    {
        if self.next_call() {
            self.fail_disk();
            return Err(Failed);
        }
        copy_range(self.file(file), at, into);
        Ok(())
    }

    /// Writes bytes into a file. Where the call's number is listed it fails, and a crash may tear
    /// the range. Where there is no memory for the record it fails and nothing is written.
    pub fn write(&mut self, file: Which, at: u64, bytes: &[u8]) -> Result<(), Failed>
        requires { at ≤ length (file_of (seen_of self.old) file) }
        ensures outcome { Ends
            (λ _ before after. after ≡ after_step (Wrote file at bytes.now) before)
            (λ w. after_disk_fault (after_step (Tore file at (length bytes.now)) w))
            after_disk_fault result self.old self.new }
    {
        if self.next_call() {
            if self.note_tear(file, at, bytes.len() as u64).is_err() {
                self.starve();
            }
            self.fail_disk();
            return Err(Failed);
        }
        if self.note_write(file, at, bytes).is_err() {
            self.starve();
            self.fail_disk();
            return Err(Failed);
        }
        Ok(())
    }

    /// After it, a crash leaves of this file what a read gives. It fails where the call's number is
    /// listed, and where there is no memory for the record: nothing has changed then.
    pub fn sync(&mut self, file: Which) -> Result<(), Failed>
        ensures outcome { Ends (λ _ before after. after ≡ after_step (Synced file) before)
            after_disk_fault after_disk_fault result self.old self.new }
    {
        if self.next_call() {
            self.fail_disk();
            return Err(Failed);
        }
        if self.note_sync(file).is_err() {
            self.starve();
            self.fail_disk();
            return Err(Failed);
        }
        Ok(())
    }

    fn note_write(&mut self, file: Which, at: u64, bytes: &[u8]) -> Result<(), Memory>
        ensures ok { OnOk result (self.new ≡ after_step (Wrote file at bytes.now) self.old) }
        ensures err { OnErr result (self.new ≡ self.old) }
    {
        let copy = Bytes::copy(self.alloc, bytes)?;
        make_room(&mut self.steps, self.channels.len())?;
        write_one(&mut self.a, &mut self.b, file, at, bytes)?;
        self.steps.push(Step::Wrote {
            file,
            at,
            bytes: copy,
        });
        Ok(())
    }

    fn note_tear(&mut self, file: Which, at: u64, length: u64) -> Result<(), Memory>
        ensures ok { OnOk result (self.new ≡ after_step (Tore file at length) self.old) }
        ensures err { OnErr result (self.new ≡ self.old) }
    {
        self.note(Step::Tore { file, at, length })
    }

    fn note_sync(&mut self, file: Which) -> Result<(), Memory>
        ensures ok { OnOk result (self.new ≡ after_step (Synced file) self.old) }
        ensures err { OnErr result (self.new ≡ self.old) }
    {
        self.note(Step::Synced { file })
    }

    fn fail_disk(&mut self)
        ensures { self.new ≡ after_disk_fault self.old }
    {
        self.disk_faults = self.disk_faults.saturating_add(1);
    }
}
