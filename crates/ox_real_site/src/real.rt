//! The real site: the files of a folder, the program's standard input and output as channel 0, and
//! the links of a server as the others. It tells nothing of what it reads, hears and shows, and is
//! trusted for it.

ghost use Rattle.std.specs.Prelude.{◌≡◌, ◌≤◌, ◌+◌, length, IfOk, IfSome, IsUtf8, OnOk};
ghost use Rattle.ox_outside.specs.Answers.{HeardWithin, IsLinkNumber, ShownWithin};
ghost use Rattle.ox_outside.specs.Counts.{Rose};
ghost use Rattle.ox_real_site.specs.Seen.{counts_of};
ghost use Rattle.ox_real_site.specs.Tallied.{SameTally};

use crate::files::FilePair;
use ox_outside::{Doorway, Failed, Heard, Shown, Site, Which};
use ox_sockets::Sockets;
use std::alloc::Global;
use std::fs::File;
use std::io;
use std::io::{ErrorKind, Read, Stdin, Stdout, Write};
use std::rt::{Clock, Files};

/// The folder's files, the standard streams, and the links of a server if it is one; and how often
/// each kind of call has failed or had nothing to give. Calls on links are counted apart from those
/// on channel 0, all links together.
#[derive(Drop)]
pub struct RealSite<C> {
    files: FilePair,
    input: Stdin,
    output: Stdout,
    links: Option<Sockets<C>>,
    disk_faults: u64,
    door_faults: u64,
    hear_faults: u64,
    link_hear_faults: u64,
    show_faults: u64,
    link_show_faults: u64,
    not_yets: u64,
    public_idles: u64,
    operator_idles: u64,
}

impl<C: Clock + Drop> RealSite<C> {
    /// Opens the folder's files, locks them, and syncs the folder (`fsync`); nothing has failed
    /// yet, and there is no door. An error where the folder's name isn't UTF-8, one of the files
    /// can't be opened or made, a standard stream is closed, another program has the files, or the
    /// folder can't be synced.
    pub fn open<R: Files<File = File>>(
        rt: &R,
        alloc: Global,
        folder: &[u8],
        input: Stdin,
        output: Stdout,
    ) -> io::Result<RealSite<C>>
        ensures text { OnOk result (IsUtf8 folder.now) }
        ensures disk { IfOk result (λ site. (counts_of site).disk ≡ 0) }
        ensures hear { IfOk result (λ site. (counts_of site).hear 0 ≡ 0) }
        ensures show { IfOk result (λ site. (counts_of site).show 0 ≡ 0) }
    {
        Ok(RealSite {
            files: FilePair::open(rt, alloc, folder)?,
            input,
            output,
            links: None,
            disk_faults: 0,
            door_faults: 0,
            hear_faults: 0,
            link_hear_faults: 0,
            show_faults: 0,
            link_show_faults: 0,
            not_yets: 0,
            public_idles: 0,
            operator_idles: 0,
        })
    }

    /// Opens the doors of a server.
    pub fn open_doors(&mut self, links: Sockets<C>)
        ensures { counts_of self.new ≡ counts_of self.old }
    {
        self.links = Some(links);
    }

    /// Counts a failure of a call on a file.
    fn disk_failed(&mut self) -> Failed
        ensures rose { Rose self.old.disk_faults self.new.disk_faults }
        ensures no_less { self.old.disk_faults ≤ self.new.disk_faults }
        ensures once { self.new.disk_faults ≤ self.old.disk_faults + 1 }
        ensures hear { self.new.hear_faults ≡ self.old.hear_faults }
        ensures link_hear { self.new.link_hear_faults ≡ self.old.link_hear_faults }
        ensures show { self.new.show_faults ≡ self.old.show_faults }
        ensures link_show { self.new.link_show_faults ≡ self.old.link_show_faults }
        ensures door { self.new.door_faults ≡ self.old.door_faults }
        ensures not_yets { self.new.not_yets ≡ self.old.not_yets }
        ensures public { self.new.public_idles ≡ self.old.public_idles }
        ensures operator { self.new.operator_idles ≡ self.old.operator_idles }
    {
        self.disk_faults = self.disk_faults.saturating_add(1);
        Failed
    }

    /// What a link gives into the room. `Failed` where there is no such link.
    fn link_hears(&mut self, channel: u32, into: &mut [u8]) -> Result<Heard, Failed>
        requires room { 1 ≤ length into.old }
        ensures within { HeardWithin (length into.old) result }
        ensures same_room { length into.new ≡ length into.old }
        ensures counts { SameTally self.old self.new }
    {
        match &mut self.links {
            Some(links) => links.hear(channel, into),
            None => Err(Failed),
        }
    }

    /// What a link takes of a piece. `Failed` where there is no such link.
    fn link_takes(&mut self, channel: u32, bytes: &[u8]) -> Result<Shown, Failed>
        requires piece { 1 ≤ length bytes.now }
        ensures within { ShownWithin (length bytes.now) result }
        ensures counts { SameTally self.old self.new }
    {
        match &mut self.links {
            Some(links) => links.show(channel, bytes),
            None => Err(Failed),
        }
    }

    /// Who waits at a door. Where there are no doors, nobody.
    fn comes(&mut self, door: Doorway) -> Result<Option<u32>, Failed>
        ensures number { IsLinkNumber result }
        ensures counts { SameTally self.old self.new }
    {
        match &mut self.links {
            Some(links) => links.door(door),
            None => Ok(None),
        }
    }
}

/// What a reader gives into the room, tried again where a signal came between.
fn heard<R: Read>(input: &mut R, into: &mut [u8]) -> Option<usize>
    ensures { IfSome result (λ n. n ≤ length into.new) }
{
    for _ in 0..u64::MAX {
        match input.read(into) {
            Ok(n) => return Some(n),
            Err(e) if e.kind() == ErrorKind::Interrupted => {}
            Err(_) => return None,
        }
    }
    None
}

/// What a writer takes of the bytes, at least one.
fn shown<W: Write>(output: &mut W, bytes: &[u8]) -> Option<usize>
    ensures { IfSome result (λ n. (1 ≤ n) × (n ≤ length bytes.now)) }
{
    for _ in 0..u64::MAX {
        match output.write(bytes) {
            Ok(0) => return None,
            Ok(n) => return Some(n),
            Err(e) if e.kind() == ErrorKind::Interrupted => {}
            Err(_) => return None,
        }
    }
    None
}

impl<C: Clock + Drop> Site for RealSite<C> {
    ghost use Rattle.std.specs.Prelude.{[], false, None};
    ghost use Rattle.ox_outside.specs.Counts.{greatest};

    ghost told = { λ _. false };

    ghost seen = { λ _. record { a = []; b = [] } };

    ghost log = { λ _. None };

    ghost may_leave = { λ _ _. ⊥ };

    ghost clock = { λ _. 0 };

    ghost left_since = { λ _ _ _. ⊥ };

    ghost counts = { λ s. counts_of s };

    fn len(&mut self, file: Which) -> Result<u64, Failed> {
        match self.files.len(file) {
            Ok(len) => Ok(len),
            Err(_) => Err(self.disk_failed()),
        }
    }

    fn read(&mut self, file: Which, at: u64, into: &mut [u8]) -> Result<(), Failed> {
        match self.files.read(file, at, into) {
            Ok(()) => Ok(()),
            Err(_) => Err(self.disk_failed()),
        }
    }

    fn write(&mut self, file: Which, at: u64, bytes: &[u8]) -> Result<(), Failed> {
        match self.files.write(file, at, bytes) {
            Ok(()) => Ok(()),
            Err(_) => Err(self.disk_failed()),
        }
    }

    fn sync(&mut self, file: Which) -> Result<(), Failed> {
        match self.files.sync(file) {
            Ok(()) => Ok(()),
            Err(_) => Err(self.disk_failed()),
        }
    }

    fn hear(&mut self, channel: u32, into: &mut [u8]) -> Result<Heard, Failed> {
        if channel == 0 {
            match heard(&mut self.input, into) {
                Some(0) => return Ok(Heard::End),
                Some(n) => return Ok(Heard::Bytes(n)),
                None => {}
            }
            self.hear_faults = self.hear_faults.saturating_add(1);
            return Err(Failed);
        }
        match self.link_hears(channel, into) {
            Ok(Heard::NotYet) => {
                self.not_yets = self.not_yets.saturating_add(1);
                Ok(Heard::NotYet)
            }
            Ok(heard) => Ok(heard),
            Err(Failed) => {
                self.link_hear_faults = self.link_hear_faults.saturating_add(1);
                Err(Failed)
            }
        }
    }

    fn show(&mut self, channel: u32, bytes: &[u8]) -> Result<Shown, Failed> {
        if channel == 0 {
            if let Some(n) = shown(&mut self.output, bytes) {
                return Ok(Shown::Took(n));
            }
            self.show_faults = self.show_faults.saturating_add(1);
            return Err(Failed);
        }
        match self.link_takes(channel, bytes) {
            Ok(Shown::NotYet) => {
                self.not_yets = self.not_yets.saturating_add(1);
                Ok(Shown::NotYet)
            }
            Ok(shown) => Ok(shown),
            Err(Failed) => {
                self.link_show_faults = self.link_show_faults.saturating_add(1);
                Err(Failed)
            }
        }
    }

    fn door(&mut self, door: Doorway) -> Result<Option<u32>, Failed> {
        match self.comes(door) {
            Ok(Some(number)) => Ok(Some(number)),
            Ok(None) => {
                match door {
                    Doorway::Public => self.public_idles = self.public_idles.saturating_add(1),
                    Doorway::Operator => {
                        self.operator_idles = self.operator_idles.saturating_add(1);
                    }
                }
                Ok(None)
            }
            Err(Failed) => {
                self.door_faults = self.door_faults.saturating_add(1);
                Err(Failed)
            }
        }
    }

    fn give_up(&mut self, _channel: u32) {}

    fn shut(&mut self, channel: u32) {
        if let Some(links) = &mut self.links {
            links.shut(channel);
        }
    }

    ghost counts_now = { λ site t r le may. may };

    ghost only_now = { λ site r left. left };

    ghost since_earlier = { λ site t u r le left. left };

    ghost logs_now = { λ site r may. absurd may };

    ghost use Rattle.std.proofs.Common.{rules};

    ghost reads_now = { λ site told. Prim.search rules };
}
