//! The site in memory as a site: it tells all.

ghost use Rattle.std.specs.Prelude.{true, Some, length};

use crate::site::MemSite;
use ox_outside::{Doorway, Failed, Heard, Shown, Site, Which};

impl Site for MemSite {
    ghost use Rattle.ox_memsite.specs.World.{seen_of, log_of, MayLeave, LeftSince, counts_of};
    ghost use Rattle.ox_memsite.specs.Laws as laws;

    ghost told = { λ w. true };

    ghost seen = { seen_of };

    ghost log = { λ w. Some (log_of w) };

    ghost may_leave = { MayLeave };

    ghost clock = { λ w. length w.steps };

    ghost left_since = { LeftSince };

    ghost counts = { counts_of };

    fn len(&mut self, file: Which) -> Result<u64, Failed> {
        MemSite::len(self, file)
    }

    fn read(&mut self, file: Which, at: u64, into: &mut [u8]) -> Result<(), Failed> {
        MemSite::read(self, file, at, into)
    }

    fn write(&mut self, file: Which, at: u64, bytes: &[u8]) -> Result<(), Failed> {
        MemSite::write(self, file, at, bytes)
    }

    fn sync(&mut self, file: Which) -> Result<(), Failed> {
        MemSite::sync(self, file)
    }

    fn hear(&mut self, channel: u32, into: &mut [u8]) -> Result<Heard, Failed> {
        MemSite::hear(self, channel, into)
    }

    fn show(&mut self, channel: u32, bytes: &[u8]) -> Result<Shown, Failed> {
        MemSite::show(self, channel, bytes)
    }

    fn door(&mut self, door: Doorway) -> Result<Option<u32>, Failed> {
        MemSite::door(self, door)
    }

    fn give_up(&mut self, channel: u32) {
        MemSite::give_up(self, channel)
    }

    fn shut(&mut self, channel: u32) {
        MemSite::shut(self, channel)
    }

    ghost counts_now = { laws.counts_now };

    ghost only_now = { laws.only_now };

    ghost since_earlier = { laws.since_earlier };

    ghost logs_now = { laws.logs_now };

    ghost reads_now = { λ w told. laws.reads_now w };
}
