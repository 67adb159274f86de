//! The site that does little in a call.

use crate::portion::Portion;
use ox_outside::{Doorway, Failed, Heard, Shown, Site, Which};

/// A site over another, of which it hands on every call, with less to do: `hear` has a portion of
/// the room, and `show` a portion of the piece. After so many whole writes, each write leaves a
/// portion of its bytes in the file, and fails.
#[derive(Drop)]
pub struct ShortSite<S> {
    /// The site that carries out the calls.
    pub inner: S,
    /// How much of a room, of a piece and of a write that fails is taken.
    pub portion: Portion,
    /// How many more writes are carried out whole.
    pub whole_writes: u64,
    /// How many writes failed after a portion of their bytes was written.
    pub cut_writes: u64,
}

impl<S: Site> Site for ShortSite<S> {
    ghost use Rattle.ox_short_site.specs.Counts.{with_disk_faults};

    ghost told = { λ s. S.told s.inner };

    ghost seen = { λ s. S.seen s.inner };

    ghost log = { λ s. S.log s.inner };

    ghost may_leave = { λ s. S.may_leave s.inner };

    ghost clock = { λ s. S.clock s.inner };

    ghost left_since = { λ s. S.left_since s.inner };

    // The writes that were cut short count as failures of a call on a file.
    ghost counts = { λ s. with_disk_faults s.cut_writes (S.counts s.inner) };

    fn len(&mut self, file: Which) -> Result<u64, Failed> {
        self.inner.len(file)
    }

    fn read(&mut self, file: Which, at: u64, into: &mut [u8]) -> Result<(), Failed> {
        self.inner.read(file, at, into)
    }

    fn write(&mut self, file: Which, at: u64, bytes: &[u8]) -> Result<(), Failed> {
        if self.whole_writes > 0 {
            self.whole_writes -= 1;
            return self.inner.write(file, at, bytes);
        }
        let (front, _) = bytes.split_at(self.portion.of(bytes.len()));
        self.inner.write(file, at, front)?;
        self.cut_writes = self.cut_writes.saturating_add(1);
        Err(Failed)
    }

    fn sync(&mut self, file: Which) -> Result<(), Failed> {
        self.inner.sync(file)
    }

    fn hear(&mut self, channel: u32, into: &mut [u8]) -> Result<Heard, Failed> {
        let most = self.portion.of(into.len());
        let (front, _) = into.split_at_mut(most);
        self.inner.hear(channel, front)
    }

    fn show(&mut self, channel: u32, bytes: &[u8]) -> Result<Shown, Failed> {
        let (front, _) = bytes.split_at(self.portion.of(bytes.len()));
        self.inner.show(channel, front)
    }

    fn door(&mut self, door: Doorway) -> Result<Option<u32>, Failed> {
        self.inner.door(door)
    }

    fn give_up(&mut self, channel: u32) {
        self.inner.give_up(channel);
    }

    fn shut(&mut self, channel: u32) {
        self.inner.shut(channel);
    }

    ghost counts_now = { λ s t r le left. S.counts_now s.inner t r le left };

    ghost only_now = { λ s r left. S.only_now s.inner r left };

    ghost since_earlier = { λ s t u r le left. S.since_earlier s.inner t u r le left };

    ghost logs_now = { λ s r left. S.logs_now s.inner r left };

    ghost reads_now = { λ s told. S.reads_now s.inner told };
}
