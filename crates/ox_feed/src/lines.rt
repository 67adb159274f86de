//! The lines of channel 0, read one by one.

ghost use Rattle.std.specs.Prelude.{◌≡◌, ◌+◌, ◌<◌, ◌≤◌, length, IfOk, IsErrOf};
ghost use Rattle.ox_outside.specs.Counts.{Rose, StopsAtFault};
ghost use Rattle.ox_outside.specs.Runs.{OnlyTalks};
ghost use Rattle.ox_outside.specs.Log.{Grows};
ghost use Rattle.ox_feed.specs.declared.lines.FeedFault.TheVariants.{Memory as out_of_memory};
ghost use Rattle.ox_feed.specs.Feed.{Answers, IsLine, IsTooMuch, Listens, feed_limit, bytes_left};
ghost use Rattle.ox_feed.specs.Feed.{line_limit, room_size, new_feed};

use crate::held::Held;
use ox_bytes::{Bytes, Memory};
use ox_outside::Site;
use std::alloc::{AllocError, Global};
use std::marker::Model;

/// The next line of a feed, or its end.
#[derive(Drop)]
pub enum Line {
    /// A line, without its line feed.
    Text(Bytes),
    /// A line of more than 8,000,008 bytes. They are dropped to its end.
    Long,
    /// The feed has ended, and no line is left.
    End,
}

/// Why no line came.
#[derive(Clone, Copy, Debug, PartialEq, Eq)]
pub enum FeedFault {
    /// Channel 0 failed.
    HearFault,
    /// 4,611,686,018,427,387,904 bytes were heard, and channel 0 hasn't ended.
    TooMuch,
    /// There is no memory for the line.
    Memory,
}

impl From<AllocError> for FeedFault {
    ghost from_gives = { λ _ e. e ≡ out_of_memory };

    fn from(_e: AllocError) -> FeedFault {
        FeedFault::Memory
    }
}

impl From<Memory> for FeedFault {
    ghost from_gives = { λ _ e. e ≡ out_of_memory };

    fn from(_e: Memory) -> FeedFault {
        FeedFault::Memory
    }
}

/// A reader of the lines of channel 0. Contracts see the bytes that it hasn't made lines of, how
/// many bytes it has heard, and whether the channel has ended.
#[derive(Drop)]
pub struct Lines {
    held: Held,
}

impl Model for Lines {
    ghost use Rattle.ox_feed.specs.Feed.{Feed};
    ghost use Rattle.ox_feed.specs.Held.{feed_of, IsHeld};

    ghost Value = { Feed };

    ghost view = { λ lines. feed_of lines.held };

    ghost invariant = { λ lines. IsHeld lines.held };
}

impl Lines {
    /// A reader that has heard nothing. It takes no memory until it is asked for a line.
    pub fn new(alloc: Global) -> Lines
        ensures { result ≡ new_feed }
    {
        Lines {
            held: Held::new(alloc),
        }
    }

    /// The next line of channel 0, or its end. A line ends with a line feed; a last line without
    /// one counts where the channel has ended and the line isn't empty. At most 65,536 bytes are
    /// heard at a time, and of a line that is too long at most 8,000,009 are kept.
    ///
    /// `HearFault` only where channel 0 failed in this call. `TooMuch` only where
    /// 4,611,686,018,427,387,904 bytes were heard, no line is left of them, and channel 0 hasn't
    /// ended: no more are heard. `Memory` where there is none. After each of them the lines are
    /// given up: what comes next isn't said.
    pub fn next<S: Site>(&mut self, site: &mut S) -> Result<Line, FeedFault>
        // Where the log is told: the answer is the next line of the bytes heard, and only hearings
        // were logged.
        ensures told { Grows (Answers self.old result self.new) (S.log site.old) (S.log site.new) }

        ensures hear_fault { IsErrOf result FeedFault.HearFault
            → Rose ((S.counts site.old).hear 0) ((S.counts site.new).hear 0) }
        ensures counted { StopsAtFault ⊥ (IsErrOf result FeedFault.HearFault) ⊥
            (S.counts site.old) (S.counts site.new) }
        ensures too_much { IsErrOf result FeedFault.TooMuch → IsTooMuch self.new }

        ensures fewer { IfOk result (λ line.
            IsLine line → bytes_left self.new < bytes_left self.old) }
        ensures size { length self.new.rest ≤ line_limit + 1 + room_size }
        ensures count { self.new.heard ≤ feed_limit }

        // A crash at any moment of the call leaves files that it left before, and a log that has
        // grown by hearings alone, by none where the feed has ended.
        ensures talks { OnlyTalks S.Site (Listens self.old) site.old site.new }
    {
        self.held.next(site)
    }
}
