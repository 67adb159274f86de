//! The frames of channel 0, read one by one.

ghost use Rattle.std.specs.Prelude.{◌≡◌, ◌+◌, ◌<◌, ◌≤◌, ◌^◌, false, length, drop, vec_len};
ghost use Rattle.std.specs.Prelude.{IsTrue, IfOk, IfSome, OnOk, IsErrOf};
ghost use Rattle.ox_outside.specs.Counts.{Rose, StopsAtFault};
ghost use Rattle.ox_outside.specs.Log.{Grows};
ghost use Rattle.ox_outside.specs.Runs.{OnlyTalks};
ghost use Rattle.ox_feed.specs.Feed.{Listens, OnlyHears, bytes_left, feed_limit, new_feed};
ghost use Rattle.ox_feed.specs.Feed.{room_size};
ghost use Rattle.ox_pieces.specs.Frames.{Advances, HearsBehind, IsTooMuch, Lends, behind_first};
ghost use Rattle.ox_pieces.specs.Frames.{heard_count, hearings_left, is_ready, longest_frame};

use ox_feed::FeedFault;
use ox_follow::{BadFrame, Frame, read_frame};
use ox_outside::{Failed, Heard, Site};
use std::alloc::Global;
use std::marker::Model;

/// The most bytes that one call hears.
const ROOM: u64 = 65_536;

/// How many bytes may be heard: a channel that hasn't ended by then is given up.
const FEED_LIMIT: u64 = 1 << 62;

/// A reader of the frames of channel 0. Contracts see the bytes that it has heard and not passed
/// over, how many it has heard in all, and whether the channel has ended.
#[derive(Drop)]
pub struct Frames {
    /// Those that were heard, of which the first are passed over.
    bytes: Vec<u8>,
    passed: usize,
    heard: u64,
    ended: bool,
}

impl Model for Frames {
    ghost use Rattle.std.specs.Prelude.{◌≤◌, ◌+◌, drop, vec_len};
    ghost use Rattle.ox_feed.specs.Feed.{Feed, feed_limit, room_size};
    ghost use Rattle.ox_pieces.specs.Frames.{longest_frame};

    ghost Value = { Feed };

    ghost view = { λ f.
        record { rest = drop f.passed f.bytes.items; heard = f.heard; ended = f.ended } };

    ghost invariant = { λ f.
        (f.passed ≤ vec_len f.bytes) × (f.heard ≤ feed_limit)
        × (vec_len f.bytes ≤ f.passed + (longest_frame + room_size)) };
}

impl Frames {
    /// A reader that has heard nothing. It takes no memory until it hears.
    pub fn new(alloc: Global) -> Frames
        ensures { result ≡ new_feed }
    {
        Frames {
            bytes: Vec::new(alloc),
            passed: 0,
            heard: 0,
            ended: false,
        }
    }

    /// Hears until a whole frame, a fault or the end of the channel stands in front; nothing where
    /// one does. At most 65,536 bytes are heard at a time, and memory is taken for bytes that were
    /// heard, whatever length a frame claims.
    ///
    /// `HearFault` only where channel 0 failed in this call. `TooMuch` only where
    /// 4,611,686,018,427,387,904 bytes were heard, none of these stands in front, and channel 0
    /// hasn't ended: no more are heard. `Memory` where there is none. After each of them the frames
    /// are given up: what comes next isn't said.
    pub fn advance<S: Site>(&mut self, site: &mut S) -> Result<(), FeedFault>
        // Where the log is told: what was heard stands behind the rest, and only hearings were
        // logged.
        ensures told { Grows (Advances self.old self.new) (S.log site.old) (S.log site.new) }
        ensures ready { OnOk result (IsTrue (is_ready self.new)) }
        ensures hear_fault { IsErrOf result FeedFault.HearFault
            → Rose ((S.counts site.old).hear 0) ((S.counts site.new).hear 0) }
        ensures counted { StopsAtFault ⊥ (IsErrOf result FeedFault.HearFault) ⊥
            (S.counts site.old) (S.counts site.new) }
        ensures too_much { IsErrOf result FeedFault.TooMuch → IsTooMuch self.new }
        ensures left { bytes_left self.new ≤ bytes_left self.old }
        ensures size { length self.new.rest ≤ longest_frame + room_size }
        ensures count { self.new.heard ≤ feed_limit }
        // A crash at any moment of the call leaves files that it left before, and a log that has
        // grown by hearings alone, by none where the channel has ended.
        ensures talks { OnlyTalks S.Site (Listens self.old) site.old site.new }
    {
        while !self.is_ready() {
            self.hear(site)?;
        }
        Ok(())
    }

    /// The frame in front. `None` where no whole frame stands there: once `advance` was `Ok`, where
    /// the channel has ended, and no bytes are left. `BadFrame` exactly where no frame begins so,
    /// or the channel has ended within one.
    pub fn frame(&self) -> Result<Option<Frame<'_>>, BadFrame>
        ensures { Lends result self.now }
    {
        match read_frame(self.rest())? {
            Some((frame, _)) => Ok(Some(frame)),
            None if self.ended && !self.rest().is_empty() => Err(BadFrame),
            None => Ok(None),
        }
    }

    /// Passes over the frame in front; over nothing where no whole frame stands there.
    pub fn pass(&mut self)
        ensures { self.new ≡ record self.old { rest = behind_first self.old.rest } }
    {
        if let Ok(Some((_, used))) = read_frame(self.rest()) {
            self.passed += used;
        }
    }

    /// The bytes that aren't passed over.
    fn rest(&self) -> &[u8]
        ensures { result.now ≡ self.now.rest }
    {
        self.bytes.as_slice().split_at(self.passed).1
    }

    /// Whether a whole frame, a fault or the end of the channel stands in front.
    fn is_ready(&self) -> bool
        ensures ready { result ≡ is_ready self.now }
        ensures size { length self.now.rest ≤ longest_frame + room_size }
        ensures count { self.now.heard ≤ feed_limit }
    {
        self.ended || !matches!(read_frame(self.rest()), Ok(None))
    }

    /// Hears more bytes, or that the channel has ended.
    fn hear<S: Site>(&mut self, site: &mut S) -> Result<(), FeedFault>
        requires { is_ready self.old ≡ false }
        ensures told { Grows (Advances self.old self.new) (S.log site.old) (S.log site.new) }
        ensures fewer { OnOk result (hearings_left self.new < hearings_left self.old) }
        ensures hear_fault { IsErrOf result FeedFault.HearFault
            → Rose ((S.counts site.old).hear 0) ((S.counts site.new).hear 0) }
        ensures counted { StopsAtFault ⊥ (IsErrOf result FeedFault.HearFault) ⊥
            (S.counts site.old) (S.counts site.new) }
        ensures too_much { IsErrOf result FeedFault.TooMuch → IsTooMuch self.new }
        ensures left { bytes_left self.new ≤ bytes_left self.old }
        ensures size { length self.new.rest ≤ longest_frame + room_size }
        ensures count { self.new.heard ≤ feed_limit }
        ensures talks { OnlyTalks S.Site OnlyHears site.old site.new }
    {
        let most = ROOM.min(FEED_LIMIT - self.heard);
        if most == 0 {
            return Err(FeedFault::TooMuch);
        }
        forget(&mut self.bytes, self.passed);
        self.passed = 0;
        match hear_behind(&mut self.bytes, site, most as usize)? {
            Some(n) => self.heard += n as u64,
            None => self.ended = true,
        }
        Ok(())
    }
}

/// Gives the place of the first n bytes to those behind them.
fn forget(bytes: &mut Vec<u8>, n: usize)
    requires { n ≤ vec_len bytes.old }
    ensures { bytes.new.items ≡ drop n bytes.old.items }
{
    if n > 0 {
        let left = bytes.len() - n;
        bytes.copy_within(n.., 0);
        bytes.truncate(left);
    }
}

/// Hears bytes on channel 0 behind those that are there, at most `most`, and answers how many;
/// `None` where the channel has ended.
fn hear_behind<S: Site>(
    bytes: &mut Vec<u8>,
    site: &mut S,
    most: usize,
) -> Result<Option<usize>, FeedFault>
    requires some { 0 < most }
    requires room { vec_len bytes.old + most < 2 ^ 64 }
    ensures logged { Grows (HearsBehind result bytes.old.items bytes.new.items)
        (S.log site.old) (S.log site.new) }
    ensures some { IfOk result (λ heard. IfSome heard (λ n. (0 < n) × (n ≤ most))) }
    ensures count { length bytes.new.items ≡ length bytes.old.items + heard_count result }
    ensures hear_fault { IsErrOf result FeedFault.HearFault
        → Rose ((S.counts site.old).hear 0) ((S.counts site.new).hear 0) }
    ensures counted { StopsAtFault ⊥ (IsErrOf result FeedFault.HearFault) ⊥
        (S.counts site.old) (S.counts site.new) }
    ensures too_much { IsErrOf result FeedFault.TooMuch → ⊥ }
    ensures talks { OnlyTalks S.Site OnlyHears site.old site.new }
{
    let len = bytes.len();
    bytes.resize(len + most, 0)?;
    match site.hear(0, bytes.as_mut_slice().split_at_mut(len).1) {
        Ok(Heard::Bytes(n)) => {
            bytes.truncate(len + n);
            Ok(Some(n))
        }
        Ok(Heard::End) => {
            bytes.truncate(len);
            Ok(None)
        }
        Ok(Heard::NotYet) => unreachable!(),
        Err(Failed) => {
            bytes.truncate(len);
            Err(FeedFault::HearFault)
        }
    }
}
