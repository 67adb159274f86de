//! What a reader of lines keeps: the line that has begun, and the bytes of the last hearing that it
//! hasn't looked at.

ghost use Rattle.std.specs.Prelude.{◌≡◌, ◌+◌, ◌-◌, ◌<◌, ◌≤◌, ◌++◌, [], length, take, drop, vec_len};
ghost use Rattle.std.specs.Prelude.{Ok, None, IfOk, OnOk, OnErr, IsErrOf, MatchOption, true, false};
ghost use Rattle.ox_outside.specs.Counts.{Rose, StopsAtFault};
ghost use Rattle.ox_outside.specs.Runs.{OnlyTalks};
ghost use Rattle.ox_outside.specs.Log.{Grows};
ghost use Rattle.ox_feed.specs.Feed.{Answers, IsLine, IsTooMuch, Listens, OnlyHears, Tells};
ghost use Rattle.ox_feed.specs.Feed.{feed_limit, bytes_left, line_limit, line_of, new_feed};
ghost use Rattle.ox_feed.specs.Held.{Cuts, EndsAt, HasNoFeed, IsHeld, Shorter, Waits, feed_of};
ghost use Rattle.ox_feed.specs.Held.{hearings_left, line_as};

use crate::lines::{FeedFault, Line};
use crate::piece::Piece;
use memchr::memchr;
use ox_bytes::{BLOCK_LIMIT, Bytes, Memory};
use ox_outside::Site;
use std::alloc::Global;
use std::mem;

/// The most bytes of a line: `connect` and a blank, and two digits for each byte of a block.
const LINE_LIMIT: usize = 8 + 2 * BLOCK_LIMIT;

const FEED_LIMIT: u64 = 1 << 62;

/// The line that has begun, of which a line that is too long keeps as many bytes as show this; the
/// bytes heard behind it; and how much was heard in all.
#[derive(Drop)]
pub struct Held {
    pub alloc: Global,
    pub begun: Bytes,
    pub piece: Piece,
    pub heard: u64,
    pub ended: bool,
}

/// The place of the first line feed.
fn line_end(bytes: &[u8]) -> Option<usize>
    ensures { MatchOption result (HasNoFeed bytes.now) (λ n. EndsAt n bytes.now) }
{
    memchr(b'\n', bytes)
}

/// Appends bytes to a line, as many as it takes to show whether it is too long.
fn add(begun: &mut Bytes, bytes: &[u8]) -> Result<(), Memory>
    ensures ok { OnOk result
        (begun.new ≡ begun.old ++ take (line_limit + 1 - length begun.old) bytes.now) }
    ensures err { OnErr result (begun.new ≡ begun.old) }
{
    let most = (LINE_LIMIT + 1).saturating_sub(begun.len());
    let (kept, _) = bytes.split_at(most.min(bytes.len()));
    begun.append(kept)
}

/// The line that has these bytes.
fn line_from(bytes: Bytes) -> Line
    ensures { result ≡ line_as (line_of bytes) }
{
    if bytes.len() <= LINE_LIMIT {
        Line::Text(bytes)
    } else {
        Line::Long
    }
}

impl Held {
    /// A reader that has heard nothing. It takes no memory yet.
    pub fn new(alloc: Global) -> Held
        ensures unheard { feed_of result ≡ new_feed }
        ensures sound { IsHeld result }
    {
        Held {
            alloc,
            begun: Bytes::empty(alloc),
            piece: Piece::empty(alloc),
            heard: 0,
            ended: false,
        }
    }

    /// Cuts off the line that the first line feed ends. Without one, all bytes are of the line that
    /// has begun.
    fn whole_line(&mut self) -> Result<Option<Line>, Memory>
        requires { IsHeld self.old }
        ensures sound { IsHeld self.new }
        ensures cuts { IfOk result (λ found. Cuts found self.old self.new) }
        ensures heard { self.new.heard ≡ self.old.heard }
        ensures ended { self.new.ended ≡ self.old.ended }
        ensures fewer { IfOk result (λ found. Shorter found (feed_of self.old) (feed_of self.new)) }
    {
        let bytes = self.piece.bytes();
        match line_end(bytes) {
            Some(n) => {
                add(&mut self.begun, bytes.split_at(n).0)?;
                self.piece.pass(n + 1);
                Ok(Some(self.close()))
            }
            None => {
                let n = bytes.len();
                add(&mut self.begun, bytes)?;
                self.piece.pass(n);
                Ok(None)
            }
        }
    }

    /// The line that has begun, which is over.
    fn close(&mut self) -> Line
        ensures line { result ≡ line_as (line_of self.old.begun) }
        ensures rest { self.new ≡ record self.old { begun = [] } }
    {
        line_from(mem::replace(&mut self.begun, Bytes::empty(self.alloc)))
    }

    /// The line that has begun, where the feed has ended, or the end.
    fn last_line(&mut self) -> Line
        requires sound { IsHeld self.old }
        requires none { self.old.piece ≡ [] }
        requires ended { self.old.ended ≡ true }
        ensures sound { IsHeld self.new }
        ensures tells { Tells result (feed_of self.old) [] (feed_of self.new) }
        ensures heard { self.new.heard ≡ self.old.heard }
        ensures ended { self.new.ended ≡ true }
        ensures fewer { IsLine result
            → bytes_left (feed_of self.new) < bytes_left (feed_of self.old) }
    {
        if self.begun.is_empty() {
            Line::End
        } else {
            self.close()
        }
    }

    /// Hears more bytes, or that the feed has ended.
    fn hear<S: Site>(&mut self, site: &mut S) -> Result<(), FeedFault>
        requires sound { IsHeld self.old }
        requires none { self.old.piece ≡ [] }
        requires more { self.old.ended ≡ false }
        ensures sound { IsHeld self.new }
        ensures waits { Grows (Waits (feed_of self.old) (feed_of self.new))
            (S.log site.old) (S.log site.new) }
        ensures fewer { OnOk result (hearings_left self.new < hearings_left self.old) }
        ensures left { bytes_left (feed_of self.new) ≤ bytes_left (feed_of self.old) }
        ensures hear_fault { IsErrOf result FeedFault.HearFault
            → Rose ((S.counts site.old).hear 0) ((S.counts site.new).hear 0) }
        ensures counted { StopsAtFault ⊥ (IsErrOf result FeedFault.HearFault) ⊥
            (S.counts site.old) (S.counts site.new) }
        ensures too_much { IsErrOf result FeedFault.TooMuch → IsTooMuch (feed_of self.new) }
        ensures talks { OnlyTalks S.Site OnlyHears site.old site.new }
    {
        let most = FEED_LIMIT - self.heard;
        if most == 0 {
            return Err(FeedFault::TooMuch);
        }
        if self.piece.hear(self.alloc, site, most as usize)? {
            self.heard += self.piece.bytes().len() as u64;
        } else {
            self.ended = true;
        }
        Ok(())
    }

    /// The next line of the feed, or its end.
    pub fn next<S: Site>(&mut self, site: &mut S) -> Result<Line, FeedFault>
        requires sound { IsHeld self.old }
        ensures sound { IsHeld self.new }
        ensures told { Grows (Answers (feed_of self.old) result (feed_of self.new))
            (S.log site.old) (S.log site.new) }
        ensures fewer { IfOk result (λ line.
            IsLine line → bytes_left (feed_of self.new) < bytes_left (feed_of self.old)) }
        ensures hear_fault { IsErrOf result FeedFault.HearFault
            → Rose ((S.counts site.old).hear 0) ((S.counts site.new).hear 0) }
        ensures counted { StopsAtFault ⊥ (IsErrOf result FeedFault.HearFault) ⊥
            (S.counts site.old) (S.counts site.new) }
        ensures too_much { IsErrOf result FeedFault.TooMuch → IsTooMuch (feed_of self.new) }
        ensures talks { OnlyTalks S.Site (Listens (feed_of self.old)) site.old site.new }
    {
        loop {
            if let Some(line) = self.whole_line()? {
                return Ok(line);
            }
            if self.ended {
                return Ok(self.last_line());
            }
            self.hear(site)?;
        }
    }
}
