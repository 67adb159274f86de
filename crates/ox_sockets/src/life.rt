//! How long a link may take for what it does.

use std::time::Duration;

/// How many seconds a link may be silent.
const SILENCE: u64 = 60;

/// How many seconds the head of a request may take, from the link's beginning or the last byte of
/// the reply before on.
const HEAD: u64 = 60;

/// How many its body may take, from the end of the head on.
const BODY: u64 = 240;

/// How many seconds a link has, where all places are taken and somebody waits, to end a request, to
/// take a whole reply or to move enough bytes.
const CROWDED: u64 = 10;

/// How many bytes are enough.
const ENOUGH: usize = 1_000;

/// What a link does.
#[derive(Clone, Copy, PartialEq, Eq)]
enum Stage {
    Head,
    Body,
    Reply,
}

/// How much of the blank line behind a head the bytes that were heard end with.
#[derive(Clone, Copy, PartialEq, Eq)]
enum Blank {
    None,
    Return,
    Line,
    LineReturn,
    Whole,
}

impl Blank {
    /// The same with one byte more.
    fn with(self, byte: u8) -> Blank {
        match (self, byte) {
            (Blank::Return, b'\n') => Blank::Line,
            (Blank::Line, b'\r') => Blank::LineReturn,
            (Blank::LineReturn, b'\n') => Blank::Whole,
            (_, b'\r') => Blank::Return,
            _ => Blank::None,
        }
    }
}

/// What a link does, since when, and when it last gave a sign of life.
#[derive(Drop)]
pub(crate) struct Life {
    stage: Stage,
    blank: Blank,
    /// When this stage began.
    since: Duration,
    /// When a byte was heard or taken last.
    stirred: Duration,
    /// When a request ended, a reply was wholly taken or enough bytes had gone.
    earned: Duration,
    /// How many bytes went since.
    moved: usize,
}

impl Life {
    /// A link that begins at this moment, with the head of a request.
    pub(crate) fn new(now: Duration) -> Life {
        Life {
            stage: Stage::Head,
            blank: Blank::None,
            since: now,
            stirred: now,
            earned: now,
            moved: 0,
        }
    }

    /// Bytes were heard. Of a head that came with the request before it the end may not be found:
    /// the body behind it has the time of a head then.
    pub(crate) fn heard(&mut self, bytes: &[u8], now: Duration) {
        self.moves(bytes.len(), now);
        if self.stage == Stage::Head && self.ends_head(bytes) {
            self.stage = Stage::Body;
            self.since = now;
        }
    }

    /// Whether these bytes have the end of the head.
    fn ends_head(&mut self, bytes: &[u8]) -> bool {
        for byte in bytes {
            self.blank = self.blank.with(*byte);
            if self.blank == Blank::Whole {
                return true;
            }
        }
        false
    }

    /// A reply is due: the request has ended.
    pub(crate) fn replies(&mut self, now: Duration) {
        if self.stage != Stage::Reply {
            self.stage = Stage::Reply;
            self.earns(now);
        }
    }

    /// So many bytes of the reply were taken, which may be all.
    pub(crate) fn takes(&mut self, count: usize, is_all: bool, now: Duration) {
        self.moves(count, now);
        if is_all {
            self.stage = Stage::Head;
            self.blank = Blank::None;
            self.since = now;
            self.earns(now);
        }
    }

    /// So many bytes were heard or taken.
    fn moves(&mut self, count: usize, now: Duration) {
        self.stirred = now;
        self.moved = self.moved.saturating_add(count);
        if self.moved >= ENOUGH {
            self.earns(now);
        }
    }

    /// The link has its time anew where all places are taken.
    fn earns(&mut self, now: Duration) {
        self.earned = now;
        self.moved = 0;
    }

    /// Whether the link took too long. `crowded` says that all places are taken and somebody waits.
    pub(crate) fn is_over(&self, now: Duration, crowded: bool) -> bool {
        let is_late = match self.stage {
            Stage::Head => has_passed(self.since, HEAD, now),
            Stage::Body => has_passed(self.since, BODY, now),
            Stage::Reply => false,
        };
        is_late
            || has_passed(self.stirred, SILENCE, now)
            || crowded && has_passed(self.earned, CROWDED, now)
    }
}

/// Whether so many seconds have passed since that moment.
pub(crate) fn has_passed(since: Duration, seconds: u64, now: Duration) -> bool {
    now.saturating_sub(since) >= Duration::from_secs(seconds)
}
