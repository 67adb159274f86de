//! Connections that were shut while the other side may still send. What comes is read away: where a
//! connection is closed with bytes unread, the system resets it, and the other side may lose the
//! reply that it hasn't read yet (RFC 9112, section 9.6).

use crate::life::has_passed;
use mio::net::TcpStream;
use std::alloc::{AllocError, Global};
use std::io::{ErrorKind, Read};
use std::time::Duration;

/// How many connections may linger.
const SOCKETS: usize = 64;

/// How many seconds one may linger.
const LONG: u64 = 10;

/// How many it has at least, where it still sends.
const SHORT: u64 = 1;

/// How many bytes are read away of each before it is dropped.
const BYTES: usize = 8_000_000;

/// How many bytes are read away at a time.
const ROOM: usize = 65_536;

/// How often a connection is read in a row.
const READS: u32 = 8;

/// A connection, its link's number, when it was shut, whether it may be readable, and how much it
/// may still send.
#[derive(Drop)]
struct Leaving {
    number: u32,
    stream: TcpStream,
    since: Duration,
    readable: bool,
    left: usize,
}

/// What is known of a connection after a reading.
#[derive(Clone, Copy, PartialEq, Eq)]
enum State {
    Full,
    Empty,
    Over,
}

/// The connections that linger, the oldest first.
#[derive(Drop)]
pub(crate) struct Lingering {
    all: Vec<Leaving>,
    room: Vec<u8>,
}

impl Leaving {
    /// Reads at most one room full.
    fn read(&mut self, room: &mut [u8]) -> State {
        match (&self.stream).read(room) {
            Ok(0) => State::Over,
            Ok(n) => {
                self.left = self.left.saturating_sub(n);
                if self.left == 0 {
                    State::Over
                } else {
                    State::Full
                }
            }
            Err(e) => match e.kind() {
                ErrorKind::Interrupted => State::Full,
                ErrorKind::WouldBlock => State::Empty,
                _ => State::Over,
            },
        }
    }

    /// Reads some away, and answers whether the connection is over.
    fn is_over(&mut self, room: &mut [u8]) -> bool {
        if !self.readable {
            return false;
        }
        for _ in 0..READS {
            match self.read(room) {
                State::Over => return true,
                State::Empty => {
                    self.readable = false;
                    return false;
                }
                State::Full => {}
            }
        }
        false
    }
}

impl Lingering {
    /// None yet, with the memory for all. An error where there isn't so much.
    pub(crate) fn new(alloc: Global) -> Result<Lingering, AllocError> {
        Ok(Lingering {
            all: Vec::with_capacity(alloc, SOCKETS)?,
            room: vec![in alloc; 0u8; ROOM]?,
        })
    }

    /// One more, which may be readable. Where there are too many, another one is dropped for it, or
    /// else it is itself.
    pub(crate) fn add(&mut self, number: u32, stream: TcpStream, now: Duration) {
        if self.all.len() >= SOCKETS {
            match self.least(now) {
                Some(place) if place < self.all.len() => {
                    self.all.remove(place);
                }
                _ => return,
            }
        }
        let _ = self.all.push(Leaving {
            number,
            stream,
            since: now,
            readable: true,
            left: BYTES,
        });
    }

    /// Which one is dropped first: the oldest, once it had its time, or else the oldest of those
    /// that have sent nothing.
    fn least(&self, now: Duration) -> Option<usize> {
        self.all.iter().position(|leaving| has_passed(leaving.since, SHORT, now)
            || leaving.left == BYTES)
    }

    /// The system told something of this connection.
    pub(crate) fn told(&mut self, number: u32) {
        for leaving in &mut self.all {
            if leaving.number == number {
                leaving.readable = true;
            }
        }
    }

    /// Reads away what came, drops whose other side has closed or whose time is over, and answers
    /// whether some may have more.
    pub(crate) fn read_away(&mut self, now: Duration) -> bool {
        let room = &mut self.room;
        self.all.retain_mut(|leaving| !has_passed(leaving.since, LONG, now)
            && !leaving.is_over(room));
        self.all.iter().any(|leaving| leaving.readable)
    }
}
