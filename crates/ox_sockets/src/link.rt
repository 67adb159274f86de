//! One link.

ghost use Rattle.std.specs.Prelude.{◌≡◌, ◌≤◌, length};
ghost use Rattle.ox_outside.specs.Answers.{HeardWithin, ShownWithin};

use crate::life::Life;
use mio::event::Event;
use mio::net::TcpStream;
use ox_outside::{Failed, Heard, Shown};
use std::io::{ErrorKind, Read, Write};
use std::time::Duration;

/// A connection, and what is known of it.
#[derive(Drop)]
pub(crate) struct Link {
    /// Its number, at least 1.
    pub(crate) number: u32,
    pub(crate) stream: TcpStream,
    readable: bool,
    writable: bool,
    /// Whether something may stand behind a short reading: the system told of an urgent mark, at
    /// which a reading ends, or of the other side's end, and doesn't tell of it again.
    behind: bool,
    pub(crate) life: Life,
}

impl Link {
    /// A new link: it may have bytes to give, and may take some.
    pub(crate) fn new(number: u32, stream: TcpStream, now: Duration) -> Link {
        Link {
            number,
            stream,
            readable: true,
            writable: true,
            behind: false,
            life: Life::new(now),
        }
    }

    /// Keeps what the system told of it. After an error both a hearing and a showing are tried, and
    /// find it.
    pub(crate) fn note(&mut self, event: &Event) {
        let over = event.is_error() || event.is_read_closed();
        self.behind = self.behind || over || event.is_priority();
        self.readable = self.readable || over || event.is_readable();
        self.writable = self.writable || event.is_error() || event.is_writable();
    }

    /// What the connection gives. Without a call of the system where it is known to have nothing.
    pub(crate) fn hear(&mut self, into: &mut [u8], now: Duration) -> Result<Heard, Failed>
        requires room { 1 ≤ length into.old }
        ensures within { HeardWithin (length into.old) result }
        ensures same_room { length into.new ≡ length into.old }
    {
        if !self.readable {
            return Ok(Heard::NotYet);
        }
        match (&self.stream).read(into) {
            Ok(0) => Ok(Heard::End),
            Ok(n) => {
                // Fewer bytes than there was room for, and nothing behind them: it is empty, and
                // the system tells when more come, with an urgent mark or without.
                self.readable = self.behind || n == into.len();
                self.life.heard(into.split_at(n).0, now);
                Ok(Heard::Bytes(n))
            }
            Err(e) => match e.kind() {
                ErrorKind::Interrupted => Ok(Heard::NotYet),
                ErrorKind::WouldBlock => {
                    self.readable = false;
                    self.behind = false;
                    Ok(Heard::NotYet)
                }
                _ => Err(Failed),
            },
        }
    }

    /// What the connection takes. Without a call of the system where it is known to take nothing.
    pub(crate) fn show(&mut self, bytes: &[u8], now: Duration) -> Result<Shown, Failed>
        requires piece { 1 ≤ length bytes.now }
        ensures within { ShownWithin (length bytes.now) result }
    {
        self.life.replies(now);
        if !self.writable {
            return Ok(Shown::NotYet);
        }
        match (&self.stream).write(bytes) {
            Ok(0) => Err(Failed),
            Ok(n) => {
                self.life.takes(n, n == bytes.len(), now);
                Ok(Shown::Took(n))
            }
            Err(e) => match e.kind() {
                ErrorKind::Interrupted => Ok(Shown::NotYet),
                ErrorKind::WouldBlock => {
                    self.writable = false;
                    Ok(Shown::NotYet)
                }
                _ => Err(Failed),
            },
        }
    }
}
