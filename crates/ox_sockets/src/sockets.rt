//! The links, their numbers and the counts.

ghost use Rattle.std.specs.Prelude.{◌≡◌, ◌≤◌, length, IfOk, OnErr, Ok, None};
ghost use Rattle.ox_outside.specs.Answers.{HeardWithin, ShownWithin, IsLinkNumber};
ghost use Rattle.ox_outside.specs.Counts.{NoneFell, Rose};
ghost use Rattle.ox_sockets.specs.Tallied.{CountsUp, no_counts};
ghost use Rattle.ox_sockets.specs.Seen.{counts, last_number};

use crate::tally::Tally;
use crate::wires::Wires;
use ox_outside::{Doorway, Failed, Heard, Shown};
use std::alloc::Global;
use std::io;
use std::net::{Net, TcpListener};
use std::rt::Clock;

/// Two listeners, up to 32 links, and a clock for the time that they take. No call waits for a
/// link: where a rotation over all links and doors brought nothing, the system is asked what is
/// ready, and waits at most 10 milliseconds.
#[derive(Drop)]
pub struct Sockets<C> {
    wires: Wires<C>,
    tally: Tally,
    last: u32,
}

impl<C: Clock + Drop> Sockets<C> {
    /// No links yet, and the memory for all. An error where there isn't so much, the clock can't be
    /// read, or the system can't tell what is ready.
    pub fn new<R: Net>(
        rt: &R,
        clock: C,
        alloc: Global,
        public: TcpListener,
        operator: TcpListener,
    ) -> io::Result<Sockets<C>>
        ensures counts { IfOk result (λ sockets. counts sockets ≡ no_counts) }
        ensures numbers { IfOk result (λ sockets. last_number sockets ≡ 0) }
    {
        Ok(Sockets {
            wires: Wires::new(rt, clock, alloc, public, operator)?,
            tally: Tally::new(),
            last: 0,
        })
    }

    /// Takes a link that waits at the door, and answers its number: one above the last, whatever
    /// the door. `None` where nobody waits there, 32 links are open, or 31 are and one waits at the
    /// operator's door, or the system has no descriptor left. `Failed` where a link waits and the
    /// numbers are used up, or nothing listens there any more.
    pub fn door(&mut self, door: Doorway) -> Result<Option<u32>, Failed>
        ensures number { IsLinkNumber result }
        ensures counts_up { CountsUp (last_number self.old) (last_number self.new) result }
        ensures failed { OnErr result (Rose (counts self.old).door (counts self.new).door) }
        ensures nobody { result ≡ Ok None
            → Rose ((counts self.old).door_idles door) ((counts self.new).door_idles door) }
        ensures none_fell { NoneFell (counts self.old) (counts self.new) }
    {
        let Ok(taken) = self.wires.take(door) else {
            self.tally.door_failed();
            return Err(Failed);
        };
        let Some(stream) = taken else {
            self.tally.nobody(door);
            return Ok(None);
        };
        let Some(number) = self.last.checked_add(1) else {
            self.tally.door_failed();
            return Err(Failed);
        };
        if !self.wires.add(number, stream) {
            self.tally.nobody(door);
            return Ok(None);
        }
        self.last = number;
        Ok(Some(number))
    }

    /// Takes bytes from a link into the front of the room, at least one. `Failed` where there is no
    /// such link, it was reset, or it gave nothing and took too long: it was silent for 60 seconds,
    /// a head took 60 or a body 240, or while 32 links are open and somebody waits at a door, it
    /// ended no request, took no whole reply and moved fewer than 1,000 bytes for 10.
    pub fn hear(&mut self, channel: u32, into: &mut [u8]) -> Result<Heard, Failed>
        requires room { 1 ≤ length into.old }
        ensures within { HeardWithin (length into.old) result }
        ensures same_room { length into.new ≡ length into.old }
        ensures failed { OnErr result (
            Rose ((counts self.old).hear channel) ((counts self.new).hear channel)) }
        ensures not_yet { result ≡ Ok Heard.NotYet
            → Rose ((counts self.old).not_yets channel) ((counts self.new).not_yets channel) }
        ensures none_fell { NoneFell (counts self.old) (counts self.new) }
        ensures numbers { last_number self.new ≡ last_number self.old }
    {
        let heard = self.wires.hear(channel, into);
        match heard {
            Ok(Heard::NotYet) => self.tally.not_yet(),
            Ok(_) => {}
            Err(Failed) => self.tally.hear_failed(),
        }
        heard
    }

    /// Hands a piece to a link, which takes at least the first byte of it, or nothing yet. `Failed`
    /// as in `hear`, and where the other side takes no more.
    pub fn show(&mut self, channel: u32, bytes: &[u8]) -> Result<Shown, Failed>
        requires piece { 1 ≤ length bytes.now }
        ensures within { ShownWithin (length bytes.now) result }
        ensures failed { OnErr result (
            Rose ((counts self.old).show channel) ((counts self.new).show channel)) }
        ensures not_yet { result ≡ Ok Shown.NotYet
            → Rose ((counts self.old).not_yets channel) ((counts self.new).not_yets channel) }
        ensures none_fell { NoneFell (counts self.old) (counts self.new) }
        ensures numbers { last_number self.new ≡ last_number self.old }
    {
        let shown = self.wires.show(channel, bytes);
        match shown {
            Ok(Shown::NotYet) => self.tally.not_yet(),
            Ok(_) => {}
            Err(Failed) => self.tally.show_failed(),
        }
        shown
    }

    /// A link ran out of memory. Nothing is done: who made it so shuts it.
    pub fn give_up(&mut self, _channel: u32)
        ensures same { self.new ≡ self.old }
    {}

    /// Ends a link. Where there is no such link, nothing changes. What the other side still sends
    /// is read away for 10 seconds, up to 8 MB, so that it gets the reply whole.
    pub fn shut(&mut self, channel: u32)
        ensures same_counts { counts self.new ≡ counts self.old }
        ensures numbers { last_number self.new ≡ last_number self.old }
    {
        self.wires.shut(channel);
    }
}
