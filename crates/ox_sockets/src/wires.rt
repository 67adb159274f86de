//! The connections, the two listeners, and when the system is asked what is ready.

ghost use Rattle.std.specs.Prelude.{◌≡◌, ◌≤◌, length};
ghost use Rattle.ox_outside.specs.Answers.{HeardWithin, ShownWithin};

use crate::door::Door;
use crate::lingering::Lingering;
use crate::link::Link;
use crate::watch::Watch;
use mio::event::Event;
use mio::net::TcpStream;
use mio::{Events, Interest, Poll, Token};
use ox_links::LINKS;
use ox_outside::{Doorway, Failed, Heard, Shown};
use std::alloc::Global;
use std::io;
use std::net::{Net, Shutdown, TcpListener};
use std::rt::Clock;
use std::time::Duration;

/// What the system calls the doors. A link has its number, which is smaller.
const PUBLIC: Token = Token(usize::MAX);

const OPERATOR: Token = Token(usize::MAX - 1);

/// How many things the system tells at a time.
const EVENTS: usize = 128;

/// After how many calls the system is asked, however much they brought.
const CALLS: usize = 64;

/// How many milliseconds the system waits for something, where nothing came.
const PAUSE: u64 = 10;

/// The connections and what is known of them.
#[derive(Drop)]
pub(crate) struct Wires<C> {
    poll: Poll,
    events: Events<Global>,
    public: Door,
    operator: Door,
    links: Vec<Link>,
    lingering: Lingering,
    watch: Watch<C>,
    /// How many calls in a row brought nothing.
    quiet: usize,
    /// How many calls there were since the system was asked.
    calls: usize,
    /// Whether one that lingers may have more to read away.
    busy: bool,
    /// Whether somebody waited at a door when the system was asked, and there was no place.
    waiting: bool,
}

impl<C: Clock + Drop> Wires<C> {
    /// No links yet, and the memory for all. An error where there isn't so much, the clock can't be
    /// read, or the system can't tell what is ready.
    pub(crate) fn new<R: Net>(
        rt: &R,
        clock: C,
        alloc: Global,
        public: TcpListener,
        operator: TcpListener,
    ) -> io::Result<Wires<C>> {
        let poll = Poll::new(rt)?;
        Ok(Wires {
            public: Door::open(&poll, public, PUBLIC)?,
            operator: Door::open(&poll, operator, OPERATOR)?,
            poll,
            events: Events::with_capacity(alloc, EVENTS)?,
            links: Vec::with_capacity(alloc, LINKS)?,
            lingering: Lingering::new(alloc)?,
            watch: Watch::new(clock)?,
            quiet: 0,
            calls: 0,
            busy: false,
            waiting: false,
        })
    }

    /// Takes who waits at a door, where there is a place. The last one is the operator's, where one
    /// waits. `Failed` where nobody can come there any more.
    pub(crate) fn take(&mut self, door: Doorway) -> Result<Option<TcpStream>, Failed> {
        self.begin();
        let places = LINKS.saturating_sub(self.links.len());
        if places == 0 {
            return Ok(None);
        }
        let taken = match door {
            Doorway::Public if places == 1 && self.operator.somebody_waits() => None,
            Doorway::Public => self.public.take()?,
            Doorway::Operator => self.operator.take()?,
        };
        if taken.is_some() {
            self.quiet = 0;
        }
        Ok(taken)
    }

    /// Has a connection be the link of this number. False where the system can't tell of it: then
    /// it is closed.
    pub(crate) fn add(&mut self, number: u32, mut stream: TcpStream) -> bool {
        // Where this fails, replies come later, and are the same.
        let _ = stream.set_nodelay(true);
        let all = Interest::READABLE | Interest::WRITABLE | Interest::PRIORITY;
        let token = Token(number as usize);
        if self
            .poll
            .registry()
            .register(&mut stream, token, all)
            .is_err()
        {
            return false;
        }
        let link = Link::new(number, stream, self.watch.now());
        self.links.push(link).is_ok()
    }

    /// What the link of this number gives. `Failed` where there is none, and where it took too
    /// long.
    pub(crate) fn hear(&mut self, number: u32, into: &mut [u8]) -> Result<Heard, Failed>
        requires room { 1 ≤ length into.old }
        ensures within { HeardWithin (length into.old) result }
        ensures same_room { length into.new ≡ length into.old }
    {
        self.begin();
        let now = self.watch.now();
        let crowded = self.is_crowded();
        let place = self.place_of(number).ok_or(Failed)?;
        let link = self.links.get_mut(place).ok_or(Failed)?;
        let heard = link.hear(into, now);
        if heard != Ok(Heard::NotYet) {
            self.quiet = 0;
        } else if link.life.is_over(now, crowded) {
            return Err(Failed);
        }
        heard
    }

    /// What the link of this number takes. `Failed` as in `hear`.
    pub(crate) fn show(&mut self, number: u32, bytes: &[u8]) -> Result<Shown, Failed>
        requires piece { 1 ≤ length bytes.now }
        ensures within { ShownWithin (length bytes.now) result }
    {
        self.begin();
        let now = self.watch.now();
        let crowded = self.is_crowded();
        let place = self.place_of(number).ok_or(Failed)?;
        let link = self.links.get_mut(place).ok_or(Failed)?;
        let shown = link.show(bytes, now);
        if shown != Ok(Shown::NotYet) {
            self.quiet = 0;
        } else if link.life.is_over(now, crowded) {
            return Err(Failed);
        }
        shown
    }

    /// Ends the link of this number. The writing side is closed, and what may still come lingers;
    /// where the link was reset, that fails, and nothing is left.
    pub(crate) fn shut(&mut self, number: u32) {
        let Some(place) = self.place_of(number) else {
            return;
        };
        if place < self.links.len() {
            let link = self.links.swap_remove(place);
            if link.stream.shutdown(Shutdown::Write).is_ok() {
                let now = self.watch.now();
                self.lingering.add(number, link.stream, now);
                self.busy = true;
            }
        }
    }

    /// Where the link of this number is.
    fn place_of(&self, number: u32) -> Option<usize> {
        self.links.iter().position(|link| link.number == number)
    }

    /// Whether all places are taken and somebody waits.
    fn is_crowded(&self) -> bool {
        self.waiting && self.links.len() >= LINKS
    }

    /// Counts a call, and first asks the system where that is due: after many calls, after a
    /// rotation that brought nothing, and where the call before brought something that made work.
    /// Each call has brought nothing until it says that it did.
    fn begin(&mut self) {
        let rotation = self.links.len().saturating_add(3);
        if self.quiet >= rotation && !self.busy {
            self.ask(Duration::from_millis(PAUSE));
        } else if self.quiet >= rotation
            || self.calls >= CALLS
            || self.quiet == 0 && self.watch.has_worked()
        {
            self.ask(Duration::ZERO);
        }
        self.quiet = self.quiet.saturating_add(1);
        self.calls = self.calls.saturating_add(1);
    }

    /// Asks the system what is ready, and waits so long for it. Where it can't tell, it is asked
    /// again later.
    fn ask(&mut self, pause: Duration) {
        self.quiet = 0;
        self.calls = 0;
        if self.poll.poll(&mut self.events, Some(pause)).is_ok() {
            for event in &self.events {
                note(&mut self.links, &mut self.lingering, event);
                match event.token() {
                    PUBLIC => self.public.knocked(),
                    OPERATOR => self.operator.knocked(),
                    _ => {}
                }
            }
        }
        self.watch.tick();
        self.busy = self.lingering.read_away(self.watch.now());
        self.waiting = self.links.len() >= LINKS
            && (self.operator.somebody_waits() || self.public.somebody_waits());
    }
}

/// Keeps what the system told of a link, or of one that lingers.
fn note(links: &mut Vec<Link>, lingering: &mut Lingering, event: &Event) {
    let Ok(number) = u32::try_from(event.token().0) else {
        return;
    };
    for link in links {
        if link.number == number {
            link.note(event);
            return;
        }
    }
    lingering.told(number);
}
