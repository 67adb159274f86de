//! The time in which links could be heard.

use std::io;
use std::rt::Clock;
use std::time::{Duration, Instant};

/// The most seconds that count from one reading of the clock to the next: what is longer was the
/// program's own work, in which no link could be heard.
const STEP: u64 = 1;

/// After how many milliseconds of its own work the clock is to be read.
const WORK: u64 = 1;

/// A clock, when it was read last, and how much time has passed in which links could be heard.
#[derive(Drop)]
pub(crate) struct Watch<C> {
    clock: C,
    read: Instant,
    now: Duration,
}

impl<C: Clock + Drop> Watch<C> {
    /// Nothing has passed yet. An error where the clock can't be read.
    pub(crate) fn new(clock: C) -> io::Result<Watch<C>> {
        let read = Instant::now(&clock)?;
        Ok(Watch {
            clock,
            read,
            now: Duration::ZERO,
        })
    }

    /// How much time has passed.
    pub(crate) fn now(&self) -> Duration {
        self.now
    }

    /// Reads the clock. Where it can't be read, no time has passed.
    pub(crate) fn tick(&mut self) {
        if let Ok(read) = Instant::now(&self.clock) {
            let passed = read.duration_since(self.read);
            let most = Duration::from_secs(STEP);
            self.now = self
                .now
                .saturating_add(if passed > most { most } else { passed });
            self.read = read;
        }
    }

    /// Whether more time has passed since the last reading than calls of the system take.
    pub(crate) fn has_worked(&self) -> bool {
        match self.read.elapsed(&self.clock) {
            Ok(passed) => passed > Duration::from_millis(WORK),
            Err(_) => false,
        }
    }
}
