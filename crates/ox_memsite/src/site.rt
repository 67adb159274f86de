//! The site in memory: what each call does, exactly.

ghost use Rattle.std.specs.Prelude.{◌≡◌, ◌+◌, ◌≤◌, [], ◌∷◌, ◌++◌, length, IfOk, OnOk, OnErr};
ghost use Rattle.ox_memsite.specs.World.{is_in, events_of, first_site, after_call, is_listed};
ghost use Rattle.ox_memsite.specs.World.{after_starving, LeftSince};
ghost use Rattle.ox_memsite.specs.Crashed.{site_after_crash, remains_of};

mod files;
mod links;
mod log;

use crate::channel::{Channel, silent_channels};
use crate::crash::{Choice, append_events, crashed_bytes};
use crate::places::{broken_channels, count_channels};
use crate::said::Script;
use crate::site::log::most_owed;
use crate::step::Step;
use ox_bytes::{Memory, Room};
use ox_outside::Which;
use std::alloc::Global;
use std::collections::VecDeque;
use std::marker::Model;

/// A site in memory. It tells its files and its log, and what a crash leaves at each moment. A call
/// fails exactly where its number is listed by `fail`, where a link waits and no number is left for
/// it, or where there is no memory for the log or the record of writes; `starved` counts the
/// latter.
#[derive(Drop)]
pub struct MemSite {
    alloc: Global,
    first_a: Vec<u8>,
    first_b: Vec<u8>,
    a: Vec<u8>,
    b: Vec<u8>,
    past: Vec<Step>,
    steps: Room<Step>,
    input: Vec<u8>,
    heard: usize,
    channels: Vec<Channel>,
    broken: Vec<bool>,
    at_public: VecDeque<Script>,
    at_operator: VecDeque<Script>,
    failing: Vec<u64>,
    calls: u64,
    starved: u64,
    disk_faults: u64,
    door_faults: u64,
    public_idles: u64,
    operator_idles: u64,
}

impl Model for MemSite {
    ghost use Rattle.std.specs.Prelude.{drop, length, vec_len};
    ghost use Rattle.ox_memsite.specs.Kept.{IsKept};
    ghost use Rattle.ox_memsite.specs.World.{World, events_of};

    ghost Value = { World };

    ghost view = { λ s. record {
      first = record { a = s.first_a.items; b = s.first_b.items };
      past = events_of s.past.items;
      steps = s.steps.filled;
      input = drop s.heard s.input.items;
      channels = s.channels.items;
      at_public = s.at_public.items;
      at_operator = s.at_operator.items;
      failing = s.failing.items;
      calls = s.calls;
      starved = s.starved;
      disk_faults = s.disk_faults;
      door_faults = s.door_faults;
      public_idles = s.public_idles;
      operator_idles = s.operator_idles;
    } };

    ghost invariant = { λ s. IsKept (record { a = s.first_a.items; b = s.first_b.items })
        s.a.items s.b.items s.past.items s.steps.filled s.broken.items (length s.channels.items)
        s.steps.spare s.heard (vec_len s.input) };
}

impl MemSite {
    /// Two empty files, no input, and no call that is to fail. `Memory` where there is none for the
    /// end of channel 0.
    pub fn new(alloc: Global) -> Result<MemSite, Memory>
        ensures { IfOk result (λ site. site ≡ first_site [] [] []) }
    {
        restart(alloc, Vec::new(alloc), Vec::new(alloc), Vec::new(alloc))
    }

    /// Appends bytes to what channel 0 will give. `Memory` where there is none: nothing has changed
    /// then.
    pub fn input(&mut self, bytes: &[u8]) -> Result<(), Memory>
        ensures ok { OnOk result (
            self.new ≡ record self.old { input = self.old.input ++ bytes.now }) }
        ensures err { OnErr result (self.new ≡ self.old) }
    {
        self.input.extend_from_slice(bytes)?;
        Ok(())
    }

    /// Makes the call of this number fail, counted from 0 over the calls that can fail since the
    /// site was made. `Memory` where there is none: nothing has changed then.
    pub fn fail(&mut self, call: u64) -> Result<(), Memory>
        ensures ok { OnOk result (
            self.new ≡ record self.old { failing = self.old.failing ++ call ∷ [] }) }
        ensures err { OnErr result (self.new ≡ self.old) }
    {
        self.failing.push(call)?;
        Ok(())
    }

    /// How often a call failed only because memory ran out.
    pub fn starved(&self) -> u64
        ensures { result ≡ self.now.starved }
    {
        self.starved
    }

    /// The site as a crash at the chosen moment leaves it: files that are all on the disk, the log
    /// of that moment, no input, no call that is to fail, and calls numbered from 0. `Memory` where
    /// there is none for it.
    pub fn crash(&self, choice: &Choice) -> Result<MemSite, Memory>
        requires { choice.now.moment ≤ length self.now.steps }
        ensures exact { IfOk result (λ site. site ≡ site_after_crash choice.now self.now) }
        ensures allowed { IfOk result (λ site.
            LeftSince self.now choice.now.moment (remains_of site)) }
    {
        self.after_crash(choice)
    }

    fn after_crash(&self, choice: &Choice) -> Result<MemSite, Memory>
        requires { choice.now.moment ≤ length self.now.steps }
        ensures { IfOk result (λ site. site ≡ site_after_crash choice.now self.now) }
    {
        let alloc = self.alloc;
        let (done, _) = self.steps.as_slice().split_at(choice.moment as usize);
        let a = crashed_bytes(alloc, &self.first_a, done, Which::A, choice)?;
        let b = crashed_bytes(alloc, &self.first_b, done, Which::B, choice)?;
        let mut past = Vec::new(alloc);
        append_events(alloc, &mut past, &self.past)?;
        append_events(alloc, &mut past, done)?;
        restart(alloc, a, b, past)
    }

    /// Counts a call, and says whether it is to fail.
    fn next_call(&mut self) -> bool
        ensures listed { result ≡ is_listed self.old }
        ensures called { self.new ≡ after_call self.old }
    {
        let is_listed = contains(&self.failing, self.calls);
        self.calls = self.calls.saturating_add(1);
        is_listed
    }

    fn starve(&mut self)
        ensures { self.new ≡ after_starving self.old }
    {
        self.starved = self.starved.saturating_add(1);
    }
}

/// A site over these files, all of them on the disk, with the log of these steps.
fn restart(alloc: Global, a: Vec<u8>, b: Vec<u8>, past: Vec<Step>) -> Result<MemSite, Memory>
    ensures { IfOk result (λ site. site ≡ first_site a.items b.items (events_of past.items)) }
{
    let count = count_channels(&past) as usize;
    Ok(MemSite {
        alloc,
        first_a: Vec::from_slice(alloc, &a)?,
        first_b: Vec::from_slice(alloc, &b)?,
        a,
        b,
        steps: Room::new(alloc, most_owed(count))?,
        input: Vec::new(alloc),
        heard: 0,
        channels: silent_channels(alloc, count)?,
        broken: broken_channels(alloc, count, &past)?,
        past,
        at_public: VecDeque::new(alloc),
        at_operator: VecDeque::new(alloc),
        failing: Vec::new(alloc),
        calls: 0,
        starved: 0,
        disk_faults: 0,
        door_faults: 0,
        public_idles: 0,
        operator_idles: 0,
    })
}

fn contains(numbers: &[u64], number: u64) -> bool
    ensures { result ≡ is_in number numbers.now }
{
    for n in numbers {
        if *n == number {
            return true;
        }
    }
    false
}
