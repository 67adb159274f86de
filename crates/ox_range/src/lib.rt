//! Lists of satoshi numbers, kept as runs of consecutive numbers.
//!
//! An output holds satoshis in an order: the first of a block's subsidy may stand beside those that
//! came from far away. A list of them is seen as the list of its numbers, and kept as its maximal
//! runs, so that five billion numbers cost as much as one. Nearly all lists are one run, which is
//! kept in the list itself; longer ones are shared by their copies.
#![tactic(auto)]

ghost use Rattle.std.specs.Prelude.{◌≡◌, ℕ, ◌+◌, ◌^◌, ◌<◌, ◌≤◌, ◌==◌, ◌↔◌, List, [], ◌++◌, length};
ghost use Rattle.std.specs.Prelude.{take, drop, slice_index, position, IsTrue, IfOk, OnOk, OnErr};
ghost use Rattle.ox_range.specs.Numbers.{numbers_from};
ghost use Rattle.ox_range.specs.Runs.{numbers_of, AreMaximal, runs_of};

use cuts::split;
use few::Runs;
use joins::append;
use runs::{number_at, place_among};
use std::alloc::Global;
use std::marker::Model;

mod cuts;
mod few;
mod growing;
mod joins;
mod runs;

pub use growing::Growing;
pub use ox_bytes::Memory;
pub use runs::{Run, runs_are_determined, runs_have_their_numbers};

/// A list of satoshi numbers, kept as its maximal runs of consecutive numbers. Only several runs
/// take memory of their own, which copies share; a list that is changed is written in place where
/// no other shares it, and into a copy where one does.
pub struct Ranges {
    alloc: Global,
    runs: Runs,
}

/// By hand, so that whoever drops a list makes one call, and proves nothing of its runs.
impl Drop for Ranges {
    fn drop(self) {
        let Ranges {
            alloc: _alloc,
            runs: _runs,
        } = self;
    }
}

impl Model for Ranges {
    ghost use Rattle.std.specs.Prelude.{ℕ, List};
    ghost use Rattle.ox_range.specs.Few.{runs_in, IsKept};
    ghost use Rattle.ox_range.specs.Runs.{numbers_of};

    ghost Value = { List ℕ };

    ghost view = { λ r. numbers_of (runs_in r.runs) };

    ghost invariant = { λ r. IsKept r.runs };
}

impl Ranges {
    /// No numbers.
    pub fn empty(alloc: Global) -> Self
        ensures { result ≡ [] }
    {
        Ranges {
            alloc,
            runs: Runs::Empty,
        }
    }

    /// The numbers from `first` on, `count` of them. One run takes no memory of its own, so
    /// `Memory` is never the answer.
    pub fn one(alloc: Global, first: u64, count: u64) -> Result<Self, Memory>
        requires { first + count < 2 ^ 64 }
        ensures { IfOk result (λ ranges. ranges ≡ numbers_from first count) }
    {
        Ok(Ranges {
            alloc,
            runs: Runs::from_numbers(first, count),
        })
    }

    /// How many numbers there are.
    pub fn len(&self) -> u64
        ensures { result ≡ length self.now }
    {
        self.runs.len()
    }

    /// Whether there is no number.
    pub fn is_empty(&self) -> bool
        ensures { IsTrue result ↔ (self.now ≡ []) }
    {
        self.runs.len() == 0
    }

    /// The number at this place, from 0 on. It costs by the runs before it.
    pub fn at(&self, place: u64) -> u64
        requires { place < length self.now }
        ensures { result ≡ slice_index self.now place }
    {
        number_at(self.runs.as_slice(), place)
    }

    /// The first place at which this number stands, if any. It costs by the runs before it.
    pub fn place_of(&self, sat: u64) -> Option<u64>
        ensures { result ≡ position (λ number. number == sat) self.now }
    {
        place_among(self.runs.as_slice(), sat)
    }

    /// The same numbers once more. Two runs or more are shared, so it takes no memory. `Memory`
    /// where they are shared more often than can be counted.
    pub fn copy(&self, alloc: Global) -> Result<Ranges, Memory>
        ensures { IfOk result (λ copy. copy ≡ self.now) }
    {
        let runs = self.runs.copy()?;
        Ok(Ranges { alloc, runs })
    }

    /// Puts the numbers of `tail` behind; behind none its runs are shared. It costs by the runs of
    /// `tail`, in the long run, and by its own too where they are shared. `Memory` where there is
    /// none left, which is so for two runs or more alone, and then nothing has changed.
    pub fn join(&mut self, tail: &Ranges) -> Result<(), Memory>
        requires { length self.old + length tail.now < 2 ^ 64 }
        ensures ok { OnOk result (self.new ≡ self.old ++ tail.now) }
        ensures err { OnErr result (self.new ≡ self.old) }
    {
        append(self.alloc, &mut self.runs, &tail.runs)?;
        Ok(())
    }

    /// Keeps the numbers before this place and gives the others. It costs by the runs that it
    /// gives, and by all where they are shared; at the list's end, it costs nothing. `Memory` where
    /// there is none left, which is so for two runs or more alone, and then nothing has changed.
    pub fn split_off(&mut self, place: u64) -> Result<Ranges, Memory>
        requires { place ≤ length self.old }
        ensures front { OnOk result (self.new ≡ take place self.old) }
        ensures rest { IfOk result (λ rest. rest ≡ drop place self.old) }
        ensures err { OnErr result (self.new ≡ self.old) }
    {
        let runs = split(self.alloc, &mut self.runs, place)?;
        Ok(Ranges {
            alloc: self.alloc,
            runs,
        })
    }

    /// The maximal runs of consecutive numbers, in order.
    pub fn runs(&self) -> &[Run]
        ensures exact { result.now ≡ runs_of self.now }
        ensures numbers { numbers_of result.now ≡ self.now }
        ensures maximal { AreMaximal result.now }
    {
        self.runs.as_slice()
    }
}
