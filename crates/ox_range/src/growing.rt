//! A list that grows, and is cut without memory.

ghost use Rattle.std.specs.Prelude.{◌≡◌, ◌+◌, ◌^◌, ◌<◌, ◌≤◌, ◌==◌, [], ◌++◌, length};
ghost use Rattle.std.specs.Prelude.{take, position, IfOk, OnOk, OnErr};
ghost use Rattle.ox_range.specs.Runs.{numbers_of, AreMaximal, runs_of};

use crate::Ranges;
use crate::few::{Long, Runs};
use crate::runs::{Run, place_among};
use ox_bytes::Memory;
use std::alloc::Global;
use std::marker::Model;

/// A list of satoshi numbers, kept as its maximal runs, which nothing else shares: so it is cut
/// without memory.
pub struct Growing {
    alloc: Global,
    long: Long,
}

/// By hand, so that whoever drops a list makes one call, and proves nothing of its runs.
impl Drop for Growing {
    fn drop(self) {
        let Growing {
            alloc: _alloc,
            long: _long,
        } = self;
    }
}

impl Model for Growing {
    ghost use Rattle.std.specs.Prelude.{ℕ, List};
    ghost use Rattle.ox_range.specs.Runs.{numbers_of, AreRunsOf};

    ghost Value = { List ℕ };

    ghost view = { λ g. numbers_of g.long.runs.items };

    ghost invariant = { λ g. AreRunsOf g.long.runs.items g.long.len };
}

impl Growing {
    /// No numbers.
    pub fn empty(alloc: Global) -> Self
        ensures { result ≡ [] }
    {
        let runs = Vec::new(alloc);
        Growing {
            alloc,
            long: Long { runs, len: 0 },
        }
    }

    /// The numbers of a list, copied. `Memory` where there is none left.
    pub fn of(alloc: Global, sats: &Ranges) -> Result<Self, Memory>
        ensures { IfOk result (λ growing. growing ≡ sats.now) }
    {
        let runs = Vec::from_slice(alloc, sats.runs())?;
        let len = sats.len();
        Ok(Growing {
            alloc,
            long: Long { runs, len },
        })
    }

    /// How many numbers there are.
    pub fn len(&self) -> u64
        ensures { result ≡ length self.now }
    {
        self.long.len
    }

    /// The first place at which this number stands, if any. It costs by the runs before it.
    pub fn place_of(&self, sat: u64) -> Option<u64>
        ensures { result ≡ position (λ number. number == sat) self.now }
    {
        place_among(self.long.runs.as_slice(), sat)
    }

    /// Puts the numbers of `tail` behind. It costs by the runs of `tail`, in the long run. `Memory`
    /// where there is none left, and then nothing has changed.
    pub fn join(&mut self, tail: &Ranges) -> Result<(), Memory>
        requires { length self.old + length tail.now < 2 ^ 64 }
        ensures ok { OnOk result (self.new ≡ self.old ++ tail.now) }
        ensures err { OnErr result (self.new ≡ self.old) }
    {
        self.long.extend(tail.runs(), tail.len())?;
        Ok(())
    }

    /// Keeps the numbers before this place and drops the others. It takes no memory, and costs by
    /// the runs that it drops.
    pub fn truncate(&mut self, len: u64)
        requires { len ≤ length self.old }
        ensures { self.new ≡ take len self.old }
    {
        self.long.truncate(len);
    }

    /// The first numbers, so many, as a list of their own. It costs by all runs. `Memory` where
    /// there is none left.
    pub fn front(&self, len: u64) -> Result<Ranges, Memory>
        requires { len ≤ length self.now }
        ensures { IfOk result (λ front. front ≡ take len self.now) }
    {
        let runs = Runs::from_slice(self.alloc, self.long.runs.as_slice(), self.long.len)?;
        let mut front = Ranges {
            alloc: self.alloc,
            runs,
        };
        front.split_off(len)?;
        Ok(front)
    }

    /// The maximal runs of consecutive numbers, in order.
    pub fn runs(&self) -> &[Run]
        ensures exact { result.now ≡ runs_of self.now }
        ensures numbers { numbers_of result.now ≡ self.now }
        ensures maximal { AreMaximal result.now }
    {
        self.long.runs.as_slice()
    }
}
