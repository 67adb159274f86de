//! Runs of which there is mostly one.

ghost use Rattle.std.specs.Prelude.{◌≡◌, ◌+◌, ◌^◌, ◌<◌, IfOk};
ghost use Rattle.ox_range.specs.Few.{count_in, runs_in, IsKept};
ghost use Rattle.ox_range.specs.Numbers.{numbers_from};
ghost use Rattle.ox_range.specs.Runs.{numbers_of, AreRunsOf};

use crate::runs::Run;
use std::alloc::{AllocError, Global};
use std::rc::Rc;
use std::slice;

/// Runs in memory of their own, and how many numbers they have.
#[derive(Drop)]
pub(crate) struct Long {
    pub(crate) runs: Vec<Run>,
    pub(crate) len: u64,
}

impl Clone for Long {
    ghost is_clone = { λ long copy. (copy.runs.items ≡ long.runs.items) × (copy.len ≡ long.len) };

    fn clone(&self) -> Result<Long, AllocError> {
        let runs = Vec::from_slice(*self.runs.allocator(), self.runs.as_slice())?;
        Ok(Long {
            runs,
            len: self.len,
        })
    }
}

/// Runs in an order, of which one takes no memory of its own. Most lists have no more. Two or more
/// are shared with each copy, until one of them is changed.
#[derive(Drop)]
pub(crate) enum Runs {
    /// No run.
    Empty,
    /// One, in place.
    One(Run),
    /// In memory of their own: two or more, but while they are cut.
    Many(Rc<Long>),
}

impl Runs {
    /// The run of the numbers from `first` on, `count` of them, or none where there are none.
    pub(crate) fn from_numbers(first: u64, count: u64) -> Runs
        requires { first + count < 2 ^ 64 }
        ensures numbers { numbers_of (runs_in result) ≡ numbers_from first count }
        ensures count { count_in result ≡ count }
        ensures kept { IsKept result }
    {
        if count == 0 {
            Runs::Empty
        } else {
            Runs::One(Run { first, count })
        }
    }

    /// The runs of the slice, copied. They have `count` numbers.
    pub(crate) fn from_slice(alloc: Global, runs: &[Run], count: u64) -> Result<Runs, AllocError>
        requires { AreRunsOf runs.now count }
        ensures same { IfOk result (λ copy. runs_in copy ≡ runs.now) }
        ensures count { IfOk result (λ copy. count_in copy ≡ count) }
        ensures kept { IfOk result IsKept }
    {
        match runs {
            [] => Ok(Runs::Empty),
            [run] => Ok(Runs::One(*run)),
            _ => {
                let runs = Vec::from_slice(alloc, runs)?;
                Ok(Runs::Many(Rc::new(alloc, Long { runs, len: count })?))
            }
        }
    }

    /// The same runs: where they are several, they are shared.
    pub(crate) fn copy(&self) -> Result<Runs, AllocError>
        requires { IsKept self.now }
        ensures same { IfOk result (λ copy. runs_in copy ≡ runs_in self.now) }
        ensures count { IfOk result (λ copy. count_in copy ≡ count_in self.now) }
        ensures kept { IfOk result IsKept }
    {
        match self {
            Runs::Empty => Ok(Runs::Empty),
            Runs::One(run) => Ok(Runs::One(*run)),
            Runs::Many(long) => Ok(Runs::Many(long.clone()?)),
        }
    }

    /// How many numbers the runs have.
    pub(crate) fn len(&self) -> u64
        ensures { result ≡ count_in self.now }
    {
        match self {
            Runs::Empty => 0,
            Runs::One(run) => run.count,
            Runs::Many(long) => long.len,
        }
    }

    /// Keeps one run in place, or none, and lets go of the memory that was taken for it.
    pub(crate) fn settle(&mut self)
        requires { AreRunsOf (runs_in self.old) (count_in self.old) }
        ensures same { runs_in self.new ≡ runs_in self.old }
        ensures count { count_in self.new ≡ count_in self.old }
        ensures kept { IsKept self.new }
    {
        let Runs::Many(long) = self else {
            return;
        };
        match long.runs.as_slice() {
            [] => *self = Runs::Empty,
            [run] => *self = Runs::One(*run),
            _ => {}
        }
    }

    /// Whether no memory is taken beyond what the runs need.
    pub(crate) fn is_snug(&self) -> bool {
        match self {
            Runs::Many(long) => long.runs.capacity() == long.runs.len(),
            _ => true,
        }
    }

    /// The runs, in order.
    pub(crate) fn as_slice(&self) -> &[Run]
        ensures { result.now ≡ runs_in self.now }
    {
        match self {
            Runs::Empty => &[],
            Runs::One(run) => slice::from_ref(run),
            Runs::Many(long) => long.runs.as_slice(),
        }
    }
}
