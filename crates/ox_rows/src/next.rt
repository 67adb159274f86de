//! Rows, read one by one from a window.

ghost use Rattle.std.specs.Prelude.{◌≡◌};
ghost use Rattle.ox_bytes.specs.Reading.{GivesOrMemory, Reader};
ghost use Rattle.std.specs.Prelude.{◌≤◌, ◌-◌, length, drop, IfOk};
ghost use Rattle.ox_rows.specs.Coming.{end_at};
ghost use Rattle.ox_rows.specs.Promises.{NextPromises};
ghost use Rattle.ox_rows.specs.Front.{ReadsFronts};
ghost use Rattle.ox_rows.specs.declared.next.NextFault.TheVariants as faults;
ghost use Rattle.ox_bytes.specs.declared.fault.ReadError.TheVariants as errors;

use crate::readable::Readable;
use crate::source::Source;
use crate::window::Window;
use ox_bytes::{Memory, ReadError};
use std::alloc::{AllocError, AllocFailed, Global};

/// Why nothing was read of what is ahead.
#[derive(Clone, Copy, Debug, PartialEq, Eq)]
pub enum NextFault<F> {
    /// There was no memory for it, or a field is at fault. How many bytes are left where that
    /// begins is counted from the end of all that was ahead.
    Read(ReadError),
    /// What the source ended by.
    Source(F),
}

impl<F> From<Memory> for NextFault<F> {
    ghost from_gives = { λ _ e. e ≡ faults.Read errors.Memory };

    fn from(_memory: Memory) -> NextFault<F> {
        NextFault::Read(ReadError::Memory)
    }
}

impl<F> From<AllocError> for NextFault<F> {
    ghost from_gives = { λ _ e. e ≡ faults.Read errors.Memory };

    fn from(_e: AllocError) -> NextFault<F> {
        NextFault::Read(ReadError::Memory)
    }
}

impl<T: Drop, F> From<AllocFailed<T>> for NextFault<F> {
    ghost from_gives = { λ _ e. e ≡ faults.Read errors.Memory };

    fn from(_e: AllocFailed<T>) -> NextFault<F> {
        NextFault::Read(ReadError::Memory)
    }
}

/// How a value is read from the front of bytes, by what is known of those before.
pub(crate) trait Reads<T>: Copy {
    /// How it is read.
    ghost at: { Self → Reader T };

    /// The value and the bytes behind it. The fault has the number of bytes left where the field
    /// begins that doesn't fit. `Memory` where there is none for the value.
    fn read(self, alloc: Global, bytes: &[u8]) -> Result<(T, &[u8]), ReadError>
        ensures { GivesOrMemory (λ x. (x.0, x.1.now)) result (at self bytes.now) };

    /// It looks at nothing behind the value.
    ghost fronts: { (by : Self) → ReadsFronts (at by) };
}

/// By nothing.
#[derive(Clone, Copy)]
pub(crate) struct Plainly;

impl<T: Readable> Reads<T> for Plainly {
    ghost at = { λ by. T.at };

    fn read(self, alloc: Global, bytes: &[u8]) -> Result<(T, &[u8]), ReadError> {
        T::read(alloc, bytes)
    }

    ghost fronts = { λ by. T.fronts };
}

/// The value that is next: it is read from the front of the window, and where that fails and the
/// source goes on, from a longer one. A fault's place is counted from the end of all that is ahead:
/// for one the source is read to its end. `Memory` where there is none for the value or for the
/// window.
pub fn next_row<T: Readable, W, S: Source<W>>(
    alloc: Global,
    window: &mut Window,
    source: &mut S,
    world: &mut W,
) -> Result<T, NextFault<S::Fault>>
    requires ready { S.ready source.old world.old }
    ensures { NextPromises S.Source (λ x. x) T.at result window.old window.new source.old source.new
        world.old world.new }
{
    next_by(Plainly, alloc, window, source, world)
}

/// The same, of a value that is read by what is known.
pub(crate) fn next_by<T, B: Reads<T>, W, S: Source<W>>(
    by: B,
    alloc: Global,
    window: &mut Window,
    source: &mut S,
    world: &mut W,
) -> Result<T, NextFault<S::Fault>>
    requires ready { S.ready source.old world.old }
    ensures { NextPromises S.Source (λ x. x) (B.at by) result window.old window.new source.old
        source.new world.old world.new }
{
    loop {
        let front = front_by(by, alloc, window.as_slice());
        match front {
            Ok((value, left)) => {
                window.keep(left);
                return Ok(value);
            }
            Err(ReadError::Memory) => return Err(NextFault::Read(ReadError::Memory)),
            Err(error) => match window.lengthen(alloc, source, world) {
                Ok(true) => {}
                Ok(false) => return Err(NextFault::Read(error)),
                Err(fault) => return Err(NextFault::Source(fault)),
            },
        }
    }
}

/// The value that bytes begin with, and how many bytes are behind it.
fn front_by<T, B: Reads<T>>(by: B, alloc: Global, bytes: &[u8]) -> Result<(T, usize), ReadError>
    ensures read { GivesOrMemory (λ x. (x.0, drop (length bytes.now - x.1) bytes.now)) result
        (B.at by bytes.now) }
    ensures within { IfOk result (λ x. x.1 ≤ length bytes.now) }
{
    let (value, rest) = by.read(alloc, bytes)?;
    Ok((value, rest.len()))
}

/// Whether nothing is ahead: neither in the window, nor of the source, which is asked for more
/// where the window has nothing.
pub fn is_at_end<W, S: Source<W>>(
    alloc: Global,
    window: &mut Window,
    source: &mut S,
    world: &mut W,
) -> Result<bool, NextFault<S::Fault>>
    requires ready { S.ready source.old world.old }
    ensures { NextPromises S.Source (λ x. x) end_at result window.old window.new source.old
        source.new world.old world.new }
{
    if !window.is_empty() {
        return Ok(false);
    }
    match window.lengthen(alloc, source, world) {
        Ok(came) => Ok(!came),
        Err(fault) => Err(NextFault::Source(fault)),
    }
}
