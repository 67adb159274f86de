//! A window on bytes that come piece by piece.

ghost use Rattle.std.specs.Prelude.{◌≡◌, ◌==◌, ◌≤◌, ◌-◌, ℕ, List, [], length, drop};
ghost use Rattle.ox_rows.specs.Promises.{LengthenPromises};

use crate::source::Source;
use ox_bytes::Bytes;
use std::alloc::Global;
use std::marker::Model;
use std::mem;

/// Bytes that came and weren't read yet. Contracts see the list of them. What was read goes from
/// memory once more is asked for, and not with each row.
#[derive(Drop)]
pub struct Window {
    bytes: Bytes,
    /// Where those begin that weren't read yet.
    place: usize,
}

impl Model for Window {
    ghost use Rattle.std.specs.Prelude.{List, ℕ, ◌≤◌, drop, length};

    ghost Value = { List ℕ };

    ghost view = { λ w. drop w.place w.bytes };

    ghost invariant = { λ w. w.place ≤ length w.bytes };
}

impl Window {
    /// No bytes.
    pub fn new(alloc: Global) -> Window
        ensures { result ≡ [] }
    {
        Window {
            bytes: Bytes::empty(alloc),
            place: 0,
        }
    }

    /// The bytes, to be read in place.
    pub fn as_slice(&self) -> &[u8]
        ensures { result.now ≡ self.now }
    {
        &self.bytes.as_slice()[self.place..]
    }

    /// Whether there are none.
    pub fn is_empty(&self) -> bool
        ensures { result ≡ (length self.now == 0) }
    {
        self.as_slice().is_empty()
    }

    /// Lets the first bytes go, but for the last ones, so many.
    pub(crate) fn keep(&mut self, left: usize)
        requires { left ≤ length self.old }
        ensures { self.new ≡ drop (length self.old - left) self.old }
    {
        self.place = self.bytes.len() - left;
    }

    /// Asks the source until there are twice as many bytes, or none comes any more; `false` where
    /// none came.
    pub(crate) fn lengthen<W, S: Source<W>>(
        &mut self,
        alloc: Global,
        source: &mut S,
        world: &mut W,
    ) -> Result<bool, S::Fault>
        requires ready { S.ready source.old world.old }
        ensures { LengthenPromises S.Source result self.old self.new source.old source.new
            world.old world.new }
    {
        let mut bytes = mem::replace(self, Window::new(alloc)).into_bytes();
        let came = lengthen(&mut bytes, source, world);
        *self = Window { bytes, place: 0 };
        came
    }

    /// The bytes, moved to the beginning of their room.
    fn into_bytes(self) -> Bytes
        ensures { result ≡ self }
    {
        let Window { bytes, place } = self;
        let mut items = bytes.into_vec();
        items.drain(..place);
        Bytes::from_vec(items)
    }
}

/// Asks the source until there are twice as many bytes, or none comes any more; `false` where none
/// came.
fn lengthen<W, S: Source<W>>(
    bytes: &mut Bytes,
    source: &mut S,
    world: &mut W,
) -> Result<bool, S::Fault>
    requires ready { S.ready source.old world.old }
    ensures { LengthenPromises S.Source result bytes.old bytes.new source.old source.new
        world.old world.new }
{
    let before = bytes.len();
    if !source.more(world, bytes)? {
        return Ok(false);
    }
    while bytes.len() / 2 < before {
        if !source.more(world, bytes)? {
            return Ok(true);
        }
    }
    Ok(true)
}
