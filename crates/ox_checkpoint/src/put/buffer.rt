//! Rows that come into a sink through a buffer.

ghost use Rattle.std.specs.Prelude.{◌≡◌, ◌<◌, ℕ, List, [], ◌++◌, length, slice_get, Some};
ghost use Rattle.std.specs.Prelude.{OnOk, IfErr};
ghost use Rattle.std.specs.List.{All, flat_map};
ghost use Rattle.ox_rows.specs.Fits.{FitsList};
ghost use Rattle.ox_rows.specs.Spelling.{list};
ghost use Rattle.ox_checkpoint.specs.Putting.{Ended, Puts};

use ox_bytes::{Bytes, Memory};
use ox_gated::Sink;
use ox_rows::put_count;
use std::alloc::Global;
use std::mem;

/// Why a body wasn't put whole.
#[derive(Clone, Copy, Debug, PartialEq, Eq)]
pub enum PutFault<F> {
    /// There was no memory for its rows, or a list has more items than 4 bytes can count.
    Memory,
    /// What the sink ended by.
    Sink(F),
}

impl<F> From<Memory> for PutFault<F> {
    ghost use Rattle.ox_checkpoint.specs.declared.put.buffer.PutFault.TheVariants as faults;

    ghost from_gives = { λ _ e. e ≡ faults.Memory };

    fn from(_memory: Memory) -> PutFault<F> {
        PutFault::Memory
    }
}

/// How many bytes the sink takes at once, at the least, but for the last ones.
const PIECE: usize = 0x10_0000;

/// Rows that wait for a sink. Its room grows to a piece and the longest row.
#[derive(Drop)]
pub(crate) struct Buffer {
    pub(crate) alloc: Global,
    pub(crate) rows: Bytes,
}

/// Rows that are put one by one, each from where it is in memory.
pub(crate) trait Rows {
    ghost Item: { Type 0 };

    /// What there are rows of.
    ghost items: { Self → List Item };

    /// The row of one.
    ghost spelling: { Self → Item → List ℕ };

    /// Its row can be read again.
    ghost fits: { Self → Item → Type 0 };

    /// They keep to the form where their type doesn't say so.
    ghost keeps: { Self → Type 0 };

    /// How many there are.
    fn len(&self) -> usize
        ensures { result ≡ length (items self.now) };

    /// Puts the row at this place, from 0 on, behind bytes. `Memory` where there is none, and
    /// where a list in it has more items than 4 bytes can count.
    fn put_row(&self, n: usize, bytes: &mut Bytes) -> Result<(), Memory>
        requires within { n < length (items self.now) }
        requires keeps { keeps self.now }
        ensures ok { (item : Item) → slice_get (items self.now) n ≡ Some item
            → OnOk result (bytes.new ≡ bytes.old ++ spelling self.now item) }
        ensures fits { (item : Item) → slice_get (items self.now) n ≡ Some item
            → OnOk result (fits self.now item) };
}

/// Puts a list: how many rows there are in 4 bytes, and each of them.
pub(super) fn put_list_of<W, K: Sink<W>, R: Rows>(
    sink: &mut K,
    world: &mut W,
    buffer: &mut Buffer,
    rows: &R,
) -> Result<(), PutFault<K::Fault>>
    requires taken { (bytes : List ℕ) × K.holds sink.old world.old bytes }
    requires keeps { R.keeps rows.now }
    ensures put { OnOk result
        (Puts K.holds K.went (list (R.spelling rows.now) (R.items rows.now))
        sink.old world.old buffer.old.rows sink.new world.new buffer.new.rows) }
    ensures fits { OnOk result (FitsList (R.fits rows.now) (R.items rows.now)) }
    ensures ended { IfErr result (λ fault.
        Ended K.went K.ended sink.old world.old fault sink.new world.new) }
{
    put_count(&mut buffer.rows, rows.len())?;
    put_rows(sink, world, buffer, rows)
}

/// Puts each row, without a count.
pub(super) fn put_rows<W, K: Sink<W>, R: Rows>(
    sink: &mut K,
    world: &mut W,
    buffer: &mut Buffer,
    rows: &R,
) -> Result<(), PutFault<K::Fault>>
    requires taken { (bytes : List ℕ) × K.holds sink.old world.old bytes }
    requires keeps { R.keeps rows.now }
    ensures put { OnOk result
        (Puts K.holds K.went (flat_map (R.spelling rows.now) (R.items rows.now))
        sink.old world.old buffer.old.rows sink.new world.new buffer.new.rows) }
    ensures fits { OnOk result (All (R.fits rows.now) (R.items rows.now)) }
    ensures ended { IfErr result (λ fault.
        Ended K.went K.ended sink.old world.old fault sink.new world.new) }
{
    for n in 0..rows.len() {
        put_next(sink, world, buffer, rows, n)?;
    }
    Ok(())
}

/// Puts the row at this place.
fn put_next<W, K: Sink<W>, R: Rows>(
    sink: &mut K,
    world: &mut W,
    buffer: &mut Buffer,
    rows: &R,
    n: usize,
) -> Result<(), PutFault<K::Fault>>
    requires taken { (bytes : List ℕ) × K.holds sink.old world.old bytes }
    requires within { n < length (R.items rows.now) }
    requires keeps { R.keeps rows.now }
    ensures put { (item : R.Item) → slice_get (R.items rows.now) n ≡ Some item
        → OnOk result (Puts K.holds K.went (R.spelling rows.now item)
        sink.old world.old buffer.old.rows sink.new world.new buffer.new.rows) }
    ensures fits { (item : R.Item) → slice_get (R.items rows.now) n ≡ Some item
        → OnOk result (R.fits rows.now item) }
    ensures ended { IfErr result (λ fault.
        Ended K.went K.ended sink.old world.old fault sink.new world.new) }
{
    rows.put_row(n, &mut buffer.rows)?;
    pass_on(sink, world, buffer)
}

/// Hands the rows that wait to the sink, once they are a piece.
fn pass_on<W, K: Sink<W>>(
    sink: &mut K,
    world: &mut W,
    buffer: &mut Buffer,
) -> Result<(), PutFault<K::Fault>>
    requires { (bytes : List ℕ) × K.holds sink.old world.old bytes }
    ensures put { OnOk result
        (Puts K.holds K.went []
        sink.old world.old buffer.old.rows sink.new world.new buffer.new.rows) }
    ensures ended { IfErr result (λ fault.
        Ended K.went K.ended sink.old world.old fault sink.new world.new) }
{
    if buffer.rows.len() < PIECE {
        return Ok(());
    }
    match sink.take(world, buffer.rows.as_slice()) {
        Ok(()) => {
            let rows = mem::replace(&mut buffer.rows, Bytes::empty(buffer.alloc));
            buffer.rows = emptied(rows);
            Ok(())
        }
        Err(fault) => Err(PutFault::Sink(fault)),
    }
}

/// The same room, without bytes.
fn emptied(rows: Bytes) -> Bytes
    ensures { result ≡ [] }
{
    let mut items = rows.into_vec();
    items.clear();
    Bytes::from_vec(items)
}
