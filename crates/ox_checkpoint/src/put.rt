//! The body of a checkpoint, put behind bytes.

ghost use Rattle.std.specs.Prelude.{◌≡◌, ◌++◌, ℕ, List, OnOk, IfErr};
ghost use Rattle.std.specs.FinMap.{entries};
ghost use Rattle.ox_model.specs.Ends.{AllEnd};
ghost use Rattle.ox_index.specs.Live.{index_in, profile_in};
ghost use Rattle.ox_rows.specs.Fits.{FitsList, FitsSats, IsHash};
ghost use Rattle.ox_rows.specs.RowFits.{FitsIndex, FitsOutput};
ghost use Rattle.ox_rows.specs.RowSpelling.{index_rows, output};
ghost use Rattle.ox_rows.specs.Spelling.{hash, list, sats};
ghost use Rattle.ox_files.specs.Body.{FitsBody, body_of, body_rows};
ghost use Rattle.ox_checkpoint.specs.Putting.{Ended, Puts};

mod buffer;
mod changes;
mod held;
mod lost;
mod outputs;
mod rows;

pub use buffer::PutFault;
use buffer::{Buffer, put_list_of};
use changes::Kept;
use held::put_balances;
use lost::put_lost;
use outputs::Outputs;
use ox_bytes::Bytes;
use ox_gated::Sink;
use ox_index::{Changes, Live};
use ox_outputs::InOrder;
use rows::{Hashes, Inscriptions, Runes};
use std::alloc::Global;

/// Puts the body of a checkpoint into a sink: the rows of the index in memory, how many changes are
/// kept, in 4 bytes, and the rows of each, the newest first. These changes have to lead down from
/// the index, as those of a chain do. Rows go through a buffer: behind one, once there is 1 MiB,
/// the sink takes them, and at the end it takes the rest. Beside that, 1 MiB and the longest row,
/// it takes the order of the outputs, 16 bytes for each.
///
/// `Memory` where there is none for these, and where a list has 2^32 items or more: what the sink
/// took before stays. `Sink` where the sink ends, by what it ends by.
#[tactic(auto, unfolding(ox_files::specs::Body::body_rows))]
pub fn put_body<W, K: Sink<W>>(
    alloc: Global,
    sink: &mut K,
    world: &mut W,
    live: &Live,
    changes: &Changes,
) -> Result<(), PutFault<K::Fault>>
    requires taken { (bytes : List ℕ) × K.holds sink.old world.old bytes }
    requires end { AllEnd (profile_in live.now) (index_in live.now) changes.now.kept }
    // They are the rows of this body.
    ensures ok { (bytes : List ℕ) → K.holds sink.old world.old bytes
        → OnOk result (K.holds sink.new world.new
        (bytes ++ body_rows (body_of (index_in live.now) changes.now.kept))) }
    // It has a spelling, so it is read from these rows again.
    ensures fits { OnOk result (FitsBody (body_of (index_in live.now) changes.now.kept)) }
    ensures went { OnOk result (K.went sink.old world.old sink.new world.new) }
    ensures ended { IfErr result (λ fault.
        Ended K.went K.ended sink.old world.old fault sink.new world.new) }
{
    let mut buffer = Buffer {
        alloc,
        rows: Bytes::empty(alloc),
    };
    put_live(sink, world, &mut buffer, live)?;
    put_list_of(sink, world, &mut buffer, &Kept(changes))?;
    match sink.take(world, buffer.rows.as_slice()) {
        Ok(()) => Ok(()),
        Err(fault) => Err(PutFault::Sink(fault)),
    }
}

/// Puts the rows of the index in memory, list by list as they are spelled.
#[tactic(auto, unfolding(ox_rows::specs::RowSpelling::index_rows))]
fn put_live<W, K: Sink<W>>(
    sink: &mut K,
    world: &mut W,
    buffer: &mut Buffer,
    live: &Live,
) -> Result<(), PutFault<K::Fault>>
    requires { (bytes : List ℕ) × K.holds sink.old world.old bytes }
    ensures put { OnOk result
        (Puts K.holds K.went (index_rows (index_in live.now))
        sink.old world.old buffer.old.rows sink.new world.new buffer.new.rows) }
    ensures fits { OnOk result (FitsIndex (index_in live.now)) }
    ensures ended { IfErr result (λ fault.
        Ended K.went K.ended sink.old world.old fault sink.new world.new) }
{
    let order = live.in_order()?;
    put_outputs(sink, world, buffer, live, &order)?;
    put_list_of(sink, world, buffer, &Inscriptions(live))?;
    put_balances(sink, world, buffer, live, &order)?;
    put_list_of(sink, world, buffer, &Runes(live))
}

/// Puts the blocks' hashes, the outputs in their order, and the satoshis that none of them holds.
fn put_outputs<W, K: Sink<W>>(
    sink: &mut K,
    world: &mut W,
    buffer: &mut Buffer,
    live: &Live,
    order: &InOrder<'_>,
) -> Result<(), PutFault<K::Fault>>
    requires taken { (bytes : List ℕ) × K.holds sink.old world.old bytes }
    requires order { order.now ≡ entries (index_in live.now).outs }
    ensures put { let index = index_in live.now in OnOk result
        (Puts K.holds K.went
        (list hash index.hashes ++ list output (entries index.outs) ++ sats index.lost)
        sink.old world.old buffer.old.rows sink.new world.new buffer.new.rows) }
    ensures hashes { OnOk result (FitsList IsHash (index_in live.now).hashes) }
    ensures outputs { OnOk result (FitsList FitsOutput (entries (index_in live.now).outs)) }
    ensures lost { OnOk result (FitsSats (index_in live.now).lost) }
    ensures ended { IfErr result (λ fault.
        Ended K.went K.ended sink.old world.old fault sink.new world.new) }
{
    put_list_of(sink, world, buffer, &Hashes(live.hashes()))?;
    put_list_of(sink, world, buffer, &Outputs(order))?;
    put_lost(sink, world, buffer, live)
}
