//! What outputs hold of runes, put from where it is in memory.

ghost use Rattle.std.specs.Prelude.{◌≡◌, ◌≢◌, ◌==◌, ℕ, List, [], ◌++◌, length};
ghost use Rattle.std.specs.Prelude.{OnOk, IfErr, if◌then◌else◌};
ghost use Rattle.std.specs.FinMap.{entries};
ghost use Rattle.std.specs.List.{All, flat_map};
ghost use Rattle.ox_index.specs.Live.{index_in};
ghost use Rattle.ox_rows.specs.Fits.{FitsList};
ghost use Rattle.ox_rows.specs.RowFits.{AreHeld, FitsPlacement};
ghost use Rattle.ox_rows.specs.RowSpelling.{placement};
ghost use Rattle.ox_rows.specs.Spelling.{list};
ghost use Rattle.ox_checkpoint.specs.Held.{held_by, placed_at};
ghost use Rattle.ox_checkpoint.specs.Putting.{Ended, Puts};

use super::buffer::{Buffer, PutFault, Rows, put_rows};
use ox_block::OutPoint;
use ox_bytes::{Bytes, Memory};
use ox_gated::Sink;
use ox_index::Live;
use ox_model::View;
use ox_outputs::InOrder;
use ox_rows::{Writable, put_count, put_list};
use ox_runestone::RuneId;

/// Puts what outputs hold of runes, in the order of the unspent ones: how many of them hold any, in
/// 4 bytes, and each of these with what it holds. It looks each output up, and where one holds any
/// each again.
pub(super) fn put_balances<W, K: Sink<W>>(
    sink: &mut K,
    world: &mut W,
    buffer: &mut Buffer,
    live: &Live,
    order: &InOrder<'_>,
) -> Result<(), PutFault<K::Fault>>
    requires taken { (bytes : List ℕ) × K.holds sink.old world.old bytes }
    requires order { order.now ≡ entries (index_in live.now).outs }
    ensures put { OnOk result
        (Puts K.holds K.went (list placement (entries (index_in live.now).bal))
        sink.old world.old buffer.old.rows sink.new world.new buffer.new.rows) }
    ensures fits { OnOk result (FitsList FitsPlacement (entries (index_in live.now).bal)) }
    ensures ended { IfErr result (λ fault.
        Ended K.went K.ended sink.old world.old fault sink.new world.new) }
{
    let count = count_held(live, order);
    put_count(&mut buffer.rows, count)?;
    if count == 0 {
        return Ok(());
    }
    put_rows(sink, world, buffer, &Held { live, order })
}

/// How many of some outputs hold runes.
fn count_held(live: &Live, order: &InOrder<'_>) -> usize
    ensures { result ≡ length (held_by (index_in live.now).bal order.now) }
{
    let mut count = 0;
    for n in 0..order.len() {
        if let Some((at, _)) = order.get(n) {
            count += count_at(live.balance(at));
        }
    }
    count
}

/// One for an output that holds these runes, and 0 where they are none.
fn count_at(held: &[(RuneId, u128)]) -> usize
    ensures { result ≡ (if length held.now == 0 then 0 else 1) }
{
    if held.is_empty() { 0 } else { 1 }
}

/// What outputs hold of runes, in the order of these.
#[derive(Drop)]
struct Held<'a> {
    live: &'a Live,
    order: &'a InOrder<'a>,
}

impl<'a> Rows for Held<'a> {
    ghost use Rattle.std.specs.List.{All, flat_map};
    ghost use Rattle.ox_block.specs.declared.block.OutPoint.{OutPoint};
    ghost use Rattle.ox_rules.specs.declared.rows.OutRow.{OutRow};
    ghost use Rattle.ox_index.specs.Live.{index_in};
    ghost use Rattle.ox_rows.specs.RowFits.{FitsPlacement};
    ghost use Rattle.ox_rows.specs.RowSpelling.{placement};
    ghost use Rattle.ox_checkpoint.specs.Held.{held_at};

    ghost Item = { OutPoint × OutRow };

    ghost items = { λ h. h.order.now };

    /// An output that holds none has no row.
    ghost spelling = { λ h placed.
        flat_map placement (held_at (index_in h.live.now).bal placed) };

    ghost fits = { λ h placed. All FitsPlacement (held_at (index_in h.live.now).bal placed) };

    ghost keeps = { λ h. Unit {0} };

    fn len(&self) -> usize {
        self.order.len()
    }

    fn put_row(&self, n: usize, bytes: &mut Bytes) -> Result<(), Memory> {
        match self.order.get(n) {
            Some((at, _)) => put_held(bytes, at, self.live.balance(at)),
            None => Ok(()),
        }
    }
}

/// Puts an outpoint and the runes there, if there are any.
fn put_held(bytes: &mut Bytes, at: &OutPoint, held: &[(RuneId, u128)]) -> Result<(), Memory>
    requires { held.now ≢ [] → AreHeld held.now }
    ensures ok { OnOk result
        (bytes.new ≡ bytes.old ++ flat_map placement (placed_at at.now held.now)) }
    ensures fits { OnOk result (All FitsPlacement (placed_at at.now held.now)) }
{
    if held.is_empty() {
        return Ok(());
    }
    at.put(bytes)?;
    put_list(bytes, held)
}
