//! The transactions other than the coinbase.

ghost use Rattle.std.specs.Prelude.{◌≡◌, ◌≤◌, ◌^◌, ◌++◌, [], length, map, IfOk, OnOk};
ghost use Rattle.std.specs.List.{All};
ghost use Rattle.ox_block.specs.Hashes.{txid};
ghost use Rattle.ox_block.specs.Spelling.{most_bytes};
ghost use Rattle.ox_rules.specs.Transfer.{spend, spend_all};
ghost use Rattle.ox_transfer.specs.Answer.{Answers};
ghost use Rattle.ox_transfer.specs.Apart.{Apart};
ghost use Rattle.ox_transfer.specs.Counts.{Counted};
ghost use Rattle.ox_transfer.specs.Parts.{spent_of, all_behind};

use crate::deal::deal_out;
use crate::place::place_outputs;
use crate::so_far::MovedSoFar;
use crate::take::take_inputs;
use ox_block::{Tx, Txid};
use ox_range::Ranges;
use ox_rules::{DisplacedRows, MovedTx, OutTable, Refusal, Why, value_sum};
use std::alloc::Global;

/// A transaction at a place of the block other than the coinbase's, with its id.
fn spend_tx<O: OutTable>(
    table: &mut O,
    place: u32,
    tx: &Tx,
    id: Txid,
    so_far: &mut MovedSoFar,
) -> Result<(), Why>
    requires id { id.0 ≡ txid tx.now }
    requires counted { Counted tx.now }
    requires apart { Apart (2 ^ 63) (O.contents table.old) (so_far.old.lost ++ so_far.old.fees) }
    ensures spent { Answers (λ _. spent_of so_far.new (O.contents table.new)) result
        (all_behind (spent_of so_far.old (O.contents table.old))
        (spend so_far.old.height place tx.now (O.contents table.old))) }
    ensures apart { OnOk result
        (Apart (2 ^ 63) (O.contents table.new) (so_far.new.lost ++ so_far.new.fees)) }
    ensures height { OnOk result (so_far.new.height ≡ so_far.old.height) }
    ensures mark { O.marked table.new ≡ O.marked table.old }
{
    let taken = take_inputs(so_far.alloc, table, place, tx.inputs.as_slice())?;
    let outputs = tx.outputs.as_slice();
    let total = value_sum(outputs);
    let held = taken.sats.len();
    if held < total {
        return Err(Why::Refused(Refusal::Overspend {
            tx: place,
            inputs: held,
            outputs: total,
        }));
    }
    let joined = taken.sats.copy(so_far.alloc)?;
    let rest = deal_out(taken.sats, outputs, total, &mut so_far.parts)?;
    let displaced = place_outputs(table, id, outputs, so_far)?;
    so_far.fees.join(&rest)?;
    so_far.moved.push(MovedTx {
        txid: id,
        spent: taken.rows,
        joined,
        displaced: DisplacedRows::from_vec(displaced),
    })?;
    Ok(())
}

/// The transactions of a block behind its coinbase, in order, with their ids.
pub(crate) fn spend_txs<O: OutTable>(
    alloc: Global,
    table: &mut O,
    height: u32,
    txs: &[Tx],
    ids: &[[u8; 32]],
) -> Result<MovedSoFar, Why>
    requires ids { ids.now ≡ map txid txs.now }
    requires few { length txs.now ≤ most_bytes }
    requires counted { All Counted txs.now }
    requires apart { Apart (2 ^ 63) (O.contents table.old) [] }
    ensures spent { Answers (λ so_far. spent_of so_far (O.contents table.new)) result
        (spend_all height 1 txs.now (O.contents table.old)) }
    ensures height { IfOk result (λ so_far. so_far.height ≡ height) }
    ensures mark { O.marked table.new ≡ O.marked table.old }
{
    let mut so_far = MovedSoFar {
        alloc,
        height,
        // The coinbase's entry has room too.
        moved: Vec::with_capacity(alloc, txs.len() + 1)?,
        lost: Ranges::empty(alloc),
        fees: Ranges::empty(alloc),
        parts: Vec::new(alloc),
    };
    for (index, tx) in txs.iter().enumerate() {
        let id = Txid(ids[index]);
        spend_tx(table, index as u32 + 1, tx, id, &mut so_far)?;
    }
    Ok(so_far)
}
