//! A block's satoshis.

ghost use Rattle.std.specs.Prelude.{◌≡◌, ◌+◌, ◌++◌, map, Ok, Some, None, IfOk, IfErr, OnOk, OnErr};
ghost use Rattle.ox_sat.specs.Profiles.{IsProfile};
ghost use Rattle.ox_sat.specs.Heights.{first_at};
ghost use Rattle.ox_block.specs.Hashes.{txid};
ghost use Rattle.ox_block.specs.Spelling.{Lawful};
ghost use Rattle.ox_rules.specs.Transfer.{claim, transfer_of};
ghost use Rattle.ox_rules.specs.Why.{Refuses};
ghost use Rattle.ox_transfer.specs.Answer.{Answers};
ghost use Rattle.ox_transfer.specs.Apart.{HoldsOnce, Apart};
ghost use Rattle.ox_transfer.specs.Counts.{Counted};
ghost use Rattle.ox_transfer.specs.Parts.{spent_of, transferred_of};

use crate::deal::deal_out;
use crate::place::place_outputs;
use crate::so_far::MovedSoFar;
use crate::spend::spend_txs;
use ox_block::{Block, Tx, Txid, Txids};
use ox_range::Ranges;
use ox_rules::{
    DisplacedRows, Moved, MovedTx, MovedTxs, OutTable, Refusal, SpentRows, Why, value_sum,
};
use ox_sat::{Profile, first, subsidy};
use std::alloc::Global;

/// The coinbase, with its id, which claims the subsidy's satoshis and then the fees.
fn claim_all<O: OutTable>(
    table: &mut O,
    p: &Profile,
    coinbase: &Tx,
    id: Txid,
    mut so_far: MovedSoFar,
) -> Result<Moved, Why>
    requires known { IsProfile p.now }
    requires id { id.0 ≡ txid coinbase.now }
    requires counted { Counted coinbase.now }
    requires apart { Apart (first_at p.now so_far.height) (O.contents table.old)
        (so_far.lost ++ so_far.fees) }
    ensures claimed { Answers (λ moved. transferred_of moved (O.contents table.new)) result
        (claim p.now so_far.height coinbase.now (spent_of so_far (O.contents table.old))) }
    ensures mark { O.marked table.new ≡ O.marked table.old }
{
    let alloc = so_far.alloc;
    let height = so_far.height as u64;
    let outputs = coinbase.outputs.as_slice();
    let total = value_sum(outputs);
    let mut sats = Ranges::one(alloc, first(p, height), subsidy(p, height))?;
    sats.join(&so_far.fees)?;
    let claimable = sats.len();
    if claimable < total {
        return Err(Why::Refused(Refusal::Overclaim {
            claimable,
            claimed: total,
        }));
    }
    let rest = deal_out(sats, outputs, total, &mut so_far.parts)?;
    let displaced = place_outputs(table, id, outputs, &mut so_far)?;
    so_far.lost.join(&rest)?;
    let entry = MovedTx {
        txid: id,
        spent: SpentRows::new(alloc),
        joined: Ranges::empty(alloc),
        displaced: DisplacedRows::from_vec(displaced),
    };
    so_far.moved.insert(0, entry)?;
    Ok(Moved {
        txs: MovedTxs::from_vec(so_far.moved),
        lost: so_far.lost,
    })
}

/// Moves a block's satoshis in the table, which holds a part of it after an error.
fn transfer_txs<O: OutTable>(
    alloc: Global,
    table: &mut O,
    p: &Profile,
    block: &Block,
    ids: &Txids,
    height: u32,
) -> Result<Moved, Why>
    requires known { IsProfile p.now }
    requires lawful { Lawful block.now }
    requires ids { ids.now ≡ map txid block.now.txs }
    requires once { HoldsOnce (first_at p.now height) (O.contents table.old) }
    ensures moved { Answers (λ moved. transferred_of moved (O.contents table.new)) result
        (transfer_of p.now height block.now.txs (O.contents table.old)) }
    ensures mark { O.marked table.new ≡ O.marked table.old }
{
    let Some((coinbase, txs)) = block.txs.as_slice().split_first() else {
        unreachable!()
    };
    let Some((id, ids)) = ids.as_slice().split_first() else {
        unreachable!()
    };
    let so_far = spend_txs(alloc, table, height, txs, ids)?;
    claim_all(table, p, coinbase, Txid(*id), so_far)
}

/// Moves the satoshis of a block that stands at this height, first-in first-out (BIP draft "Ordinal
/// Numbers"; Ordinal Theory Handbook, "Overview"), and answers what each transaction did and which
/// satoshis are lost.
///
/// Each transaction's inputs take their rows out of the table, whose satoshis, joined in input
/// order, go to its outputs in order; what is left over is fee. The coinbase comes last: the
/// subsidy's satoshis and then the fees go to its outputs, and what is left over is lost. An output
/// at whose outpoint a row still stands displaces it, and that row's satoshis are lost at that
/// moment.
///
/// `ids` are the ids of the block's transactions, in order, so that none is hashed again.
///
/// The lists of the table's rows, joined, may hold no number twice, and none from the first satoshi
/// of the height up.
///
/// It sets the table's mark first. `Refused` with the first cause in block order: `UnknownOutput`
/// at an input whose output isn't there, `Overspend` where a transaction's outputs have more
/// satoshis than its inputs, and, after all other transactions, `Overclaim` where the coinbase's
/// outputs have more than subsidy and fees. `Memory` where there is none. The table is as before
/// then, without a mark. After Ok it goes back by its `cancel`, and its rows are as the next
/// height's block needs them.
///
/// It costs one look-up an input and one insertion an output, and otherwise grows by the runs of
/// satoshis that move.
pub fn transfer<O: OutTable>(
    alloc: Global,
    table: &mut O,
    p: &Profile,
    block: &Block,
    ids: &Txids,
    height: u32,
) -> Result<Moved, Why>
    requires known { IsProfile p.now }
    requires lawful { Lawful block.now }
    // The ids are those of the block's transactions, in order.
    requires ids { ids.now ≡ map txid block.now.txs }
    requires once { HoldsOnce (first_at p.now height) (O.contents table.old) }
    ensures moved { IfOk result
        (λ moved. transfer_of p.now height block.now.txs (O.contents table.old)
        ≡ Ok (transferred_of moved (O.contents table.new))) }
    ensures refused { IfErr result
        (λ fault. Refuses fault (transfer_of p.now height block.now.txs (O.contents table.old))) }
    ensures err { OnErr result (O.contents table.new ≡ O.contents table.old) }
    ensures mark { OnOk result (O.marked table.new ≡ Some (O.contents table.old)) }
    ensures no_mark { OnErr result (O.marked table.new ≡ None) }
    // So the next block's transfer may be called.
    ensures kept { OnOk result (HoldsOnce (first_at p.now (height + 1)) (O.contents table.new)) }
{
    table.begin()?;
    match transfer_txs(alloc, table, p, block, ids, height) {
        Ok(moved) => Ok(moved),
        Err(fault) => {
            table.cancel();
            Err(fault)
        }
    }
}
