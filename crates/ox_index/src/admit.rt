//! The tests of a block that come before any satoshi moves.

ghost use Rattle.std.specs.Prelude.{◌≡◌, ◌<◌, ◌≤◌, length, map, position, IfSome, Ok, IfOk, IfErr};
ghost use Rattle.std.specs.Prelude.{OnOk};
ghost use Rattle.ox_block.specs.Hashes.{txid};
ghost use Rattle.ox_block.specs.Coinbase.{is_null as names_none, is_coinbase as is_only_null};
ghost use Rattle.ox_block.specs.Coinbase.{has_null as names_none_somewhere};
ghost use Rattle.ox_block.specs.Spelling.{Lawful};
ghost use Rattle.ox_rules.specs.Newest.{newest_of};
ghost use Rattle.ox_model.specs.Step.{misplaced_coinbase as first_misplaced, admission};
ghost use Rattle.ox_model.specs.Step.{lacks_commitment as lacks};
ghost use Rattle.ox_rules.specs.Why.{Refuses};
ghost use Rattle.ox_index.specs.Admit.{IsNext};

use ox_block::{Block, Tx, TxIn, Txids, committed_by, root_over, txids_of};
use ox_bytes::Memory;
use ox_model::Refusal;
use ox_rules::Why;
use ox_sat::Profile;
use std::alloc::Global;

/// What the next block has to name as the one before it: the newest block's hash, or 32 zero bytes
/// on an empty chain.
fn newest(hashes: &[[u8; 32]]) -> [u8; 32]
    ensures { result ≡ newest_of hashes.now }
{
    match hashes.last() {
        Some(hash) => *hash,
        None => [0; 32],
    }
}

/// Whether an input names no output.
fn is_null(input: &TxIn) -> bool
    ensures { result ≡ names_none input.now }
{
    input.from.txid.0 == [0; 32] && input.from.index == u32::MAX
}

/// Whether one of a transaction's inputs names no output.
fn has_null(tx: &Tx) -> bool
    ensures { result ≡ names_none_somewhere tx.now }
{
    tx.inputs.as_slice().iter().any(|input| is_null(input))
}

/// Whether a transaction has one input, and it names no output.
fn is_coinbase(tx: &Tx) -> bool
    ensures { result ≡ is_only_null tx.now }
{
    tx.inputs.len() == 1 && has_null(tx)
}

/// The place of the first transaction that has an input which names no output.
fn first_null(txs: &[Tx]) -> Option<usize>
    ensures { result ≡ position names_none_somewhere txs.now }
{
    txs.iter().position(|tx| has_null(tx))
}

/// The first transaction that is a coinbase and mustn't be one, or isn't and must.
fn misplaced_coinbase(txs: &[Tx]) -> Option<usize>
    ensures first { result ≡ first_misplaced txs.now }
    ensures within { IfSome result (λ place. place ≤ length txs.now) }
{
    match txs.split_first() {
        Some((coinbase, txs)) if is_coinbase(coinbase) => Some(first_null(txs)? + 1),
        _ => Some(0),
    }
}

/// Whether a block at a height of which the profile asks for a commitment to witnesses isn't
/// committed to its own. These are the ids of its transactions.
fn lacks_commitment(
    alloc: Global,
    p: &Profile,
    height: u64,
    block: &Block,
    ids: &Txids,
) -> Result<bool, Memory>
    requires some { 0 < length block.now.txs }
    requires ids { ids.now ≡ map txid block.now.txs }
    ensures { IfOk result (λ fails. fails ≡ lacks p.now height block.now) }
{
    if height < p.commitment {
        return Ok(false);
    }
    Ok(!committed_by(alloc, block, ids)?)
}

/// Tests a block that is to stand on this chain, before any of its satoshis move: its height, the
/// block that it names before it, its root, where coinbases stand, and, from the profile's height
/// on, the commitment to its witnesses. It answers the ids of the block's transactions, in order,
/// of which the root is made. `Memory` where there is none for the ids or a root.
pub fn admit(alloc: Global, p: &Profile, hashes: &[[u8; 32]], block: &Block) -> Result<Txids, Why>
    requires lawful { Lawful block.now }
    ensures ok { OnOk result (admission p.now hashes.now block.now ≡ Ok tt) }
    ensures ids { IfOk result (λ ids. ids ≡ map txid block.now.txs) }
    ensures refused { IfErr result (λ fault. Refuses fault (admission p.now hashes.now block.now)) }
{
    test_place(p, hashes, block)?;
    let ids = txids_of(alloc, block)?;
    test_txs(alloc, p, hashes, block, &ids)?;
    Ok(ids)
}

/// Tests the height of a block that is to stand on this chain, and the block that it names before
/// it.
fn test_place(p: &Profile, hashes: &[[u8; 32]], block: &Block) -> Result<(), Why>
    ensures ok { OnOk result (IsNext p.now hashes.now block.now) }
    ensures refused { IfErr result (λ fault. Refuses fault (admission p.now hashes.now block.now)) }
{
    let height = hashes.len() as u64;
    if height > p.last {
        return Err(Why::Refused(Refusal::ChainEnd { height }));
    }
    let have = block.header.previous;
    let want = newest(hashes);
    if have != want {
        return Err(Why::Refused(Refusal::Unlinked { have, want }));
    }
    Ok(())
}

/// Tests the transactions of a block that may come next on this chain, of which these are the ids:
/// their root, where coinbases stand, and the commitment to witnesses. `Memory` where there is none
/// for a root.
#[tactic(auto, unfolding(ox_block::specs::Hashes::block_root))]
fn test_txs(
    alloc: Global,
    p: &Profile,
    hashes: &[[u8; 32]],
    block: &Block,
    ids: &Txids,
) -> Result<(), Why>
    requires lawful { Lawful block.now }
    requires next { IsNext p.now hashes.now block.now }
    requires ids { ids.now ≡ map txid block.now.txs }
    ensures ok { OnOk result (admission p.now hashes.now block.now ≡ Ok tt) }
    ensures refused { IfErr result (λ fault. Refuses fault (admission p.now hashes.now block.now)) }
{
    let have = block.header.root;
    let want = root_over(alloc, ids)?;
    if have != want {
        return Err(Why::Refused(Refusal::BadRoot { have, want }));
    }
    if let Some(tx) = misplaced_coinbase(block.txs.as_slice()) {
        return Err(Why::Refused(Refusal::Coinbase { tx: tx as u32 }));
    }
    if lacks_commitment(alloc, p, hashes.len() as u64, block, ids)? {
        return Err(Why::Refused(Refusal::BadWitness));
    }
    Ok(())
}
