//! Roots over the ids of a block's transactions.

ghost use Rattle.std.specs.Prelude.{◌≡◌, ◌<◌, length, map, IfOk};
ghost use Rattle.ox_block.specs.Hashes.{next_row, root_of, witness_ids, block_root};
ghost use Rattle.ox_block.specs.Hashes.{block_witness_root};

use crate::block::{Block, Tx};
use crate::hashing::{hash_pair, wtxid_of};
use crate::txids::{Txids, txids_of};
use ox_bytes::Memory;
use std::alloc::Global;

/// The row above a row of hashes.
fn row_above(alloc: Global, row: &[[u8; 32]]) -> Result<Vec<[u8; 32]>, Memory>
    ensures { IfOk result (λ above. above.items ≡ next_row row.now) }
{
    let mut above = Vec::with_capacity(alloc, row.len() / 2 + 1)?;
    let mut rest = row;
    loop {
        match rest {
            [] => return Ok(above),
            [last] => {
                above.push(hash_pair(last, last))?;
                return Ok(above);
            }
            [left, right, after @ ..] => {
                above.push(hash_pair(left, right))?;
                rest = after;
            }
        }
    }
}

/// The root of a row of hashes.
pub(crate) fn root_of_row(alloc: Global, hashes: &[[u8; 32]]) -> Result<[u8; 32], Memory>
    requires { 0 < length hashes.now }
    ensures { IfOk result (λ root. root ≡ root_of hashes.now) }
{
    if hashes.len() == 1 {
        return Ok(hashes[0]);
    }
    let mut row = row_above(alloc, hashes)?;
    'rows: while row.len() > 1 {
        row = row_above(alloc, &row)?;
    }
    Ok(row[0])
}

/// The ids over the whole forms, 32 zero bytes for the first transaction.
fn wtxids(alloc: Global, txs: &[Tx]) -> Result<Vec<[u8; 32]>, Memory>
    ensures { IfOk result (λ ids. ids.items ≡ witness_ids txs.now) }
{
    let mut ids = Vec::new(alloc);
    let [_coinbase, others @ ..] = txs else {
        return Ok(ids);
    };
    ids.push([0; 32])?;
    for tx in others {
        ids.push(wtxid_of(tx).0)?;
    }
    Ok(ids)
}

/// The root of transactions' ids, of which there is at least one: hashes in a row are paired and
/// hashed by SHA-256 twice, an odd last one with itself, until one is left. `Memory` where there is
/// none for the rows above the ids.
pub fn root_over(alloc: Global, ids: &Txids) -> Result<[u8; 32], Memory>
    requires { 0 < length ids.now }
    ensures { IfOk result (λ root. root ≡ root_of ids.now) }
{
    root_of_row(alloc, ids.as_slice())
}

/// The root of the ids of a block's transactions, as `root_over` makes it. The block has at least
/// one transaction. `Memory` where there is none for the row of ids.
#[tactic(auto, unfolding(crate::specs::Hashes::block_root))]
pub fn root(alloc: Global, block: &Block) -> Result<[u8; 32], Memory>
    requires { 0 < length block.now.txs }
    ensures { IfOk result (λ root. root ≡ block_root block.now) }
{
    let ids = txids_of(alloc, block)?;
    root_over(alloc, &ids)
}

/// The root of the ids over the whole forms (BIP 141), the coinbase's counting as 32 zero bytes.
/// The block has at least one transaction. `Memory` where there is none for the row of ids.
#[tactic(auto, unfolding(crate::specs::Hashes::block_witness_root))]
pub fn witness_root(alloc: Global, block: &Block) -> Result<[u8; 32], Memory>
    requires { 0 < length block.now.txs }
    ensures { IfOk result (λ root. root ≡ block_witness_root block.now) }
{
    let ids = wtxids(alloc, block.txs.as_slice())?;
    root_of_row(alloc, &ids)
}
