//! The ids of a block's transactions, hashed once for all that needs them.

ghost use Rattle.std.specs.Prelude.{◌≡◌, map, IfOk};
ghost use Rattle.ox_block.specs.Hashes.{txid};

use crate::block::{Block, Tx};
use crate::hashing::txid_in;
use ox_bytes::{List, Memory};
use std::alloc::Global;

/// The ids of a block's transactions, in order. Contracts see the list of their bytes, which stand
/// in serialized order.
pub type Txids = List<[u8; 32]>;

fn ids_of(alloc: Global, txs: &[Tx]) -> Result<Vec<[u8; 32]>, Memory>
    ensures { IfOk result (λ ids. ids.items ≡ map txid txs.now) }
{
    let mut ids = Vec::with_capacity(alloc, txs.len())?;
    let mut form = Vec::new(alloc);
    for tx in txs {
        ids.push(txid_in(&mut form, tx)?.0)?;
    }
    Ok(ids)
}

/// The ids of a block's transactions, in order. Each transaction is hashed once. `Memory` where
/// there is none for them.
pub fn txids_of(alloc: Global, block: &Block) -> Result<Txids, Memory>
    ensures { IfOk result (λ ids. ids ≡ map txid block.now.txs) }
{
    let ids = ids_of(alloc, block.txs.as_slice())?;
    Ok(Txids::from_vec(ids))
}
