//! Reading ahead. The ids of inscriptions are spread over all of memory, and the witnesses of a
//! block were read some time ago: one look-up after the other would wait for each. So before a
//! block's envelopes are looked for, a little is read of each place that they will ask for: nothing
//! there waits for what another place says, so that the processor fetches many side by side, and
//! has them still at hand when they are asked for.

use ox_block::{Tx, Txid};
use ox_envelope::InsId;
use ox_rules::MovedTx;
use ox_shards::Shards;

/// Reads a little of the witnesses of these transactions, and of what leads to the ids of what they
/// may reveal, which those without a witness don't. What it answers says nothing.
pub(crate) fn read_ahead(ids: &Shards<InsId, u32>, txs: &[Tx], moved: &[MovedTx]) -> u32 {
    let mut sum = 0u32;
    for (tx, did) in txs.iter().zip(moved) {
        for input in tx.inputs.as_slice() {
            if let Some(item) = input.witness.last() {
                let byte = item.first().copied().unwrap_or(0);
                sum = sum.wrapping_add(u32::from(byte));
                sum = sum.wrapping_add(ids.glance(&first_of(did.txid)));
            }
        }
    }
    sum
}

/// The id of the first inscription that a transaction may reveal.
fn first_of(txid: Txid) -> InsId {
    let Txid(txid) = txid;
    InsId { txid, index: 0 }
}
