//! Reading ahead. Outputs that hold runes are spread over all of memory, and one look-up after the
//! other would wait for each of its places: the list of a shard, its tags, and the entry. So what
//! some transactions will ask for is read before, a little of each place: nothing there waits for
//! what another outpoint's places say, so that the processor fetches many side by side, and has
//! them still at hand when they are asked for.

use crate::holders::Holders;
use ox_allocation::Balances;
use ox_block::{OutPoint, Tx, TxIn, Txid};
use ox_rules::MovedTx;

/// Reads what leads to the outputs that these transactions spend and make, and then the entries of
/// those that they spend. Where these are is found out only when all that leads to them is on its
/// way. What it answers says nothing.
pub(crate) fn read_ahead(holders: &Holders, txs: &[Tx], moved: &[MovedTx]) -> u32 {
    let lists = read_lists(holders, txs, moved);
    lists.wrapping_add(read_entries(holders, txs))
}

/// Reads what leads to the outputs that these transactions spend and make.
fn read_lists(holders: &Holders, txs: &[Tx], moved: &[MovedTx]) -> u32 {
    let mut sum = 0u32;
    for (tx, did) in txs.iter().zip(moved) {
        let spent = spent_lists(holders, tx.inputs.as_slice());
        let made = made_lists(holders, did.txid, tx.outputs.len());
        sum = sum.wrapping_add(spent).wrapping_add(made);
    }
    sum
}

/// Reads what leads to the outputs that these inputs spend.
fn spent_lists(holders: &Holders, inputs: &[TxIn]) -> u32 {
    let mut sum = 0u32;
    for input in inputs {
        sum = sum.wrapping_add(holders.glance(&input.from));
    }
    sum
}

/// Reads what leads to the first so many outputs of a transaction.
fn made_lists(holders: &Holders, txid: Txid, count: usize) -> u32 {
    let mut sum = 0u32;
    let mut at = OutPoint { txid, index: 0 };
    for _ in 0..count {
        sum = sum.wrapping_add(holders.glance(&at));
        at.index = at.index.wrapping_add(1);
    }
    sum
}

/// Reads the entries of the outputs that these transactions spend.
fn read_entries(holders: &Holders, txs: &[Tx]) -> u32 {
    let mut sum = 0u32;
    for tx in txs {
        for input in tx.inputs.as_slice() {
            sum = sum.wrapping_add(holders.glance_entry(&input.from));
        }
    }
    sum
}

/// About how many of these outputs hold something: what leads to their entries is read, and then
/// the entries that may be theirs. It is a hint, and takes entries with the tags of others for
/// theirs.
pub(crate) fn count_now(holders: &Holders, changes: &[(OutPoint, Option<&Balances>)]) -> usize {
    let mut lists = 0usize;
    for (at, _) in changes {
        lists = lists.wrapping_add(usize::from(holders.glance(at) != 0));
    }
    let mut entries = 0usize;
    for (at, _) in changes {
        entries = entries.wrapping_add(usize::from(holders.glance_value(at)));
    }
    // where there is no list there is no entry; to ask for both leaves no reading out
    lists.min(entries)
}

/// How many of these outputs held something, for which a little of that is read.
pub(crate) fn count_then(changes: &[(OutPoint, Option<&Balances>)]) -> usize {
    let mut count = 0usize;
    for (_, then) in changes {
        count = count.wrapping_add(usize::from(holds(*then)));
    }
    count
}

/// Whether there are runes.
fn holds(balances: Option<&Balances>) -> bool {
    match balances {
        Some(balances) => !balances.is_empty(),
        None => false,
    }
}
