//! The commitment to a block's witnesses, in an output of its coinbase (BIP 141, "Commitment
//! structure").

ghost use Rattle.std.specs.Prelude.{◌≡◌, ◌∷◌, [], ◌<◌, ◌≤◌, List, ℕ, length, map, true, false};
ghost use Rattle.std.specs.Prelude.{None, option_copied, IfOk, IfSome, bytes_eq, take, drop};
ghost use Rattle.std.specs.List.{last_or, list_any};
ghost use Rattle.ox_block.specs.Hashes.{txid, wtxid, witness_ids};
ghost use Rattle.ox_block.specs.Coinbase.{is_coinbase};
ghost use Rattle.ox_block.specs.Commitment.{commits as does_commit, commitments, commitments_in};
ghost use Rattle.ox_block.specs.Commitment.{committed as is_committed, committing, item_of_32};
ghost use Rattle.ox_block.specs.Commitment.{reserved_in, some_marked};
ghost use Rattle.ox_block.specs.declared.block.Block.{Block as IsBlock};
ghost use Rattle.ox_block.specs.declared.block.Tx.{Tx as IsTx};

use crate::block::{Block, Tx, TxIn, TxOut};
use crate::hashing::{hash_pair, wtxid_in};
use crate::roots::root_of_row;
use crate::txids::{Txids, txids_of};
use crate::witness::Witness;
use ox_bytes::Memory;
use std::alloc::Global;

/// A script that commits begins so: OP_RETURN, a push of 36 bytes, and the four that are kept for
/// commitments.
const FRONT: [u8; 6] = [0x6a, 0x24, 0xaa, 0x21, 0xa9, 0xed];

/// And it has so many bytes at least: these and a hash.
const LEAST: usize = 38;

/// Whether a script commits to witnesses.
fn commits(script: &[u8]) -> bool
    ensures { result ≡ does_commit script.now }
{
    script.len() >= LEAST && script.starts_with(&FRONT)
}

/// The last script of these outputs that commits to witnesses.
fn last_commitment(outputs: &[TxOut]) -> Option<&[u8]>
    ensures last { option_copied result ≡ last_or None (commitments_in outputs.now) }
    ensures long { IfSome result (λ script. 38 ≤ length script.now) }
{
    let mut last = None;
    for output in outputs {
        let script = output.script.as_slice();
        if commits(script) {
            last = Some(script);
        }
    }
    last
}

/// The one item of a witness stack, where it has 32 bytes.
fn only_item(witness: &Witness) -> Option<[u8; 32]>
    ensures { result ≡ item_of_32 witness.now }
{
    if witness.len() != 1 {
        return None;
    }
    <[u8; 32]>::try_from(witness.get(0)?).ok()
}

/// The reserved value: the one item, of 32 bytes, of the one stack of these inputs.
fn reserved_value(inputs: &[TxIn]) -> Option<[u8; 32]>
    ensures { result ≡ reserved_in inputs.now }
{
    match inputs {
        [input] => only_item(&input.witness),
        _ => None,
    }
}

/// Whether a script that commits does so to this hash.
fn holds_hash(script: &[u8], hash: &[u8; 32]) -> bool
    requires { 38 ≤ length script.now }
    ensures { result ≡ bytes_eq (take 32 (drop 6 script.now)) hash.now }
{
    script[FRONT.len()..LEAST] == hash[..]
}

/// Whether one of these transactions is marked.
fn has_marked(txs: &[Tx]) -> bool
    ensures { result ≡ list_any (λ (tx : IsTx). tx.marked) txs.now }
{
    txs.iter().any(|tx| tx.marked)
}

/// The id over a transaction's whole form, by its id over the stripped one: these are the same
/// where it isn't marked.
#[tactic(auto, unfolding(crate::specs::Hashes::txid, crate::specs::Hashes::wtxid))]
fn whole_id(room: &mut Vec<u8>, tx: &Tx, id: &[u8; 32]) -> Result<[u8; 32], Memory>
    requires { id.now ≡ txid tx.now }
    ensures { IfOk result (λ whole. whole ≡ wtxid tx.now) }
{
    if tx.marked {
        Ok(wtxid_in(room, tx)?.0)
    } else {
        Ok(*id)
    }
}

/// The ids over the whole forms, 32 zero bytes for the first transaction.
fn whole_ids(alloc: Global, txs: &[Tx], ids: &[[u8; 32]]) -> Result<Vec<[u8; 32]>, Memory>
    requires some { 0 < length txs.now }
    requires ids { ids.now ≡ map txid txs.now }
    ensures { IfOk result (λ whole. whole.items ≡ witness_ids txs.now) }
{
    let mut whole = Vec::with_capacity(alloc, txs.len())?;
    let mut form = Vec::new(alloc);
    whole.push([0; 32])?;
    for place in 1..txs.len() {
        whole.push(whole_id(&mut form, &txs[place], &ids[place])?)?;
    }
    Ok(whole)
}

/// Whether a block commits to its witnesses as it has to. An output commits where its script has 38
/// bytes at least and begins with `6a24aa21a9ed`. Where none of the first transaction's outputs
/// does, no transaction may be marked. Else the last that does has, behind these bytes, SHA-256
/// twice over the witness root and the reserved value, which is the one item, of 32 bytes, of the
/// first transaction's one witness stack. These are the ids of the block's transactions, of which
/// there is at least one: only those that are marked are hashed again, and none where the outputs
/// and that stack decide. `Memory` where there is none for the ids over the whole forms.
#[tactic(auto, unfolding(crate::specs::Commitment::committed))]
pub fn committed_by(alloc: Global, block: &Block, ids: &Txids) -> Result<bool, Memory>
    requires some { 0 < length block.now.txs }
    requires ids { ids.now ≡ map txid block.now.txs }
    ensures { IfOk result (λ holds. holds ≡ is_committed block.now) }
{
    let txs = block.txs.as_slice();
    let coinbase = &txs[0];
    let Some(script) = last_commitment(coinbase.outputs.as_slice()) else {
        return Ok(!has_marked(txs));
    };
    let Some(reserved) = reserved_value(coinbase.inputs.as_slice()) else {
        return Ok(false);
    };
    let whole = whole_ids(alloc, txs, ids.as_slice())?;
    let root = root_of_row(alloc, &whole)?;
    Ok(holds_hash(script, &hash_pair(&root, &reserved)))
}

/// Whether a block commits to its witnesses as it has to, as `committed_by` answers it. The block
/// has at least one transaction. `Memory` where there is none for the rows of ids.
pub fn committed(alloc: Global, block: &Block) -> Result<bool, Memory>
    requires { 0 < length block.now.txs }
    ensures { IfOk result (λ holds. holds ≡ is_committed block.now) }
{
    let ids = txids_of(alloc, block)?;
    committed_by(alloc, block, &ids)
}

/// A transaction that isn't marked has one id, over its whole form as over the stripped one.
pub fn unmarked_ids_agree()
    ensures { (tx : IsTx) → tx.marked ≡ false → wtxid tx ≡ txid tx }
{}

/// Any block that begins with a coinbase can be made to commit to its witnesses, by any reserved
/// value: its witness root doesn't depend on the coinbase, so that one gets an output that commits
/// to it behind its own, and the value as its witness.
pub fn made_commitments_hold()
    ensures { (block : IsBlock) (coinbase : IsTx) (others : List IsTx) (value : List ℕ)
        → block.txs ≡ coinbase ∷ others → is_coinbase coinbase ≡ true → length value ≡ 32
        → is_committed (committing value block) ≡ true }
{}

/// A block of which nothing is marked needs no commitment.
pub fn unmarked_blocks_need_none()
    ensures { (block : IsBlock) → some_marked block ≡ false → commitments block.txs ≡ []
        → is_committed block ≡ true }
{}
