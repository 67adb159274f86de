//! A made block.

ghost use Rattle.std.specs.Prelude.{◌≡◌, ℕ, ◌<◌, ◌^◌, List, ◌∷◌, length, IfOk, Ok};
ghost use Rattle.ox_block.specs.Hashes.{block_witness_root};
ghost use Rattle.ox_block.specs.Reading.{block_of};
ghost use Rattle.ox_block.specs.Spelling.{Lawful, spell};
ghost use Rattle.ox_gen.specs.Made.{bare_header as header_said, coinbase as bare_coinbase};
ghost use Rattle.ox_gen.specs.Made.{made_block, others};

use crate::coinbase::{coinbase, committing_coinbase};
use crate::spend::spend;
use ox_block::{Block, Header, OutPoint, Tx, Txid, Txs, root, witness_root};
use ox_bytes::Memory;
use std::alloc::Global;

/// A header without a root.
fn bare_header(height: u32, tip: &[u8; 32]) -> Header
    ensures { result ≡ header_said height tip.now }
{
    Header {
        version: 1,
        previous: *tip,
        root: [0; 32],
        time: height,
        bits: 0,
        nonce: 0,
    }
}

/// A coinbase, and from height 1 on the transaction that spends the one before.
fn txs_behind(alloc: Global, coinbase: Tx, height: u32, paid: OutPoint) -> Result<Txs, Memory>
    ensures { IfOk result (λ txs. txs ≡ coinbase ∷ others height paid) }
{
    let mut txs = Txs::new(alloc);
    txs.push(coinbase)?;
    if height > 0 {
        txs.push(spend(alloc, height, paid)?)?;
    }
    Ok(txs)
}

/// The witness root of the block of this height, on which its coinbase has no bearing.
fn made_witness_root(
    alloc: Global,
    header: Header,
    height: u32,
    paid: OutPoint,
) -> Result<[u8; 32], Memory>
    ensures { IfOk result (λ root. root ≡ block_witness_root (record {
      header = header;
      txs = bare_coinbase height ∷ others height paid;
    })) }
{
    let txs = txs_behind(alloc, coinbase(alloc, height)?, height, paid)?;
    witness_root(alloc, &Block { header, txs })
}

/// The block of this height behind the block of hash `tip`, whose coinbase has the id `paid`: a
/// coinbase that leaves one satoshi, and from height 1 on a transaction that spends what `paid`
/// claimed, reveals an inscription and carries a runestone. Hashes are in serialized order.
/// `Memory` where there is none.
pub fn block(alloc: Global, height: u32, tip: &[u8; 32], paid: &Txid) -> Result<Block, Memory>
    ensures { IfOk result (λ block. block ≡ made_block height tip.now paid.now.0) }
{
    let from = OutPoint {
        txid: *paid,
        index: 0,
    };
    let header = bare_header(height, tip);
    let witnesses = made_witness_root(alloc, header, height, from)?;
    let coinbase = committing_coinbase(alloc, height, &witnesses)?;
    let txs = txs_behind(alloc, coinbase, height, from)?;
    let mut block = Block { header, txs };
    block.header.root = root(alloc, &block)?;
    Ok(block)
}

/// A made block is lawful, whatever stood before it, where the hash and the id have 32 bytes: so
/// what is written of it is read as that block.
pub fn made_blocks_are_lawful()
    ensures lawful { (height : ℕ) (tip paid : List ℕ) → height < 2 ^ 32 → length tip ≡ 32
        → length paid ≡ 32 → Lawful (made_block height tip paid) }
    ensures read { (height : ℕ) (tip paid : List ℕ) → height < 2 ^ 32 → length tip ≡ 32
        → length paid ≡ 32
        → block_of (spell (made_block height tip paid)) ≡ Ok (made_block height tip paid) }
{}
