//! What a block is. In contracts it is plain data: byte strings and lists of fields are lists.

use crate::lists::{Inputs, Outs, Txs};
use crate::script::Script;
use crate::witness::Witness;
use ox_bytes::Bytes;
use ox_shards::{Sharded, spread_of, tag_of};

/// What names a transaction: SHA-256 twice over its form without witnesses, in serialized order. It
/// is shown in reversed order. Ids are ordered by their bytes.
#[derive(Clone, Copy, Debug, PartialEq, Eq)]
pub struct Txid(pub [u8; 32]);

/// An output, by the transaction that makes it and its index there. Outpoints are ordered by the
/// serialized bytes of the txid, and then by the index.
#[derive(Clone, Copy, Debug, PartialEq, Eq, PartialOrd, Ord)]
pub struct OutPoint {
    /// The transaction.
    pub txid: Txid,
    /// The index among its outputs.
    pub index: u32,
}

/// By parts of the transaction's id, and the index.
impl Sharded for OutPoint {
    ghost use Rattle.ox_block.specs.Keys.{outpoint_spread, outpoint_tag};
    ghost use Rattle.ox_shards.specs.Laws.{ids_alike, ids_tagged};

    ghost spread = { outpoint_spread };

    fn spread(&self) -> u64 {
        spread_of(&self.txid.0, self.index)
    }

    ghost alike = { λ a b. ids_alike a.txid.0 b.txid.0 a.index b.index };

    ghost tag = { outpoint_tag };

    fn tag(&self) -> u32 {
        tag_of(&self.txid.0, self.index)
    }

    ghost same_tag = { λ a b. ids_tagged a.txid.0 b.txid.0 a.index b.index };
}

/// An input: the output that it spends, and what allows it to.
#[derive(Drop)]
pub struct TxIn {
    /// The output that is spent.
    pub from: OutPoint,
    /// The input's script.
    pub script: Bytes,
    /// The sequence number.
    pub sequence: u32,
    /// The witness stack, empty where there is none.
    pub witness: Witness,
}

/// An output: satoshis, and the script that locks them.
#[derive(Drop)]
pub struct TxOut {
    /// How many satoshis.
    pub value: u64,
    /// The output's script.
    pub script: Script,
}

/// A transaction.
pub struct Tx {
    /// The version.
    pub version: u32,
    /// Whether it is written with marker, flag and witness stacks (BIP 144).
    pub marked: bool,
    /// What it spends.
    pub inputs: Inputs,
    /// What it makes.
    pub outputs: Outs,
    /// The lock time.
    pub lock: u32,
}

/// By hand, so that whoever drops a transaction makes one call, and proves nothing of its fields.
impl Drop for Tx {
    fn drop(self) {
        let Tx {
            version: _version,
            marked: _marked,
            inputs: _inputs,
            outputs: _outputs,
            lock: _lock,
        } = self;
    }
}

/// The 80 bytes of a block's header, field by field. Hashes are in serialized order.
#[derive(Clone, Copy, PartialEq, Eq)]
pub struct Header {
    /// The version.
    pub version: u32,
    /// The hash of the block before.
    pub previous: [u8; 32],
    /// The root of the transactions' ids.
    pub root: [u8; 32],
    /// The time, in seconds since 1970.
    pub time: u32,
    /// The target, in its short form.
    pub bits: u32,
    /// The nonce.
    pub nonce: u32,
}

/// A block: a header and its transactions, the coinbase first.
pub struct Block {
    /// The header.
    pub header: Header,
    /// The transactions, in order.
    pub txs: Txs,
}

/// By hand, as for a transaction.
impl Drop for Block {
    fn drop(self) {
        let Block {
            header: _header,
            txs: _txs,
        } = self;
    }
}
