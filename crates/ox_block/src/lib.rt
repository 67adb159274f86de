//! Bitcoin blocks: read from bytes exactly by the grammar, written, and hashed, up to the Merkle
//! root.
#![tactic(auto)]

mod block;
mod commitment;
mod fault;
mod few;
mod hashing;
mod lists;
mod order;
mod read;
mod reading;
mod roots;
mod script;
mod sink;
mod spelling;
mod txids;
mod witness;
mod write;

pub use block::{Block, Header, OutPoint, Tx, TxIn, TxOut, Txid};
pub use commitment::{
    committed, committed_by, made_commitments_hold, unmarked_blocks_need_none, unmarked_ids_agree,
};
pub use fault::BlockFault;
pub use few::Few;
pub use hashing::{hash, txid_of, wtxid_of};
pub use lists::{Inputs, Outs, Txs};
pub use read::{fields_agree_with_reading, read_block};
pub use roots::{root, root_over, witness_root};
pub use script::Script;
pub use txids::{Txids, txids_of};
pub use witness::Witness;
pub use write::{write_block, written_reads_back};
