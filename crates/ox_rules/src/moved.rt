//! What a block's transactions did with satoshis.

use crate::rows::OutRow;
use ox_block::{Few, Txid};
use ox_bytes::List;
use ox_range::Ranges;

/// The rows that a transaction spent, in order.
pub type SpentRows = Few<OutRow>;

/// The rows that a transaction's outputs displaced, in order.
pub type DisplacedRows = List<OutRow>;

/// What one transaction did.
#[derive(Drop)]
pub struct MovedTx {
    /// The transaction.
    pub txid: Txid,
    /// The rows that it spent, in input order; none for the coinbase.
    pub spent: SpentRows,
    /// Their satoshis, joined in input order; none for the coinbase.
    pub joined: Ranges,
    /// The rows that its outputs displaced, in output order.
    pub displaced: DisplacedRows,
}

/// What transactions did, in block order.
pub type MovedTxs = List<MovedTx>;

/// What a block did with satoshis.
#[derive(Drop)]
pub struct Moved {
    /// What each transaction did, in block order.
    pub txs: MovedTxs,
    /// The satoshis that were lost, in the order in which they were.
    pub lost: Ranges,
}
