//! Lists of a block's parts.

use crate::block::{Tx, TxIn, TxOut};
use crate::few::Few;
use ox_bytes::List;

/// A transaction's inputs.
pub type Inputs = Few<TxIn>;

/// A transaction's outputs.
pub type Outs = Few<TxOut>;

/// A block's transactions.
pub type Txs = List<Tx>;
