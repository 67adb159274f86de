//! Where a satoshi is.

use ox_block::OutPoint;

/// Where a satoshi is.
#[derive(Clone, Copy, PartialEq, Eq)]
pub enum Place {
    /// In an unspent output.
    Out {
        /// The output.
        outpoint: OutPoint,
        /// How many satoshis of the output stand before it.
        offset: u64,
    },
    /// Among the satoshis that no output holds any more.
    Lost {
        /// How many satoshis were lost before it.
        offset: u64,
    },
}
