//! Where a transaction stands.

use ox_block::Txid;
use ox_sat::Profile;

/// A transaction in its block.
#[derive(Clone, Copy, PartialEq, Eq)]
pub struct Spot {
    /// The chain's profile.
    pub profile: Profile,
    /// The block's height.
    pub height: u32,
    /// The transaction's place in the block, counted from 0, which is the coinbase's.
    pub tx: u32,
    /// The transaction's id.
    pub txid: Txid,
}
