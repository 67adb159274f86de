//! What an audit of an index says.

use ox_bytes::List;
use ox_runestone::RuneId;

/// Where a rune is, and where it came from. What is held and what was burned of it, together, is
/// its premine and what was minted.
#[derive(Clone, Copy, PartialEq, Eq)]
pub struct RuneAudit {
    /// The rune.
    pub id: RuneId,
    /// What its etching gave.
    pub premine: u128,
    /// What its mints gave.
    pub minted: u128,
    /// What outputs hold of it.
    pub held: u128,
    /// What was burned of it.
    pub burned: u128,
}

/// Where all satoshis and all runes of a chain are. What is lost and what outputs hold, together,
/// is what could be claimed.
#[derive(Drop)]
pub struct Audit {
    /// How many satoshis the blocks of the chain could claim.
    pub claimable: u64,
    /// How many are lost.
    pub lost: u64,
    /// How many outputs hold.
    pub outputs: u64,
    /// Each rune, by etching.
    pub runes: List<RuneAudit>,
}
