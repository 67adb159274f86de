//! What is kept of a rune.

use ox_block::Txid;
use ox_runestone::{RuneId, Terms};

/// A rune, as its etching made it, and what became of it since.
#[derive(Clone, Copy, PartialEq, Eq)]
pub struct RuneRow {
    /// The height of the block that etched it and the place of the transaction in that block.
    pub id: RuneId,
    /// The number of its name.
    pub name: u128,
    /// The spacers, below 2^27: bit i for the gap behind the letter at place i.
    pub spacers: u32,
    /// How many decimals an amount has, at most 38.
    pub divisibility: u8,
    /// The currency symbol.
    pub symbol: Option<char>,
    /// What the etching itself gave.
    pub premine: u128,
    /// The terms of minting. Without them nothing is minted.
    pub terms: Option<Terms>,
    /// How many mints there were.
    pub mints: u128,
    /// How much of it was burned.
    pub burned: u128,
    /// The transaction that etched it.
    pub etching: Txid,
}
