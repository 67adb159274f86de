//! The blocks of a made chain: lawful blocks of regtest, each with an inscription and a runestone.
#![tactic(auto)]

mod coinbase;
mod made;
mod parts;
mod spend;

pub use made::{block, made_blocks_are_lawful};
