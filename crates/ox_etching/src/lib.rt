//! Mints and etchings of runes: which mints are open, which names are committed to, and which
//! etchings stand. Nothing here takes memory.
#![tactic(auto)]

mod commitment;
mod etching;
mod laws;
mod minting;
mod row;
mod spot;

pub use commitment::commits;
pub use etching::etched;
pub use laws::mints_are_open;
pub use minting::minted;
pub use row::RuneRow;
pub use spot::Spot;
