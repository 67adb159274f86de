//! The runes of a chain: which there are, and which output holds how much of them.
#![tactic(auto)]

mod ahead;
mod artifact;
mod holders;
mod kept;
mod laws;
mod ledger;
mod list;
mod part;
mod table;
mod tables;

pub use holders::Placement;
pub use laws::{
    parts_lead_both_ways, runes_go_on, runes_stay_balanced, turns_add_mint_and_premine,
};
pub use ledger::Ledger;
pub use list::MarkedList;
pub use ox_bytes::Memory;
pub use part::{CountChange, Counts, RunePart};
