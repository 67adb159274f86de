//! The unspent outputs in memory (the UTXO set): rows by outpoint, with a mark (a savepoint) to
//! which they can go back.
#![tactic(auto)]

mod ahead;
mod cell;
mod cells;
mod changes;
mod differing;
mod entry;
mod fronted;
mod held;
mod in_order;
mod locator;
mod next;
mod outputs;
mod piece;
mod pieces;
mod places;
mod slot_cell;
mod slot_of;
mod slots;
mod starts;

pub use in_order::InOrder;
pub use outputs::Outputs;
