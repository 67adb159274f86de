//! A drill: a chain of made blocks, carried out as commands from an empty store on.
#![tactic(auto)]

mod blocks;
mod carry;
mod drill;
mod laws;
mod line;

pub use blocks::{Behind, first_behind, next_block};
pub use drill::drill_store;
pub use laws::{commands_come_in_turn, drills_are_accepted};
