//! Amounts of runes, and how a transaction deals them to its outputs.
#![tactic(auto)]

pub use allocation::{Allocated, allocate};
pub use balances::{Balances, Pool};
pub use laws::{
    edicts_take_what_is_left, edicts_to_all_add_up, nothing_is_lost_or_made, returns_get_nothing,
    splits_are_even,
};
pub use ox_bytes::Memory;

mod allocation;
mod balances;
mod deal;
mod hands;
mod laws;
mod parts;
mod rune_amounts;
mod whole;
