//! What an address holds: how a path names one, and what its outputs hold.
#![tactic(auto)]

mod held;
mod laws;
mod paths;
mod script;
mod sequences;

pub use held::{Held, held_at};
pub use laws::{
    address_replies_are_told, address_trees_are_exact, addresses_take_no_route, outputs_are_found,
    runes_are_joined,
};
pub use ox_bytes::Memory;
pub use paths::{address_part, hrp_in, script_in};
pub use script::SegwitScript;
pub use sequences::next_between;
