//! One event of a server: whose turn it is, one call on the site, and the answers that it brings.
#![tactic(auto)]

mod handler;
mod laws;
mod link;
mod slot;
mod turns;

pub use handler::{Desk, DeskFault, Made};
pub use laws::empty_slots_follow;
pub use turns::{TurnFault, Turns};
