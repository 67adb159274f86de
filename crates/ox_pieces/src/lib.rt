//! The numbered pieces of a store: a leader hands them out, a follower takes them, and a reader
//! hears the frames in which they come.
#![tactic(auto)]

mod follower;
mod frames;
mod laws;
mod leader;
mod open;
mod taken;
mod writing;

pub use follower::{Follower, NotTaken};
pub use frames::Frames;
pub use laws::{followers_hold_prefixes, frames_come_in_turn, rules_stay};
pub use leader::Leader;
pub use taken::Taken;
