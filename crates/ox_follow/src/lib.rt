//! What a leader and a follower tell each other: frames, and the world of the two as definitions
//! and laws.
#![tactic(auto)]

mod frame;
mod front;
mod laws;
mod read;

pub use frame::{Frame, Position};
pub use front::{base_front, have_front, level_front, step_front};
pub use laws::{
    followers_hold_prefixes, followers_never_fall, frames_read_back, longer_fronts_read_alike,
    own_frames_fit, takes_are_judged,
};
pub use read::{BadFrame, read_frame};
