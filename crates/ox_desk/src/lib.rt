//! What a server answers, and the desk that answers so from a store and the replies that are kept
//! of it.
#![tactic(auto)]

mod addresses;
mod carry;
mod command;
mod desk;
mod held;
mod hits;
mod laws;
mod newest;
mod plain;
mod refused;
mod told;

pub use command::command_of;
pub use desk::StoreDesk;
pub use held::HeldStore;
pub use hits::hits_are_the_same_reply;
pub use laws::{
    doors_answer_alike, kept_blocks_are_asked_of, machines_serve_as_their_stacks,
    nothing_is_left_unsaid, refusals_are_told_alike, replies_are_whole,
};
pub use newest::{Rooms, accepted_reply};
pub use refused::refused_reply;
pub use told::reply_to;
