//! A feed: the bytes of channel 0, cut into lines, and the commands that lines are.
#![tactic(auto)]

mod command;
mod digits;
mod held;
mod lines;
mod piece;

pub use command::{Command, SyntaxFault, command_of};
pub use lines::{FeedFault, Line, Lines};
