//! The chain that the content of a file stands for at version 1: its head, its body and its
//! records, whose commands are carried out again.
#![tactic(auto)]

mod chains;
mod commands;

pub use chains::{ReplayFault, earliest, replay};
