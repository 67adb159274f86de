//! First-in first-out: a block's satoshis go from the outputs that it spends to those that it
//! makes.
#![tactic(auto)]

mod deal;
mod moving;
mod place;
mod so_far;
mod spend;
mod take;

pub use moving::transfer;
