//! Which outputs a script has: the outpoints of a table's rows, by script.
#![tactic(auto)]

mod holders;
mod key;

pub use holders::Holders;
