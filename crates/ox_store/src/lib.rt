//! The store: a chain in memory, whose newest blocks can be taken back, and two files that survive
//! a crash: a checkpoint, and records of what each command since then changed.
#![tactic(auto)]

mod fault;
mod grow;
mod migrate;
mod open;
mod parts;
mod pieces;
mod ready;
mod store;
mod turning;
mod writing;

pub use fault::{Kept, MakeFault, MigrateFault, OpenFault};
pub use ox_index::Changes;
pub use ox_model::About;
pub use ox_rules::Why;
pub use ready::{Moving, Ready};
pub use store::Store;
