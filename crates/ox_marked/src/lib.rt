//! A map with a savepoint, the mark: what stood where something was put since is kept in a log, by
//! which the map goes back to it.
#![tactic(auto)]

mod marked;

pub use marked::Marked;
pub use ox_bytes::Memory;
