//! Finding the satoshis of a list by place and by number, at the cost of the logarithm of its runs.
#![tactic(auto)]

pub use index::RangeIndex;
pub use ox_bytes::Memory;

mod counts;
mod index;
mod reaches;
