//! The index of a chain, as it stands after each block, and back over the newest ones in a
//! reorganisation (reorg).
#![tactic(auto)]

mod admit;
mod audit;
mod chain;
mod changes;
mod lengths;
mod live;
mod parts;

pub use chain::Chain;
pub use changes::Changes;
pub use live::Live;
pub use ox_rules::Why;
