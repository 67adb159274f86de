//! A hash table whose keys are hashes already: by a number of its own a key is led to one of many
//! short lines, and the lines grow in number with the keys. Those that find their line full stand
//! in one ordered map.
#![tactic(auto)]

mod keys;
mod lines;
mod shard;
mod shards;

pub use keys::{Sharded, spread_of, tag_of};
pub use lines::Lines;
pub use shards::Shards;
