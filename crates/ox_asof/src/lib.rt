//! Replies as of a kept block: a view of an index without its newest blocks, over a view of it as
//! it stands.
#![tactic(auto)]

mod amounts;
mod answer;
mod back;
mod cut;
mod laws;
mod lengths;
mod past;
mod paths;
mod places;
mod recounted;
mod said;
mod told;
mod undone;

pub use answer::{answer_at, get_of};
pub use back::back_to;
pub use laws::{
    commands_name_no_block, hashes_are_read, older_indexes_are_undone, paths_are_cut,
    the_newest_block_is_the_index,
};
pub use past::{Past, past_of};
pub use paths::cut_at;
