//! An index as plain data: what is written into a file and read from one. It goes to the other end
//! of a change, of which a test against the index alone says whether it ends or begins there.
#![tactic(auto)]

mod copy;
mod counts;
mod index;
mod laws;
mod lists;
mod row;
mod step;
mod tables;

pub use index::Index;
pub use laws::ends_are_tested;
pub use step::other_end;
pub use tables::has_row;
