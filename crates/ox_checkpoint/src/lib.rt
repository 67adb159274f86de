//! The body of a file as bytes: a checkpoint, which is an index and the changes of its newest
//! blocks; and what a file stands for, as plain data (`Standing`) or as a chain.
#![tactic(auto)]

mod coming;
mod laws;
mod leads;
mod put;
mod read;
mod restoring;
mod standing;

pub use coming::BodyFault;
pub use laws::{sound_data_can_be_put, what_is_spelled_stands};
pub use put::{PutFault, put_body};
pub use restoring::{Unjudged, earliest, restore, stand, stand_after};
pub use standing::{Judgement, Standing};
