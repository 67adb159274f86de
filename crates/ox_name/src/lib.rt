//! Names of runes, with and without spacers, the least name of a height, commitments to a name, and
//! amounts in decimals.
#![tactic(auto)]

mod amounts;
mod letters;
mod reading;
mod spacers;
mod unlock;

pub use amounts::write_amount;
pub use letters::{names_are_one_to_one, write_name};
pub use reading::{Named, NotName, read_name, reads_back};
pub use spacers::write_spaced;
pub use unlock::{commitment, is_reserved, minimum, minimum_never_rises, reserved_name};
