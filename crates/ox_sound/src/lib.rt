//! Whether an index as plain data is sound: whether all that holds of the index of every chain
//! holds of it.
#![tactic(auto)]

mod amounts;
mod held;
mod keeps;
mod laws;
mod moved_amounts;
mod moved_places;
mod moved_sats;
mod new_runes;
mod rows;
mod sats;
mod sound;

pub use keeps::keeps_sound;
pub use laws::{kept_rules_leave_sound_indexes, test_is_exact};
pub use sound::is_sound;
