//! Satoshis: the numbers that a chain gives them, and the names that people give them.
//!
//! A satoshi's number is its place in the order in which subsidies mint satoshis: the block of
//! height 0 mints 0 to 4,999,999,999, and so on (the "ordinal number" of the BIP draft on ordinal
//! numbers and of the Ordinal Theory Handbook). A profile says how a chain counts; from it come the
//! first number of a height, the height of a number, its degree, its rarity and its name.
//!
//! Nothing here takes memory.
#![tactic(auto)]

mod degrees;
mod heights;
mod names;
mod profiles;
mod spellings;

pub use degrees::{Degree, Rarity, degree_of, rarity_of};
pub use heights::{
    first, first_never_falls, height_of, holds_one_height, subsidy, supply_is_minted,
};
pub use names::{names_are_letters, write_name};
pub use profiles::{Profile, ProfileName, profile_of, profiles_are_told};
pub use spellings::{NotSat, read_number, read_sat, spellings_read_back};
