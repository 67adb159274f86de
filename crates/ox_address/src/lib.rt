//! Segwit addresses (BIP 173, BIP 350), written of scripts (BIP 141, "Witness program") and read as
//! scripts, exactly and without memory. Which human-readable part a chain has is the caller's.
#![tactic(auto)]

mod bits;
mod checksum;
mod laws;
mod letters;
mod reading;
mod writing;

pub use laws::{
    address_has_one_case, address_has_one_script, address_is_short, checksum_is_the_only_one,
    spelled_script_has_the_address,
};
pub use reading::{NotAddress, is_hrp, read};
pub use writing::write;
