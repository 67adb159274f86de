//! Runestones: from a script to an artifact, and back (Runes specification).
#![tactic(auto)]

mod fields;
mod laws;
mod message;
mod payload;
mod reading;
mod stone;
mod tags;
mod writing;

pub use laws::{cenotaphs_have_causes, integers_are_the_split, supplies_are_amounts};
pub use ox_bytes::Memory;
pub use payload::is_stone;
pub use reading::decipher;
pub use stone::{Artifact, Edict, Edicts, Etching, RuneId, Runestone, Terms};
pub use writing::{encipher, ids_rise};
