//! Bitcoin scripts: their items, the kinds of output that the index tells apart, and where a
//! witness has its tapscript. Nothing here takes memory.
#![tactic(auto)]

mod instructions;
mod shape;
mod witness;

pub use instructions::{Instructions, Item, forms_spell_the_script, instructions_of};
pub use shape::{is_return, is_taproot};
pub use witness::tapscript_place;
