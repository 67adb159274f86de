//! Inscriptions: what a block reveals, and the rows that are kept of it.
#![tactic(auto)]

pub use laws::{
    each_envelope_reveals_a_row, new_rows_are_on_their_inputs, parents_were_on_the_inputs,
    rows_are_looked_up_exactly, signed_numbers_have_no_gaps, transfers_tell_of_transactions,
};
pub use ox_bytes::Memory;
pub use row::InsRow;
pub use shared::SharedRow;
pub use shelf::Shelf;

mod ahead;
mod cursed_bits;
mod keys;
mod laws;
mod numbers;
mod parents;
mod reveal;
mod row;
mod rows;
mod scene;
mod shared;
mod shelf;
mod sightings;
