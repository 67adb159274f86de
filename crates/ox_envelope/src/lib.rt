//! Inscriptions in a script: the envelopes, what they say, and the ids that they name.
#![tactic(auto)]

mod envelope;
mod id;
mod inscribed;
mod laws;
pub mod mark;
mod payload;
mod search;
mod tag;

pub use envelope::{Envelope, Envelopes};
pub use id::{InsId, read_id, read_id_text, write_id};
pub use inscribed::{Ids, Inscribed, parse};
pub use laws::fields_spell_the_pushes;
pub use ox_bytes::Memory;
pub use search::envelopes_of;
