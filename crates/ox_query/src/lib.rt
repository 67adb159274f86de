//! Replies to queries over any view of an index.
#![tactic(auto)]

mod address;
mod audit;
mod balances;
mod block;
mod bodies;
mod content;
mod ids;
mod inscription;
mod inscription_page;
mod marks;
mod output;
mod pages;
mod parts;
mod replies;
mod rune;
mod rune_named;
mod rune_page;
mod rune_values;
mod sat;
mod status;
mod texts;
mod values;

pub use address::answer_address;
pub use ox_bytes::Memory;
pub use parts::{hash, outpoint};
pub use replies::{answer, answer_by, error_reply};
