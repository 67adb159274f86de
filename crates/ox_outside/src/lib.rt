//! What the program sees of the world outside it: two files, links that come in at two doors,
//! channels of bytes, and what a crash at any moment leaves.
#![tactic(auto)]

mod site;

pub use site::{Doorway, Failed, Heard, Shown, Site, Which};
