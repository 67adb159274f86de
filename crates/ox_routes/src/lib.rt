//! Which route a path takes.
#![tactic(auto)]

mod route;
mod router;

pub use ox_bytes::Memory;
pub use route::Route;
pub use router::{Found, Routes, one_row_takes_a_path};
