//! The real site: the two files of a folder, the program's standard streams, and the links of a
//! server behind two doors.
#![tactic(auto)]

mod doors;
mod files;
mod real;
mod words;

pub use crate::doors::listen;
pub use crate::real::RealSite;
pub use crate::words::{Addresses, addresses_in};
