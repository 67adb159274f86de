//! A site in memory: two files on a disk that can fail, tear and crash at any moment, links that
//! wait at two doors, each with a script, and a log of what every channel heard and showed.
#![tactic(auto)]

mod channel;
mod crash;
mod edits;
mod outside;
mod places;
mod replay;
mod said;
mod site;
mod step;

pub use crash::Choice;
pub use said::Said;
pub use site::MemSite;
pub use step::Step;
