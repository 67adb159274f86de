//! Links over real sockets that never block: two listeners, up to 32 connections, and what still
//! comes on those that were shut.
#![tactic(auto)]

mod door;
mod life;
mod lingering;
mod link;
mod sockets;
mod tally;
mod watch;
mod wires;

pub use sockets::Sockets;
