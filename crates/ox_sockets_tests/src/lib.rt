//! Tests of links over real sockets: each has clients of its own on loopback, in one thread.
#![tactic(auto)]

#[cfg(test)]
mod links;
