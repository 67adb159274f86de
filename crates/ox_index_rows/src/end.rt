//! How a command ends, in a line.

use crate::print::say;
use crate::show::print_tip;
use ox_index::{Live, Why};
use ox_model::Refusal;
use std::alloc::Global;
use std::io;

/// Why a command is refused.
fn print_refusal(rt: &impl Print, alloc: Global, refusal: &Refusal) -> io::Result<()> {
    match refusal.line(alloc) {
        Ok(line) => print!(rt; "{}", str::from_utf8(line.as_slice()).unwrap_or("no text")),
        Err(_) => say(rt, "refused, and no memory to say why"),
    }
}

/// How a command ended: the newest block then, why it is refused, or that memory ran out.
pub fn print_end(
    rt: &impl Print,
    alloc: Global,
    live: &Live,
    fault: Option<Why>,
) -> io::Result<()> {
    match fault {
        None => print_tip(rt, live),
        Some(Why::Refused(refusal)) => print_refusal(rt, alloc, &refusal),
        Some(Why::Memory) => say(rt, "no memory"),
    }
}
