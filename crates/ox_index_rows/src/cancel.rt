//! Commands of a chain that are cancelled.

ghost use Rattle.std.specs.Prelude.{IsSome};
ghost use Rattle.ox_index.specs.Chain.{earlier_in};

use crate::end::print_end;
use crate::print::say;
use crate::words::bytes_of;
use ox_index::Chain;
use std::alloc::Global;
use std::io;

/// Carries out a command that is spelled so, and cancels it. It says how the command ended, and
/// which block is the newest then.
pub fn carry_out_and_cancel(
    rt: &impl Print,
    alloc: Global,
    chain: &mut Chain,
    words: &str,
) -> io::Result<()> {
    match words.split_once(' ') {
        Some(("block", words)) => match bytes_of(alloc, words) {
            Some(block) => connect_and_cancel(rt, alloc, chain, &block),
            None => say(rt, "no memory"),
        },
        _ => disconnect_and_cancel(rt, alloc, chain),
    }
}

/// Connects a block, and cancels that.
fn connect_and_cancel(
    rt: &impl Print,
    alloc: Global,
    chain: &mut Chain,
    block: &[u8],
) -> io::Result<()> {
    match chain.connect(block) {
        Ok(()) => cancel(rt, alloc, chain),
        Err(fault) => print_end(rt, alloc, chain.live(), Some(fault)),
    }
}

/// Takes the newest block back, and cancels that.
fn disconnect_and_cancel(rt: &impl Print, alloc: Global, chain: &mut Chain) -> io::Result<()> {
    match chain.disconnect() {
        Ok(()) => cancel(rt, alloc, chain),
        Err(fault) => print_end(rt, alloc, chain.live(), Some(fault)),
    }
}

/// Cancels the last command, and says which block was the newest and which one is.
fn cancel(rt: &impl Print, alloc: Global, chain: &mut Chain) -> io::Result<()>
    requires { IsSome (earlier_in chain.old) }
{
    print_end(rt, alloc, chain.live(), None)?;
    chain.cancel();
    print_end(rt, alloc, chain.live(), None)
}
