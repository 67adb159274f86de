//! A runestone, deciphered again and again.

use ox_runestone::{Artifact, decipher, is_stone};
use std::alloc::Global;

/// How many edicts the script's runestone has. `None` where it is malformed, or there is no
/// runestone or no memory.
fn edicts_in(alloc: Global, script: &[u8]) -> Option<usize> {
    if !is_stone(script) {
        return None;
    }
    match decipher(alloc, script, 4).ok()? {
        Artifact::Stone(stone) => Some(stone.edicts.len()),
        Artifact::Cenotaph { .. } => None,
    }
}

/// Deciphers a script so often, and tells how many edicts its runestone has.
pub(crate) fn run(rt: &impl Print, alloc: Global, script: &[u8], times: u32) -> anyhow::Result<()> {
    let mut last = None;
    for _ in 0..times {
        last = edicts_in(alloc, script);
    }
    match last {
        Some(count) => println!(rt; "a runestone with {count} edicts")?,
        None => println!(rt; "no runestone, or a malformed one")?,
    }
    Ok(())
}
