//! What runestones read as, and how they are written again.

use crate::print::{NO_ROW, Page, print_line, put_line};
use ox_bytes::Bytes;
use ox_runestone::{Artifact, Edict, decipher, encipher, ids_rise, is_stone};
use std::alloc::Global;

/// Whether the ids of edicts rise once they are turned round. `None` where there is no memory for
/// them.
fn rise_turned(alloc: Global, edicts: &[Edict]) -> Option<bool> {
    let mut turned = Vec::from_slice(alloc, edicts).ok()?;
    turned.reverse();
    Some(ids_rise(&turned))
}

/// A runestone's edicts, and its script.
fn print_written(page: &mut Page, alloc: Global, edicts: &[Edict], script: &[u8]) {
    let turned = rise_turned(alloc, edicts);
    page.flag("  ids rise: ", ids_rise(edicts));
    put_line!(page; ", turned round: {turned:?}");
    print_line(page, script)
}

/// An artifact, and the script of a runestone.
fn print_artifact(page: &mut Page, alloc: Global, artifact: &Artifact, script: &Option<Bytes>) {
    put_line!(page; "{artifact:?}");
    match (artifact, script) {
        (Artifact::Stone(stone), Some(script)) => {
            print_written(page, alloc, stone.edicts.as_slice(), script.as_slice())
        }
        (Artifact::Stone(_), None) => page.say(NO_ROW),
        (Artifact::Cenotaph { .. }, _) => {}
    }
}

/// What a script reads as in a transaction of so many outputs, and how a runestone is written
/// again.
pub fn print_stone(page: &mut Page, alloc: Global, outputs: u32, script: &[u8]) {
    if !is_stone(script) {
        return page.say("no runestone");
    }
    let Ok(artifact) = decipher(alloc, script, outputs) else {
        return page.say(NO_ROW);
    };
    let again = match &artifact {
        Artifact::Stone(stone) => encipher(alloc, stone, outputs).ok(),
        Artifact::Cenotaph { .. } => None,
    };
    print_artifact(page, alloc, &artifact, &again)
}
