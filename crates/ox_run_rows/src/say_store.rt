//! What is printed of a store.

use crate::carry::{Moved, Outcome};
use crate::say::{print_hex, print_hex_line, say, sum_of};
use crate::words::NO_ROW;
use ox_bytes::Bytes;
use ox_checkpoint::put_body;
use ox_gated::Halt;
use ox_model::{Place, Refusal, View};
use ox_outside::Which;
use ox_store::{MakeFault, MigrateFault, OpenFault, Store};
use std::alloc::Global;
use std::io;

/// A height and a hash, or that there is no block.
fn print_tip(rt: &impl Print, tip: Option<(u32, [u8; 32])>) -> io::Result<()> {
    match tip {
        Some(newest) => {
            print!(rt; "tip {} ", newest.0)?;
            print_hex_line(rt, &newest.1)
        }
        None => say(rt, "no tip"),
    }
}

/// What a command changes, and the newest block after it.
fn print_moved(rt: &impl Print, moved: &Moved) -> io::Result<()> {
    print!(rt; "{} ", if moved.is_back { "back" } else { "on" })?;
    print_hex(rt, &moved.hash)?;
    print!(rt; ", {} gone, {} came, ", moved.gone, moved.came)?;
    print_tip(rt, moved.tip)
}

/// The line of a refusal.
fn print_refusal(rt: &impl Print, alloc: Global, refusal: &Refusal) -> io::Result<()> {
    match refusal.line(alloc) {
        Ok(line) => print!(rt;
            "{}",
            std::str::from_utf8(line.as_slice()).unwrap_or("no text\n")
        ),
        Err(_) => say(rt, "no memory"),
    }
}

/// What came of a command.
pub fn print_outcome(rt: &impl Print, alloc: Global, outcome: &Outcome) -> io::Result<()> {
    match outcome {
        Outcome::Done(moved) => print_moved(rt, moved),
        Outcome::Failed(moved) => {
            print_moved(rt, moved)?;
            say(rt, "a call failed")
        }
        Outcome::Refused(refusal) => print_refusal(rt, alloc, refusal),
        Outcome::Memory => say(rt, "no memory"),
    }
}

/// The newest block of a store.
fn tip_of(store: &Store) -> Option<(u32, [u8; 32])> {
    let live = store.live();
    let height = live.blocks().checked_sub(1)?;
    let hash = live.hash_of(height)?;
    Some((height, *hash))
}

/// What the body of a file that stands for a store comes to: its whole index and its kept changes.
/// `None` where there is no memory for it.
fn body_sum(alloc: Global, store: &Store) -> Option<u64> {
    let mut body = Bytes::empty(alloc);
    put_body(alloc, &mut body, &mut (), store.live(), store.changes()).ok()?;
    Some(sum_of(body.as_slice()))
}

/// The counts of a store, and what its body comes to.
fn print_counts(rt: &impl Print, store: &Store, body: u64) -> io::Result<()> {
    let about = store.about();
    print!(rt;
        "{} blocks, {} of {} kept, {} changes, {} lost, {} commands, body {body}, ",
        store.live().blocks(),
        about.kept,
        about.depth,
        store.changes().len(),
        store.live().lost(),
        store.commands()
    )
}

/// What a store says of itself.
pub fn print_store(rt: &impl Print, alloc: Global, store: &Store) -> io::Result<()> {
    let Some(body) = body_sum(alloc, store) else {
        return say(rt, NO_ROW);
    };
    print_counts(rt, store, body)?;
    print_tip(rt, tip_of(store))
}

/// Why a call ended before its work was done.
fn print_halt(rt: &impl Print, halt: Halt) -> io::Result<()> {
    match halt {
        Halt::Disk => say(rt, "a call failed"),
        Halt::Memory => say(rt, "no memory"),
    }
}

/// Why files aren't made a store.
pub fn print_unmade(rt: &impl Print, fault: MakeFault) -> io::Result<()> {
    match fault {
        MakeFault::NotEmpty => say(rt, "not empty"),
        MakeFault::Halt(halt) => print_halt(rt, halt),
    }
}

/// Where a file is none of a store.
fn print_not_store(rt: &impl Print, file: Which, at: u64) -> io::Result<()> {
    let name = match file {
        Which::A => "A",
        Which::B => "B",
    };
    println!(rt; "not a store: {name} at {at}")
}

/// Why files aren't opened.
pub fn print_unopened(rt: &impl Print, fault: OpenFault) -> io::Result<()> {
    match fault {
        OpenFault::NotStore { file, at } => print_not_store(rt, file, at),
        OpenFault::Halt(halt) => print_halt(rt, halt),
    }
}

/// How many commands of a store of version 1 were carried out, and what the store says of itself.
pub fn print_migrated(
    rt: &impl Print,
    alloc: Global,
    commands: u64,
    store: &Store,
) -> io::Result<()> {
    println!(rt; "ok {commands}")?;
    print_store(rt, alloc, store)
}

/// Why a store of version 1 isn't migrated.
pub fn print_unmigrated(rt: &impl Print, alloc: Global, fault: &MigrateFault) -> io::Result<()> {
    match fault {
        MigrateFault::NotStore { file, at } => print_not_store(rt, *file, *at),
        MigrateFault::Old { command, refusal } => {
            print!(rt; "old {command} ")?;
            print_refusal(rt, alloc, refusal)
        }
        MigrateFault::Halt(halt) => print_halt(rt, *halt),
    }
}

/// Where a satoshi is.
pub fn print_place(rt: &impl Print, place: Option<Place>) -> io::Result<()> {
    match place {
        Some(Place::Out { outpoint, offset }) => {
            print_hex(rt, &outpoint.txid.0)?;
            println!(rt; ":{} at {offset}", outpoint.index)
        }
        Some(Place::Lost { offset }) => println!(rt; "lost at {offset}"),
        None => say(rt, "nowhere"),
    }
}
