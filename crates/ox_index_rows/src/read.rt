//! What rows read as, in a line.

use crate::again::{Again, Times, change_again, index_again};
use crate::print::{print_hex, say};
use crate::words::{NO_ROW, bytes_of};
use ox_rows::{RowsFault, read_change, read_index};
use std::alloc::Global;
use std::io;

/// More bytes than these are told by their number alone.
const MOST_SHOWN: usize = 1_000_000;

/// How many bytes were read, and how that is spelled.
fn print_spelled(rt: &impl Print, bytes: &[u8], again: &Again) -> io::Result<()> {
    let spelled = again.spelled.as_slice();
    if spelled.len() > MOST_SHOWN {
        return println!(rt;
            "{} bytes spelled by {}, as they are: {}",
            again.taken,
            spelled.len(),
            bytes.starts_with(spelled)
        );
    }
    print!(rt; "{} bytes ", again.taken)?;
    print_hex(rt, spelled)?;
    say(rt, "")
}

/// What was read and spelled, or why not.
fn print_again(rt: &impl Print, bytes: &[u8], again: Result<Again, RowsFault>) -> io::Result<()> {
    match again {
        Ok(again) => print_spelled(rt, bytes, &again),
        Err(RowsFault::Memory) => say(rt, "no memory"),
        Err(RowsFault::NotRows { at }) => println!(rt; "not rows {at}"),
    }
}

/// Reads an index and spells it, so many times each, and prints what came of it.
pub fn print_index_again(
    rt: &impl Print,
    alloc: Global,
    word: &str,
    times: Times,
) -> io::Result<()> {
    let Some(bytes) = bytes_of(alloc, word) else {
        return say(rt, NO_ROW);
    };
    print_again(rt, &bytes, index_again(alloc, &bytes, times))
}

/// Reads a change and spells it, and prints what came of it.
pub fn print_change_again(rt: &impl Print, alloc: Global, word: &str) -> io::Result<()> {
    let Some(bytes) = bytes_of(alloc, word) else {
        return say(rt, NO_ROW);
    };
    print_again(rt, &bytes, change_again(alloc, &bytes))
}

/// What rows are of.
#[derive(Clone, Copy)]
enum Kind {
    Index,
    Change,
}

/// The kind of a word.
fn kind_of(word: &str) -> Option<Kind> {
    match word {
        "index" => Some(Kind::Index),
        "change" => Some(Kind::Change),
        _ => None,
    }
}

/// A kind's word, and the bytes that the word behind it spells.
fn kind_and_bytes_of(alloc: Global, words: &str) -> Option<(Kind, Vec<u8>)> {
    let (kind, word) = words.split_once(' ')?;
    Some((kind_of(kind)?, bytes_of(alloc, word)?))
}

/// Why no rows are read from bytes, if there are none.
fn fault_in(alloc: Global, kind: Kind, bytes: &[u8]) -> Option<RowsFault> {
    match kind {
        Kind::Index => read_index(alloc, bytes).err(),
        Kind::Change => read_change(alloc, bytes).err(),
    }
}

/// The place of a fault.
fn print_place(rt: &impl Print, fault: Option<RowsFault>) -> io::Result<()> {
    match fault {
        Some(RowsFault::NotRows { at }) => print!(rt; " {at}"),
        Some(RowsFault::Memory) => print!(rt; " memory"),
        None => print!(rt; " none"),
    }
}

/// The place of the fault of each front of the bytes, shorter than they are.
fn print_places(rt: &impl Print, alloc: Global, kind: Kind, bytes: &[u8]) -> io::Result<()> {
    for len in 0..bytes.len() {
        let (front, _) = bytes.split_at(len);
        print_place(rt, fault_in(alloc, kind, front))?;
    }
    say(rt, "")
}

/// Prints the place of the fault of each front of the bytes that are spelled behind their kind.
pub fn print_fronts(rt: &impl Print, alloc: Global, words: &str) -> io::Result<()> {
    match kind_and_bytes_of(alloc, words) {
        Some((kind, bytes)) => print_places(rt, alloc, kind, &bytes),
        None => say(rt, NO_ROW),
    }
}
